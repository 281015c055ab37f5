ghost use Rattle.std.specs.Prelude.{◌≡◌, ◌<◌, [], length, List, None, Some, IfOk};
ghost use Rattle.entry_lines.specs.Answer.{reply_of};
ghost use Rattle.style_numbers.specs.InMemory.{table_after};
ghost use Rattle.style_numbers.specs.Numbers.{new_styles, spans_with_ids, styles_with};
ghost use Rattle.doc_session.specs.Step.{EventStep};
ghost use Rattle.plugin_wire.specs.FairAsk.{IsFairAsk};
ghost use Rattle.session_step.specs.InnerStep.{IsEdited};
ghost use Rattle.session_step.specs.Views.{AreThere, HaveSessions, IsFoundAt, MayBeAsked, Stands};
ghost use Rattle.session_step.specs.PluginStep.{edit_by, ended_outcome, event_outcome, event_refusal, plugin_outcome, plugin_refusal, step_outcome, styles_after, telling};
ghost use Rattle.session_step.specs.Session.{OpenView, named_view};
ghost use Rattle.session_step.specs.declared.opened.Opened.{Opened as HeldView};
ghost use Rattle.session_step.specs.PluginEffects.{EventMayCome, HasGrown, HasTable, IsActed};

use crate::after::after_alone;
use crate::news::news_of;
use crate::next::NextViews;
use crate::opened::{Opened, place_of};
use crate::refused::{no_view, refused_by, result_of};
use crate::stepped::{Stepped, ToEach, updates_of};
use doc_session::{Doc, Effects, Event};
use entry_lines::{FrontNews, FrontReply, PluginNews, PluginReply};
use plain_edits::{Delta, Spans};
use plain_text::{List, NoMemory, Text, TryClone};
use rev_engine::Edit;
use span_styles::StyleTable;
use std::alloc::Global;
use std::sync::Arc;
use style_numbers::{Numbered, number_spans};
use view_update::{NumberedStyle, ViewUpdate};
use xi_plain::{Act, WireSpan};

/// What an act of a plugin came to.
#[derive(Drop)]
pub enum Acted {
    /// It is refused, and changes nothing.
    Refused(PluginReply),
    Taken(PluginEffects),
}

/// What an act came to that is taken.
#[derive(Drop)]
pub struct PluginEffects {
    /// What the plugin is answered.
    pub reply: PluginReply,
    /// What the front end is told.
    pub front: FrontNews,
    /// The table of styles after it, where one is new.
    pub grown: Option<StyleTable>,
    pub next: NextViews,
    /// What all plugins are told.
    pub news: List<PluginNews>,
}

/// The styles that spans are the first to use, in rising order of their ids, and the table with them, where there are any.
#[derive(Drop)]
struct Fresh {
    styles: List<NumberedStyle>,
    grown: Option<StyleTable>,
}

/// Does what a plugin asks, beside the views that are open and the table of styles. No document is copied but that of the view, whose copy
/// shares what does not change. A refusal costs its line, and a copy of the table where spans have a style that is new.
pub fn plugin_act(
    alloc: Global,
    held: &[Opened],
    table: &StyleTable,
    caller: u32,
    act: &Act,
) -> Result<Acted, NoMemory>
    requires asked { MayBeAsked held.now }
    requires caller { HaveSessions caller held.now }
    requires fair { IsFairAsk act.now }
    ensures acted { (views : List OpenView) → AreThere held.now views → IfOk result
        (IsActed held.now (plugin_refusal views table.now caller act.now) (plugin_outcome views table.now caller act.now)) }
    ensures table { IfOk result (HasTable table.now (styles_after table.now act.now)) }
{
    match act {
        Act::Bad(fault) => Ok(Acted::Refused(PluginReply::Refused(fault.copy(alloc)?))),
        Act::PluginEdit {
            view,
            rev,
            delta,
            priority,
            after_cursor,
            author: _,
            named,
        } => {
            let edit = edit_by(alloc, caller, *rev, delta, *priority, *after_cursor)?;
            let event = Event::Edit {
                caller,
                edit,
                named: *named,
            };
            in_view(alloc, held, view, event)
        }
        Act::GetData {
            view,
            rev,
            start,
            max,
        } => {
            let event = Event::Read {
                caller,
                rev: *rev,
                start: *start,
                max: *max,
            };
            in_view(alloc, held, view, event)
        }
        Act::UpdateSpans {
            view,
            rev,
            start,
            len,
            spans,
        } => {
            let (spans, fresh) = spans_by(alloc, table, spans.as_slice())?;
            let event = Event::Spans {
                caller,
                rev: *rev,
                start: *start,
                len: *len,
                spans,
            };
            in_view_with(alloc, held, view, event, fresh)
        }
        Act::LineCount { view } => in_view(alloc, held, view, Event::Count { caller }),
        Act::Ack { view, rev } => {
            let event = Event::Ack { caller, rev: *rev };
            in_view(alloc, held, view, event)
        }
        Act::Alert { msg } => told(alloc, FrontReply::Alert(msg.copy(alloc)?)),
        Act::Ended => ended(alloc, held, caller),
        // No plugin asks anything else.
        _ => told(alloc, FrontReply::Silent),
    }
}

// An edit as its document is asked it.
fn edit_by(
    alloc: Global,
    caller: u32,
    rev: u64,
    delta: &Delta,
    priority: u32,
    after_cursor: bool,
) -> Result<Edit, NoMemory>
    ensures { IfOk result (λ edit. edit ≡ edit_by caller rev delta.now priority after_cursor) }
{
    Ok(Edit {
        rev,
        delta: delta.copy(alloc)?,
        priority,
        after_cursor,
        author: caller,
        group: 0,
    })
}

// Spans by the ids of their styles.
fn spans_by(
    alloc: Global,
    table: &StyleTable,
    spans: &[WireSpan],
) -> Result<(Spans, Fresh), NoMemory>
    ensures spans { IfOk result (λ made. made.0 ≡ spans_with_ids table.now spans.now) }
    ensures styles { IfOk result (λ made. made.1.styles ≡ new_styles table.now spans.now) }
    ensures table { IfOk result (λ made. table_after table.now made.1.grown ≡ styles_with table.now spans.now) }
{
    let Numbered {
        spans,
        fresh,
        grown,
    } = number_spans(alloc, table, spans)?;
    let fresh = Fresh {
        styles: fresh,
        grown,
    };
    Ok((spans, fresh))
}

// An event in the view of this name that uses no style.
fn in_view(alloc: Global, held: &[Opened], name: &Text, event: Event) -> Result<Acted, NoMemory>
    requires asked { MayBeAsked held.now }
    requires event { EventMayCome event held.now }
    ensures acted { (views : List OpenView) → AreThere held.now views → IfOk result (IsActed held.now
        (event_refusal (named_view views name.now) event) (event_outcome [] views (named_view views name.now) event)) }
    ensures table { IfOk result (HasGrown None) }
{
    let fresh = Fresh {
        styles: List::new(alloc),
        grown: None,
    };
    in_view_with(alloc, held, name, event, fresh)
}

// An event in the view of this name, with the styles that it is the first to use.
fn in_view_with(
    alloc: Global,
    held: &[Opened],
    name: &Text,
    event: Event,
    fresh: Fresh,
) -> Result<Acted, NoMemory>
    requires asked { MayBeAsked held.now }
    requires event { EventMayCome event held.now }
    ensures acted { (views : List OpenView) → AreThere held.now views → IfOk result (IsActed held.now
        (event_refusal (named_view views name.now) event) (event_outcome fresh.styles views (named_view views name.now) event)) }
    ensures table { IfOk result (HasGrown fresh.grown) }
{
    match place_of(held, name) {
        Some(at) => at_view(alloc, held, at, event, fresh),
        None => Ok(Acted::Refused(no_view(alloc)?)),
    }
}

// The same in the view that stands there.
fn at_view(
    alloc: Global,
    held: &[Opened],
    at: usize,
    event: Event,
    fresh: Fresh,
) -> Result<Acted, NoMemory>
    requires asked { MayBeAsked held.now }
    requires event { EventMayCome event held.now }
    requires inside { at < length held.now }
    ensures acted { (views : List OpenView) (view : OpenView) → AreThere held.now views → IsFoundAt views at view → IfOk result
        (IsActed held.now (event_refusal (Some view) event) (event_outcome fresh.styles views (Some view) event)) }
    ensures table { IfOk result (HasGrown fresh.grown) }
{
    match after_alone(alloc, &held[at].doc, event) {
        Ok((next, effects)) => stepped(alloc, held, at, next, effects, fresh),
        Err(fault) => Ok(Acted::Refused(refused_by(alloc, fault)?)),
    }
}

// What an event of the view that stands there came to.
fn stepped(
    alloc: Global,
    held: &[Opened],
    at: usize,
    next: Doc,
    effects: Effects,
    fresh: Fresh,
) -> Result<Acted, NoMemory>
    requires inside { at < length held.now }
    ensures acted { (views : List OpenView) (view : OpenView) (step : EventStep) → AreThere held.now views → IsFoundAt views at view
        → IsEdited step next effects → IfOk result (IsActed held.now None (step_outcome fresh.styles views view step)) }
    ensures table { IfOk result (HasGrown fresh.grown) }
{
    let Effects {
        body,
        update,
        scroll: _,
        notice,
    } = effects;
    let Fresh { styles, grown } = fresh;
    let id = &held[at].id;
    let updates = updates_of(alloc, id, update)?;
    let news = news_of(alloc, id, notice)?;
    let copy = id.copy(alloc)?;
    let shared = Arc::new(alloc, next)?;
    let opened = Opened {
        id: copy,
        doc: shared,
    };
    let next = NextViews::One { at, opened };
    Ok(taken(
        result_of(body),
        front_told(FrontReply::Silent, styles, updates),
        grown,
        next,
        news,
    ))
}

fn taken(
    reply: PluginReply,
    front: FrontNews,
    grown: Option<StyleTable>,
    next: NextViews,
    news: List<PluginNews>,
) -> Acted
    ensures { result ≡ Acted.Taken (record { reply = reply; front = front; grown = grown; next = next; news = news }) }
{
    Acted::Taken(PluginEffects {
        reply,
        front,
        grown,
        next,
        news,
    })
}

// What the front end is told where nothing is scrolled.
fn front_told(
    reply: FrontReply,
    styles: List<NumberedStyle>,
    updates: List<ViewUpdate>,
) -> FrontNews
    ensures { result ≡ record { reply = reply; styles = styles; updates = updates; scroll = None } }
{
    FrontNews {
        reply,
        styles,
        updates,
        scroll: None,
    }
}

// No view takes a step, and the front end is told this.
fn told(alloc: Global, reply: FrontReply) -> Result<Acted, NoMemory>
    ensures acted { (held : List HeldView) (views : List OpenView) → Stands held views
        → IfOk result (IsActed held None (telling views (reply_of reply))) }
    ensures table { IfOk result (HasGrown None) }
{
    Ok(taken(
        PluginReply::Null,
        front_told(reply, List::new(alloc), List::new(alloc)),
        None,
        NextViews::Same,
        List::new(alloc),
    ))
}

// The session of a plugin ends in each document.
fn ended(alloc: Global, held: &[Opened], caller: u32) -> Result<Acted, NoMemory>
    requires asked { MayBeAsked held.now }
    requires caller { HaveSessions caller held.now }
    ensures acted { (views : List OpenView) → Stands held.now views → IfOk result (IsActed held.now None (ended_outcome caller views)) }
    ensures table { IfOk result (HasGrown None) }
{
    let mut stepped = Stepped::new(alloc);
    stepped.take(alloc, held, ToEach::Ended(caller))?;
    let Stepped { held, updates } = stepped;
    Ok(taken(
        PluginReply::Null,
        front_told(FrontReply::Silent, List::new(alloc), updates),
        None,
        NextViews::All(held),
        List::new(alloc),
    ))
}
