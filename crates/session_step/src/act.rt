ghost use Rattle.std.specs.Prelude.{◌≡◌, ◌+◌, ◌<◌, ◌≤◌, ◌^◌, ℕ, [], List, Option, Some, None, IfOk, length, map, option_map};
ghost use Rattle.plain_text.specs.Text.{byte_len};
ghost use Rattle.doc_text.specs.Fault.{DocRefuses};
ghost use Rattle.doc_text.specs.Refusal.{DocRefusal};
ghost use Rattle.doc_session.specs.PositionView.{position_view};
ghost use Rattle.doc_session.specs.Step.{EventStep};
ghost use Rattle.entry_lines.specs.Notices.{told_of};
ghost use Rattle.entry_lines.specs.Answer.{accepted, reply_of};
ghost use Rattle.entry_lines.specs.ViewId.{view_id_of};
ghost use Rattle.session_step.specs.Views.{IsOfLine, Stands};
ghost use Rattle.session_step.specs.Views.{AreOfPlugins, AreThere, IsFoundAt, MayBeAsked};
ghost use Rattle.session_step.specs.InnerStep.{IsEdited, IsOutcome, IsSpentOrLack, MayTell, each_step};
ghost use Rattle.session_step.specs.News.{closed_news, edit_news, edited_news, file_news, front_news, open_news, opened_news};
ghost use Rattle.session_step.specs.Session.{OpenView, Session, close_outcome, config_after, edit_came, edit_outcome, front_outcome, keeping, named_view, file_outcome, open_outcome, opening_outcome, outcome, refusing, refusing_view, result_of, save_outcome, saved_outcome, scroll_for, spent_total, stored_outcome, taking};

use crate::after::after_alone;
use crate::given::Given;
use crate::news::{news_of, one};
use crate::opened::{Opened, place_of};
use crate::opened_doc::opened_doc;
use crate::stepped::{Stepped, ToEach};
use crate::terms::Terms;
use doc_session::{Body, Doc, DocFault, Effects, Event};
use entry_lines::{FrontReply, PluginNews, view_id_of};
use plain_text::{List, NoMemory, Text, TryClone};
use std::alloc::Global;
use std::sync::Arc;
use view_update::{Scroll, ViewUpdate};
use xi_plain::{Act, Config, EditAct, Fault};

/// The member of a line that names its view.
pub(crate) const VIEW_MEMBER: &str = "view_id";

/// What an act came to: what it is answered, the views that are open then, what else the front end is told, and what plugins are.
#[derive(Drop)]
pub struct ActEffects {
    pub reply: FrontReply,
    pub held: List<Opened>,
    pub updates: List<ViewUpdate>,
    pub scroll: Option<Scroll>,
    pub news: List<PluginNews>,
}

/// Does what a command asks that was given this, beside the views that are open. `ended` are the plugins whose sessions have ended, `opened`
/// is how many views were opened before, and `config` how texts are laid out and edited from then on.
pub fn act_on(
    alloc: Global,
    held: &[Opened],
    terms: Terms,
    ended: &[u32],
    opened: u64,
    config: Config,
    act: &Act,
    given: Given,
) -> Result<ActEffects, NoMemory>
    requires asked { MayBeAsked held.now }
    requires ended { AreOfPlugins terms.plugins ended.now }
    requires few { opened < 2 ^ 63 }
    requires tab { 0 < config.tab }
    requires limit { terms.limit ≤ 2 ^ 60 }
    requires line { IsOfLine act.now }
    ensures { (session : Session) → AreThere held.now session.views → terms ≡ session.terms → ended.now ≡ session.ended → opened ≡ session.opened
        → config ≡ config_after session.config act.now → IfOk result (IsOutcome (outcome session act.now given) (front_news session act.now given)) }
{
    match act {
        Act::Bad(fault) => refused(alloc, held, fault),
        Act::Nothing => others(alloc, held, FrontReply::Accepted),
        Act::Configure(_) => each(alloc, held, ToEach::Config(config), FrontReply::Accepted),
        Act::NewView { path } => open(alloc, held, terms, ended, opened, config, path, given),
        Act::CloseView { view } => close(alloc, held, view),
        Act::Save { view, path: _ } => save(alloc, held, view, &given),
        Act::Edit { view, act } => edit(alloc, held, view, act),
        Act::Closing => unreachable!(),
        // What plugins ask comes in no line of the front end.
        _ => others(alloc, held, FrontReply::Silent),
    }
}

/// Each view takes its step, answered so, and nothing is scrolled.
fn each(
    alloc: Global,
    held: &[Opened],
    told: ToEach,
    reply: FrontReply,
) -> Result<ActEffects, NoMemory>
    requires asked { MayBeAsked held.now }
    requires may { MayTell told held.now }
    ensures { (views : List OpenView) → Stands held.now views
        → IfOk result (IsOutcome (taking (reply_of reply) None (each_step told) views) []) }
{
    let mut stepped = Stepped::new(alloc);
    stepped.take(alloc, held, told)?;
    Ok(effects_of(stepped, reply, None, List::new(alloc)))
}

/// A line that is none of a document's own: it ends the runs of typing.
fn others(alloc: Global, held: &[Opened], reply: FrontReply) -> Result<ActEffects, NoMemory>
    requires { MayBeAsked held.now }
    ensures { (views : List OpenView) → Stands held.now views
        → IfOk result (IsOutcome (keeping views (reply_of reply)) []) }
{
    each(alloc, held, ToEach::Other, reply)
}

fn effects_of(
    stepped: Stepped,
    reply: FrontReply,
    scroll: Option<Scroll>,
    news: List<PluginNews>,
) -> ActEffects
    ensures { result ≡ record {
      reply = reply;
      held = stepped.held;
      updates = stepped.updates;
      scroll = scroll;
      news = news;
    } }
{
    let Stepped { held, updates } = stepped;
    ActEffects {
        reply,
        held,
        updates,
        scroll,
        news,
    }
}

fn refused(alloc: Global, held: &[Opened], fault: &Fault) -> Result<ActEffects, NoMemory>
    requires { MayBeAsked held.now }
    ensures { (views : List OpenView) → Stands held.now views → IfOk result (IsOutcome (refusing views fault.now) []) }
{
    others(alloc, held, FrontReply::Refused(fault.copy(alloc)?))
}

/// The refusal of a view that is not there.
fn refused_view(alloc: Global, held: &[Opened]) -> Result<ActEffects, NoMemory>
    requires { MayBeAsked held.now }
    ensures { (views : List OpenView) → Stands held.now views → IfOk result (IsOutcome (refusing_view views) []) }
{
    let member = Text::from_ascii(alloc, VIEW_MEMBER)?;
    others(alloc, held, FrontReply::Refused(Fault::BadParams(member)))
}

/// Opens a view behind those that are open, whose runs of typing end: on an empty text, or on what was given of its file.
fn open(
    alloc: Global,
    held: &[Opened],
    terms: Terms,
    ended: &[u32],
    opened: u64,
    config: Config,
    path: &Option<Text>,
    given: Given,
) -> Result<ActEffects, NoMemory>
    requires asked { MayBeAsked held.now }
    requires ended { AreOfPlugins terms.plugins ended.now }
    requires few { opened < 2 ^ 63 }
    requires tab { 0 < config.tab }
    requires limit { terms.limit ≤ 2 ^ 60 }
    ensures { (views : List OpenView) → Stands held.now views
        → IfOk result (IsOutcome (open_outcome terms ended.now config opened views path.now given) (open_news opened path.now given)) }
{
    match path {
        Some(_) => open_file(alloc, held, terms, ended, opened, config, given),
        None => open_text(
            alloc,
            held,
            view_id_of(alloc, opened + 1)?,
            Text::new(alloc),
            terms,
            ended,
            config,
        ),
    }
}

fn open_file(
    alloc: Global,
    held: &[Opened],
    terms: Terms,
    ended: &[u32],
    opened: u64,
    config: Config,
    given: Given,
) -> Result<ActEffects, NoMemory>
    requires asked { MayBeAsked held.now }
    requires ended { AreOfPlugins terms.plugins ended.now }
    requires few { opened < 2 ^ 63 }
    requires tab { 0 < config.tab }
    requires limit { terms.limit ≤ 2 ^ 60 }
    ensures { (views : List OpenView) → Stands held.now views
        → IfOk result (IsOutcome (file_outcome terms ended.now config opened views given) (file_news opened given)) }
{
    match given {
        Given::Found(text) => open_text(
            alloc,
            held,
            view_id_of(alloc, opened + 1)?,
            text,
            terms,
            ended,
            config,
        ),
        Given::NotText => others(alloc, held, FrontReply::NotText),
        Given::Nothing | Given::Failed | Given::Done => others(
            alloc,
            held,
            FrontReply::ShelfFailed,
        ),
    }
}

/// Opens a view with this id on a text.
fn open_text(
    alloc: Global,
    held: &[Opened],
    id: Text,
    text: Text,
    terms: Terms,
    ended: &[u32],
    config: Config,
) -> Result<ActEffects, NoMemory>
    requires asked { MayBeAsked held.now }
    requires ended { AreOfPlugins terms.plugins ended.now }
    requires tab { 0 < config.tab }
    requires limit { terms.limit ≤ 2 ^ 60 }
    ensures { (opened : ℕ) (views : List OpenView) → id ≡ view_id_of (opened + 1) → Stands held.now views
        → IfOk result (IsOutcome (opening_outcome terms ended.now config opened views text) (opened_news opened text)) }
{
    let news = opened_news(alloc, &id, text.byte_len())?;
    let doc = opened_doc(alloc, text, terms, ended, config)?;
    let copy = id.copy(alloc)?;
    let shared = Arc::new(alloc, doc)?;
    let loaded = Opened {
        id: copy,
        doc: shared,
    };
    let mut stepped = Stepped::new(alloc);
    stepped.take(alloc, held, ToEach::Other)?;
    stepped.take_one(alloc, &loaded, ToEach::Other)?;
    drop(loaded);
    Ok(effects_of(stepped, FrontReply::Opened(id), None, news))
}

/// What plugins are told of a view that is opened on so many bytes.
fn opened_news(alloc: Global, id: &Text, len: u64) -> Result<List<PluginNews>, NoMemory>
    ensures { (opened : ℕ) (text : List ℕ) → id.now ≡ view_id_of (opened + 1) → len ≡ byte_len text
        → IfOk result (λ news. map told_of news ≡ opened_news opened text) }
{
    let view = id.copy(alloc)?;
    one(alloc, PluginNews::Opened { view, len })
}

/// Closes a view and its document.
fn close(alloc: Global, held: &[Opened], name: &Text) -> Result<ActEffects, NoMemory>
    requires { MayBeAsked held.now }
    ensures { (views : List OpenView) → AreThere held.now views
        → IfOk result (IsOutcome (close_outcome views (named_view views name.now)) (closed_news (named_view views name.now))) }
{
    match place_of(held, name) {
        Some(at) => close_at(alloc, held, at),
        None => refused_view(alloc, held),
    }
}

/// Closes the view that stands there.
fn close_at(alloc: Global, held: &[Opened], at: usize) -> Result<ActEffects, NoMemory>
    requires asked { MayBeAsked held.now }
    requires inside { at < length held.now }
    ensures { (views : List OpenView) (view : OpenView) → AreThere held.now views → IsFoundAt views at view
        → IfOk result (IsOutcome (close_outcome views (Some view)) (closed_news (Some view))) }
{
    let news = closed_news(alloc, &held[at].id)?;
    let mut stepped = Stepped::new(alloc);
    stepped.take(alloc, &held[..at], ToEach::Other)?;
    stepped.take(alloc, &held[at + 1..], ToEach::Other)?;
    Ok(effects_of(stepped, FrontReply::Accepted, None, news))
}

/// What plugins are told of a view that is closed.
fn closed_news(alloc: Global, id: &Text) -> Result<List<PluginNews>, NoMemory>
    ensures { (view : OpenView) → id.now ≡ view.id → IfOk result (λ news. map told_of news ≡ closed_news (Some view)) }
{
    let view = id.copy(alloc)?;
    one(alloc, PluginNews::Closed { view })
}

/// Saves a view, where its file was written.
fn save(alloc: Global, held: &[Opened], name: &Text, given: &Given) -> Result<ActEffects, NoMemory>
    requires { MayBeAsked held.now }
    ensures { (views : List OpenView) → AreThere held.now views
        → IfOk result (IsOutcome (save_outcome views (named_view views name.now) given.now) []) }
{
    match place_of(held, name) {
        Some(at) => save_at(alloc, held, at, given),
        None => refused_view(alloc, held),
    }
}

/// The same of the view that stands there.
fn save_at(alloc: Global, held: &[Opened], at: usize, given: &Given) -> Result<ActEffects, NoMemory>
    requires asked { MayBeAsked held.now }
    requires inside { at < length held.now }
    ensures { (views : List OpenView) (view : OpenView) → AreThere held.now views → IsFoundAt views at view
        → IfOk result (IsOutcome (stored_outcome views view given.now) []) }
{
    match given {
        Given::Done => saved(alloc, held, at),
        Given::Nothing | Given::Found(_) | Given::NotText | Given::Failed => {
            others(alloc, held, FrontReply::ShelfFailed)
        }
    }
}

/// The view that stands there was saved.
fn saved(alloc: Global, held: &[Opened], at: usize) -> Result<ActEffects, NoMemory>
    requires asked { MayBeAsked held.now }
    requires inside { at < length held.now }
    ensures { (views : List OpenView) (view : OpenView) → AreThere held.now views → IsFoundAt views at view
        → IfOk result (IsOutcome (saved_outcome views view) []) }
{
    match after_alone(alloc, &held[at].doc, Event::Saved) {
        Ok((next, effects)) => edited(alloc, held, at, next, effects),
        Err(_) => Err(NoMemory),
    }
}

fn edit(alloc: Global, held: &[Opened], name: &Text, act: &EditAct) -> Result<ActEffects, NoMemory>
    requires { MayBeAsked held.now }
    ensures { (views : List OpenView) → AreThere held.now views
        → IfOk result (IsOutcome
        (edit_outcome views (named_view views name.now) act.now) (edited_news (named_view views name.now) act.now)) }
{
    match place_of(held, name) {
        Some(at) => edit_at(alloc, held, at, act),
        None => refused_view(alloc, held),
    }
}

/// Edits the view that stands there.
fn edit_at(alloc: Global, held: &[Opened], at: usize, act: &EditAct) -> Result<ActEffects, NoMemory>
    requires asked { MayBeAsked held.now }
    requires inside { at < length held.now }
    ensures { (views : List OpenView) (view : OpenView) → AreThere held.now views → IsFoundAt views at view
        → IfOk result (IsOutcome (front_outcome views view act.now) (edited_news (Some view) act.now)) }
{
    match after_alone(alloc, &held[at].doc, Event::Front(act.copy(alloc)?)) {
        Ok((next, effects)) => edited(alloc, held, at, next, effects),
        Err(fault) => not_edited(alloc, held, fault),
    }
}

/// What the fault of an edit comes to. The front end's edits are against the head, and their deltas fit; it gives no styles.
fn not_edited(alloc: Global, held: &[Opened], fault: DocFault) -> Result<ActEffects, NoMemory>
    requires fault { IsSpentOrLack fault }
    requires asked { MayBeAsked held.now }
    ensures { (views : List OpenView) (view : OpenView) (refusal : Option DocRefusal) (step : EventStep)
        → Stands held.now views → DocRefuses refusal fault
        → IfOk result (IsOutcome (edit_came views view (spent_total refusal) step) (edit_news view (spent_total refusal) step)) }
{
    match fault {
        DocFault::Spent(_) => others(alloc, held, FrontReply::Spent),
        DocFault::NoMemory => Err(NoMemory),
        DocFault::Unknown(_)
        | DocFault::Collected(_)
        | DocFault::Misfit(_)
        | DocFault::BadParams(_) => unreachable!(),
    }
}

/// What an edit of the view that stands there came to, which is answered as its document says.
fn edited(
    alloc: Global,
    held: &[Opened],
    at: usize,
    next: Doc,
    effects: Effects,
) -> Result<ActEffects, NoMemory>
    requires asked { MayBeAsked held.now }
    requires inside { at < length held.now }
    ensures { (views : List OpenView) (view : OpenView) (step : EventStep) → AreThere held.now views
        → IsFoundAt views at view → IsEdited step next effects
        → IfOk result (IsOutcome (edit_came views view None step) (edit_news view None step)) }
{
    let Effects {
        body,
        update,
        scroll,
        notice,
    } = effects;
    let id = &held[at].id;
    let news = news_of(alloc, id, notice)?;
    let mut stepped = Stepped::new(alloc);
    stepped.take(alloc, &held[..at], ToEach::Other)?;
    stepped.push(alloc, id, next, update)?;
    stepped.take(alloc, &held[at + 1..], ToEach::Other)?;
    let scroll = scroll_of(alloc, id, scroll)?;
    Ok(effects_of(stepped, answer_of(body), scroll, news))
}

fn scroll_of(
    alloc: Global,
    id: &Text,
    scroll: Option<(u64, u64)>,
) -> Result<Option<Scroll>, NoMemory>
    ensures { IfOk result (λ place. place ≡ scroll_for id.now (option_map position_view scroll)) }
{
    match scroll {
        Some((line, col)) => {
            let view = id.copy(alloc)?;
            Ok(Some(Scroll { view, line, col }))
        }
        None => Ok(None),
    }
}

fn answer_of(body: Body) -> FrontReply
    ensures { reply_of result ≡ accepted (result_of body) }
{
    match body {
        Body::Copied { text } => FrontReply::Copied(text),
        Body::Null | Body::Edited { .. } | Body::Chunk { .. } | Body::Lines(_) => {
            FrontReply::Accepted
        }
    }
}
