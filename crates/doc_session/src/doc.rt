ghost use Rattle.std.specs.Prelude.{◌≡◌, ◌≢◌, ◌+◌, ◌-◌, ◌^◌, ◌<◌, ◌≤◌, ℕ, [], length, Some, None, IfOk, IfErr, OnOk, OnErr, unwrap_or, IfSome, IsTrue, Option};
ghost use Rattle.plain_edits.specs.Collection.{kept};
ghost use Rattle.plain_edits.specs.History.{head};
ghost use Rattle.line_index.specs.Index.{touched_lines};
ghost use Rattle.edit_ops.specs.Commands.{IsDoneOnText, IsEffect};
ghost use Rattle.selection_core.specs.Mapped.{AreWithin};
ghost use Rattle.selection_core.specs.Selection.{IsSelection};
ghost use Rattle.span_styles.specs.Layers.{AreOver, mapped_layers};
ghost use Rattle.doc_layout.specs.Changed.{IsChangeOf};
ghost use Rattle.undo_groups.specs.Groups.{Groups, next_redo, next_undo, redone_one, undone_one};
ghost use Rattle.doc_text.specs.Asking.{acknowledgement_refusal, asked_refusal, plugin_edit};
ghost use Rattle.doc_text.specs.Collecting.{acknowledged_text, ended_text};
ghost use Rattle.doc_text.specs.Fault.{DocRefuses};
ghost use Rattle.doc_text.specs.InMemory.{text_in};
ghost use Rattle.doc_text.specs.Refusal.{edit_refused};
ghost use Rattle.doc_text.specs.Revised.{IsRevised, IsRevisionOf, IsTurnOf};
ghost use Rattle.doc_text.specs.Stands.{IsTextOf};
ghost use Rattle.doc_text.specs.Writing.{Writing, head_text};
ghost use Rattle.doc_view.specs.Front.{KeepsFront};
ghost use Rattle.doc_view.specs.Looking.{MayView, is_scrolling, viewing_of, viewing_ticks};
ghost use Rattle.doc_view.specs.Told.{IsKeptLeftOf, IsTextLeft, settled_view, told};
ghost use Rattle.doc_session.specs.Asking.{front_edit};
ghost use Rattle.doc_session.specs.declared.event.Event.TheVariants.{Other};
ghost use Rattle.doc_session.specs.Document.{Document, layout_of, loaded_document};
ghost use Rattle.doc_session.specs.InMemory.{is_resting};
ghost use Rattle.doc_session.specs.Inner.{IsCountedBy, IsStepOf, IsStepped, IsUncollected, IsUntold, pristine_to};
ghost use Rattle.doc_session.specs.ScreenOf.{IsShownAfter};
ghost use Rattle.doc_session.specs.Stands.{DocStandsFor};
ghost use Rattle.doc_session.specs.Ticks.{revision_ticks, step_ticks, ticks_at};
ghost use Rattle.doc_session.specs.Whole.{IsKept};
ghost use Rattle.doc_session.specs.Step.{AreEffectsOf, IsEventFor, act_step, answer_to, answered_step, collected_document, command_refusal, command_step, done_step, effect_in, effect_on, event_step, history_step, no_edit_step, plugin_step, refusal_at, revised_document, revision_step, saved_step, scroll_if, silent_step, step_to, taken_step, typed_step, viewing_step, with_text};

use crate::event::{Body, Effects, Event};
use crate::said::Said;
use doc_text::{DocFault, Revised, TextState};
use doc_view::{
    Goals, NO_REQUEST, Pristine, Scrolling, TextLeft, ViewState, Viewing, copies, does_nothing,
    kept_front, scrolls, scrolls_at, viewed_lines, viewing_of,
};
use edit_groups::kind_of;
use plain_edits::UnitDelta;
use plain_screen::Update;
use plain_text::{NoMemory, Run, Sel, Steps, Text};
use rev_engine::Edit;
use stale_spans::AskedSpans;
use std::alloc::Global;
use std::marker::Model;
use std::sync::ledger::Ledger;
use xi_plain::{Config, EditAct};

/// The lines that a view shows when it is opened.
const FIRST_WINDOW: Run = Run { start: 0, end: 10 };

/// A document with one view.
#[derive(Drop)]
pub struct Doc {
    /// The text with all its revisions, which copies share.
    pub(crate) text: TextState,
    /// The view on the head text.
    pub(crate) view: ViewState,
}

impl Model for Doc {
    ghost use Rattle.doc_session.specs.InMemory.{Doc};

    ghost Value = { Doc };

    ghost use Rattle.doc_session.specs.Whole.{IsKept};

    ghost view = { λ d. record { text = d.text; view = d.view } };

    ghost invariant = { λ d. IsKept (record { text = d.text; view = d.view }) };
}

impl Doc {
    /// The document of a text that was just loaded, in its time, before its front end is told of it. `plugins` is how many plugins
    /// there are, and `limit` the most characters that may be inserted from now on.
    pub fn of_text(
        alloc: Global,
        text: Text,
        plugins: u32,
        limit: u64,
        config: Config,
    ) -> Result<Doc, NoMemory>
        requires limit { limit ≤ 2 ^ 60 }
        requires tab { 0 < config.tab }
        ensures stands { IfOk result (λ made. DocStandsFor made (loaded_document text plugins limit config)) }
    {
        let text = TextState::of_text(alloc, text, plugins, limit)?;
        let view = ViewState::of_text(alloc, text.head_rope(), plugins, FIRST_WINDOW, config)?;
        Ok(Doc { text, view })
    }

    /// The document after an event, beside this one, and what those outside are told of it. An edit costs its elements, each times the
    /// height of the text, and the lines that it touches, whose breaks are made anew where lines are wrapped; one against an old revision costs
    /// the union and the runs of the later revisions besides; an undo or a redo what `Engine::set_undone_by` does; and a command what
    /// `edit_ops::edit_of` does. Another width or tab width costs the breaks of each logical line. A search walks the text,
    /// and an edit while something is looked for searches round what it touches. Beside that an event costs the regions, and the lines that are
    /// told; and what `ViewState::settled` does to find whether the layout is another. A reading costs what `TextState::chunk` does, and a count
    /// O(1). A logical line that is broken anew is a step.
    pub fn after<L: Ledger>(
        &self,
        alloc: Global,
        event: Event,
        steps: &mut Steps<L>,
    ) -> Result<(Doc, Effects), DocFault>
        requires event { IsEventFor (length self.now.text.sessions) event }
        requires has_number { head self.now.text.engine.revisions < 2 ^ 63 - 1 }
        ensures stands { (plain : Document) → DocStandsFor self.now plain
            → IfOk result (λ made. DocStandsFor made.0 (event_step plain event).document) }
        ensures effects { (plain : Document) → DocStandsFor self.now plain
            → IfOk result (λ made. AreEffectsOf (event_step plain event) made.1) }
        ensures accepted { (plain : Document) → DocStandsFor self.now plain → OnOk result (refusal_at plain event ≡ None) }
        ensures refused { (plain : Document) → DocStandsFor self.now plain
            → IfErr result (DocRefuses (refusal_at plain event)) }
        ensures shown { (plain : Document) → DocStandsFor self.now plain → IsShownAfter plain event }
        ensures kept { IfOk result (λ made. length made.0.text.sessions ≡ length self.now.text.sessions) }
        ensures steps { IsCountedBy self.now (λ plain. ticks_at plain event) steps.old steps.new }
    {
        let (next, effects) = self.next(alloc, event, steps)?;
        let collected = next.collected(alloc)?;
        Ok((collected.unwrap_or(next), effects))
    }

    /// The same, in place of this document: it is put there last, so after an `Err` the document is as before, for want of memory too.
    pub fn apply<L: Ledger>(
        &mut self,
        alloc: Global,
        event: Event,
        steps: &mut Steps<L>,
    ) -> Result<Effects, DocFault>
        requires event { IsEventFor (length self.old.text.sessions) event }
        requires has_number { head self.old.text.engine.revisions < 2 ^ 63 - 1 }
        ensures stands { (plain : Document) → DocStandsFor self.old plain
            → OnOk result (DocStandsFor self.new (event_step plain event).document) }
        ensures effects { (plain : Document) → DocStandsFor self.old plain
            → IfOk result (AreEffectsOf (event_step plain event)) }
        ensures accepted { (plain : Document) → DocStandsFor self.old plain → OnOk result (refusal_at plain event ≡ None) }
        ensures refused { (plain : Document) → DocStandsFor self.old plain
            → IfErr result (DocRefuses (refusal_at plain event)) }
        ensures shown { (plain : Document) → DocStandsFor self.old plain → IsShownAfter plain event }
        ensures same { OnErr result (self.new ≡ self.old) }
        ensures kept { length self.new.text.sessions ≡ length self.old.text.sessions }
        ensures steps { IsCountedBy self.old (λ plain. ticks_at plain event) steps.old steps.new }
    {
        let (next, effects) = self.after(alloc, event, steps)?;
        *self = next;
        Ok(effects)
    }

    // The document after an event, before anything is collected, and what those outside are told of it.
    fn next<L: Ledger>(
        &self,
        alloc: Global,
        event: Event,
        steps: &mut Steps<L>,
    ) -> Result<(Doc, Effects), DocFault>
        requires event { IsEventFor (length self.now.text.sessions) event }
        requires has_number { head self.now.text.engine.revisions < 2 ^ 63 - 1 }
        ensures stepped { IsStepOf self.now (λ plain. taken_step plain event) result }
        ensures accepted { (plain : Document) → DocStandsFor self.now plain → OnOk result (refusal_at plain event ≡ None) }
        ensures refused { (plain : Document) → DocStandsFor self.now plain
            → IfErr result (DocRefuses (refusal_at plain event)) }
        ensures plugins { IfOk result (λ made. length made.0.text.sessions ≡ length self.now.text.sessions) }
        ensures steps { IsCountedBy self.now (λ plain. ticks_at plain event) steps.old steps.new }
    {
        match event {
            Event::Front(act) => self.act(alloc, act, steps),
            Event::Edit {
                caller,
                edit,
                named,
            } => self.edit(alloc, caller, edit, named, steps),
            Event::Spans {
                caller,
                rev,
                start,
                len,
                spans,
            } => {
                let asked = AskedSpans {
                    rev,
                    start,
                    len,
                    spans,
                };
                self.styled(alloc, caller, &asked)
            }
            Event::Read {
                caller: _,
                rev,
                start,
                max,
            } => self.read(alloc, rev, start, max),
            Event::Count { caller: _ } => Ok(self.count(alloc)?),
            Event::Ack { caller, rev } => self.acknowledge(alloc, caller, rev),
            Event::Ended { caller } => Ok(self.end_session(alloc, caller)?),
            Event::Config(config) => Ok(self.view_only(alloc, Viewing::Layout(config), steps)?),
            Event::Saved => Ok(self.save(alloc)?),
            Event::Other => Ok(self.view_only(alloc, Viewing::Other, steps)?),
        }
    }

    // The document after a line that leaves the text as it is; the front end is told what it lacks.
    fn view_only<L: Ledger>(
        &self,
        alloc: Global,
        viewing: Viewing,
        steps: &mut Steps<L>,
    ) -> Result<(Doc, Effects), NoMemory>
        requires { MayView viewing }
        ensures stepped { IsStepOf self.now (λ plain. viewing_step plain viewing) result }
        ensures sessions { IfOk result (λ made. made.0.text.sessions ≡ self.now.text.sessions) }
        ensures steps { IsCountedBy self.now (λ plain. viewing_ticks plain.view viewing) steps.old steps.new }
    {
        let request = viewed_lines(&viewing);
        let scrolling = scrolls_at(&viewing);
        let view = self.view.viewed(alloc, viewing, steps)?;
        let text = self.text.with_run(alloc, None)?;
        let next = document_of(text, view);
        let said = Said {
            text: TextLeft::Same,
            request,
            body: Body::Null,
            scrolling,
            notice: None,
        };
        self.told(alloc, next, said)
    }

    fn act<L: Ledger>(
        &self,
        alloc: Global,
        act: EditAct,
        steps: &mut Steps<L>,
    ) -> Result<(Doc, Effects), DocFault>
        requires { head self.now.text.engine.revisions < 2 ^ 63 - 1 }
        ensures stepped { IsStepOf self.now (λ plain. act_step plain act) result }
        ensures accepted { (plain : Document) → DocStandsFor self.now plain
            → OnOk result (command_refusal plain (effect_on plain act) ≡ None) }
        ensures refused { (plain : Document) → DocStandsFor self.now plain
            → IfErr result (DocRefuses (edit_refused (command_refusal plain (effect_on plain act)))) }
        ensures sessions { IfOk result (λ made. made.0.text.sessions ≡ self.now.text.sessions) }
        ensures steps { IsCountedBy self.now (λ plain. step_ticks plain (act_step plain act)) steps.old steps.new }
    {
        match viewing_of(act) {
            Ok(viewing) => Ok(self.view_only(alloc, viewing, steps)?),
            Err(act) => self.done(alloc, act, steps),
        }
    }

    // A command that does more than look.
    fn done<L: Ledger>(
        &self,
        alloc: Global,
        act: EditAct,
        steps: &mut Steps<L>,
    ) -> Result<(Doc, Effects), DocFault>
        requires act { viewing_of act ≡ None }
        requires has_number { head self.now.text.engine.revisions < 2 ^ 63 - 1 }
        ensures stepped { IsStepOf self.now (λ plain. done_step plain act) result }
        ensures accepted { (plain : Document) → DocStandsFor self.now plain
            → OnOk result (command_refusal plain (effect_on plain act) ≡ None) }
        ensures refused { (plain : Document) → DocStandsFor self.now plain
            → IfErr result (DocRefuses (edit_refused (command_refusal plain (effect_on plain act)))) }
        ensures sessions { IfOk result (λ made. made.0.text.sessions ≡ self.now.text.sessions) }
        ensures steps { IsCountedBy self.now (λ plain. step_ticks plain (done_step plain act)) steps.old steps.new }
    {
        match act {
            EditAct::Undo => Ok(self.undo(alloc, steps)?),
            EditAct::Redo => Ok(self.redo(alloc, steps)?),
            act => self.command(alloc, &act, steps),
        }
    }

    fn command<L: Ledger>(
        &self,
        alloc: Global,
        act: &EditAct,
        steps: &mut Steps<L>,
    ) -> Result<(Doc, Effects), DocFault>
        requires act { IsDoneOnText act.now }
        requires has_number { head self.now.text.engine.revisions < 2 ^ 63 - 1 }
        ensures stepped { IsStepOf self.now (λ plain. command_step plain act.now (effect_on plain act.now)) result }
        ensures accepted { (plain : Document) → DocStandsFor self.now plain
            → OnOk result (command_refusal plain (effect_on plain act.now) ≡ None) }
        ensures refused { (plain : Document) → DocStandsFor self.now plain
            → IfErr result (DocRefuses (edit_refused (command_refusal plain (effect_on plain act.now)))) }
        ensures sessions { IfOk result (λ made. made.0.text.sessions ≡ self.now.text.sessions) }
        ensures steps { IsCountedBy self.now
            (λ plain. step_ticks plain (command_step plain act.now (effect_on plain act.now))) steps.old steps.new }
    {
        let (units, sel) = self.view.effect(alloc, act)?;
        if does_nothing(&units) {
            return Ok(self.no_edit(alloc, act, sel)?);
        }
        self.typed(alloc, act, units, sel, steps)
    }

    // A command that edits nothing left the regions so.
    fn no_edit(&self, alloc: Global, act: &EditAct, sel: Sel) -> Result<(Doc, Effects), NoMemory>
        requires regions { sel.regions ≡ (effect_in self.now.view act.now).regions }
        requires sound { IsSelection sel.regions }
        requires inside { AreWithin (length self.now.view.text) sel.regions }
        ensures stepped { IsStepOf self.now (λ plain. no_edit_step plain act.now (effect_on plain act.now)) result }
        ensures sessions { IfOk result (λ made. made.0.text.sessions ≡ self.now.text.sessions) }
    {
        let body = self.answer(alloc, act)?;
        let view = self.view.with_regions(alloc, sel)?;
        let text = self.text.with_run(alloc, kind_of(act))?;
        let next = document_of(text, view);
        let said = Said {
            text: TextLeft::Same,
            request: NO_REQUEST,
            body,
            scrolling: scrolls(act),
            notice: None,
        };
        self.told(alloc, next, said)
    }

    // A command is this edit, and leaves the regions so.
    fn typed<L: Ledger>(
        &self,
        alloc: Global,
        act: &EditAct,
        units: UnitDelta,
        sel: Sel,
        steps: &mut Steps<L>,
    ) -> Result<(Doc, Effects), DocFault>
        requires effect { IsEffect self.now.view.text (effect_in self.now.view act.now) units sel.regions }
        requires has_number { head self.now.text.engine.revisions < 2 ^ 63 - 1 }
        ensures stepped { IsStepOf self.now (λ plain. typed_step plain act.now (effect_on plain act.now)) result }
        ensures accepted { (plain : Document) → DocStandsFor self.now plain
            → OnOk result (asked_refusal plain.text (front_edit plain None (effect_on plain act.now).replacements) ≡ None) }
        ensures refused { (plain : Document) → DocStandsFor self.now plain
            → IfErr result (DocRefuses (edit_refused
            (asked_refusal plain.text (front_edit plain None (effect_on plain act.now).replacements)))) }
        ensures sessions { IfOk result (λ made. made.0.text.sessions ≡ self.now.text.sessions) }
        ensures steps { IsCountedBy self.now
            (λ plain. step_ticks plain (typed_step plain act.now (effect_on plain act.now))) steps.old steps.new }
    {
        let revised = self.text.type_units(alloc, kind_of(act), units)?;
        let body = self.answer(alloc, act)?;
        Ok(self.revise(alloc, revised, sel, body, scrolls(act), steps)?)
    }

    fn answer(&self, alloc: Global, act: &EditAct) -> Result<Body, NoMemory>
        ensures { (plain : Document) → DocStandsFor self.now plain → IfOk result (λ body. body ≡ answer_to plain act.now) }
    {
        if !copies(act) {
            return Ok(Body::Null);
        }
        let text = self.view.copied(alloc)?;
        Ok(Body::Copied { text })
    }

    // The newest live group that is not undone is undone.
    fn undo<L: Ledger>(
        &self,
        alloc: Global,
        steps: &mut Steps<L>,
    ) -> Result<(Doc, Effects), NoMemory>
        requires { head self.now.text.engine.revisions < 2 ^ 63 - 1 }
        ensures stepped { IsStepOf self.now
            (λ plain. history_step plain (next_undo plain.text.groups) (undone_one plain.text.groups)) result }
        ensures sessions { IfOk result (λ made. made.0.text.sessions ≡ self.now.text.sessions) }
        ensures steps { IsCountedBy self.now
            (λ plain. step_ticks plain (history_step plain (next_undo plain.text.groups) (undone_one plain.text.groups)))
            steps.old steps.new }
    {
        let revised = self.text.undo_group(alloc)?;
        self.turn(alloc, revised, steps)
    }

    // The last undo is taken back.
    fn redo<L: Ledger>(
        &self,
        alloc: Global,
        steps: &mut Steps<L>,
    ) -> Result<(Doc, Effects), NoMemory>
        requires { head self.now.text.engine.revisions < 2 ^ 63 - 1 }
        ensures stepped { IsStepOf self.now
            (λ plain. history_step plain (next_redo plain.text.groups) (redone_one plain.text.groups)) result }
        ensures sessions { IfOk result (λ made. made.0.text.sessions ≡ self.now.text.sessions) }
        ensures steps { IsCountedBy self.now
            (λ plain. step_ticks plain (history_step plain (next_redo plain.text.groups) (redone_one plain.text.groups)))
            steps.old steps.new }
    {
        let revised = self.text.redo_group(alloc)?;
        self.turn(alloc, revised, steps)
    }

    // An undo or a redo made this of the text, or there was none.
    fn turn<L: Ledger>(
        &self,
        alloc: Global,
        revised: Option<Revised>,
        steps: &mut Steps<L>,
    ) -> Result<(Doc, Effects), NoMemory>
        requires { IfSome revised (IsRevisionOf self.now.text) }
        ensures stepped { (plain : Document) (group : Option ℕ) (groups : Groups) → DocStandsFor self.now plain
            → IsTurnOf plain.text group groups revised → IfOk result (IsStepped (history_step plain group groups)) }
        ensures sessions { IfOk result (λ made. made.0.text.sessions ≡ self.now.text.sessions) }
        ensures steps { (plain : Document) (group : Option ℕ) (groups : Groups) → DocStandsFor self.now plain
            → IsTurnOf plain.text group groups revised → steps.new ≤ steps.old + step_ticks plain (history_step plain group groups) }
    {
        match revised {
            Some(revised) => self.turn_group(alloc, revised, steps),
            None => self.view_only(alloc, Viewing::Other, steps),
        }
    }

    // A group is undone or given back.
    fn turn_group<L: Ledger>(
        &self,
        alloc: Global,
        revised: Revised,
        steps: &mut Steps<L>,
    ) -> Result<(Doc, Effects), NoMemory>
        requires { IsRevisionOf self.now.text revised }
        ensures stepped { (plain : Document) (group : ℕ) (groups : Groups) → DocStandsFor self.now plain
            → IsTurnOf plain.text (Some group) groups (Some revised)
            → IfOk result (IsStepped (history_step plain (Some group) groups)) }
        ensures sessions { IfOk result (λ made. made.0.text.sessions ≡ self.now.text.sessions) }
        ensures steps { (plain : Document) (group : ℕ) (groups : Groups) → DocStandsFor self.now plain
            → IsTurnOf plain.text (Some group) groups (Some revised)
            → steps.new ≤ steps.old + step_ticks plain (history_step plain (Some group) groups) }
    {
        let sel = self
            .view
            .moved(alloc, &revised.units, false, Goals::Cleared)?;
        self.revise(alloc, revised, sel, Body::Null, Scrolling::ToCaret, steps)
    }

    // A plugin edits the text, in the group that it names or in the next.
    fn edit<L: Ledger>(
        &self,
        alloc: Global,
        caller: u32,
        edit: Edit,
        named: Option<u64>,
        steps: &mut Steps<L>,
    ) -> Result<(Doc, Effects), DocFault>
        requires caller { (1 ≤ caller) × (caller ≤ length self.now.text.sessions) }
        requires has_number { head self.now.text.engine.revisions < 2 ^ 63 - 1 }
        ensures stepped { IsStepOf self.now (λ plain. plugin_step plain caller edit named) result }
        ensures accepted { (plain : Document) → DocStandsFor self.now plain
            → OnOk result (asked_refusal plain.text (plugin_edit plain.text caller edit None) ≡ None) }
        ensures refused { (plain : Document) → DocStandsFor self.now plain
            → IfErr result (DocRefuses (edit_refused (asked_refusal plain.text (plugin_edit plain.text caller edit None)))) }
        ensures sessions { IfOk result (λ made. made.0.text.sessions ≡ self.now.text.sessions) }
        ensures steps { IsCountedBy self.now (λ plain. step_ticks plain (plugin_step plain caller edit named)) steps.old steps.new }
    {
        let rev = self.head() + 1;
        let after_cursor = edit.after_cursor;
        let (revised, group) = self.text.take_edit(alloc, caller, edit, named)?;
        let sel = self
            .view
            .moved(alloc, &revised.units, after_cursor, Goals::Kept)?;
        let body = Body::Edited { rev, group };
        Ok(self.revise(alloc, revised, sel, body, Scrolling::Nowhere, steps)?)
    }

    // The document after a revision of its text, with these regions, and what the front end and the plugins are told.
    fn revise<L: Ledger>(
        &self,
        alloc: Global,
        revised: Revised,
        sel: Sel,
        body: Body,
        scrolling: Scrolling,
        steps: &mut Steps<L>,
    ) -> Result<(Doc, Effects), NoMemory>
        requires made { IsRevisionOf self.now.text revised }
        requires sound { IsSelection sel.regions }
        requires inside { AreWithin (length (text_in revised.text)) sel.regions }
        ensures stepped { (plain : Document) (next : Writing) (author : ℕ) → DocStandsFor self.now plain
            → IsRevised plain.text next author revised → sel.regions ≢ []
            → IfOk result (IsStepped (revision_step plain (revised_document plain next sel.regions) author body
            (scroll_if (is_scrolling scrolling) plain (revised_document plain next sel.regions)))) }
        ensures sessions { IfOk result (λ made. made.0.text.sessions ≡ self.now.text.sessions) }
        ensures steps { (plain : Document) (next : Writing) (author : ℕ) → DocStandsFor self.now plain
            → IsRevised plain.text next author revised → steps.new ≤ steps.old + revision_ticks plain.text next }
    {
        let Revised {
            text,
            units,
            notice,
        } = revised;
        let from = kept_front(&units);
        let next = self.with_revision(alloc, text, &units, sel, steps)?;
        let said = Said {
            text: TextLeft::Edited { from },
            request: NO_REQUEST,
            body,
            scrolling,
            notice,
        };
        self.told(alloc, next, said)
    }

    // The document with the text that a change leads to, and its view of that, with these regions.
    fn with_revision<L: Ledger>(
        &self,
        alloc: Global,
        text: TextState,
        units: &UnitDelta,
        sel: Sel,
        steps: &mut Steps<L>,
    ) -> Result<Doc, NoMemory>
        requires changes { IsChangeOf (text_in self.now.text) (text_in text) units.now }
        requires sessions { text.sessions ≡ self.now.text.sessions }
        requires sound { IsSelection sel.regions }
        requires inside { AreWithin (length (text_in text)) sel.regions }
        ensures made { IfOk result (λ made. made ≡ record {
          text = text;
          view = record self.now.view {
            text = text_in text;
            regions = sel.regions;
            layers = mapped_layers units.now self.now.view.layers;
          };
        }) }
        ensures over { IfOk result (λ made. AreOver (length self.now.view.text) self.now.view.layers) }
        ensures left { (from : ℕ) → KeepsFront units.now from
            → IfOk result (λ made. IsKeptLeftOf from self.now.view made.view) }
        ensures steps { steps.new ≤ steps.old + touched_lines units.now self.now.view.text }
    {
        let view = self
            .view
            .edited(alloc, text.head_rope(), units, sel, steps)?;
        Ok(Doc { text, view })
    }

    // The document is `next` after an event; the front end is told what it lacks.
    pub(crate) fn told(
        &self,
        alloc: Global,
        next: Doc,
        said: Said,
    ) -> Result<(Doc, Effects), NoMemory>
        requires text { IsTextLeft said.text self.now.view next.view }
        ensures stepped { (plain later : Document) → DocStandsFor self.now plain → IsUntold next plain later
            → IfOk result (IsStepped
            (step_to said.request plain later said.body (scroll_if (is_scrolling said.scrolling) plain later) said.notice)) }
        ensures sessions { IfOk result (λ made. made.0.text.sessions ≡ next.text.sessions) }
    {
        let Said {
            text,
            request,
            body,
            scrolling,
            notice,
        } = said;
        let scroll = self.view.scroll_to(&next.view, scrolling);
        let (next, update) = self.updated(alloc, next, text, request)?;
        let effects = Effects {
            body,
            update,
            scroll,
            notice,
        };
        Ok((next, effects))
    }

    // The document is `next` after an event that requests these lines: that, with its view as it is once the front end was told, and what it
    // is told.
    fn updated(
        &self,
        alloc: Global,
        next: Doc,
        text: TextLeft,
        request: Run,
    ) -> Result<(Doc, Option<Update>), NoMemory>
        requires text { IsTextLeft text self.now.view next.view }
        ensures doc { IfOk result (λ made. made.0
            ≡ record next { view = settled_view self.now.view next.view request (pristine_to self.now next) }) }
        ensures update { IfOk result (λ made. made.1 ≡ told self.now.view next.view request (pristine_to self.now next)) }
    {
        let pristine = Pristine {
            before: self.text.is_pristine(),
            after: next.text.is_pristine(),
        };
        let Doc { text: next, view } = next;
        let (view, update) = self.view.settled(alloc, view, text, request, pristine)?;
        Ok((Doc { text: next, view }, update))
    }

    // The session of a plugin acknowledges this revision.
    fn acknowledge(&self, alloc: Global, caller: u32, rev: u64) -> Result<(Doc, Effects), DocFault>
        requires { (1 ≤ caller) × (caller ≤ length self.now.text.sessions) }
        ensures stepped { IsStepOf self.now
            (λ plain. silent_step (with_text plain (acknowledged_text plain.text caller rev))) result }
        ensures accepted { (plain : Document) → DocStandsFor self.now plain
            → OnOk result (acknowledgement_refusal plain.text.history rev ≡ None) }
        ensures refused { (plain : Document) → DocStandsFor self.now plain
            → IfErr result (DocRefuses (edit_refused (acknowledgement_refusal plain.text.history rev))) }
        ensures plugins { IfOk result (λ made. length made.0.text.sessions ≡ length self.now.text.sessions) }
    {
        let text = self.text.acknowledge(alloc, caller, rev)?;
        Ok(self.silent(text, Body::Null)?)
    }

    // The session of a plugin ends.
    fn end_session(&self, alloc: Global, caller: u32) -> Result<(Doc, Effects), NoMemory>
        requires { (1 ≤ caller) × (caller ≤ length self.now.text.sessions) }
        ensures stepped { IsStepOf self.now (λ plain. silent_step (with_text plain (ended_text plain.text caller))) result }
        ensures plugins { IfOk result (λ made. length made.0.text.sessions ≡ length self.now.text.sessions) }
    {
        let text = self.text.end_session(alloc, caller)?;
        self.silent(text, Body::Null)
    }

    // The document with other sessions, or the same; it is answered so, and nobody is told anything else.
    pub(crate) fn silent(&self, text: TextState, body: Body) -> Result<(Doc, Effects), NoMemory>
        requires engine { text.engine ≡ self.now.text.engine }
        requires count { length text.sessions ≡ length self.now.text.sessions }
        ensures stepped { (plain : Document) (next : Writing) → DocStandsFor self.now plain → IsTextOf text next
            → head_text next ≡ head_text plain.text → IfOk result (IsStepped (answered_step (with_text plain next) body)) }
        ensures sessions { IfOk result (λ made. made.0.text.sessions ≡ text.sessions) }
    {
        let next = Doc {
            text,
            view: self.view.copy()?,
        };
        let effects = Effects {
            body,
            update: None,
            scroll: None,
            notice: None,
        };
        Ok((next, effects))
    }

    // The text was saved.
    fn save(&self, alloc: Global) -> Result<(Doc, Effects), NoMemory>
        ensures stepped { IsStepOf self.now saved_step result }
        ensures sessions { IfOk result (λ made. made.0.text.sessions ≡ self.now.text.sessions) }
    {
        let text = self.text.mark_saved(alloc)?;
        let next = document_of(text, self.view.copy()?);
        let said = Said {
            text: TextLeft::Same,
            request: NO_REQUEST,
            body: Body::Null,
            scrolling: Scrolling::Nowhere,
            notice: None,
        };
        self.told(alloc, next, said)
    }

    // The document in which what may be collected is collected, or `None` where that is nothing.
    fn collected(&self, alloc: Global) -> Result<Option<Doc>, NoMemory>
        ensures stands { (plain : Document) → IsUncollected self.now plain
            → IfOk result (λ made. DocStandsFor (unwrap_or made self.now) (collected_document plain)) }
        ensures sessions { IfOk result (λ made. (unwrap_or made self.now).text.sessions ≡ self.now.text.sessions) }
    {
        match self.text.collected(alloc)? {
            Some(text) => Ok(Some(self.with_collected(text)?)),
            None => Ok(None),
        }
    }

    // The document with another text that shows the same.
    fn with_collected(&self, text: TextState) -> Result<Doc, NoMemory>
        requires shown { text_in text ≡ text_in self.now.text }
        requires count { text.sessions ≡ self.now.text.sessions }
        ensures { IfOk result (λ made. made ≡ record self.now { text = text }) }
    {
        Ok(Doc {
            text,
            view: self.view.copy()?,
        })
    }

    /// The last revision.
    pub fn head(&self) -> u64
        ensures head { (plain : Document) → DocStandsFor self.now plain → result ≡ head plain.text.history }
        ensures revisions { result ≡ head self.now.text.engine.revisions }
    {
        self.text.head()
    }

    /// A copy of the head text.
    pub fn head_text(&self, alloc: Global) -> Result<Text, NoMemory>
        ensures { (plain : Document) → DocStandsFor self.now plain → IfOk result (λ text. text ≡ head_text plain.text) }
    {
        self.text.head_text(alloc)
    }

    /// How many characters some revision can still show.
    pub fn kept(&self) -> u64
        ensures { (plain : Document) → DocStandsFor self.now plain → result ≡ kept plain.text.history }
    {
        self.text.kept()
    }

    /// How many lines the layout has.
    pub fn lines(&self) -> u64
        ensures { (plain : Document) → DocStandsFor self.now plain → result ≡ length (layout_of plain) }
    {
        self.view.lines()
    }

    /// Whether it rests: an event that is no command of this document changes nothing in it then, and nobody is told anything. So it is where no
    /// run of typing is open and the front end has the lines of the window. It takes O(1).
    pub fn rests(&self) -> bool
        ensures is { result ≡ is_resting self.now }
        ensures rests { IsTrue result → (plain : Document) → DocStandsFor self.now plain
            → event_step plain Other ≡ silent_step plain }
    {
        self.is_resting()
    }

    // Whether no run of typing is open, and the front end has the lines of the window.
    fn is_resting(&self) -> bool
        ensures { result ≡ is_resting self.now }
    {
        !self.text.is_typing() && self.view.has_asked(NO_REQUEST)
    }

    /// A second document that stands for the same: it shares text, revisions and layout with this one, and copies groups and sessions.
    pub fn copy(&self, alloc: Global) -> Result<Doc, NoMemory>
        ensures { IfOk result (λ made. made ≡ self.now) }
    {
        Ok(Doc {
            text: self.text.copy(alloc)?,
            view: self.view.copy()?,
        })
    }
}

/// The document of a text and a view of it, with layers of its plugins.
pub(crate) fn document_of(text: TextState, view: ViewState) -> Doc
    requires { IsKept (record { text = text; view = view }) }
    ensures { result ≡ record { text = text; view = view } }
{
    Doc { text, view }
}
