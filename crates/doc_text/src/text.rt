ghost use Rattle.std.specs.Prelude.{◌≡◌, ◌-◌, ◌^◌, ◌<◌, ◌≤◌, false, length, None, IfOk, IfErr, IfSome, OnOk};
ghost use Rattle.std.specs.Option.{is_some};
ghost use Rattle.std.specs.Arc.{arc_value};
ghost use Rattle.plain_edits.specs.Collection.{kept};
ghost use Rattle.plain_edits.specs.History.{History, head};
ghost use Rattle.plain_edits.specs.UnitDelta.{IsCanonical};
ghost use Rattle.delta_core.specs.Elements.{delta_of};
ghost use Rattle.delta_core.specs.Units.{text_after};
ghost use Rattle.plain_edits.specs.Undo.{undone_now};
ghost use Rattle.plain_text.specs.Numbers.{has};
ghost use Rattle.rev_engine.specs.Engine.{StandsFor};
ghost use Rattle.rev_engine.specs.Given.{MayAsk};
ghost use Rattle.undo_groups.specs.Groups.{next_redo, next_undo, redone_one, undone_one};
ghost use Rattle.edit_groups.specs.Grouping.{group_by, named_group};
ghost use Rattle.edit_groups.specs.Typing.{run_on};
ghost use Rattle.doc_text.specs.Agree.{Agree};
ghost use Rattle.doc_text.specs.Asking.{acknowledgement_refusal, asked_refusal, front_priority, head_edit, plugin_edit};
ghost use Rattle.doc_text.specs.Collecting.{acknowledged_text, ended_text};
ghost use Rattle.doc_text.specs.Fault.{DocRefuses};
ghost use Rattle.doc_text.specs.InMemory.{head_shown, is_pristine_in, text_in};
ghost use Rattle.doc_text.specs.Inner.{EndsWithin, IsAfter, IsAfterEdit, IsStepFrom, IsTurned, IsTurnedBy, left_text, unit_edit};
ghost use Rattle.doc_text.specs.Notices.{notice_to};
ghost use Rattle.doc_text.specs.Refusal.{edit_refused};
ghost use Rattle.doc_text.specs.Revised.{IsRevised, IsRevisionOf, IsTurnOf};
ghost use Rattle.doc_text.specs.Revisions.{given_text, going_on, saved_text, typed_text, undone_text};
ghost use Rattle.doc_text.specs.Stands.{IsTextOf, TextStandsFor};
ghost use Rattle.doc_text.specs.Whole.{IsWhole};
ghost use Rattle.doc_text.specs.Writing.{Writing, head_text, loaded_text};

use crate::engine_step::{EngineStep, step_at_head, step_by_edit, step_by_turn};
use crate::fault::DocFault;
use crate::revised::Revised;
use doc_layout::to_wire;
use edit_groups::{
    Grouped, Kind, Sessions, Typing, joined_or_opened, named_or_opened, run_group, run_on, run_with,
};
use plain_edits::UnitDelta;
use plain_text::{NoMemory, Text};
use rev_engine::{Edit, Engine, UnitEdit};
use rope_tree::Rope;
use std::alloc::Global;
use std::marker::Model;
use std::sync::Arc;
use undo_groups::Stack;
use xi_plain::Notice;

/// The priority of the front end's edits.
const FRONT_PRIORITY: u32 = 65_536;

/// The text of a document, with all its revisions.
#[derive(Drop)]
pub struct TextState {
    /// The text with all its revisions, which copies share.
    pub(crate) engine: Arc<Engine, Global>,
    pub(crate) stack: Stack,
    /// The run that the next command of the front end may join.
    pub(crate) typing: Option<Typing>,
    /// The revision that was loaded or last saved.
    pub(crate) saved: u64,
    /// What the sessions of the plugins have acknowledged.
    pub(crate) sessions: Sessions,
}

impl Model for TextState {
    ghost use Rattle.std.specs.Arc.{arc_value};
    ghost use Rattle.doc_text.specs.InMemory.{TextState};

    ghost Value = { TextState };

    ghost use Rattle.doc_text.specs.Whole.{IsWhole};

    ghost view = { λ t. record {
      engine = arc_value t.engine;
      groups = t.stack;
      typing = t.typing;
      saved = t.saved;
      sessions = t.sessions;
    } };

    ghost invariant = { λ t. IsWhole (arc_value t.engine) t.stack t.typing };
}

impl TextState {
    /// A text that was just loaded, in its time. `plugins` is how many plugins there are, and `limit` the most characters that may be
    /// inserted from now on.
    pub fn of_text(
        alloc: Global,
        text: Text,
        plugins: u32,
        limit: u64,
    ) -> Result<TextState, NoMemory>
        requires { limit ≤ 2 ^ 60 }
        ensures stands { IfOk result (λ made. TextStandsFor made (loaded_text text plugins limit)) }
        ensures shown { IfOk result (λ made. text_in made ≡ text) }
    {
        let sessions = Sessions::open(alloc, plugins)?;
        let engine = Arc::new(alloc, Engine::of_text(alloc, text, limit)?)?;
        let stack = Stack::new(alloc);
        let _given = stack.given();
        Ok(TextState {
            engine,
            stack,
            typing: None,
            saved: 0,
            sessions,
        })
    }

    /// The front end edits the head text, in characters: in the group of the run that a command of this kind goes on with, or in the next. It
    /// costs what `Engine::edit_head` does.
    pub fn type_units(
        &self,
        alloc: Global,
        kind: Option<Kind>,
        units: UnitDelta,
    ) -> Result<Revised, DocFault>
        requires canonical { IsCanonical units }
        requires base { units.base ≡ length (text_in self.now) }
        requires has_number { head self.now.engine.revisions < 2 ^ 63 - 1 }
        ensures revised { (plain : Writing) → TextStandsFor self.now plain
            → IfOk result (IsRevised plain (typed_text plain kind (delta_of (head_text plain) units)) 0) }
        ensures made { IfOk result (IsRevisionOf self.now) }
        ensures leads { IfOk result (λ made. text_in made.text ≡ text_after units (text_in self.now)) }
        ensures accepted { (plain : Writing) → TextStandsFor self.now plain
            → OnOk result (asked_refusal plain (head_edit plain None (delta_of (head_text plain) units)) ≡ None) }
        ensures refused { (plain : Writing) → TextStandsFor self.now plain
            → IfErr result (DocRefuses (edit_refused
            (asked_refusal plain (head_edit plain None (delta_of (head_text plain) units))))) }
    {
        let joined = run_group(run_on(self.typing, kind));
        let made = joined_or_opened(alloc, &self.stack, joined)?;
        let typing = run_with(kind, made.group);
        let step = self.head_step(alloc, units, made.group)?;
        Ok(self.revised(alloc, step, made, typing, 0)?)
    }

    // What an edit of the front end makes of the engine, in this group.
    fn head_step(&self, alloc: Global, units: UnitDelta, group: u64) -> Result<EngineStep, DocFault>
        requires may { MayAsk self.now.engine.revisions group }
        requires canonical { IsCanonical units }
        requires base { units.base ≡ length (text_in self.now) }
        ensures taken { (history : History) → StandsFor self.now.engine history
            → IfOk result (IsAfterEdit history (unit_edit group history units)) }
        ensures made { IfOk result (IsStepFrom self.now.engine) }
        ensures leads { has (undone_now self.now.engine.revisions) group ≡ false
            → IfOk result (λ step. head_shown (arc_value step.engine) ≡ text_after units (text_in self.now)) }
        ensures accepted { (plain : Writing) → TextStandsFor self.now plain
            → OnOk result (asked_refusal plain (head_edit plain None (delta_of (head_text plain) units)) ≡ None) }
        ensures refused { (plain : Writing) → TextStandsFor self.now plain
            → IfErr result (DocRefuses (edit_refused
            (asked_refusal plain (head_edit plain None (delta_of (head_text plain) units))))) }
    {
        let edit = front_edit(units, group);
        step_at_head(alloc, &self.engine, edit)
    }

    /// A plugin edits the text, in the group that it names or in the next, which is told beside what that makes.
    pub fn take_edit(
        &self,
        alloc: Global,
        caller: u32,
        edit: Edit,
        named: Option<u64>,
    ) -> Result<(Revised, u64), DocFault>
        requires { head self.now.engine.revisions < 2 ^ 63 - 1 }
        ensures revised { (plain : Writing) → TextStandsFor self.now plain
            → IfOk result (λ made. IsRevised plain (given_text plain caller edit named) caller made.0) }
        ensures group { (plain : Writing) → TextStandsFor self.now plain
            → IfOk result (λ made. made.1 ≡ group_by plain.groups (named_group plain.history named)) }
        ensures made { IfOk result (λ made. IsRevisionOf self.now made.0) }
        ensures accepted { (plain : Writing) → TextStandsFor self.now plain
            → OnOk result (asked_refusal plain (plugin_edit plain caller edit None) ≡ None) }
        ensures refused { (plain : Writing) → TextStandsFor self.now plain
            → IfErr result (DocRefuses (edit_refused (asked_refusal plain (plugin_edit plain caller edit None)))) }
    {
        let made = named_or_opened(alloc, &self.stack, named)?;
        let group = made.group;
        let edit = given(edit, caller, group);
        let step = step_by_edit(alloc, &self.engine, &edit)?;
        let revised = self.revised(alloc, step, made, None, caller)?;
        Ok((revised, group))
    }

    /// The newest live group that is not undone is undone, if there is one. It costs what `Engine::set_undone_by` does.
    pub fn undo_group(&self, alloc: Global) -> Result<Option<Revised>, NoMemory>
        requires { head self.now.engine.revisions < 2 ^ 63 - 1 }
        ensures turned { (plain : Writing) → TextStandsFor self.now plain
            → IfOk result (IsTurnOf plain (next_undo plain.groups) (undone_one plain.groups)) }
        ensures made { IfOk result (λ found. IfSome found (IsRevisionOf self.now)) }
    {
        let _before = self.stack.given();
        let mut stack = self.stack.copy(alloc)?;
        let group = stack.undo_group()?;
        let _after = stack.given();
        self.turned(alloc, stack, group)
    }

    /// The last undo is taken back, if there is one.
    pub fn redo_group(&self, alloc: Global) -> Result<Option<Revised>, NoMemory>
        requires { head self.now.engine.revisions < 2 ^ 63 - 1 }
        ensures turned { (plain : Writing) → TextStandsFor self.now plain
            → IfOk result (IsTurnOf plain (next_redo plain.groups) (redone_one plain.groups)) }
        ensures made { IfOk result (λ found. IfSome found (IsRevisionOf self.now)) }
    {
        let _before = self.stack.given();
        let mut stack = self.stack.copy(alloc)?;
        let group = stack.redo_group()?;
        let _after = stack.given();
        self.turned(alloc, stack, group)
    }

    // An undo or a redo takes this group, if there is one, and leaves the stack so.
    fn turned(
        &self,
        alloc: Global,
        stack: Stack,
        group: Option<u64>,
    ) -> Result<Option<Revised>, NoMemory>
        requires turned { IsTurnedBy self.now.groups stack group }
        requires has_number { head self.now.engine.revisions < 2 ^ 63 - 1 }
        ensures turned { (plain : Writing) → TextStandsFor self.now plain → IfOk result (IsTurnOf plain group stack) }
        ensures made { IfOk result (λ found. IfSome found (IsRevisionOf self.now)) }
    {
        match group {
            Some(group) => Ok(Some(self.turn_group(alloc, Grouped { stack, group })?)),
            None => Ok(None),
        }
    }

    // A group is undone or given back, which leaves the stack so.
    fn turn_group(&self, alloc: Global, groups: Grouped) -> Result<Revised, NoMemory>
        requires turned { IsTurned self.now.groups groups.stack groups.group }
        requires has_number { head self.now.engine.revisions < 2 ^ 63 - 1 }
        ensures revised { (plain : Writing) → TextStandsFor self.now plain
            → IfOk result (IsRevised plain (undone_text plain groups.stack) 0) }
        ensures made { IfOk result (IsRevisionOf self.now) }
    {
        let step = step_by_turn(alloc, &self.engine, groups.group)?;
        self.revised(alloc, step, groups, None, 0)
    }

    // The text after a revision by this author, which leaves these groups and this run.
    fn revised(
        &self,
        alloc: Global,
        step: EngineStep,
        groups: Grouped,
        typing: Option<Typing>,
        author: u32,
    ) -> Result<Revised, NoMemory>
        requires whole { IsWhole (arc_value step.engine) groups.stack typing }
        requires made { IsStepFrom self.now.engine step }
        requires within { EndsWithin step }
        ensures revised { (plain : Writing) (history : History) → TextStandsFor self.now plain → IsAfter plain.history history step
            → Agree history.revisions history.collected groups.stack typing
            → IfOk result (IsRevised plain (left_text plain history groups.stack typing) author) }
        ensures made { IfOk result (IsRevisionOf self.now) }
        ensures shown { IfOk result (λ made. text_in made.text ≡ head_shown (arc_value step.engine)) }
    {
        let notice = self.notice(alloc, &step, author)?;
        let sessions = self.sessions.copy(alloc)?;
        let EngineStep { engine, change } = step;
        let Grouped { stack, group: _ } = groups;
        let text = TextState {
            engine,
            stack,
            typing,
            saved: self.saved,
            sessions,
        };
        Ok(Revised {
            text,
            units: change.units,
            notice,
        })
    }

    // What the plugins are told of a change that this author made, where there are any.
    fn notice(
        &self,
        alloc: Global,
        step: &EngineStep,
        author: u32,
    ) -> Result<Option<Notice>, NoMemory>
        requires { IsStepFrom self.now.engine step.now }
        ensures { (plain : Writing) (history : History) → TextStandsFor self.now plain → IsAfter plain.history history step.now
            → IfOk result (λ made. made ≡ notice_to plain history author) }
    {
        if self.sessions.is_empty() {
            return Ok(None);
        }
        let delta = to_wire(alloc, self.engine.head_rope(), &step.change.units)?;
        let notice = Notice {
            view: Text::new(alloc),
            author,
            rev: step.change.rev,
            new_len: step.engine.head_rope().byte_len(),
            delta,
        };
        Ok(Some(notice))
    }

    /// The session of a plugin acknowledges this revision, from the floor to the head.
    pub fn acknowledge(&self, alloc: Global, caller: u32, rev: u64) -> Result<TextState, DocFault>
        requires { (1 ≤ caller) × (caller ≤ length self.now.sessions) }
        ensures stands { (plain : Writing) → TextStandsFor self.now plain
            → IfOk result (λ made. IsTextOf made (acknowledged_text plain caller rev)) }
        ensures accepted { (plain : Writing) → TextStandsFor self.now plain
            → OnOk result (acknowledgement_refusal plain.history rev ≡ None) }
        ensures refused { (plain : Writing) → TextStandsFor self.now plain
            → IfErr result (DocRefuses (edit_refused (acknowledgement_refusal plain.history rev))) }
        ensures engine { IfOk result (λ made. made.engine ≡ self.now.engine) }
        ensures count { IfOk result (λ made. length made.sessions ≡ length self.now.sessions) }
    {
        self.check_acknowledged(rev)?;
        let sessions = self.sessions.acknowledged(alloc, caller, rev)?;
        Ok(self.with_sessions(alloc, sessions)?)
    }

    // Whether this revision may be acknowledged: from the floor to the head.
    fn check_acknowledged(&self, rev: u64) -> Result<(), DocFault>
        ensures accepted { (plain : Writing) → TextStandsFor self.now plain
            → OnOk result (acknowledgement_refusal plain.history rev ≡ None) }
        ensures refused { (plain : Writing) → TextStandsFor self.now plain
            → IfErr result (DocRefuses (edit_refused (acknowledgement_refusal plain.history rev))) }
    {
        let engine = &*self.engine;
        let head = engine.head();
        if head < rev {
            return Err(DocFault::Unknown(head));
        }
        let floor = engine.floor();
        if rev < floor {
            return Err(DocFault::Collected(floor));
        }
        Ok(())
    }

    /// The session of a plugin ends: what it acknowledged counts no more.
    pub fn end_session(&self, alloc: Global, caller: u32) -> Result<TextState, NoMemory>
        requires { (1 ≤ caller) × (caller ≤ length self.now.sessions) }
        ensures stands { (plain : Writing) → TextStandsFor self.now plain
            → IfOk result (λ made. IsTextOf made (ended_text plain caller)) }
        ensures engine { IfOk result (λ made. made.engine ≡ self.now.engine) }
        ensures count { IfOk result (λ made. length made.sessions ≡ length self.now.sessions) }
    {
        let sessions = self.sessions.ended(alloc, caller)?;
        self.with_sessions(alloc, sessions)
    }

    fn with_sessions(&self, alloc: Global, sessions: Sessions) -> Result<TextState, NoMemory>
        ensures { IfOk result (λ made. made ≡ record self.now { sessions = sessions }) }
    {
        Ok(TextState {
            engine: Arc::try_clone(&self.engine)?,
            stack: self.stack.copy(alloc)?,
            typing: self.typing,
            saved: self.saved,
            sessions,
        })
    }

    /// Whether a run of typing is open.
    pub fn is_typing(&self) -> bool
        ensures { result ≡ is_some self.now.typing }
    {
        self.typing.is_some()
    }

    /// The same text after a command of this kind that made no revision, or after another event: its run goes on, or ends.
    pub fn with_run(&self, alloc: Global, kind: Option<Kind>) -> Result<TextState, NoMemory>
        ensures stands { (plain : Writing) → TextStandsFor self.now plain → IfOk result (λ made. TextStandsFor made (going_on plain kind)) }
        ensures same { IfOk result (λ made. made ≡ record self.now { typing = run_on self.now.typing kind }) }
    {
        Ok(TextState {
            engine: Arc::try_clone(&self.engine)?,
            stack: self.stack.copy(alloc)?,
            typing: run_on(self.typing, kind),
            saved: self.saved,
            sessions: self.sessions.copy(alloc)?,
        })
    }

    /// The same text once it was saved: its head is the saved revision from then on, and its run ends.
    pub fn mark_saved(&self, alloc: Global) -> Result<TextState, NoMemory>
        ensures stands { (plain : Writing) → TextStandsFor self.now plain → IfOk result (λ made. TextStandsFor made (saved_text plain)) }
        ensures same { IfOk result (λ made. made ≡ record self.now { typing = None; saved = head self.now.engine.revisions }) }
    {
        Ok(TextState {
            engine: Arc::try_clone(&self.engine)?,
            stack: self.stack.copy(alloc)?,
            typing: None,
            saved: self.head(),
            sessions: self.sessions.copy(alloc)?,
        })
    }

    /// A second text that stands for the same: it shares the revisions with this one, and copies groups and sessions.
    pub fn copy(&self, alloc: Global) -> Result<TextState, NoMemory>
        ensures { IfOk result (λ made. made ≡ self.now) }
    {
        self.with_sessions(alloc, self.sessions.copy(alloc)?)
    }

    /// The last revision.
    pub fn head(&self) -> u64
        ensures head { (plain : Writing) → TextStandsFor self.now plain → result ≡ head plain.history }
        ensures revisions { result ≡ head self.now.engine.revisions }
    {
        self.engine.head()
    }

    /// The head text.
    pub fn head_rope(&self) -> &Rope
        ensures text { (plain : Writing) → TextStandsFor self.now plain → result.now ≡ head_text plain }
        ensures shown { result.now ≡ text_in self.now }
    {
        self.engine.head_rope()
    }

    /// A copy of the head text.
    pub fn head_text(&self, alloc: Global) -> Result<Text, NoMemory>
        ensures { (plain : Writing) → TextStandsFor self.now plain → IfOk result (λ text. text ≡ head_text plain) }
    {
        let text = self.head_rope();
        text.slice(alloc, 0, text.len())
    }

    /// Whether it is the text that was loaded or last saved.
    pub fn is_pristine(&self) -> bool
        ensures { result ≡ is_pristine_in self.now }
    {
        self.head() == self.saved
    }

    /// How many characters some revision can still show.
    pub fn kept(&self) -> u64
        ensures { (plain : Writing) → TextStandsFor self.now plain → result ≡ kept plain.history }
    {
        self.engine.kept()
    }
}

// The edit as the text takes it: in this group, by its caller.
fn given(edit: Edit, caller: u32, group: u64) -> Edit
    ensures { result ≡ record edit { author = caller; group = group } }
{
    let mut given = edit;
    given.author = caller;
    given.group = group;
    given
}

fn front_edit(units: UnitDelta, group: u64) -> UnitEdit
    ensures { result ≡ record { units = units; priority = front_priority; author = 0; group = group } }
{
    UnitEdit {
        units,
        priority: FRONT_PRIORITY,
        author: 0,
        group,
    }
}
