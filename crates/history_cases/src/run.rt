ghost use Rattle.std.specs.Prelude.{◌≡◌, IfOk, OnOk};
ghost use Rattle.plain_edits.specs.History.{loaded};
ghost use Rattle.history_cases.specs.Case.{new_case, Collects, Edits, ShowsText, ShowsUnder, Undoes};

use crate::bodies::Bodies;
use crate::refusal::{Answer, Refusal, refusal_of};
use anyhow::{Result, bail, ensure};
use delta_core::fits;
use plain_collection::{may_collect, text_under};
use plain_edits::EditFault;
use plain_history::{PlainHistory, has, misfit};
use plain_text::{List, Text, TryClone};
use rev_engine::Edit;
use std::alloc::Global;
use std::marker::Model;

/// How many characters may be inserted where no line says it.
const LIMIT: u64 = 1_000;

/// A history has at most this many revisions, and one.
pub const MOST: u64 = 1_000_000;

/// How many steps were taken: in all, and by the bodies.
#[derive(Clone, Copy, Default)]
pub struct Count {
    pub steps: u64,
    pub by_bodies: u64,
}

/// A history as far as it has come: the plain one, and beside it the bodies that are compared with it.
#[derive(Drop)]
pub struct Run {
    pub alloc: Global,
    pub plain: PlainHistory,
    limit: u64,
    bodies: Option<Bodies>,
    pub count: Count,
}

impl Model for Run {
    ghost use Rattle.history_cases.specs.Case.{Case};

    ghost Value = { Case };

    ghost view = { λ r. record { history = r.plain; limit = r.limit } };
}

impl Run {
    /// It begins with the empty text.
    pub fn new(alloc: Global) -> Result<Run>
        ensures { IfOk result (λ made. made ≡ new_case) }
    {
        let text = Text::new(alloc);
        Ok(Run {
            alloc,
            plain: PlainHistory::loaded(alloc, &text)?,
            limit: LIMIT,
            bodies: Some(Bodies::new(alloc, &text, LIMIT)?),
            count: Count::default(),
        })
    }

    /// Begins anew with a text.
    pub fn load(&mut self, text: &Text) -> Result<()>
        ensures { OnOk result (self.new ≡ record self.old { history = loaded text.now }) }
    {
        self.begin(text, self.limit)?;
        self.plain = PlainHistory::loaded(self.alloc, text)?;
        Ok(())
    }

    /// Bounds what is inserted from now on; an engine takes this only before its first edit.
    pub fn set_limit(&mut self, limit: u64) -> Result<()>
        ensures { OnOk result (self.new ≡ record self.old { limit = limit }) }
    {
        ensure!(self.plain.head() == 0, "a limit stands before all edits");
        let text = self.plain.text_at(self.alloc, 0)?;
        self.begin(&text, limit)
    }

    /// The bodies begin anew.
    fn begin(&mut self, text: &Text, limit: u64) -> Result<()>
        ensures { OnOk result (self.new ≡ record self.old { limit = limit }) }
    {
        self.bodies = Some(Bodies::new(self.alloc, text, limit)?);
        self.limit = limit;
        Ok(())
    }

    /// Takes an edit, which each body answers as the plain history does.
    pub fn edit(&mut self, edit: &Edit) -> Result<Answer>
        ensures { IfOk result (Edits self.old edit.now self.new) }
    {
        let text = self.plain.text_at(self.alloc, edit.rev)?;
        let is_same = misfit(&text, &edit.delta) == fits(&text, &edit.delta).err();
        ensure!(is_same, "delta_core finds another first misfit");
        let answer = self.edit_plain(edit)?;
        if let Some(bodies) = &mut self.bodies {
            bodies.edit(&self.plain, edit, answer)?;
        }
        self.note(answer);
        Ok(answer)
    }

    fn edit_plain(&mut self, edit: &Edit) -> Result<Answer>
        ensures { IfOk result (Edits self.old edit.now self.new) }
    {
        edited(self.alloc, &mut self.plain, self.limit, edit)
    }

    /// Undoes exactly these groups from now on, which each body answers as the plain history does.
    pub fn undo(&mut self, groups: &List<u64>) -> Result<Answer>
        ensures { IfOk result (Undoes self.old groups.now self.new) }
    {
        ensure!(self.plain.head() <= MOST, "too many revisions");
        let mut answer = None;
        if self.plain.may_undo(groups.as_slice()) {
            self.plain.undo(groups.copy(self.alloc)?)?;
        } else {
            answer = Some(refusal_of(&self.plain, groups.as_slice())?);
        }
        if let Some(bodies) = &mut self.bodies {
            bodies.undo(&self.plain, groups.as_slice(), answer)?;
        }
        self.note(answer);
        Ok(answer)
    }

    /// Collects groups, which the bodies do as the plain history does, or they stop.
    pub fn collect(&mut self, floor: u64, groups: &[u64]) -> Result<Answer>
        ensures { IfOk result (Collects self.old floor groups.now self.new) }
    {
        if !may_collect(&self.plain, floor, groups) {
            return Ok(Some(Refusal::Uncollectable));
        }
        self.plain.collect(self.alloc, floor, groups)?;
        self.follow_collection(floor, groups)?;
        self.note(None);
        Ok(None)
    }

    fn follow_collection(&mut self, floor: u64, groups: &[u64]) -> Result<()>
        ensures { OnOk result (self.new ≡ self.old) }
    {
        if let Some(bodies) = &mut self.bodies {
            bodies.collect(&self.plain, floor, groups)?;
        }
        Ok(())
    }

    /// Counts a step that is not refused.
    fn note(&mut self, answer: Answer)
        ensures { self.new ≡ self.old }
    {
        let taken = u64::from(answer.is_none());
        self.count.steps = self.count.steps.saturating_add(taken);
        if self.bodies.is_some() {
            self.count.by_bodies = self.count.by_bodies.saturating_add(taken);
        }
    }

    /// A revision is there and shows this text.
    pub fn shows(&self, rev: u64, wanted: &Text) -> Result<()>
        ensures { OnOk result (ShowsText self.now.history rev wanted.now) }
    {
        let head = self.plain.head();
        let shown = self.plain.text_at(self.alloc, rev)?;
        if head < rev || shown.as_str() != wanted.as_str() {
            bail!("the head is {head}, and there it shows {shown:?}");
        }
        Ok(())
    }

    /// The head would show this text, if exactly these groups were undone.
    pub fn shows_under(&self, groups: &[u64], wanted: &Text) -> Result<()>
        ensures { OnOk result (ShowsUnder self.now.history groups.now wanted.now) }
    {
        let shown = text_under(self.alloc, &self.plain, groups, self.plain.head())?;
        if shown.as_str() != wanted.as_str() {
            bail!("it would show {shown:?}");
        }
        if let Some(bodies) = &self.bodies {
            bodies.compare_under(&self.plain, groups)?;
        }
        Ok(())
    }
}

/// Takes an edit, or tells why it is refused.
fn edited(alloc: Global, plain: &mut PlainHistory, limit: u64, edit: &Edit) -> Result<Answer>
    ensures { IfOk result (Edits (record { history = plain.old; limit = limit }) edit.now
        (record { history = plain.new; limit = limit })) }
{
    if has(plain.collected(), edit.group) {
        return Ok(Some(Refusal::Closed));
    }
    ensure!(plain.head() <= MOST, "too many revisions");
    let (group, priority, author) = (edit.group, edit.priority, edit.author);
    match plain.edit(alloc, limit, edit.rev, &edit.delta, group, priority, author) {
        Ok(_) => Ok(None),
        Err(EditFault::NoMemory) => bail!("out of memory"),
        Err(fault) => Ok(Some(Refusal::Edit(fault))),
    }
}
