ghost use Rattle.std.specs.Prelude.{◌≡◌, ◌≤◌, drop, length};
ghost use Rattle.std.specs.Iterator.{YieldsFirstRef, item_count};
ghost use Rattle.rev_list.specs.Kept.{steps_of};

use crate::RevStep;
use crate::records::Records;
use std::marker::Model;

/// The revisions of a list that are still to come, edits and undos, the oldest first. A step copies nothing, takes no memory and
/// costs the height of the list.
#[derive(Drop)]
pub struct RevisionsAfter<'a> {
    records: &'a Records,
    at: u64,
}

impl<'a> Model for RevisionsAfter<'a> {
    ghost use Rattle.std.specs.Prelude.{◌≤◌, List, drop, length};
    ghost use Rattle.rev_list.specs.declared.step.RevStep.{RevStep};
    ghost use Rattle.rev_list.specs.Kept.{steps_of};

    ghost Value = { List RevStep };

    ghost view = { λ walk. drop walk.at (steps_of walk.records.now) };

    ghost invariant = { λ walk. walk.at ≤ length walk.records.now };
}

impl<'a> RevisionsAfter<'a> {
    pub(crate) fn new(records: &'a Records, at: u64) -> RevisionsAfter<'a>
        requires { at ≤ length records.now }
        ensures { result ≡ drop at (steps_of records.now) }
    {
        RevisionsAfter { records, at }
    }
}

impl<'a> Iterator for RevisionsAfter<'a> {
    type Item = &'a RevStep;

    ghost next_gives = { YieldsFirstRef (λ revisions. revisions) };

    ghost remaining = { item_count (λ revisions. revisions) };

    fn next(&mut self) -> Option<&'a RevStep> {
        if self.at == self.records.len() {
            return None;
        }
        let next = self.records.get(self.at);
        self.at += 1;
        Some(&next.step)
    }
}
