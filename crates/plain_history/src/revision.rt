ghost use Rattle.std.specs.Prelude.{◌≡◌, Some, List, map};
ghost use Rattle.std.specs.Option.{option_copied};
ghost use Rattle.plain_edits.specs.History.{edit, undo, edit_group, edit_rank};
ghost use Rattle.plain_edits.specs.Edits.{is_edit_of};
ghost use Rattle.plain_edits.specs.Collection.{is_based_from};
ghost use Rattle.plain_history.specs.Views.{undone_by};

use plain_edits::Rank;
use plain_text::List;
use std::marker::Model;

/// The rank of a revision that inserts nothing.
pub(crate) const LOWEST: Rank = Rank {
    priority: 0,
    author: 0,
};

/// A revision: an edit against a base, or an undo, which says all groups that are undone from it on.
#[derive(Drop)]
pub struct Revision {
    step: Step,
}

#[derive(Drop)]
enum Step {
    Edit {
        base: u64,
        group: u64,
        priority: u32,
        author: u32,
    },
    Undo {
        groups: List<u64>,
    },
}

impl Model for Revision {
    ghost use Rattle.plain_edits.specs.History.{Revision as RevisionData};

    ghost Value = { RevisionData };

    ghost use Rattle.plain_history.specs.Views.{revision_of};

    ghost view = { λ r. revision_of r.step };
}

impl Revision {
    pub fn edit(base: u64, group: u64, priority: u32, author: u32) -> Revision
        ensures { result ≡ edit base group priority author }
    {
        Revision {
            step: Step::Edit {
                base,
                group,
                priority,
                author,
            },
        }
    }

    pub fn undo(groups: List<u64>) -> Revision
        ensures { result ≡ undo groups }
    {
        Revision {
            step: Step::Undo { groups },
        }
    }

    /// The group of an edit, and 0 for an undo.
    pub fn group(&self) -> u64
        ensures { result ≡ edit_group (Some self.now) }
    {
        match &self.step {
            Step::Edit { group, .. } => *group,
            Step::Undo { .. } => 0,
        }
    }

    /// What orders the insertions of an edit; an undo has the lowest rank.
    pub fn rank(&self) -> Rank
        ensures { result ≡ edit_rank (Some self.now) }
    {
        match &self.step {
            Step::Edit {
                priority,
                author,
                ..
            } => Rank {
                priority: *priority,
                author: *author,
            },
            Step::Undo { .. } => LOWEST,
        }
    }

    /// The groups that an undo says.
    pub fn undone(&self) -> Option<&List<u64>>
        ensures { option_copied result ≡ undone_by self.now }
    {
        match &self.step {
            Step::Edit { .. } => None,
            Step::Undo { groups } => Some(groups),
        }
    }

    /// Whether it is an edit of this group.
    pub fn is_edit_of(&self, group: u64) -> bool
        ensures { result ≡ is_edit_of group self.now }
    {
        match &self.step {
            Step::Edit { group: own, .. } => *own == group,
            Step::Undo { .. } => false,
        }
    }

    /// Whether it is no edit against a base below the floor.
    pub fn is_based_from(&self, floor: u64) -> bool
        ensures { result ≡ is_based_from floor self.now }
    {
        match &self.step {
            Step::Edit { base, .. } => floor <= *base,
            Step::Undo { .. } => true,
        }
    }
}
