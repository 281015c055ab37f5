ghost use Rattle.std.specs.Prelude.{◌≡◌};
ghost use Rattle.edit_groups.specs.Grouping.{run_group};
ghost use Rattle.edit_groups.specs.Typing.{kind_of, is_same_kind, run_on, run_with};

use xi_plain::EditAct;

/// The commands of the front end whose edits share an undo group while they follow each other.
#[derive(Clone, Copy, PartialEq, Eq)]
pub enum Kind {
    Insert,
    DeleteBackward,
    DeleteForward,
}

/// A run of typing: the kind of its commands, and the undo group of their edits.
#[derive(Clone, Copy, PartialEq, Eq)]
pub struct Typing {
    pub kind: Kind,
    pub group: u64,
}

/// The kind of a command whose edits may run together.
pub fn kind_of(act: &EditAct) -> Option<Kind>
    ensures { result ≡ kind_of act.now }
{
    match act {
        EditAct::Insert { .. } => Some(Kind::Insert),
        EditAct::DeleteBackward => Some(Kind::DeleteBackward),
        EditAct::DeleteForward => Some(Kind::DeleteForward),
        _ => None,
    }
}

/// The run that a command of this kind goes on with.
pub fn run_on(typing: Option<Typing>, kind: Option<Kind>) -> Option<Typing>
    ensures { result ≡ run_on typing kind }
{
    match (typing, kind) {
        (Some(run), Some(kind)) if is_same_kind(run.kind, kind) => Some(run),
        _ => None,
    }
}

fn is_same_kind(one: Kind, other: Kind) -> bool
    ensures { result ≡ is_same_kind one other }
{
    one == other
}

/// The group that an edit of the run joins.
pub fn run_group(run: Option<Typing>) -> Option<u64>
    ensures { result ≡ run_group run }
{
    match run {
        Some(run) => Some(run.group),
        None => None,
    }
}

/// The run after an edit of this kind in this group.
pub fn run_with(kind: Option<Kind>, group: u64) -> Option<Typing>
    ensures { result ≡ run_with kind group }
{
    match kind {
        Some(kind) => Some(Typing { kind, group }),
        None => None,
    }
}
