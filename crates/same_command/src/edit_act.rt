// Whether two edits are the same.
ghost use Rattle.std.specs.Prelude.{◌≡◌, ◌↔◌, IsTrue};
ghost use Rattle.xi_plain.specs.Acts.{HasNoText, IsSimple};
ghost use Rattle.same_command.specs.Kinds.{HasNoPoint, IsName};

use crate::part::{is_same_motion, is_same_text, is_same_touch, is_same_truth};
use xi_plain::EditAct;

pub(crate) fn is_same_edit(one: &EditAct, other: &EditAct) -> bool
    ensures { IsTrue result ↔ (one.now ≡ other.now) }
{
    match one {
        EditAct::Insert { chars } => match other {
            EditAct::Insert { chars: next } => is_same_text(chars, next),
            _ => false,
        },
        EditAct::Paste { chars } => match other {
            EditAct::Paste { chars: next } => is_same_text(chars, next),
            _ => false,
        },
        EditAct::Find {
            chars,
            case_sensitive,
            regex,
            whole_words,
        } => match other {
            EditAct::Find {
                chars: next,
                case_sensitive: case,
                regex: pattern,
                whole_words: words,
            } => {
                is_same_truth(*case_sensitive, *case)
                    && is_same_truth(*regex, *pattern)
                    && is_same_truth(*whole_words, *words)
                    && is_same_text(chars, next)
            }
            _ => false,
        },
        _ => is_same_textless(one, other),
    }
}

// The same of an edit without a text.
fn is_same_textless(one: &EditAct, other: &EditAct) -> bool
    requires { HasNoText one.now }
    ensures { IsTrue result ↔ (one.now ≡ other.now) }
{
    match one {
        EditAct::Click {
            line,
            col,
            modifiers,
            count,
        } => match other {
            EditAct::Click {
                line: next,
                col: at,
                modifiers: keys,
                count: times,
            } => line == next && col == at && modifiers == keys && count == times,
            _ => false,
        },
        EditAct::Drag {
            line,
            col,
            modifiers,
        } => match other {
            EditAct::Drag {
                line: next,
                col: at,
                modifiers: keys,
            } => line == next && col == at && modifiers == keys,
            _ => false,
        },
        _ => is_same_search(one, other),
    }
}

// The same of one that is no click and no drag either.
fn is_same_search(one: &EditAct, other: &EditAct) -> bool
    requires { HasNoPoint one.now }
    ensures { IsTrue result ↔ (one.now ≡ other.now) }
{
    match one {
        EditAct::FindNext {
            wrap_around,
            allow_same,
        } => match other {
            EditAct::FindNext {
                wrap_around: around,
                allow_same: same,
            } => is_same_truth(*wrap_around, *around) && is_same_truth(*allow_same, *same),
            _ => false,
        },
        EditAct::FindPrevious {
            wrap_around,
            allow_same,
        } => match other {
            EditAct::FindPrevious {
                wrap_around: around,
                allow_same: same,
            } => is_same_truth(*wrap_around, *around) && is_same_truth(*allow_same, *same),
            _ => false,
        },
        _ => is_same_simple(one, other),
    }
}

// The same of an edit that stands on one line.
fn is_same_simple(one: &EditAct, other: &EditAct) -> bool
    requires { IsSimple one.now }
    ensures { IsTrue result ↔ (one.now ≡ other.now) }
{
    match one {
        EditAct::Move { motion, extend } => match other {
            EditAct::Move {
                motion: next,
                extend: longer,
            } => is_same_motion(*motion, *next) && extend == longer,
            _ => false,
        },
        EditAct::Scroll { first, last } => match other {
            EditAct::Scroll {
                first: from,
                last: to,
            } => first == from && last == to,
            _ => false,
        },
        EditAct::RequestLines { first, last } => match other {
            EditAct::RequestLines {
                first: from,
                last: to,
            } => first == from && last == to,
            _ => false,
        },
        EditAct::Gesture { line, col, ty } => match other {
            EditAct::Gesture {
                line: next,
                col: at,
                ty: touch,
            } => line == next && col == at && is_same_touch(*ty, *touch),
            _ => false,
        },
        EditAct::GotoLine { line } => match other {
            EditAct::GotoLine { line: next } => line == next,
            _ => false,
        },
        _ => is_same_name(one, other),
    }
}

// The same of an edit that is its name alone.
fn is_same_name(one: &EditAct, other: &EditAct) -> bool
    requires { IsName one.now }
    ensures { IsTrue result ↔ (one.now ≡ other.now) }
{
    match one {
        EditAct::InsertNewline => matches!(other, EditAct::InsertNewline),
        EditAct::InsertTab => matches!(other, EditAct::InsertTab),
        EditAct::DeleteBackward => matches!(other, EditAct::DeleteBackward),
        EditAct::DeleteForward => matches!(other, EditAct::DeleteForward),
        EditAct::DeleteWordBackward => matches!(other, EditAct::DeleteWordBackward),
        EditAct::DeleteWordForward => matches!(other, EditAct::DeleteWordForward),
        EditAct::Cut => matches!(other, EditAct::Cut),
        EditAct::Copy => matches!(other, EditAct::Copy),
        EditAct::Undo => matches!(other, EditAct::Undo),
        EditAct::Redo => matches!(other, EditAct::Redo),
        EditAct::SelectAll => matches!(other, EditAct::SelectAll),
        EditAct::Collapse => matches!(other, EditAct::Collapse),
        EditAct::Nothing => matches!(other, EditAct::Nothing),
        _ => unreachable!(),
    }
}
