// Whether two acts are the same, and two faults.
ghost use Rattle.std.specs.Prelude.{◌≡◌, ◌↔◌, IsTrue};
ghost use Rattle.xi_plain.specs.Acts.{HasList, IsOfPlugin};
ghost use Rattle.same_command.specs.Kinds.{IsChange};

use crate::edit_act::is_same_edit;
use crate::list::{are_same, is_same_delta};
use crate::part::{are_same_changes, is_same_number, is_same_path, is_same_text};
use xi_plain::{Act, Fault};

fn is_same_fault(one: &Fault, other: &Fault) -> bool
    ensures { IsTrue result ↔ (one.now ≡ other.now) }
{
    match one {
        Fault::Parse => matches!(other, Fault::Parse),
        Fault::Invalid => matches!(other, Fault::Invalid),
        Fault::NoMethod(name) => match other {
            Fault::NoMethod(next) => is_same_text(name, next),
            _ => false,
        },
        Fault::BadParams(member) => match other {
            Fault::BadParams(next) => is_same_text(member, next),
            _ => false,
        },
    }
}

pub(crate) fn is_same_act(one: &Act, other: &Act) -> bool
    ensures { IsTrue result ↔ (one.now ≡ other.now) }
{
    match one {
        Act::Nothing => matches!(other, Act::Nothing),
        Act::Closing => matches!(other, Act::Closing),
        Act::Bad(fault) => match other {
            Act::Bad(next) => is_same_fault(fault, next),
            _ => false,
        },
        Act::Configure(changes) => match other {
            Act::Configure(next) => are_same_changes(*changes, *next),
            _ => false,
        },
        Act::NewView { path } => match other {
            Act::NewView { path: next } => is_same_path(path, next),
            _ => false,
        },
        Act::CloseView { view } => match other {
            Act::CloseView { view: next } => is_same_text(view, next),
            _ => false,
        },
        Act::Save { view, path } => match other {
            Act::Save {
                view: next,
                path: to,
            } => is_same_text(view, next) && is_same_text(path, to),
            _ => false,
        },
        Act::Edit { view, act } => match other {
            Act::Edit {
                view: next,
                act: done,
            } => is_same_text(view, next) && is_same_edit(act, done),
            _ => false,
        },
        _ => is_same_ask(one, other),
    }
}

// The same of an act that a plugin may ask.
fn is_same_ask(one: &Act, other: &Act) -> bool
    requires { IsOfPlugin one.now }
    ensures { IsTrue result ↔ (one.now ≡ other.now) }
{
    match one {
        Act::Ended => matches!(other, Act::Ended),
        Act::LineCount { view } => match other {
            Act::LineCount { view: next } => is_same_text(view, next),
            _ => false,
        },
        Act::Alert { msg } => match other {
            Act::Alert { msg: next } => is_same_text(msg, next),
            _ => false,
        },
        Act::Ack { view, rev } => match other {
            Act::Ack {
                view: next,
                rev: at,
            } => rev == at && is_same_text(view, next),
            _ => false,
        },
        Act::GetData {
            view,
            rev,
            start,
            max,
        } => match other {
            Act::GetData {
                view: next,
                rev: at,
                start: from,
                max: most,
            } => rev == at && start == from && max == most && is_same_text(view, next),
            _ => false,
        },
        _ => is_same_list(one, other),
    }
}

// The same of one with a delta or spans.
fn is_same_list(one: &Act, other: &Act) -> bool
    requires { HasList one.now }
    ensures { IsTrue result ↔ (one.now ≡ other.now) }
{
    match one {
        Act::UpdateSpans {
            view,
            rev,
            start,
            len,
            spans,
        } => match other {
            Act::UpdateSpans {
                view: next,
                rev: at,
                start: from,
                len: many,
                spans: others,
            } => {
                rev == at
                    && start == from
                    && len == many
                    && is_same_text(view, next)
                    && are_same(spans.as_slice(), others.as_slice())
            }
            _ => false,
        },
        _ => is_same_change(one, other),
    }
}

// The same of an edit of a plugin.
fn is_same_change(one: &Act, other: &Act) -> bool
    requires { IsChange one.now }
    ensures { IsTrue result ↔ (one.now ≡ other.now) }
{
    match one {
        Act::PluginEdit {
            view,
            rev,
            delta,
            priority,
            after_cursor,
            author,
            named,
        } => match other {
            Act::PluginEdit {
                view: next,
                rev: at,
                delta: change,
                priority: rank,
                after_cursor: after,
                author: by,
                named: group,
            } => {
                rev == at
                    && priority == rank
                    && after_cursor == after
                    && is_same_number(*named, *group)
                    && is_same_text(view, next)
                    && is_same_text(author, by)
                    && is_same_delta(delta, change)
            }
            _ => false,
        },
        _ => unreachable!(),
    }
}
