ghost use Rattle.std.specs.Prelude.{◌≡◌, IfOk};
ghost use Rattle.xi_plain.specs.Acts.{HasNoText, IsSimple, IsOfPlugin, HasList};

use crate::config::Changes;
use crate::motion::{Motion, Touch};
use crate::span::WireSpans;
use plain_edits::Delta;
use plain_text::{NoMemory, Text, TryClone};
use std::alloc::Global;

/// What a line names its answer by.
#[derive(PartialEq, Eq, Drop)]
pub enum Id {
    /// The line has no `id`, and gets no answer.
    NoId,
    /// A whole number, from -2^63 up to 2^64 - 1 where a line gave it.
    Num(i128),
    Word(Text),
}

/// Why a line is refused by itself.
#[derive(PartialEq, Eq, Drop)]
pub enum Fault {
    /// The line is no JSON text.
    Parse,
    /// The line is no request.
    Invalid,
    /// There is no method of this name.
    NoMethod(Text),
    /// This member of the parameters is missing or has another shape.
    BadParams(Text),
}

/// What a line of `edit` asks of a view.
#[derive(Debug, PartialEq, Eq, Drop)]
pub enum EditAct {
    /// Replaces each region by these characters.
    Insert {
        chars: Text,
    },
    /// The same, as a step of its own.
    Paste {
        chars: Text,
    },
    InsertNewline,
    InsertTab,
    DeleteBackward,
    DeleteForward,
    DeleteWordBackward,
    DeleteWordForward,
    Cut,
    Copy,
    Undo,
    Redo,
    SelectAll,
    /// Leaves one caret of all regions.
    Collapse,
    /// Moves each caret; the other end of its region stays where `extend` is true.
    Move {
        motion: Motion,
        extend: bool,
    },
    /// The front end shows the lines from `first` up to `last`, which is not included.
    Scroll {
        first: u64,
        last: u64,
    },
    /// The front end wants these lines, in this line alone.
    RequestLines {
        first: u64,
        last: u64,
    },
    Click {
        line: u64,
        col: u64,
        modifiers: u64,
        count: u64,
    },
    Drag {
        line: u64,
        col: u64,
        modifiers: u64,
    },
    Gesture {
        line: u64,
        col: u64,
        ty: Touch,
    },
    GotoLine {
        line: u64,
    },
    /// Looks for these characters; a member that is `None` says nothing.
    Find {
        chars: Text,
        case_sensitive: Option<bool>,
        regex: Option<bool>,
        whole_words: Option<bool>,
    },
    FindNext {
        wrap_around: Option<bool>,
        allow_same: Option<bool>,
    },
    FindPrevious {
        wrap_around: Option<bool>,
        allow_same: Option<bool>,
    },
    /// Changes nothing.
    Nothing,
}

/// What a line asks. Those after `Edit` and before `Closing` are asked by plugins.
#[derive(PartialEq, Eq, Drop)]
pub enum Act {
    /// The line is refused.
    Bad(Fault),
    /// The line is accepted and changes nothing.
    Nothing,
    /// Changes the configuration.
    Configure(Changes),
    /// Opens a document and a view on it.
    NewView {
        path: Option<Text>,
    },
    /// Closes a view and its document.
    CloseView {
        view: Text,
    },
    /// Writes the head text to the shelf.
    Save {
        view: Text,
        path: Text,
    },
    /// Edits a view.
    Edit {
        view: Text,
        act: EditAct,
    },
    /// Edits the text of a view, as it was at a revision. The author's name has no effect.
    PluginEdit {
        view: Text,
        rev: u64,
        delta: Delta,
        priority: u32,
        after_cursor: bool,
        author: Text,
        /// The undo group that the edit is to join.
        named: Option<u64>,
    },
    /// Reads at most `max` bytes from the offset `start` on.
    GetData {
        view: Text,
        rev: u64,
        start: u64,
        max: u64,
    },
    /// Styles the `len` bytes from the offset `start` on.
    UpdateSpans {
        view: Text,
        rev: u64,
        start: u64,
        len: u64,
        spans: WireSpans,
    },
    LineCount {
        view: Text,
    },
    /// Tells the front end this.
    Alert {
        msg: Text,
    },
    /// The plugin asks for nothing of a revision before this one any more.
    Ack {
        view: Text,
        rev: u64,
    },
    /// The plugin's session is over.
    Ended,
    /// No line is to come.
    Closing,
}

/// A line, as it was read.
#[derive(PartialEq, Eq, Drop)]
pub struct Command {
    pub id: Id,
    pub act: Act,
}

impl TryClone for Id {
    fn copy(&self, alloc: Global) -> Result<Id, NoMemory> {
        match self {
            Id::NoId => Ok(Id::NoId),
            Id::Num(number) => Ok(Id::Num(*number)),
            Id::Word(word) => Ok(Id::Word(word.copy(alloc)?)),
        }
    }
}

impl TryClone for Fault {
    fn copy(&self, alloc: Global) -> Result<Fault, NoMemory> {
        match self {
            Fault::Parse => Ok(Fault::Parse),
            Fault::Invalid => Ok(Fault::Invalid),
            Fault::NoMethod(name) => Ok(Fault::NoMethod(name.copy(alloc)?)),
            Fault::BadParams(member) => Ok(Fault::BadParams(member.copy(alloc)?)),
        }
    }
}

impl TryClone for EditAct {
    fn copy(&self, alloc: Global) -> Result<EditAct, NoMemory> {
        match self {
            EditAct::Insert { chars } => Ok(EditAct::Insert {
                chars: chars.copy(alloc)?,
            }),
            EditAct::Paste { chars } => Ok(EditAct::Paste {
                chars: chars.copy(alloc)?,
            }),
            EditAct::Find {
                chars,
                case_sensitive,
                regex,
                whole_words,
            } => Ok(EditAct::Find {
                chars: chars.copy(alloc)?,
                case_sensitive: *case_sensitive,
                regex: *regex,
                whole_words: *whole_words,
            }),
            _ => Ok(without_text(self)),
        }
    }
}

/// A copy of an act without a text, which takes no memory.
fn without_text(act: &EditAct) -> EditAct
    requires { HasNoText act.now }
    ensures { result ≡ act.now }
{
    match *act {
        EditAct::Click {
            line,
            col,
            modifiers,
            count,
        } => EditAct::Click {
            line,
            col,
            modifiers,
            count,
        },
        EditAct::Drag {
            line,
            col,
            modifiers,
        } => EditAct::Drag {
            line,
            col,
            modifiers,
        },
        EditAct::FindNext {
            wrap_around,
            allow_same,
        } => EditAct::FindNext {
            wrap_around,
            allow_same,
        },
        EditAct::FindPrevious {
            wrap_around,
            allow_same,
        } => EditAct::FindPrevious {
            wrap_around,
            allow_same,
        },
        _ => of_a_line(act),
    }
}

/// A copy of an act that stands on one line.
fn of_a_line(act: &EditAct) -> EditAct
    requires { IsSimple act.now }
    ensures { result ≡ act.now }
{
    match *act {
        EditAct::InsertNewline => EditAct::InsertNewline,
        EditAct::InsertTab => EditAct::InsertTab,
        EditAct::DeleteBackward => EditAct::DeleteBackward,
        EditAct::DeleteForward => EditAct::DeleteForward,
        EditAct::DeleteWordBackward => EditAct::DeleteWordBackward,
        EditAct::DeleteWordForward => EditAct::DeleteWordForward,
        EditAct::Cut => EditAct::Cut,
        EditAct::Copy => EditAct::Copy,
        EditAct::Undo => EditAct::Undo,
        EditAct::Redo => EditAct::Redo,
        EditAct::SelectAll => EditAct::SelectAll,
        EditAct::Collapse => EditAct::Collapse,
        EditAct::Move { motion, extend } => EditAct::Move { motion, extend },
        EditAct::Scroll { first, last } => EditAct::Scroll { first, last },
        EditAct::RequestLines { first, last } => EditAct::RequestLines { first, last },
        EditAct::Gesture { line, col, ty } => EditAct::Gesture { line, col, ty },
        EditAct::GotoLine { line } => EditAct::GotoLine { line },
        EditAct::Nothing => EditAct::Nothing,
        _ => unreachable!(),
    }
}

impl TryClone for Act {
    fn copy(&self, alloc: Global) -> Result<Act, NoMemory> {
        match self {
            Act::Bad(fault) => Ok(Act::Bad(fault.copy(alloc)?)),
            Act::Nothing => Ok(Act::Nothing),
            Act::Configure(changes) => Ok(Act::Configure(*changes)),
            Act::NewView { path } => Ok(Act::NewView {
                path: path.copy(alloc)?,
            }),
            Act::CloseView { view } => Ok(Act::CloseView {
                view: view.copy(alloc)?,
            }),
            Act::Save { view, path } => Ok(Act::Save {
                view: view.copy(alloc)?,
                path: path.copy(alloc)?,
            }),
            Act::Edit { view, act } => Ok(Act::Edit {
                view: view.copy(alloc)?,
                act: act.copy(alloc)?,
            }),
            Act::Closing => Ok(Act::Closing),
            _ => of_a_plugin(alloc, self),
        }
    }
}

/// A copy of an act that a plugin may ask.
fn of_a_plugin(alloc: Global, act: &Act) -> Result<Act, NoMemory>
    requires { IsOfPlugin act.now }
    ensures { IfOk result (λ made. made ≡ act.now) }
{
    match act {
        Act::LineCount { view } => Ok(Act::LineCount {
            view: view.copy(alloc)?,
        }),
        Act::Alert { msg } => Ok(Act::Alert {
            msg: msg.copy(alloc)?,
        }),
        Act::Ack { view, rev } => Ok(Act::Ack {
            view: view.copy(alloc)?,
            rev: *rev,
        }),
        Act::Ended => Ok(Act::Ended),
        Act::GetData {
            view,
            rev,
            start,
            max,
        } => Ok(Act::GetData {
            view: view.copy(alloc)?,
            rev: *rev,
            start: *start,
            max: *max,
        }),
        _ => with_list(alloc, act),
    }
}

/// A copy of an act with a delta or spans.
fn with_list(alloc: Global, act: &Act) -> Result<Act, NoMemory>
    requires { HasList act.now }
    ensures { IfOk result (λ made. made ≡ act.now) }
{
    match act {
        Act::PluginEdit {
            view,
            rev,
            delta,
            priority,
            after_cursor,
            author,
            named,
        } => Ok(Act::PluginEdit {
            view: view.copy(alloc)?,
            rev: *rev,
            delta: delta.copy(alloc)?,
            priority: *priority,
            after_cursor: *after_cursor,
            author: author.copy(alloc)?,
            named: *named,
        }),
        Act::UpdateSpans {
            view,
            rev,
            start,
            len,
            spans,
        } => Ok(Act::UpdateSpans {
            view: view.copy(alloc)?,
            rev: *rev,
            start: *start,
            len: *len,
            spans: spans.copy(alloc)?,
        }),
        _ => unreachable!(),
    }
}

impl TryClone for Command {
    fn copy(&self, alloc: Global) -> Result<Command, NoMemory> {
        Ok(Command {
            id: self.id.copy(alloc)?,
            act: self.act.copy(alloc)?,
        })
    }
}
