use plain_text::Text;
use xi_plain::{Id, Notice};

/// What a notice tells a plugin.
#[derive(PartialEq, Eq, Drop)]
pub enum Told {
    /// The session starts, and the plugin has this number among the callers.
    Started { caller: u32 },
    /// A view was opened on a text of `len` bytes, at revision 0.
    Opened { view: Text, len: u64 },
    /// A revision came.
    Changed(Notice),
    Closed { view: Text },
    /// The session is over.
    Stopped,
}

/// What an answer gives.
#[derive(PartialEq, Eq, Drop)]
pub enum Answered {
    /// A part of a text, which starts at the byte `offset`.
    Chunk { text: Text, offset: u64 },
    /// The edit is this revision, in this undo group.
    Edited { rev: u64, group: u64 },
    /// How many lines there are.
    Lines(u64),
    Null,
    /// The line that is answered was refused.
    Failed { code: i64, message: Text },
    /// A result of another shape, or with a number that has no room in 64 bits.
    Other,
}

/// What a plugin hears in a line.
#[derive(PartialEq, Eq, Drop)]
pub enum Heard {
    Told(Told),
    /// The answer to the ask with this id; of an error, [`Id::NoId`] where the line that is answered had none.
    Answer { id: Id, answer: Answered },
    /// The line is no notice and no answer, or a number in it has no room in its type.
    Nothing,
}
