use plain_edits::Misfit;
use plain_text::Text;
use xi_plain::Fault;

/// The number of the refusal of an edit that would insert more characters than may be.
pub const SPENT: i64 = 3;

/// What an entry is answered by its piece.
#[derive(Drop)]
pub enum FrontReply {
    /// The view with this id was opened.
    Opened(Text),
    /// It was accepted, and has no result.
    Accepted,
    /// It was accepted, and its result is this text.
    Copied(Text),
    /// The line was refused.
    Refused(Fault),
    /// The shelf could not do what was asked of it.
    ShelfFailed,
    /// The bytes of the file are not UTF-8.
    NotText,
    /// It would insert more characters than may be.
    Spent,
    /// It asks for no answer, and has a message for the user.
    Alert(Text),
    /// It asks for no answer.
    Silent,
}

/// What a line of a plugin is answered.
#[derive(Drop)]
pub enum PluginReply {
    /// It was taken, and has no result.
    Null,
    /// The edit is this revision, in this undo group.
    Edited { rev: u64, group: u64 },
    /// A part of a text, which starts at the byte `offset`.
    Chunk { text: Text, offset: u64 },
    /// How many lines there are.
    Lines(u64),
    /// The line is none, its view is not there, or a member is no place of the text.
    Refused(Fault),
    /// So many characters would have been inserted after loading, which is more than the limit.
    Spent(u128),
    /// The revision that it names is above this one, the head.
    Unknown(u64),
    /// The revision that it names is below this one, the floor.
    Collected(u64),
    /// The delta does not fit the text of its base: its first misfit.
    Misfit(Misfit),
}
