use plain_edits::Spans;
use plain_screen::Update;
use plain_text::Text;
use rev_engine::Edit;
use xi_plain::{Config, EditAct, Notice};

/// What happens to a document.
#[derive(Drop)]
pub enum Event {
    /// The front end edits its view, or undoes or redoes a group.
    Front(EditAct),
    /// The plugin with this number, from 1, edits the text. The edit's group and author are those that the document gives it: it
    /// joins the group that the plugin names, where that counts from 1, has an edit and is not collected, and else opens the next.
    Edit {
        caller: u32,
        edit: Edit,
        named: Option<u64>,
    },
    /// The plugin with this number, from 1, says styles of a range of the text of this revision. Of the characters of the range those that
    /// the head shows lose what this plugin said of them, and get what the spans say; all others keep their styles, and so do all that
    /// other plugins said. The text is no other, and the run of typing goes on.
    Spans {
        caller: u32,
        rev: u64,
        /// Where the range starts, in bytes of that text, and how many bytes it has.
        start: u64,
        len: u64,
        /// In bytes from the start of the range, each with the id of its style, from 2 on. Of two over one character the later one wins.
        spans: Spans,
    },
    /// The plugin with this number, from 1, reads the text of this revision, from a place of it on. Like a count this changes nothing, and the
    /// run of typing goes on.
    Read {
        caller: u32,
        rev: u64,
        /// Where it reads from, in bytes of that text.
        start: u64,
        /// The most bytes that it takes; more than 2^20 are not given at once.
        max: u64,
    },
    /// The plugin with this number, from 1, asks how many logical lines the head text has.
    Count {
        caller: u32,
    },
    /// The plugin with this number, from 1, has the text of this revision, and needs no older one any more. Where its session has
    /// ended, or has acknowledged that much, this changes nothing.
    Ack {
        caller: u32,
        rev: u64,
    },
    /// The session of the plugin with this number, from 1, has ended: what it acknowledged counts no more.
    Ended {
        caller: u32,
    },
    /// The text is laid out and edited so from now on, whether it was before or not. This ends the run of typing.
    Config(Config),
    /// The head text was saved: its revision is the saved one from then on. This ends the run of typing.
    Saved,
    /// A line of the front end that is none of this document's, or the one that opens its view: it ends the run of typing.
    Other,
}

/// What an event is answered.
#[derive(PartialEq, Eq, Drop)]
pub enum Body {
    Null,
    /// The texts of the regions that are no carets, with an LF between each two.
    Copied { text: Text },
    /// The edit is this revision, in this undo group.
    Edited { rev: u64, group: u64 },
    /// The longest text from this byte offset on that was asked for: it ends at a place.
    Chunk { text: Text, offset: u64 },
    /// How many logical lines the head text has.
    Lines(u64),
}

/// What an event came to, for those outside.
#[derive(Drop)]
pub struct Effects {
    pub body: Body,
    pub update: Option<Update>,
    /// The line, from 0, and the offset in it, in bytes, where the caret of the last region now stands.
    pub scroll: Option<(u64, u64)>,
    /// The change, for the plugins. A document does not know the id of its view, so `view` is empty.
    pub notice: Option<Notice>,
}
