use plain_edits::Spans;

/// Styles of a plugin for a text that it has read.
#[derive(Drop)]
pub struct AskedSpans {
    /// The revision whose text this is.
    pub rev: u64,
    /// Where the range starts, in bytes of that text, and how many bytes it has. What is in it and in no span loses its style.
    pub start: u64,
    pub len: u64,
    /// In bytes from the start of the range, each with the id of its style. Of two over one character the later one wins.
    pub spans: Spans,
}
