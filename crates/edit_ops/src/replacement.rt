use plain_text::{Run, Text};

/// What a command does to one region: the characters of the range are dropped, and the text is added at its start.
#[derive(Drop)]
pub struct Replacement {
    pub range: Run,
    pub text: Text,
}
