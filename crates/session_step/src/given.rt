use plain_text::Text;

/// What the shelf gave an entry.
#[derive(Drop)]
pub enum Given {
    /// It was not asked.
    Nothing,
    /// The text of a file, which is empty where there is no file.
    Found(Text),
    /// The bytes of the file are no text.
    NotText,
    /// It could not do what was asked.
    Failed,
    /// The file was written.
    Done,
}
