use crate::words::Size;
use std::alloc::Global;

/// What lines repeat.
const WORDS: &[u8; 28] = b"lorem ipsum dolor sit amet, ";

const WORDS_LEN: u64 = 28;

/// The line that types a text of this size into the first view, with LF and quotes as JSON writes them.
pub fn typing_of(alloc: Global, size: Size) -> anyhow::Result<String> {
    let mut line = String::from_str(
        alloc,
        "{\"method\":\"edit\",\"params\":{\"method\":\"insert\",\"params\":{\"chars\":\"",
    )?;
    match size {
        Size::Lines(count, len) => {
            for _ in 0..count {
                push_words(&mut line, len)?;
                line.push_str("\\n")?;
            }
        }
        Size::Line(len) => push_words(&mut line, len)?,
    }
    line.push_str("\"},\"view_id\":\"view-id-1\"}}")?;
    Ok(line)
}

/// So many characters of the words, from their start.
fn push_words(line: &mut String, len: u64) -> anyhow::Result<()> {
    for at in 0..len {
        let byte = WORDS[(at % WORDS_LEN) as usize];
        line.push(char::from(byte))?;
    }
    Ok(())
}
