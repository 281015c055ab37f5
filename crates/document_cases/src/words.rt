//! What the words of a line mean.

ghost use Rattle.std.specs.Prelude.{◌<◌, ◌≤◌, ◌-◌, length};

use anyhow::{Context, bail};
use case_lines::{Words, number_of, unquoted};
use plain_text::Text;
use std::alloc::Global;

/// The number behind a name, as in `base=3`.
pub fn field(name: &[u8], words: &mut Words<'_>) -> anyhow::Result<u64>
    ensures { length words.new.rest.now ≤ length words.old.rest.now - 1 }
{
    match words.next_word().strip_prefix(name) {
        Some(digits) => number_of(digits).context("a number is due"),
        None => bail!("a number with a name is due, as `base=0`"),
    }
}

pub fn number(words: &mut Words<'_>) -> anyhow::Result<u64>
    ensures { length words.new.rest.now ≤ length words.old.rest.now - 1 }
{
    number_of(words.next_word()).context("a number is due")
}

/// The text that one word is.
pub fn text_word(alloc: Global, words: &mut Words<'_>) -> anyhow::Result<Text>
    ensures { length words.new.rest.now ≤ length words.old.rest.now - 1 }
{
    text(alloc, words.next_word())
}

/// The text that all words up to the end of the line are.
pub fn text_left(alloc: Global, words: &mut Words<'_>) -> anyhow::Result<Text> {
    let written = words.rest;
    words.rest = b"";
    text(alloc, written)
}

/// A text of so many letters, and behind them what all words up to the end of the line are.
pub fn long_text(alloc: Global, words: &mut Words<'_>) -> anyhow::Result<Text> {
    let mut long = Text::new(alloc);
    for _ in 0..number(words)? {
        long.push_str("a")?;
    }
    let end = text_left(alloc, words)?;
    long.push_str(end.as_str())?;
    Ok(long)
}

fn text(alloc: Global, written: &[u8]) -> anyhow::Result<Text> {
    let Some(bytes) = unquoted(alloc, written)? else {
        bail!("a backslash needs n, t, s or a backslash after it");
    };
    match Text::from_utf8(bytes) {
        Ok(text) => Ok(text),
        Err(_) => bail!("a text is UTF-8"),
    }
}
