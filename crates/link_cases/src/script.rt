// Turns over a link, told in words.
use plain_text::{NoMemory, Text, Texts};
use plugin_link::{Link, LinkEnd, LinkPlugin, MemLink, Plugin, Turn};
use std::alloc::Global;

// One letter for how a link ended.
fn letter(end: Option<LinkEnd>) -> char {
    match end {
        None => '-',
        Some(LinkEnd::Ended) => 'E',
        Some(LinkEnd::PullFailed) => 'l',
        Some(LinkEnd::PushFailed) => 's',
        Some(LinkEnd::TooLong) => 'L',
        Some(LinkEnd::TooMany) => 'M',
        Some(LinkEnd::NotText) => 'T',
        Some(LinkEnd::NoMemory) => '?',
    }
}

// The lines that words are.
fn words(alloc: Global, words: &str) -> Result<Texts, NoMemory> {
    let mut lines = Texts::new(alloc);
    for word in words.split(' ') {
        if !word.is_empty() {
            lines.push(Text::from_str(alloc, word)?)?;
        }
    }
    Ok(lines)
}

// A turn's lines, and a full stop where it was done.
fn tell(told: &mut Text, turn: &Turn) -> Result<(), NoMemory> {
    for line in turn.lines.as_slice() {
        told.push_text(line)?;
        told.push(' ')?;
    }
    told.push(if turn.done { '.' } else { '/' })
}

// So many turns, each handed these words, and how the link ended.
pub(crate) fn turns<L: Link + Drop>(
    alloc: Global,
    plugin: &mut LinkPlugin<L>,
    handed: &str,
    most: u64,
) -> Result<Text, NoMemory> {
    let lines = words(alloc, handed)?;
    let mut told = Text::new(alloc);
    for _ in 0..most {
        let turn = plugin.turn(lines.as_slice());
        tell(&mut told, &turn)?;
    }
    told.push(letter(plugin.end()))?;
    Ok(told)
}

// A link that has these bytes, gives and takes so many at a time, and fails at the calls with these numbers.
pub(crate) fn link(
    alloc: Global,
    bytes: &[u8],
    most: [usize; 2],
    failing: &[u64],
) -> Result<MemLink, NoMemory> {
    let mut left = Vec::with_capacity(alloc, bytes.len())?;
    left.extend_from_slice(bytes)?;
    let mut numbers = Vec::with_capacity(alloc, failing.len())?;
    numbers.extend_from_slice(failing)?;
    let [pulled, pushed] = most;
    Ok(MemLink::new(alloc, left, pulled.max(1), pushed.max(1), numbers))
}

pub(crate) fn is(made: Result<Text, NoMemory>, expected: &str) -> bool {
    match made {
        Ok(text) => text.as_str() == expected,
        Err(_) => false,
    }
}
