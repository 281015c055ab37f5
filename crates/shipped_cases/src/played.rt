// A plugin that is handed turns of lines, and tells what it gave.
use plain_text::{NoMemory, Text, Texts};
use plugin_session::{Plugin, Turn};
use std::alloc::Global;

// The lines of a text; none of an empty one.
fn lines_of(alloc: Global, text: &str) -> Result<Texts, NoMemory> {
    let mut lines = Texts::new(alloc);
    for line in text.split('|') {
        if !line.is_empty() {
            lines.push(Text::from_str(alloc, line)?)?;
        }
    }
    Ok(lines)
}

fn tell(told: &mut Text, turn: &Turn) -> Result<(), NoMemory> {
    for line in turn.lines.as_slice() {
        told.push_text(line)?;
        told.push('|')?;
    }
    if turn.done {
        told.push('.')?;
    }
    Ok(())
}

fn given<P: Plugin>(alloc: Global, plugin: &mut P, handed: &str) -> Result<Text, NoMemory> {
    let lines = lines_of(alloc, handed)?;
    let turn = plugin.turn(lines.as_slice());
    let mut told = Text::new(alloc);
    tell(&mut told, &turn)?;
    Ok(told)
}

// Whether a turn with these lines gives these, each with a bar behind it, and goes on. A bar parts the lines that are handed in.
pub(crate) fn gives<P: Plugin>(
    alloc: Global,
    plugin: &mut P,
    handed: &str,
    expected: &str,
) -> bool {
    match given(alloc, plugin, handed) {
        Ok(told) => told.as_str() == expected,
        Err(_) => false,
    }
}
