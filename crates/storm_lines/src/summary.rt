ghost use Rattle.std.specs.Prelude.{◌≡◌, ◌++◌, IfOk, OnOk, string_bytes};
ghost use Rattle.storm_lines.specs.Summary.{named_line, summary_text};

use plain_text::NoMemory;
use std::alloc::Global;

/// What a storm came to.
#[derive(Clone, Copy)]
pub struct Summary {
    /// The entries of its journal.
    pub entries: u64,
    /// The head of its document.
    pub revision: u64,
    /// The characters of the head text.
    pub characters: u64,
    /// The characters that some revision can still show.
    pub kept: u64,
    /// The lines of the layout.
    pub lines: u64,
    /// The valid lines of the screen that a front end has rebuilt.
    pub valid: u64,
}

impl Summary {
    /// Its six lines.
    pub fn text(&self, alloc: Global) -> Result<String, NoMemory>
        ensures { IfOk result (λ text. string_bytes text ≡ summary_text self.now) }
    {
        let mut text = String::new(alloc);
        push_line(&mut text, alloc, "entries", self.entries)?;
        push_line(&mut text, alloc, "revision", self.revision)?;
        push_line(&mut text, alloc, "characters", self.characters)?;
        push_line(&mut text, alloc, "kept", self.kept)?;
        push_line(&mut text, alloc, "lines", self.lines)?;
        push_line(&mut text, alloc, "valid", self.valid)?;
        Ok(text)
    }
}

/// Puts a line at the end that tells a number by its name.
fn push_line(text: &mut String, alloc: Global, name: &str, number: u64) -> Result<(), NoMemory>
    ensures { OnOk result (string_bytes text.new ≡ string_bytes text.old ++ named_line name.now number) }
{
    let line = format!(in alloc; "{name} {number}\n")?;
    text.push_str(line.as_str())?;
    Ok(())
}
