//! A plugin that types its letter once for each edit of the front end.
use plain_text::{NoMemory, Text, Texts};
use std::alloc::Global;
use xi_top::{Plugin, Turn};

// It types at the start of the text, against the revision that it knows.
#[derive(Drop)]
pub(crate) struct Typist {
    letter: char,
    revision: u64,
    pub(crate) len: u64,
    alloc: Global,
}

// The digits of these bytes, as one number.
fn number_in(text: &str) -> u64 {
    let mut number: u64 = 0;
    for byte in text.as_bytes() {
        let byte = *byte;
        if byte >= b'0' && byte <= b'9' {
            number = number
                .saturating_mul(10)
                .saturating_add(u64::from(byte - b'0'));
        }
    }
    number
}

fn digit(number: u64) -> char {
    char::from(b'0' + (number % 10) as u8)
}

// A number below 100,000.
fn push_number(text: &mut Text, number: u64) -> Result<(), NoMemory> {
    if number >= 10_000 {
        text.push(digit(number / 10_000))?;
    }
    if number >= 1000 {
        text.push(digit(number / 1000))?;
    }
    if number >= 100 {
        text.push(digit(number / 100))?;
    }
    if number >= 10 {
        text.push(digit(number / 10))?;
    }
    text.push(digit(number))
}

impl Typist {
    pub(crate) fn new(alloc: Global, letter: char) -> Typist {
        Typist {
            letter,
            revision: 0,
            len: 0,
            alloc,
        }
    }

    // Reads what a line tells: the author of an edit, where it is one.
    pub(crate) fn read(&mut self, line: &str) -> Option<u64> {
        if !line.contains("\"method\":\"update\"") {
            return None;
        }
        let mut author = None;
        for part in line.split(',') {
            if part.starts_with("\"params\":{\"author\":") {
                author = Some(number_in(part));
            }
            if part.starts_with("\"rev\":") {
                self.revision = number_in(part);
            }
            if part.starts_with("\"new_len\":") {
                self.len = number_in(part);
            }
        }
        author
    }

    // Its letter, before all that it knows.
    pub(crate) fn edit(&self) -> Result<Text, NoMemory> {
        let mut line = Text::from_str(
            self.alloc,
            "{\"id\":1,\"method\":\"edit\",\"params\":{\"after_cursor\":false,\"author\":\"p\",\"delta\":{\"base_len\":",
        )?;
        push_number(&mut line, self.len)?;
        line.push_str(",\"els\":[{\"insert\":\"")?;
        line.push(self.letter)?;
        line.push_str("\"},{\"copy\":[0,")?;
        push_number(&mut line, self.len)?;
        line.push_str("]}]},\"priority\":1,\"rev\":")?;
        push_number(&mut line, self.revision)?;
        line.push_str(",\"view_id\":\"view-id-1\"}}")?;
        Ok(line)
    }

    // The first 2^20 bytes of the text that it knows.
    pub(crate) fn reading(&self) -> Result<Text, NoMemory> {
        let mut line = Text::from_str(
            self.alloc,
            "{\"id\":2,\"method\":\"get_data\",\"params\":{\"max_size\":1048576,\"rev\":",
        )?;
        push_number(&mut line, self.revision)?;
        line.push_str(",\"start\":0,\"view_id\":\"view-id-1\"}}")?;
        Ok(line)
    }

    fn edit_all(&mut self, lines: &[Text]) -> Result<Texts, NoMemory> {
        let mut edits: u32 = 0;
        for line in lines {
            if self.read(line.as_str()) == Some(0) {
                edits = edits.saturating_add(1);
            }
        }
        let mut answers = Texts::new(self.alloc);
        for _ in 0..edits {
            answers.push(self.edit()?)?;
        }
        Ok(answers)
    }
}

impl Plugin for Typist {
    ghost use Rattle.std.specs.Prelude.{None};

    ghost told = { λ p. None };

    fn turn(&mut self, lines: &[Text]) -> Turn {
        Turn {
            lines: self.edit_all(lines).unwrap_or(Texts::new(self.alloc)),
            done: false,
        }
    }
}
