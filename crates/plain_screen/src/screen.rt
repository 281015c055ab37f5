use plain_text::{List, NoMemory, Offsets, Text, TryClone};
use std::alloc::Global;

/// A style of a part of a line, in bytes: `start` counts from the end of the triple before.
#[derive(Clone, Copy, PartialEq, Eq)]
pub struct Triple {
    pub start: i64,
    pub len: u64,
    pub id: u64,
}

/// The styles of a line, in order.
pub type Triples = List<Triple>;

/// A line as a front end shows it.
#[derive(PartialEq, Eq, Drop)]
pub struct Line {
    /// The characters, with the line's LF where it has one.
    pub text: Text,
    /// The number of the logical line, from 1, on the first line that shows a part of it.
    pub ln: Option<u64>,
    /// The byte offsets of the carets in the line, rising.
    pub cursor: Offsets,
    pub styles: Triples,
}

/// Lines, from the top.
pub type Lines = List<Line>;

/// What becomes of an old line whose text stays.
#[derive(PartialEq, Eq, Drop)]
pub struct Restyle {
    /// The byte offsets of the carets in the line, rising.
    pub cursor: Offsets,
    pub styles: Triples,
}

/// What becomes of old lines, from the first of them on.
pub type Restyles = List<Restyle>;

/// What a front end does with its list of lines.
#[derive(PartialEq, Eq, Drop)]
pub enum Op {
    /// Takes over the next `n` old lines, and numbers those that have a number from `ln` on.
    Copy { n: u64, ln: Option<u64> },
    /// Passes over the next `n` old lines.
    Skip { n: u64 },
    /// Adds `n` lines that are not valid.
    Invalidate { n: u64 },
    /// Adds these lines.
    Ins { lines: Lines },
    /// Takes over as many old lines as these, each with its text and with new carets and styles, and numbers those that have a number from
    /// `ln` on.
    Update { ln: Option<u64>, lines: Restyles },
}

/// Operations, in order.
pub type Ops = List<Op>;

/// What a front end is told of one view.
#[derive(PartialEq, Eq, Drop)]
pub struct Update {
    pub ops: Ops,
    /// Whether the text is the one that was loaded or last saved.
    pub pristine: bool,
}

impl TryClone for Triple {
    fn copy(&self, _alloc: Global) -> Result<Triple, NoMemory> {
        Ok(*self)
    }
}

impl TryClone for Line {
    fn copy(&self, alloc: Global) -> Result<Line, NoMemory> {
        Ok(Line {
            text: self.text.copy(alloc)?,
            ln: self.ln,
            cursor: self.cursor.copy(alloc)?,
            styles: self.styles.copy(alloc)?,
        })
    }
}

impl TryClone for Restyle {
    fn copy(&self, alloc: Global) -> Result<Restyle, NoMemory> {
        Ok(Restyle {
            cursor: self.cursor.copy(alloc)?,
            styles: self.styles.copy(alloc)?,
        })
    }
}

impl TryClone for Op {
    fn copy(&self, alloc: Global) -> Result<Op, NoMemory> {
        match self {
            Op::Copy { n, ln } => Ok(Op::Copy { n: *n, ln: *ln }),
            Op::Skip { n } => Ok(Op::Skip { n: *n }),
            Op::Invalidate { n } => Ok(Op::Invalidate { n: *n }),
            Op::Ins { lines } => Ok(Op::Ins {
                lines: lines.copy(alloc)?,
            }),
            Op::Update { ln, lines } => Ok(Op::Update {
                ln: *ln,
                lines: lines.copy(alloc)?,
            }),
        }
    }
}

impl TryClone for Update {
    fn copy(&self, alloc: Global) -> Result<Update, NoMemory> {
        Ok(Update {
            ops: self.ops.copy(alloc)?,
            pristine: self.pristine,
        })
    }
}
