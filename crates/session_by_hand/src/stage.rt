ghost use Rattle.std.specs.Prelude.{IfOk};
ghost use Rattle.session_by_hand.specs.Stage.{IsAfter, IsAfterCall, IsAfterFile, IsAfterFirstCall};

use crate::call::{after_mark, call_of, plugins_of};
use crate::files::{File, file_of};
use crate::hand::{Hand, Made};
use outside::CalmShelf;
use plain_text::{Bytes, List, NoMemory};
use std::alloc::Global;

/// How far the lines have come.
#[derive(Drop)]
pub enum Stage {
    /// None was read.
    First,
    /// So many plugins were said, and these files.
    Files(u32, CalmShelf),
    /// A call was made.
    Calls(Hand),
}

/// What a line came to: the stage after it, and what is printed of it.
#[derive(Drop)]
pub struct Step {
    pub stage: Stage,
    pub said: Bytes,
}

impl Stage {
    /// What a line comes to, without its LF; `None` where it is of no form here.
    pub fn after(self, alloc: Global, line: &[u8]) -> Result<Option<Step>, NoMemory>
        ensures { IfOk result (λ next. IsAfter self line.now next) }
    {
        match self {
            Stage::First => Ok(plugins_of(line).map(|plugins| Step {
                stage: Stage::Files(plugins, CalmShelf::new(alloc)),
                said: List::new(alloc),
            })),
            Stage::Files(plugins, shelf) => match after_mark(line, b"file ") {
                Some(text) => with_file(alloc, plugins, shelf, text),
                None => first_call(alloc, plugins, shelf, line),
            },
            Stage::Calls(hand) => played(alloc, hand, line),
        }
    }
}

/// After a line that says a file behind its first word.
fn with_file(
    alloc: Global,
    plugins: u32,
    shelf: CalmShelf,
    text: &[u8],
) -> Result<Option<Step>, NoMemory>
    ensures { IfOk result (λ next. IsAfterFile plugins shelf text.now next) }
{
    let Some(File { name, bytes }) = file_of(alloc, text)? else {
        return Ok(None);
    };
    if shelf.get(&name).is_some() {
        return Ok(None);
    }
    let mut shelf = shelf;
    shelf.put(name, bytes)?;
    Ok(Some(Step {
        stage: Stage::Files(plugins, shelf),
        said: List::new(alloc),
    }))
}

/// After the first call.
fn first_call(
    alloc: Global,
    plugins: u32,
    shelf: CalmShelf,
    line: &[u8],
) -> Result<Option<Step>, NoMemory>
    ensures { IfOk result (λ next. IsAfterFirstCall plugins shelf line.now next) }
{
    let hand = Hand::make(alloc, plugins, shelf)?;
    played(alloc, hand, line)
}

/// After a call.
fn played(alloc: Global, hand: Hand, line: &[u8]) -> Result<Option<Step>, NoMemory>
    ensures { IfOk result (λ next. IsAfterCall hand.plugins hand.core line.now next) }
{
    let Some(call) = call_of(hand.plugins, line) else {
        return Ok(None);
    };
    let Made { hand, said } = hand.play(alloc, call)?;
    Ok(Some(Step {
        stage: Stage::Calls(hand),
        said,
    }))
}
