ghost use Rattle.std.specs.Prelude.{IfOk};
ghost use Rattle.session_by_hand.specs.Files.{IsFileIn};

use case_lines::Words;
use hex::FromHexError;
use plain_text::{Bytes, List, NoMemory, Text};
use std::alloc::Global;

/// A file of the shelf.
#[derive(Drop)]
pub struct File {
    pub name: Text,
    pub bytes: Bytes,
}

/// The file that a line says behind its first word; `None` where it says none.
pub fn file_of(alloc: Global, text: &[u8]) -> Result<Option<File>, NoMemory>
    ensures { IfOk result (λ found. IsFileIn text.now found) }
{
    let mut words = Words { rest: text };
    let name = Vec::from_slice(alloc, words.next_word())?;
    let Ok(name) = Text::from_utf8(name) else {
        return Ok(None);
    };
    match hex::decode(alloc, words.rest) {
        Ok(bytes) => Ok(Some(File {
            name,
            bytes: List::from_vec(bytes),
        })),
        Err(FromHexError::OutOfMemory) => Err(NoMemory),
        Err(_) => Ok(None),
    }
}
