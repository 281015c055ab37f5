ghost use Rattle.std.specs.Prelude.{◌≡◌, IfOk};
ghost use Rattle.run_folder.specs.Folder.{part_name, path_of};

use plain_text::{NoMemory, Text};
use std::alloc::Global;

/// A file of a folder.
#[derive(Clone, Copy, Debug, PartialEq, Eq)]
pub enum Part {
    /// What the front end sent.
    Tape,
    /// The entries.
    Journal,
}

impl Part {
    /// The name of the file.
    pub fn name(self) -> &'static str
        ensures { result.now ≡ part_name self }
    {
        match self {
            Part::Tape => "tape",
            Part::Journal => "journal",
        }
    }
}

/// The path of a file of a folder.
pub(crate) fn path_of(alloc: Global, folder: &Text, part: Part) -> Result<Text, NoMemory>
    ensures { IfOk result (λ path. path ≡ path_of folder.now part) }
{
    let mut path = Text::from_str(alloc, folder.as_str())?;
    path.push('/')?;
    path.push_str(part.name())?;
    Ok(path)
}
