ghost use Rattle.std.specs.Prelude.{◌≡◌, ◌++◌, IfOk};
ghost use Rattle.outside.specs.Schedule.{schedule_of};
ghost use Rattle.case_scripts.specs.Shelf.{files_before, is_before, is_named, may_hold, no_files, put_last, settled, text_in, with_bytes, with_failing, with_name, with_named, with_path, with_text};

use outside::{CalmShelf, MemShelf};
use plain_text::{Bytes, List, NoMemory, Text, TryClone};
use std::alloc::Global;

/// When a file of the shelf is spoken of.
#[derive(Clone, Copy)]
pub enum When {
    /// What it holds before the run.
    Before,
    /// What it holds after the run.
    After,
    /// After the run there is none.
    Gone,
}

/// What a script says of a file of the shelf.
#[derive(Drop)]
pub struct FileSaid {
    pub when: When,
    pub path: Text,
    /// What it holds; empty where there is none.
    pub bytes: Bytes,
}

/// What a script says of the shelf of a run: of its files, and which of its calls fail.
#[derive(Drop)]
pub struct ShelfSaid {
    /// The files, but for the last one.
    pub files: List<FileSaid>,
    /// The last one, to which lines of bytes belong.
    pub last: Option<FileSaid>,
    /// The numbers of the calls that fail, from 1.
    pub failing: List<u64>,
}

impl ShelfSaid {
    pub fn new(alloc: Global) -> ShelfSaid
        ensures { result ≡ no_files }
    {
        ShelfSaid {
            files: List::new(alloc),
            last: None,
            failing: List::new(alloc),
        }
    }

    /// With a line that names a file; `None` where it may not stand there.
    pub fn with_name(
        self,
        alloc: Global,
        when: When,
        path: &[u8],
    ) -> Result<Option<ShelfSaid>, NoMemory>
        ensures { IfOk result (λ after. after ≡ with_name self when path.now) }
    {
        match text_of(alloc, path)? {
            Some(path) => self.with_path(alloc, when, path),
            None => Ok(None),
        }
    }

    fn with_path(self, alloc: Global, when: When, path: Text) -> Result<Option<ShelfSaid>, NoMemory>
        ensures { IfOk result (λ after. after ≡ with_path self when path) }
    {
        let bytes = List::new(alloc);
        Ok(self.settled()?.with_named(FileSaid { when, path, bytes }))
    }

    /// With a file that is named now, unless it was before.
    fn with_named(self, file: FileSaid) -> Option<ShelfSaid>
        ensures { result ≡ with_named self file }
    {
        if is_named(self.files.as_slice(), file.when, &file.path) {
            return None;
        }
        let ShelfSaid {
            files,
            last: _,
            failing,
        } = self;
        Some(ShelfSaid {
            files,
            last: Some(file),
            failing,
        })
    }

    /// With bytes of the file that was named last; `None` where they may not stand there.
    pub fn with_text(self, text: &[u8], end: &[u8]) -> Result<Option<ShelfSaid>, NoMemory>
        ensures { IfOk result (λ after. after ≡ with_text self (text.now ++ end.now)) }
    {
        let ShelfSaid {
            files,
            last,
            failing,
        } = self;
        match last {
            Some(file) if may_hold(file.when) => Ok(Some(ShelfSaid {
                files,
                last: Some(file.with_bytes(text, end)?),
                failing,
            })),
            _ => Ok(None),
        }
    }

    /// With the number of a call that fails.
    pub fn with_failing(self, call: u64) -> Result<ShelfSaid, NoMemory>
        ensures { IfOk result (λ after. after ≡ with_failing self call) }
    {
        let ShelfSaid {
            files,
            last,
            failing,
        } = self;
        let mut failing = failing;
        failing.push(call)?;
        Ok(ShelfSaid {
            files,
            last,
            failing,
        })
    }

    /// With the last file put to the others.
    pub fn settled(self) -> Result<ShelfSaid, NoMemory>
        ensures { IfOk result (λ after. after ≡ settled self) }
    {
        let ShelfSaid {
            files,
            last,
            failing,
        } = self;
        Ok(ShelfSaid {
            files: put_last(files, last)?,
            last: None,
            failing,
        })
    }

    /// The shelf before the run, once the last file was put to the others.
    pub fn shelf(&self, alloc: Global) -> Result<MemShelf, NoMemory>
        ensures files { IfOk result (λ shelf. shelf.files ≡ files_before self.now.files) }
        ensures schedule { IfOk result (λ shelf. shelf.schedule ≡ schedule_of self.now.failing) }
    {
        let failing = self.failing.copy(alloc)?;
        let shelf = files_before(alloc, self.files.as_slice())?;
        Ok(MemShelf::new(shelf, failing.into_vec()))
    }

    /// The files, once the last one was put to the others.
    pub fn into_files(self) -> List<FileSaid>
        ensures { result ≡ self.files }
    {
        let ShelfSaid {
            files,
            last: _,
            failing: _,
        } = self;
        files
    }
}

impl FileSaid {
    /// The file with more bytes.
    fn with_bytes(self, text: &[u8], end: &[u8]) -> Result<FileSaid, NoMemory>
        ensures { IfOk result (λ made. made ≡ with_bytes self (text.now ++ end.now)) }
    {
        let FileSaid { when, path, bytes } = self;
        let mut bytes = bytes.into_vec();
        bytes.extend_from_slice(text)?;
        bytes.extend_from_slice(end)?;
        Ok(FileSaid {
            when,
            path,
            bytes: List::from_vec(bytes),
        })
    }
}

fn put_last(files: List<FileSaid>, last: Option<FileSaid>) -> Result<List<FileSaid>, NoMemory>
    ensures { IfOk result (λ all. all ≡ put_last files last) }
{
    let Some(file) = last else {
        return Ok(files);
    };
    let mut files = files;
    files.push(file)?;
    Ok(files)
}

/// The text that these bytes are in UTF-8, if they are one.
#[tactic(auto, using(crate::proofs::TextLemmas::text_of_utf8, crate::proofs::TextLemmas::text_of_none))]
pub fn text_of(alloc: Global, bytes: &[u8]) -> Result<Option<Text>, NoMemory>
    ensures { IfOk result (λ text. text ≡ text_in bytes.now) }
{
    match Text::from_utf8(Vec::from_slice(alloc, bytes)?) {
        Ok(text) => {
            // Its characters are those of the bytes.
            let _utf8 = text.as_str();
            Ok(Some(text))
        }
        Err(_) => Ok(None),
    }
}

/// Whether what is said is said of the files before the run.
pub fn is_before(when: When) -> bool
    ensures { result ≡ is_before when }
{
    matches!(when, When::Before)
}

/// Whether a file then holds something, if only no bytes.
pub fn may_hold(when: When) -> bool
    ensures { result ≡ may_hold when }
{
    !matches!(when, When::Gone)
}

/// Whether one of the files has this path, of those before the run or of those after it.
pub fn is_named(files: &[FileSaid], when: When, path: &Text) -> bool
    ensures { result ≡ is_named files.now when path.now }
{
    let before = is_before(when);
    files.iter().any(|file| file.path == *path && is_before(file.when) == before)
}

fn files_before(alloc: Global, files: &[FileSaid]) -> Result<CalmShelf, NoMemory>
    ensures { IfOk result (λ shelf. shelf ≡ files_before files.now) }
{
    let mut shelf = CalmShelf::new(alloc);
    for file in files {
        if is_before(file.when) {
            shelf.put(file.path.copy(alloc)?, file.bytes.copy(alloc)?)?;
        }
    }
    Ok(shelf)
}
