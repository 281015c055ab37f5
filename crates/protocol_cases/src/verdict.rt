ghost use Rattle.std.specs.Prelude.{◌≡◌, ◌↔◌, IfOk, IsTrue, option_map};
ghost use Rattle.plain_text.specs.InputLines.{lines_of};
ghost use Rattle.protocol_cases.specs.Shelf.{count_after, counts};
ghost use Rattle.protocol_cases.specs.Verdict.{IsExpected, bytes_fault, count_fault, fault_of, file_fault, files_fault, first_difference, found_fault, shelf_fault, status_fault, verdict_of};

use crate::player::Player;
use crate::turn_fault::plugins_fault;
use case_lines::first_line;
use case_scripts::{FileSaid, TurnSaid, When, is_before, is_named, may_hold};
use outside::CalmShelf;
use plain_text::{Bytes, List, NoMemory, Text, TryClone};
use std::alloc::Global;

/// The first line at which two outputs differ. A line has its LF, where it has one, and is empty where there is none.
#[derive(Drop)]
pub struct Difference {
    /// From 1.
    pub line: u64,
    pub expected: List<u8>,
    pub got: List<u8>,
}

/// What has a line that differs.
#[derive(Drop)]
pub enum Place {
    Output,
    /// The file with this path.
    File(Text),
    /// What this plugin was given in this turn, both from 1.
    Turn { plugin: u64, turn: u64 },
}

/// What is wrong with a run.
#[derive(Drop)]
pub enum Fault {
    Differs(Place, Difference),
    /// There is no file with this path, where one was to be.
    Absent(Text),
    /// There is one where none was to be.
    Present(Text),
    /// The files that the script names are as it says, and there are others.
    FileCount { expected: u64, got: u64 },
    /// What this plugin gave back in this turn is not what the script says.
    Gave { plugin: u64, turn: u64 },
    /// All else is as expected, and the status is not.
    Status { expected: u8, got: u8 },
}

/// What became of a case.
#[derive(Drop)]
pub enum Verdict {
    Passes,
    /// The line of its script with this number, from 1, says nothing that may stand there.
    BadLine(u64),
    Fails(Fault),
}

/// What a run is to write, which turns its plugins are to have, what it is to leave on the shelf and to end with.
#[derive(Drop)]
pub struct Expected {
    pub output: Bytes,
    pub turns: List<TurnSaid>,
    pub files: List<FileSaid>,
    pub status: u8,
}

/// What becomes of a case where the run wrote these bytes, had these plugins, left this shelf, and ended with this status.
pub fn judge(
    alloc: Global,
    expected: &Expected,
    got: &[u8],
    players: &[Player],
    shelf: &CalmShelf,
    status: u8,
) -> Result<Verdict, NoMemory>
    ensures verdict { IfOk result (λ verdict.
        verdict ≡ verdict_of expected.now got.now players.now shelf.now status) }
    ensures passes { IfOk result (λ verdict. (verdict ≡ Verdict.Passes) ↔ IsExpected expected.now got.now players.now shelf.now status) }
{
    match fault_of(alloc, expected, got, players, shelf, status)? {
        Some(fault) => Ok(Verdict::Fails(fault)),
        None => Ok(Verdict::Passes),
    }
}

/// What is wrong first.
fn fault_of(
    alloc: Global,
    expected: &Expected,
    got: &[u8],
    players: &[Player],
    shelf: &CalmShelf,
    status: u8,
) -> Result<Option<Fault>, NoMemory>
    ensures { IfOk result (λ found. found ≡ fault_of expected.now got.now players.now shelf.now status) }
{
    if let Some(fault) = bytes_fault(alloc, Place::Output, expected.output.as_slice(), got)? {
        return Ok(Some(fault));
    }
    if let Some(fault) = plugins_fault(alloc, expected.turns.as_slice(), players)? {
        return Ok(Some(fault));
    }
    if let Some(fault) = shelf_fault(alloc, expected.files.as_slice(), shelf)? {
        return Ok(Some(fault));
    }
    Ok(status_fault(expected.status, status))
}

fn status_fault(expected: u8, got: u8) -> Option<Fault>
    ensures { result ≡ status_fault expected got }
{
    if got == expected {
        None
    } else {
        Some(Fault::Status { expected, got })
    }
}

fn shelf_fault(
    alloc: Global,
    said: &[FileSaid],
    shelf: &CalmShelf,
) -> Result<Option<Fault>, NoMemory>
    ensures { IfOk result (λ found. found ≡ shelf_fault said.now shelf.now) }
{
    if let Some(fault) = files_fault(alloc, said, shelf)? {
        return Ok(Some(fault));
    }
    Ok(count_fault(count_after(said), shelf.len() as u64))
}

fn count_fault(expected: u64, got: u64) -> Option<Fault>
    ensures { result ≡ count_fault expected got }
{
    if got == expected {
        None
    } else {
        Some(Fault::FileCount { expected, got })
    }
}

/// How many files there are to be after the run.
fn count_after(said: &[FileSaid]) -> u64
    ensures { result ≡ count_after said.now said.now }
{
    let mut count = 0;
    for file in said {
        if counts(said, file) && may_hold(file.when) {
            count += 1;
        }
    }
    count
}

/// Whether what is said of a file is said of it after the run.
fn counts(said: &[FileSaid], file: &FileSaid) -> bool
    ensures { result ≡ counts said.now file.now }
{
    !(is_before(file.when) && is_named(said, When::After, &file.path))
}

fn files_fault(
    alloc: Global,
    said: &[FileSaid],
    shelf: &CalmShelf,
) -> Result<Option<Fault>, NoMemory>
    ensures { IfOk result (λ found. found ≡ files_fault said.now shelf.now said.now) }
{
    for file in said {
        if let Some(fault) = file_fault(alloc, said, shelf, file)? {
            return Ok(Some(fault));
        }
    }
    Ok(None)
}

fn file_fault(
    alloc: Global,
    said: &[FileSaid],
    shelf: &CalmShelf,
    file: &FileSaid,
) -> Result<Option<Fault>, NoMemory>
    ensures { IfOk result (λ found. found ≡ file_fault said.now shelf.now file.now) }
{
    if counts(said, file) {
        found_fault(alloc, file, shelf.get(&file.path))
    } else {
        Ok(None)
    }
}

/// A file that counts, by what the shelf has of it.
fn found_fault(
    alloc: Global,
    file: &FileSaid,
    found: Option<&Bytes>,
) -> Result<Option<Fault>, NoMemory>
    ensures { IfOk result (λ fault. fault ≡ found_fault file.now (option_map (λ bytes. bytes.now) found.entry)) }
{
    let path = file.path.copy(alloc)?;
    match (found, may_hold(file.when)) {
        (None, false) => Ok(None),
        (None, true) => Ok(Some(Fault::Absent(path))),
        (Some(_), false) => Ok(Some(Fault::Present(path))),
        (Some(got), true) => bytes_fault(
            alloc,
            Place::File(path),
            file.bytes.as_slice(),
            got.as_slice(),
        ),
    }
}

pub fn bytes_fault(
    alloc: Global,
    place: Place,
    expected: &[u8],
    got: &[u8],
) -> Result<Option<Fault>, NoMemory>
    ensures { IfOk result (λ found. found ≡ bytes_fault place expected.now got.now) }
{
    match first_difference(alloc, expected, got)? {
        Some(difference) => Ok(Some(Fault::Differs(place, difference))),
        None => Ok(None),
    }
}

fn first_difference(
    alloc: Global,
    expected: &[u8],
    got: &[u8],
) -> Result<Option<Difference>, NoMemory>
    ensures { IfOk result (λ found. found ≡ first_difference 1 (lines_of expected.now) (lines_of got.now)) }
{
    let mut expected_rest = expected;
    let mut got_rest = got;
    let mut number = 1;
    while !expected_rest.is_empty() || !got_rest.is_empty() {
        let (expected_line, expected_later) = first_line(expected_rest);
        let (got_line, got_later) = first_line(got_rest);
        if expected_line != got_line {
            let difference = Difference::new(alloc, number, expected_line, got_line)?;
            return Ok(Some(difference));
        }
        expected_rest = expected_later;
        got_rest = got_later;
        number += 1;
    }
    Ok(None)
}

impl Difference {
    pub fn new(
        alloc: Global,
        line: u64,
        expected: &[u8],
        got: &[u8],
    ) -> Result<Difference, NoMemory>
        ensures { IfOk result (λ made. made ≡ record { line = line; expected = expected.now; got = got.now }) }
    {
        Ok(Difference {
            line,
            expected: List::from_vec(Vec::from_slice(alloc, expected)?),
            got: List::from_vec(Vec::from_slice(alloc, got)?),
        })
    }
}

impl Verdict {
    pub fn is_pass(&self) -> bool
        ensures { IsTrue result ↔ (self.now ≡ Verdict.Passes) }
    {
        matches!(self, Verdict::Passes)
    }
}
