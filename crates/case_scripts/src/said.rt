ghost use Rattle.std.specs.Prelude.{◌≡◌, Option, option_map, IfSome};
ghost use Rattle.case_scripts.specs.Inner.{IsProper, IsProperPiece, mark_view, part_view, said_view};
ghost use Rattle.case_scripts.specs.Said.{after_mark, call_said, file_said, mark_said, piece_said, said_of, status_said, turn_said};

use crate::shelf::When;
use case_lines::{Words, number_of, positive_of};

/// One of the two ends of a run: the input, which the source gives, or the output, which the sink takes.
#[derive(Clone, Copy)]
pub enum Way {
    Input,
    Output,
}

/// What a line of a script says of one end of the run.
#[derive(Clone, Copy)]
pub enum Part<'a> {
    /// The bytes of a line, to which its LF is added.
    Line(&'a [u8]),
    /// Bytes to which nothing is added.
    Rest(&'a [u8]),
    /// So many bytes `a`.
    Filler(u64),
    /// The call with this number fails, counted from 1.
    Fails(u64),
    /// One call moves at most so many bytes, at least one.
    AtMost(u64),
}

/// What a line of a script says of a turn of a plugin.
#[derive(Clone, Copy)]
pub enum Mark<'a> {
    /// A line that it is given.
    Given(&'a [u8]),
    /// A line that it then gives back.
    Gives(&'a [u8]),
    /// The turn ends.
    Ends,
    /// The turn ends, and the plugin is done.
    Done,
}

/// What a line of a script says.
#[derive(Clone, Copy)]
pub enum Said<'a> {
    Remark,
    Side(Way, Part<'a>),
    /// The status that the run ends with.
    Status(u8),
    /// The call of the shelf with this number fails, counted from 1.
    ShelfFails(u64),
    /// The path of a file of the shelf.
    File(When, &'a [u8]),
    /// Bytes of the file that was named last, and what is added to them.
    Held(&'a [u8], &'static [u8]),
    /// Something of a turn of the plugin with this number.
    Turn(u64, Mark<'a>),
}

/// What a line of a script says, without its LF; `None` is a bad line.
pub fn said_of(line: &[u8]) -> Option<Said<'_>>
    ensures said { option_map said_view result ≡ said_of line.now }
    ensures proper { IfSome result (λ said. IsProper (said_view said)) }
{
    if let Some(text) = after_mark(line, b"> ") {
        return Some(Said::Side(Way::Input, Part::Line(text)));
    }
    if let Some(text) = after_mark(line, b">| ") {
        return Some(Said::Side(Way::Input, Part::Rest(text)));
    }
    if let Some(count) = after_mark(line, b">* ") {
        return Some(Said::Side(Way::Input, Part::Filler(number_of(count)?)));
    }
    if let Some(text) = after_mark(line, b"< ") {
        return Some(Said::Side(Way::Output, Part::Line(text)));
    }
    if let Some(text) = after_mark(line, b"<| ") {
        return Some(Said::Side(Way::Output, Part::Rest(text)));
    }
    if let Some(text) = after_mark(line, b"= ") {
        return status_said(text);
    }
    if let Some(text) = after_mark(line, b"! ") {
        return call_said(text);
    }
    if after_mark(line, b"#").is_some() {
        return Some(Said::Remark);
    }
    file_said(line)
}

/// What is said of a file of the shelf.
fn file_said(line: &[u8]) -> Option<Said<'_>>
    ensures said { option_map said_view result ≡ file_said line.now }
    ensures proper { IfSome result (λ said. IsProper (said_view said)) }
{
    if let Some(path) = after_mark(line, b"@ ") {
        return Some(Said::File(When::Before, path));
    }
    if let Some(path) = after_mark(line, b"@= ") {
        return Some(Said::File(When::After, path));
    }
    if let Some(path) = after_mark(line, b"@- ") {
        return Some(Said::File(When::Gone, path));
    }
    if let Some(text) = after_mark(line, b"@> ") {
        return Some(Said::Held(text, b"\n"));
    }
    if let Some(text) = after_mark(line, b"@| ") {
        return Some(Said::Held(text, b""));
    }
    turn_said(line)
}

/// What is said of a turn of a plugin: its number, with the mark right behind it.
fn turn_said(line: &[u8]) -> Option<Said<'_>>
    ensures said { option_map said_view result ≡ turn_said line.now }
    ensures proper { IfSome result (λ said. IsProper (said_view said)) }
{
    let mut words = Words { rest: line };
    let word = words.next_word();
    let (mark, digits) = word.split_last()?;
    let caller = number_of(digits)?;
    let mark = mark_said(*mark, words.rest)?;
    Some(Said::Turn(caller, mark))
}

fn mark_said(mark: u8, text: &[u8]) -> Option<Mark<'_>>
    ensures { option_map mark_view result ≡ mark_said mark text.now }
{
    match mark {
        b'<' => Some(Mark::Given(text)),
        b'>' => Some(Mark::Gives(text)),
        b'.' if text.is_empty() => Some(Mark::Ends),
        b'!' if text.is_empty() => Some(Mark::Done),
        _ => None,
    }
}

/// What stands after the mark, where the line begins with it.
fn after_mark<'a>(line: &'a [u8], mark: &[u8]) -> Option<&'a [u8]>
    ensures { option_map (λ text. text.now) result ≡ after_mark mark.now line.now }
{
    line.strip_prefix(mark)
}

fn status_said(text: &[u8]) -> Option<Said<'static>>
    ensures said { option_map said_view result ≡ status_said text.now }
    ensures proper { IfSome result (λ said. IsProper (said_view said)) }
{
    match u8::try_from(number_of(text)?) {
        Ok(status) => Some(Said::Status(status)),
        Err(_) => None,
    }
}

/// What is said of the calls of one end, as `read 3` or `read piece 7`, or of those of the shelf, as `shelf 3`.
fn call_said(text: &[u8]) -> Option<Said<'static>>
    ensures said { option_map said_view result ≡ call_said text.now }
    ensures proper { IfSome result (λ said. IsProper (said_view said)) }
{
    if let Some(call) = after_mark(text, b"read ") {
        return Some(Said::Side(Way::Input, piece_said(call)?));
    }
    if let Some(call) = after_mark(text, b"write ") {
        return Some(Said::Side(Way::Output, piece_said(call)?));
    }
    Some(Said::ShelfFails(positive_of(after_mark(text, b"shelf ")?)?))
}

fn piece_said(text: &[u8]) -> Option<Part<'static>>
    ensures said { option_map part_view result ≡ piece_said text.now }
    ensures proper { IfSome result (λ part. IsProperPiece (part_view part)) }
{
    if let Some(count) = after_mark(text, b"piece ") {
        return Some(Part::AtMost(positive_of(count)?));
    }
    Some(Part::Fails(positive_of(text)?))
}
