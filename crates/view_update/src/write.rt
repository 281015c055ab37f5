ghost use Rattle.std.specs.Prelude.{◌≡◌, [], IfOk, Some};
ghost use Rattle.std.specs.Str.{encode_utf8_all};
ghost use Rattle.json_rpc.specs.Line.{IsLineOf};
ghost use Rattle.json_rpc.specs.Tokens.{Adds};
ghost use Rattle.view_update.specs.Written.{update_data};
ghost use Rattle.view_update.specs.Parts.{note_begun};
ghost use Rattle.view_update.specs.Notes.{scroll_data, alert_data, style_data};
ghost use Rattle.view_update.specs.Reading.{line_update, line_scroll, line_alert, line_style};

use crate::parts::{put_alert, put_params, put_scroll, put_style};
use json_rpc::LineWriter;
use plain_edits::Style;
use plain_screen::{Line, Op, Update};
use plain_text::{NoMemory, Text};
use std::alloc::Global;

/// Room for a note with one line of members, or for what an operation or a line has beside its texts.
const PART_ROOM: usize = 96;

/// Room for a number of a line, and what stands before it.
const NUMBER_ROOM: usize = 8;

/// The line of the note that tells a front end of an update of the view with this id. The cost is that of the update.
pub fn write_update(alloc: Global, view: &Text, update: &Update) -> Result<Text, NoMemory>
    ensures line { IfOk result (λ text.
        IsLineOf (update_data view.now update.now) (encode_utf8_all text)) }
    ensures reads_back { IfOk result (λ text. line_update (encode_utf8_all text)
        ≡ Some (Some (record { view = view.now; update = update.now }))) }
{
    let mut out = begun(alloc, "update", update_room(view, update))?;
    put_params(&mut out, view, update)?;
    out.end_object()?;
    out.into_line()
}

/// The line of the note that asks for a place of a view to be shown: the line's number from 0 on, and a column in bytes.
pub fn write_scroll(alloc: Global, view: &Text, line: u64, col: u64) -> Result<Text, NoMemory>
    ensures line { IfOk result (λ text.
        IsLineOf (scroll_data view.now line col) (encode_utf8_all text)) }
    ensures reads_back { IfOk result (λ text. line_scroll (encode_utf8_all text)
        ≡ Some (record { view = view.now; line = line; col = col })) }
{
    let mut out = begun(alloc, "scroll_to", text_room(view))?;
    put_scroll(&mut out, view, line, col)?;
    out.end_object()?;
    out.into_line()
}

/// The line of the note that has a message for the user.
pub fn write_alert(alloc: Global, message: &Text) -> Result<Text, NoMemory>
    ensures line { IfOk result (λ text.
        IsLineOf (alert_data message.now) (encode_utf8_all text)) }
    ensures reads_back { IfOk result (λ text. line_alert (encode_utf8_all text)
        ≡ Some message.now) }
{
    let mut out = begun(alloc, "alert", text_room(message))?;
    put_alert(&mut out, message)?;
    out.end_object()?;
    out.into_line()
}

/// The line of the note that tells how the style of this number looks. A member of the style that is not named is left out.
pub fn write_style(alloc: Global, id: u64, style: Style) -> Result<Text, NoMemory>
    ensures line { IfOk result (λ text.
        IsLineOf (style_data id style) (encode_utf8_all text)) }
    ensures reads_back { IfOk result (λ text. line_style (encode_utf8_all text)
        ≡ Some (record { id = id; style = style })) }
{
    let mut out = begun(alloc, "def_style", 2 * PART_ROOM)?;
    put_style(&mut out, id, style)?;
    out.end_object()?;
    out.into_line()
}

/// The line of a note, begun up to its params.
fn begun(alloc: Global, method: &str, room: usize) -> Result<LineWriter, NoMemory>
    ensures { IfOk result (λ out. Adds [] out (note_begun method.now)) }
{
    let mut out = LineWriter::new(alloc, room)?;
    out.begin_object()?;
    out.name("method")?;
    out.word(method)?;
    out.name("params")?;
    Ok(out)
}

/// Room for a note with this text, where nothing of it is escaped.
fn text_room(text: &Text) -> usize {
    (text.byte_len() as usize).saturating_add(2 * PART_ROOM)
}

/// Room for the note of an update, where nothing of its texts is escaped. It costs a look at each line.
fn update_room(view: &Text, update: &Update) -> usize {
    let mut room = text_room(view);
    for op in update.ops.as_slice() {
        room = room.saturating_add(op_room(op));
    }
    room
}

fn op_room(op: &Op) -> usize {
    match op {
        Op::Ins { lines } => lines_room(lines.as_slice()),
        Op::Update { lines, .. } => lines.len().saturating_mul(PART_ROOM),
        _ => PART_ROOM,
    }
}

fn lines_room(lines: &[Line]) -> usize {
    let mut room = PART_ROOM;
    for line in lines {
        let numbers = line
            .cursor
            .len()
            .saturating_add(line.styles.len().saturating_mul(3));
        room = room
            .saturating_add(text_room(&line.text))
            .saturating_add(numbers.saturating_mul(NUMBER_ROOM));
    }
    room
}
