ghost use Rattle.std.specs.Prelude.{◌≡◌, OnOk, Some, codes, length, map, option_map, true};
ghost use Rattle.std.specs.List.{AllByRecursion};
ghost use Rattle.std.specs.Str.{all_scalars};
ghost use Rattle.serde_json.specs.Data.{boolean, object};
ghost use Rattle.json_rpc.specs.Tokens.{value_then, Adds};
ghost use Rattle.plain_screen.specs.declared.screen.Op.TheVariants as Operation;
ghost use Rattle.view_update.specs.Written.{count_data, list_data, triple_items, line_data, restyle_data, op_members, op_data, ops_data, update_params};
ghost use Rattle.view_update.specs.Parts.{each_then, member_then, op_then};
ghost use Rattle.view_update.specs.Notes.{scroll_params, alert_params, style_params};
ghost use Rattle.view_update.specs.Fair.{IsCount, IsLn, IsFairTriple, IsFairLine, IsFairRestyle, IsFairOp, IsFairStyle, IsFairUpdate};

use json_rpc::LineWriter;
use plain_edits::Style;
use plain_screen::{Line, Op, Restyle, Triple, Update};
use plain_text::{NoMemory, Text};

/// Writes the params of the note of an update, for the view with this id.
pub(crate) fn put_params(out: &mut LineWriter, id: &Text, update: &Update) -> Result<(), NoMemory>
    ensures added { OnOk result (Adds out.old out.new (value_then (update_params id.now update.now))) }
    ensures fair { OnOk result (IsFairUpdate id.now update.now) }
{
    out.begin_object()?;
    out.name("update")?;
    put_update(out, update)?;
    out.name("view_id")?;
    out.text(id)?;
    out.end_object()
}

/// Writes the params of the note that asks for a place to be shown.
pub(crate) fn put_scroll(
    out: &mut LineWriter,
    id: &Text,
    line: u64,
    col: u64,
) -> Result<(), NoMemory>
    ensures added { OnOk result (Adds out.old out.new (value_then (scroll_params id.now line col))) }
    ensures characters { OnOk result (all_scalars id.now ≡ true) }
    ensures fair { OnOk result (IsCount line × IsCount col) }
{
    out.begin_object()?;
    out.name("col")?;
    out.count(col)?;
    out.name("line")?;
    out.count(line)?;
    out.name("view_id")?;
    out.text(id)?;
    out.end_object()
}

/// Writes the params of the note that has a message for the user.
pub(crate) fn put_alert(out: &mut LineWriter, message: &Text) -> Result<(), NoMemory>
    ensures added { OnOk result (Adds out.old out.new (value_then (alert_params message.now))) }
    ensures characters { OnOk result (all_scalars message.now ≡ true) }
{
    out.begin_object()?;
    out.name("msg")?;
    out.text(message)?;
    out.end_object()
}

/// Writes the params of the note that tells how a style looks.
pub(crate) fn put_style(out: &mut LineWriter, id: u64, style: Style) -> Result<(), NoMemory>
    ensures added { OnOk result (Adds out.old out.new (value_then (style_params id style))) }
    ensures fair { OnOk result (IsCount id × IsFairStyle style) }
{
    out.begin_object()?;
    put_count(out, "bg_color", wide(style.bg_color))?;
    put_count(out, "fg_color", wide(style.fg_color))?;
    put_count(out, "id", Some(id))?;
    put_truth(out, "italic", style.italic)?;
    put_truth(out, "underline", style.underline)?;
    put_count(out, "weight", wide(style.weight))?;
    out.end_object()
}

fn put_update(out: &mut LineWriter, update: &Update) -> Result<(), NoMemory>
    ensures added { OnOk result (Adds out.old out.new (value_then (ops_data update.now))) }
    ensures fair { OnOk result (AllByRecursion IsFairOp update.now.ops) }
{
    out.begin_object()?;
    put_op_list(out, update.ops.as_slice())?;
    out.name("pristine")?;
    out.truth(update.pristine)?;
    out.end_object()
}

/// Writes the member that has the operations of an update.
fn put_op_list(out: &mut LineWriter, ops: &[Op]) -> Result<(), NoMemory>
    ensures added { OnOk result (Adds out.old out.new
        (member_then (codes "ops") (Some (list_data (map op_data ops.now))))) }
    ensures fair { OnOk result (AllByRecursion IsFairOp ops.now) }
{
    out.name("ops")?;
    out.begin_list()?;
    put_ops(out, ops)?;
    out.end_list()
}

fn put_ops(out: &mut LineWriter, ops: &[Op]) -> Result<(), NoMemory>
    ensures added { OnOk result (Adds out.old out.new (each_then (map op_data ops.now))) }
    ensures fair { OnOk result (AllByRecursion IsFairOp ops.now) }
{
    for op in ops {
        put_op(out, op)?;
    }
    Ok(())
}

fn put_op(out: &mut LineWriter, op: &Op) -> Result<(), NoMemory>
    ensures added { OnOk result (Adds out.old out.new (value_then (op_data op.now))) }
    ensures fair { OnOk result (IsFairOp op.now) }
{
    match op {
        Op::Copy { n, ln } => put_copy(out, *n, *ln),
        Op::Skip { n } => put_plain(out, *n, "skip"),
        Op::Invalidate { n } => put_plain(out, *n, "invalidate"),
        Op::Ins { lines } => put_ins(out, lines.as_slice()),
        Op::Update { ln, lines } => put_restyling(out, *ln, lines.as_slice()),
    }
}

fn put_copy(out: &mut LineWriter, n: u64, ln: Option<u64>) -> Result<(), NoMemory>
    ensures added { OnOk result (Adds out.old out.new (value_then (op_data (Operation.Copy n ln)))) }
    ensures fair { OnOk result (IsFairOp (Operation.Copy n ln)) }
{
    out.begin_object()?;
    put_count(out, "ln", ln)?;
    put_end(out, n, "copy")
}

/// Writes an operation that says no more than of how many lines it speaks.
fn put_plain(out: &mut LineWriter, n: u64, op: &str) -> Result<(), NoMemory>
    ensures added { OnOk result (Adds out.old out.new (value_then (object (op_members n op.now)))) }
    ensures fair { OnOk result (IsCount n) }
{
    out.begin_object()?;
    put_end(out, n, op)
}

fn put_ins(out: &mut LineWriter, lines: &[Line]) -> Result<(), NoMemory>
    ensures added { OnOk result (Adds out.old out.new (value_then (op_data (Operation.Ins lines.now)))) }
    ensures fair { OnOk result (IsFairOp (Operation.Ins lines.now)) }
{
    out.begin_object()?;
    put_line_list(out, lines)?;
    put_end(out, lines.len() as u64, "ins")
}

fn put_restyling(out: &mut LineWriter, ln: Option<u64>, lines: &[Restyle]) -> Result<(), NoMemory>
    ensures added { OnOk result (Adds out.old out.new (value_then (op_data (Operation.Update ln lines.now)))) }
    ensures fair { OnOk result (IsFairOp (Operation.Update ln lines.now)) }
{
    out.begin_object()?;
    put_restyle_list(out, lines)?;
    put_count(out, "ln", ln)?;
    put_end(out, lines.len() as u64, "update")
}

/// Writes the members with which every operation ends, and its brace.
fn put_end(out: &mut LineWriter, n: u64, op: &str) -> Result<(), NoMemory>
    ensures added { OnOk result (Adds out.old out.new (op_then n op.now)) }
    ensures fair { OnOk result (IsCount n) }
{
    out.name("n")?;
    out.count(n)?;
    out.name("op")?;
    out.word(op)?;
    out.end_object()
}

/// Writes the member that has new lines.
fn put_line_list(out: &mut LineWriter, lines: &[Line]) -> Result<(), NoMemory>
    ensures added { OnOk result (Adds out.old out.new
        (member_then (codes "lines") (Some (list_data (map line_data lines.now))))) }
    ensures fair { OnOk result (AllByRecursion IsFairLine lines.now) }
{
    out.name("lines")?;
    out.begin_list()?;
    put_lines(out, lines)?;
    out.end_list()
}

fn put_lines(out: &mut LineWriter, lines: &[Line]) -> Result<(), NoMemory>
    ensures added { OnOk result (Adds out.old out.new (each_then (map line_data lines.now))) }
    ensures fair { OnOk result (AllByRecursion IsFairLine lines.now) }
{
    for line in lines {
        put_line(out, line)?;
    }
    Ok(())
}

fn put_line(out: &mut LineWriter, line: &Line) -> Result<(), NoMemory>
    ensures added { OnOk result (Adds out.old out.new (value_then (line_data line.now))) }
    ensures fair { OnOk result (IsFairLine line.now) }
{
    out.begin_object()?;
    put_offsets(out, line.cursor.as_slice())?;
    put_count(out, "ln", line.ln)?;
    put_styles(out, line.styles.as_slice())?;
    out.name("text")?;
    out.text(&line.text)?;
    out.end_object()
}

/// Writes the member that has what becomes of old lines.
fn put_restyle_list(out: &mut LineWriter, restyles: &[Restyle]) -> Result<(), NoMemory>
    ensures added { OnOk result (Adds out.old out.new
        (member_then (codes "lines") (Some (list_data (map restyle_data restyles.now))))) }
    ensures fair { OnOk result (AllByRecursion IsFairRestyle restyles.now) }
{
    out.name("lines")?;
    out.begin_list()?;
    put_restyles(out, restyles)?;
    out.end_list()
}

fn put_restyles(out: &mut LineWriter, restyles: &[Restyle]) -> Result<(), NoMemory>
    ensures added { OnOk result (Adds out.old out.new (each_then (map restyle_data restyles.now))) }
    ensures fair { OnOk result (AllByRecursion IsFairRestyle restyles.now) }
{
    for restyle in restyles {
        put_restyle(out, restyle)?;
    }
    Ok(())
}

fn put_restyle(out: &mut LineWriter, restyle: &Restyle) -> Result<(), NoMemory>
    ensures added { OnOk result (Adds out.old out.new (value_then (restyle_data restyle.now))) }
    ensures fair { OnOk result (IsFairRestyle restyle.now) }
{
    out.begin_object()?;
    put_offsets(out, restyle.cursor.as_slice())?;
    put_styles(out, restyle.styles.as_slice())?;
    out.end_object()
}

/// Writes the member that has the offsets of a line's carets.
fn put_offsets(out: &mut LineWriter, offsets: &[u64]) -> Result<(), NoMemory>
    ensures added { OnOk result (Adds out.old out.new
        (member_then (codes "cursor") (Some (list_data (map count_data offsets.now))))) }
    ensures fair { OnOk result (AllByRecursion IsCount offsets.now) }
{
    out.name("cursor")?;
    out.begin_list()?;
    put_counts(out, offsets)?;
    out.end_list()
}

fn put_counts(out: &mut LineWriter, counts: &[u64]) -> Result<(), NoMemory>
    ensures added { OnOk result (Adds out.old out.new (each_then (map count_data counts.now))) }
    ensures fair { OnOk result (AllByRecursion IsCount counts.now) }
{
    for n in counts {
        out.count(*n)?;
    }
    Ok(())
}

/// Writes the member that has the styles of a line.
fn put_styles(out: &mut LineWriter, styles: &[Triple]) -> Result<(), NoMemory>
    ensures added { OnOk result (Adds out.old out.new
        (member_then (codes "styles") (Some (list_data (triple_items styles.now))))) }
    ensures fair { OnOk result (AllByRecursion IsFairTriple styles.now) }
{
    out.name("styles")?;
    out.begin_list()?;
    put_triples(out, styles)?;
    out.end_list()
}

fn put_triples(out: &mut LineWriter, triples: &[Triple]) -> Result<(), NoMemory>
    ensures added { OnOk result (Adds out.old out.new (each_then (triple_items triples.now))) }
    ensures fair { OnOk result (AllByRecursion IsFairTriple triples.now) }
{
    for triple in triples {
        out.whole(triple.start)?;
        out.count(triple.len)?;
        out.count(triple.id)?;
    }
    Ok(())
}

/// Writes a member that is a number, where there is one.
fn put_count(out: &mut LineWriter, name: &str, n: Option<u64>) -> Result<(), NoMemory>
    ensures added { OnOk result (Adds out.old out.new (member_then name.now (option_map count_data n))) }
    ensures fair { OnOk result (IsLn n) }
{
    match n {
        Some(n) => {
            out.name(name)?;
            out.count(n)
        }
        None => Ok(()),
    }
}

/// Writes a member that is a truth value, where there is one.
fn put_truth(out: &mut LineWriter, name: &str, truth: Option<bool>) -> Result<(), NoMemory>
    ensures { OnOk result (Adds out.old out.new (member_then name.now (option_map boolean truth))) }
{
    match truth {
        Some(truth) => {
            out.name(name)?;
            out.truth(truth)
        }
        None => Ok(()),
    }
}

/// The number, in more bits.
fn wide(n: Option<u32>) -> Option<u64>
    ensures { result ≡ n }
{
    Some(u64::from(n?))
}
