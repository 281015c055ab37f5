ghost use Rattle.std.specs.Prelude.{◌≡◌, ◌<◌, true, false, Some, Ok, Err, IfOk, IfErr, IfSome, slice_get, option_map};
ghost use Rattle.std.specs.Str.{chars};
ghost use Rattle.serde_json.specs.View.{view};
ghost use Rattle.xi_plain.specs.declared.command.EditAct.TheVariants as Act;
ghost use Rattle.case_front.specs.Table.{edit_names, edit_table};
ghost use Rattle.front_wire.specs.Members.{given, members_of_row, text, whole, truth, touch};
ghost use Rattle.front_wire.specs.Method.{members};
ghost use Rattle.front_wire.specs.Edits.{edit_acts, acts_in, act_in_row, edit_in_row, with_lines_in_order};
ghost use Rattle.front_wire.specs.Front.{row_of, is_free, edit_method, method_with};
ghost use Rattle.front_wire.specs.Fair.{IsText, IsMethod, HasChars, HasSmall, IsFairEdit};

use crate::method::{Method, Table};
use case_front::edit_cases;
use case_table::arms;
use plain_text::{NoMemory, Text};
use serde_json::Value;
use std::alloc::Global;
use xi_plain::{EditAct, Motion};

/// What names that have no effect begin with.
const FREE: &[u8] = b"debug_";

/// The method that `edit` names.
#[derive(Drop)]
pub enum EditMethod {
    /// The one in this row of the table.
    Row(usize),
    /// One that has no effect by its name.
    Free,
    /// None has this name.
    Unknown(Text),
    /// It names none.
    Unnamed,
}

/// The method with this name.
pub fn edit_method(alloc: Global, name: Option<&str>) -> Result<EditMethod, NoMemory>
    ensures method { IfOk result (λ method. method ≡ edit_method (option_map (λ text. text.now) name.entry)) }
    ensures known { IfOk result IsMethod }
{
    match name {
        Some(name) => method_with(alloc, edit_row(name), name),
        None => Ok(EditMethod::Unnamed),
    }
}

fn method_with(alloc: Global, row: Option<usize>, name: &str) -> Result<EditMethod, NoMemory>
    requires { IfSome row (λ row. row < 45) }
    ensures method { IfOk result (λ method. method ≡ method_with row name.now) }
    ensures known { IfOk result IsMethod }
{
    match row {
        Some(row) => Ok(EditMethod::Row(row)),
        None if is_free(name) => Ok(EditMethod::Free),
        None => Ok(EditMethod::Unknown(owned(alloc, name)?)),
    }
}

fn edit_row(name: &str) -> Option<usize>
    ensures row { result ≡ row_of edit_names name.now }
    ensures within { IfSome result (λ row. row < 45) }
{
    edit_cases().find(name)
}

/// Whether a name is one of those that have no effect by how they begin.
pub fn is_free(name: &str) -> bool
    ensures { result ≡ is_free name.now }
{
    name.as_bytes().starts_with(FREE)
}

/// A text of its own.
pub fn owned(alloc: Global, text: &str) -> Result<Text, NoMemory>
    ensures text { IfOk result (λ owned. owned ≡ chars text.now) }
    ensures scalars { IfOk result IsText }
{
    let owned = Text::from_str(alloc, text)?;
    let _scalars = owned.as_str();
    Ok(owned)
}

/// What the method in a row asks, or else the member that is refused.
pub fn edit_in_row(alloc: Global, row: usize, params: &mut Value) -> Result<EditAct, &'static str>
    requires { row < 45 }
    ensures act { IfOk result (λ act. edit_in_row row (view params.old) ≡ Ok act) }
    ensures bad { IfErr result (λ member. edit_in_row row (view params.old) ≡ Err member.now) }
    ensures fair { IfOk result IsFairEdit }
{
    let method = Method {
        table: Table::Edit,
        row,
    };
    match method.first_bad(params) {
        Some(member) => Err(member),
        None => with_lines_in_order(act_in_row(alloc, row, params)),
    }
}

fn with_lines_in_order(act: EditAct) -> Result<EditAct, &'static str>
    requires texts { HasChars act }
    requires small { HasSmall act }
    ensures act { IfOk result (λ made. with_lines_in_order act ≡ Ok made) }
    ensures bad { IfErr result (λ member. with_lines_in_order act ≡ Err member.now) }
    ensures fair { IfOk result IsFairEdit }
{
    match act {
        EditAct::Scroll { first, last } if last < first => Err("1"),
        EditAct::RequestLines { first, last } if last < first => Err("1"),
        act => Ok(act),
    }
}

#[tactic(auto, unfolding(crate::specs::Edits::act_in_row))]
fn act_in_row(alloc: Global, row: usize, params: &mut Value) -> EditAct
    requires { row < 45 }
    ensures act { result ≡ act_in_row row (view params.old) }
    ensures texts { HasChars result }
    ensures small { HasSmall result }
{
    let method = Method {
        table: Table::Edit,
        row,
    };
    made(alloc, row, method, params)
}

fn made(alloc: Global, row: usize, method: Method, params: &mut Value) -> EditAct
    requires { row < 45 }
    ensures act { slice_get (acts_in (edit_acts (given (members method) (view params.old)))) row ≡ Some result }
    ensures texts { HasChars result }
    ensures small { HasSmall result }
{
    arms!(row => click(method, params), EditAct::Collapse, EditAct::Copy, EditAct::Cut,
        EditAct::DeleteBackward, EditAct::DeleteForward, EditAct::DeleteWordBackward,
        EditAct::DeleteWordForward, drag(method, params), search(alloc, method, params),
        next_match(method, params), previous_match(method, params), gesture(method, params),
        line_alone(method, params), EditAct::Nothing, insertion(alloc, method, params),
        EditAct::InsertNewline, EditAct::InsertTab, to(Motion::Down), up_to(Motion::Down),
        to(Motion::Left), up_to(Motion::Left), to(Motion::Right), up_to(Motion::Right),
        to(Motion::TextStart), up_to(Motion::TextStart), to(Motion::TextEnd),
        up_to(Motion::TextEnd), to(Motion::LineStart), up_to(Motion::LineStart),
        to(Motion::LineEnd), up_to(Motion::LineEnd), to(Motion::Up), up_to(Motion::Up),
        to(Motion::WordLeft), up_to(Motion::WordLeft), to(Motion::WordRight),
        up_to(Motion::WordRight), pasted(alloc, method, params), EditAct::Redo,
        request(method, params), EditAct::Nothing, scroll(method, params), EditAct::SelectAll,
        EditAct::Undo; else unreachable!())
}

fn to(motion: Motion) -> EditAct
    ensures { result ≡ Act.Move motion false }
{
    EditAct::Move {
        motion,
        extend: false,
    }
}

fn up_to(motion: Motion) -> EditAct
    ensures { result ≡ Act.Move motion true }
{
    EditAct::Move {
        motion,
        extend: true,
    }
}

fn click(method: Method, params: &Value) -> EditAct
    ensures act { result ≡ Act.Click
        (whole (given (members method) (view params.now) 0))
        (whole (given (members method) (view params.now) 1))
        (whole (given (members method) (view params.now) 2))
        (whole (given (members method) (view params.now) 3)) }
    ensures small { HasSmall result }
{
    EditAct::Click {
        line: method.whole(params, 0),
        col: method.whole(params, 1),
        modifiers: method.whole(params, 2),
        count: method.whole(params, 3),
    }
}

fn drag(method: Method, params: &Value) -> EditAct
    ensures act { result ≡ Act.Drag
        (whole (given (members method) (view params.now) 0))
        (whole (given (members method) (view params.now) 1))
        (whole (given (members method) (view params.now) 2)) }
    ensures small { HasSmall result }
{
    EditAct::Drag {
        line: method.whole(params, 0),
        col: method.whole(params, 1),
        modifiers: method.whole(params, 2),
    }
}

fn gesture(method: Method, params: &Value) -> EditAct
    ensures act { result ≡ Act.Gesture
        (whole (given (members method) (view params.now) 0))
        (whole (given (members method) (view params.now) 1))
        (touch (given (members method) (view params.now) 2)) }
    ensures small { HasSmall result }
{
    EditAct::Gesture {
        line: method.whole(params, 0),
        col: method.whole(params, 1),
        ty: method.touch(params, 2),
    }
}

fn line_alone(method: Method, params: &Value) -> EditAct
    ensures act { result ≡ Act.GotoLine (whole (given (members method) (view params.now) 0)) }
    ensures small { HasSmall result }
{
    EditAct::GotoLine {
        line: method.whole(params, 0),
    }
}

fn scroll(method: Method, params: &Value) -> EditAct
    ensures act { result ≡ Act.Scroll
        (whole (given (members method) (view params.now) 0))
        (whole (given (members method) (view params.now) 1)) }
    ensures small { HasSmall result }
{
    EditAct::Scroll {
        first: method.whole(params, 0),
        last: method.whole(params, 1),
    }
}

fn request(method: Method, params: &Value) -> EditAct
    ensures act { result ≡ Act.RequestLines
        (whole (given (members method) (view params.now) 0))
        (whole (given (members method) (view params.now) 1)) }
    ensures small { HasSmall result }
{
    EditAct::RequestLines {
        first: method.whole(params, 0),
        last: method.whole(params, 1),
    }
}

fn next_match(method: Method, params: &Value) -> EditAct
    ensures act { result ≡ Act.FindNext
        (truth (given (members method) (view params.now) 0))
        (truth (given (members method) (view params.now) 1)) }
{
    EditAct::FindNext {
        wrap_around: method.truth(params, 0),
        allow_same: method.truth(params, 1),
    }
}

fn previous_match(method: Method, params: &Value) -> EditAct
    ensures act { result ≡ Act.FindPrevious
        (truth (given (members method) (view params.now) 0))
        (truth (given (members method) (view params.now) 1)) }
{
    EditAct::FindPrevious {
        wrap_around: method.truth(params, 0),
        allow_same: method.truth(params, 1),
    }
}

fn insertion(alloc: Global, method: Method, params: &mut Value) -> EditAct
    ensures act { result ≡ Act.Insert (text (given (members method) (view params.old) 0)) }
    ensures texts { HasChars result }
{
    EditAct::Insert {
        chars: method.text(alloc, params, 0),
    }
}

fn pasted(alloc: Global, method: Method, params: &mut Value) -> EditAct
    ensures act { result ≡ Act.Paste (text (given (members method) (view params.old) 0)) }
    ensures texts { HasChars result }
{
    EditAct::Paste {
        chars: method.text(alloc, params, 0),
    }
}

fn search(alloc: Global, method: Method, params: &mut Value) -> EditAct
    ensures act { result ≡ Act.Find
        (text (given (members method) (view params.old) 0))
        (truth (given (members method) (view params.old) 1))
        (truth (given (members method) (view params.old) 2))
        (truth (given (members method) (view params.old) 3)) }
    ensures texts { HasChars result }
{
    let case_sensitive = method.truth(params, 1);
    let regex = method.truth(params, 2);
    let whole_words = method.truth(params, 3);
    EditAct::Find {
        chars: method.text(alloc, params, 0),
        case_sensitive,
        regex,
        whole_words,
    }
}
