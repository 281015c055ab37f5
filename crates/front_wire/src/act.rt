ghost use Rattle.std.specs.Prelude.{◌≡◌, ◌<◌, Option, Some, None, IfOk, IfSome, slice_get, option_map, option_and_then, unwrap_or};
ghost use Rattle.std.specs.Str.{chars, encode_utf8_all};
ghost use Rattle.serde_json.specs.Data.{null};
ghost use Rattle.serde_json.specs.Find.{as_str};
ghost use Rattle.serde_json.specs.View.{view};
ghost use Rattle.case_front.specs.Table.{front_names, front_table};
ghost use Rattle.front_wire.specs.Members.{given, first_bad, members_of_row, text};
ghost use Rattle.front_wire.specs.Method.{members};
ghost use Rattle.front_wire.specs.Front.{act_of, act_of_none, row_of, line_act, line_acts, acts_of_lines, bad, close_act, save_act, open_act, configure_act, change_in, configured, edit_act, edit_with, known_edit, edit_by, edit_of};
ghost use Rattle.front_wire.specs.Edits.{edit_in_row};
ghost use Rattle.front_wire.specs.Fair.{IsText, IsMethod, IsFairAct, AreFairChanges};

use crate::config::{changes_of, is_general, no_changes};
use crate::edit::{EditMethod, edit_in_row, edit_method, is_free, owned};
use crate::method::{Method, Table};
use case_front::front_cases;
use case_table::arms;
use plain_text::{NoMemory, Text, TryClone};
use serde_json::Value;
use std::alloc::Global;
use xi_plain::{Act, Changes, EditAct, Fault};

/// What a method asks with its parameters.
pub fn act_of(alloc: Global, method: &Text, params: Value) -> Result<Act, NoMemory>
    ensures act { IfOk result (λ act. act ≡ act_of method.now (view params)) }
    ensures fair { IfOk result IsFairAct }
{
    match line_row(method.as_str()) {
        Some(row) => line_act(alloc, row, params),
        None => no_row(alloc, method),
    }
}

fn line_row(name: &str) -> Option<usize>
    ensures row { result ≡ row_of front_names name.now }
    ensures within { IfSome result (λ row. row < 11) }
{
    front_cases().find(name)
}

fn no_row(alloc: Global, method: &Text) -> Result<Act, NoMemory>
    ensures act { IfOk result (λ act. act ≡ act_of_none method.now) }
    ensures fair { IfOk result IsFairAct }
{
    let name = method.as_str();
    if is_free(name) {
        return Ok(Act::Nothing);
    }
    Ok(Act::Bad(Fault::NoMethod(method.copy(alloc)?)))
}

#[tactic(auto, unfolding(crate::specs::Front::line_act))]
fn line_act(alloc: Global, row: usize, params: Value) -> Result<Act, NoMemory>
    requires { row < 11 }
    ensures act { IfOk result (λ act. act ≡ line_act row (view params)) }
    ensures fair { IfOk result IsFairAct }
{
    let mut params = params;
    let method = Method {
        table: Table::Line,
        row,
    };
    made(alloc, row, method, &mut params)
}

#[tactic(auto, unfolding(crate::specs::Members::members_of_row))]
fn made(alloc: Global, row: usize, method: Method, params: &mut Value) -> Result<Act, NoMemory>
    requires row { row < 11 }
    requires method { members method ≡ members_of_row front_table row }
    ensures act { IfOk result (λ act. slice_get (acts_of_lines (line_acts (view params.old))) row ≡ Some act) }
    ensures fair { IfOk result IsFairAct }
{
    arms!(row => Ok(Act::Nothing), close(alloc, method, params), edit(alloc, method, params),
        configure(alloc, method, params), open(alloc, method, params), Ok(Act::Nothing),
        Ok(Act::Nothing), save(alloc, method, params), Ok(Act::Nothing), Ok(Act::Nothing),
        Ok(Act::Nothing); else unreachable!())
}

fn bad(alloc: Global, member: &str) -> Result<Act, NoMemory>
    ensures act { IfOk result (λ act. act ≡ bad member.now) }
    ensures fair { IfOk result IsFairAct }
{
    Ok(Act::Bad(Fault::BadParams(owned(alloc, member)?)))
}

fn open(alloc: Global, method: Method, params: &mut Value) -> Result<Act, NoMemory>
    ensures act { IfOk result (λ act. act ≡ open_act (members method) (view params.old)) }
    ensures fair { IfOk result IsFairAct }
{
    match method.first_bad(params) {
        Some(member) => bad(alloc, member),
        None => Ok(Act::NewView {
            path: method.text_if_any(params, 0),
        }),
    }
}

fn close(alloc: Global, method: Method, params: &mut Value) -> Result<Act, NoMemory>
    ensures act { IfOk result (λ act. act ≡ close_act (members method) (view params.old)) }
    ensures fair { IfOk result IsFairAct }
{
    match method.first_bad(params) {
        Some(member) => bad(alloc, member),
        None => Ok(Act::CloseView {
            view: method.text(alloc, params, 0),
        }),
    }
}

fn save(alloc: Global, method: Method, params: &mut Value) -> Result<Act, NoMemory>
    ensures act { IfOk result (λ act. act ≡ save_act (members method) (view params.old)) }
    ensures fair { IfOk result IsFairAct }
{
    match method.first_bad(params) {
        Some(member) => bad(alloc, member),
        None => {
            let view = method.copied(alloc, params, 0)?;
            Ok(Act::Save {
                view,
                path: method.text(alloc, params, 1),
            })
        }
    }
}

fn configure(alloc: Global, method: Method, params: &Value) -> Result<Act, NoMemory>
    ensures act { IfOk result (λ act. act ≡ configure_act (members method) (view params.now)) }
    ensures fair { IfOk result IsFairAct }
{
    match method.first_bad(params) {
        Some(member) => bad(alloc, member),
        None => change_in(alloc, method.given(params, 0), method.given(params, 1)),
    }
}

fn change_in(
    alloc: Global,
    domain: Option<&Value>,
    changes: Option<&Value>,
) -> Result<Act, NoMemory>
    ensures act { IfOk result (λ act. act ≡ change_in (option_map (λ v. view v.now) domain.entry)
        (option_map (λ v. view v.now) changes.entry)) }
    ensures fair { IfOk result IsFairAct }
{
    if is_general(domain) {
        configured(alloc, changes_of(changes))
    } else {
        Ok(Act::Configure(no_changes()))
    }
}

fn configured(alloc: Global, changes: Option<Changes>) -> Result<Act, NoMemory>
    requires { IfSome changes AreFairChanges }
    ensures act { IfOk result (λ act. act ≡ configured changes) }
    ensures fair { IfOk result IsFairAct }
{
    match changes {
        Some(changes) => Ok(Act::Configure(changes)),
        None => bad(alloc, "changes"),
    }
}

#[tactic(auto, unfolding(crate::specs::Front::edit_act))]
fn edit(alloc: Global, method: Method, params: &mut Value) -> Result<Act, NoMemory>
    ensures act { IfOk result (λ act. act ≡ edit_act (members method) (view params.old)) }
    ensures fair { IfOk result IsFairAct }
{
    let named = edit_method(alloc, name_in(method, params))?;
    edit_with(alloc, method, named, params)
}

fn name_in(method: Method, params: &Value) -> Option<&str>
    ensures { option_map (λ text. text.now) result
        ≡ option_and_then as_str (given (members method) (view params.now) 1) }
{
    method.given(params, 1).and_then(Value::as_str)
}

fn edit_with(
    alloc: Global,
    method: Method,
    named: EditMethod,
    params: &mut Value,
) -> Result<Act, NoMemory>
    requires { IsMethod named }
    ensures act { IfOk result (λ act. act ≡ edit_with (members method) named (view params.old)) }
    ensures fair { IfOk result IsFairAct }
{
    match named {
        EditMethod::Unknown(name) => Ok(Act::Bad(Fault::NoMethod(name))),
        named => known_edit(alloc, method, named, params),
    }
}

fn known_edit(
    alloc: Global,
    method: Method,
    named: EditMethod,
    params: &mut Value,
) -> Result<Act, NoMemory>
    requires { IsMethod named }
    ensures act { IfOk result (λ act. act ≡ known_edit (members method) named (view params.old)) }
    ensures fair { IfOk result IsFairAct }
{
    if let Some(member) = method.first_bad(params) {
        return bad(alloc, member);
    }
    let id = method.copied(alloc, params, 0)?;
    let inner = method.taken(params, 2).unwrap_or(Value::Null);
    edit_by(alloc, named, id, inner)
}

fn edit_by(alloc: Global, named: EditMethod, id: Text, params: Value) -> Result<Act, NoMemory>
    requires named { IsMethod named }
    requires id { IsText id }
    ensures act { IfOk result (λ act. act ≡ edit_by named id (view params)) }
    ensures fair { IfOk result IsFairAct }
{
    match named {
        EditMethod::Row(row) => row_edit(alloc, row, id, params),
        EditMethod::Free => Ok(Act::Edit {
            view: id,
            act: EditAct::Nothing,
        }),
        EditMethod::Unknown(name) => Ok(Act::Bad(Fault::NoMethod(name))),
        EditMethod::Unnamed => bad(alloc, "method"),
    }
}

fn row_edit(alloc: Global, row: usize, id: Text, params: Value) -> Result<Act, NoMemory>
    requires row { row < 45 }
    requires id { IsText id }
    ensures act { IfOk result (λ act. act ≡ edit_of id (edit_in_row row (view params))) }
    ensures fair { IfOk result IsFairAct }
{
    let mut params = params;
    match edit_in_row(alloc, row, &mut params) {
        Ok(act) => Ok(Act::Edit { view: id, act }),
        Err(member) => bad(alloc, member),
    }
}
