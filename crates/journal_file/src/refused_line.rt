// Lines of a front end that are refused.

use crate::front_line::line_of;
use front_wire::command_of;
use plain_text::{NoMemory, Text};
use serde_json::{Map, Value, json, put};
use std::alloc::Global;
use xi_plain::{Act, Fault, Id};

/// A line without its LF that is refused so; an empty one is no JSON.
pub(crate) fn refused_line(alloc: Global, id: &Id, fault: &Fault) -> Result<Text, NoMemory> {
    match fault {
        Fault::Parse => Ok(Text::new(alloc)),
        Fault::Invalid => Text::from_str(alloc, "0"),
        Fault::NoMethod(name) => unknown_line(alloc, id, name),
        Fault::BadParams(member) => bad_line(alloc, id, member.as_str()),
    }
}

/// A line that asks for a method of this name, or where there is such a method, for such an edit.
fn unknown_line(alloc: Global, id: &Id, name: &Text) -> Result<Text, NoMemory> {
    let line = line_of(alloc, id, name.as_str(), Map::new(alloc))?;
    let read = command_of(alloc, line.as_str().as_bytes())?;
    if let Act::Bad(Fault::NoMethod(_)) = read.act {
        return Ok(line);
    }
    let mut params = Map::new(alloc);
    put(
        &mut params,
        alloc,
        "method",
        Value::try_from_str(alloc, name.as_str())?,
    )?;
    line_of(alloc, id, "edit", params)
}

/// A line of which this member is the first that is wrong.
fn bad_line(alloc: Global, id: &Id, member: &str) -> Result<Text, NoMemory> {
    match member {
        "view_id" => line_of(alloc, id, "close_view", Map::new(alloc)),
        "file_path" => {
            let mut params = Map::new(alloc);
            put(&mut params, alloc, "file_path", Value::Bool(false))?;
            line_of(alloc, id, "new_view", params)
        }
        "domain" => line_of(alloc, id, "modify_user_config", Map::new(alloc)),
        "changes" => {
            let mut params = Map::new(alloc);
            put(&mut params, alloc, "domain", Value::Null)?;
            line_of(alloc, id, "modify_user_config", params)
        }
        "method" => bad_edit(alloc, id, None, Value::Null),
        "chars" => bad_edit(alloc, id, Some("insert"), Value::Null),
        "0" => bad_edit(alloc, id, Some("click"), json!(in alloc; [])?),
        "1" => bad_edit(alloc, id, Some("click"), json!(in alloc; [0])?),
        "2" => bad_edit(alloc, id, Some("click"), json!(in alloc; [0, 0])?),
        "3" => bad_edit(alloc, id, Some("click"), json!(in alloc; [0, 0, 0])?),
        "line" => bad_edit(alloc, id, Some("gesture"), Value::Null),
        "col" => bad_edit(alloc, id, Some("gesture"), json!(in alloc; {"line": 0})?),
        "ty" => bad_edit(
            alloc,
            id,
            Some("gesture"),
            json!(in alloc; {"col": 0, "line": 0})?,
        ),
        "case_sensitive" => bad_find(alloc, id, "find", "case_sensitive"),
        "regex" => bad_find(alloc, id, "find", "regex"),
        "whole_words" => bad_find(alloc, id, "find", "whole_words"),
        "wrap_around" => bad_find(alloc, id, "find_next", "wrap_around"),
        "allow_same" => bad_find(alloc, id, "find_next", "allow_same"),
        _ => Ok(Text::new(alloc)),
    }
}

/// An edit with these parameters, and this method, where it names one.
fn bad_edit(alloc: Global, id: &Id, method: Option<&str>, inner: Value) -> Result<Text, NoMemory> {
    let mut params = Map::new(alloc);
    put(
        &mut params,
        alloc,
        "view_id",
        Value::try_from_str(alloc, "view-id-1")?,
    )?;
    if let Some(method) = method {
        put(
            &mut params,
            alloc,
            "method",
            Value::try_from_str(alloc, method)?,
        )?;
    }
    put(&mut params, alloc, "params", inner)?;
    line_of(alloc, id, "edit", params)
}

/// A search of which this member is a number.
fn bad_find(alloc: Global, id: &Id, method: &str, member: &str) -> Result<Text, NoMemory> {
    let mut inner = Map::new(alloc);
    put(&mut inner, alloc, "chars", Value::try_from_str(alloc, "a")?)?;
    put(&mut inner, alloc, member, Value::from(0u32))?;
    bad_edit(alloc, id, Some(method), Value::Object(inner))
}
