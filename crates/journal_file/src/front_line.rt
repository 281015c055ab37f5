// Lines of a front end that ask commands.

use crate::refused_line::refused_line;
use json_rpc::text_value;
use plain_text::{NoMemory, Text};
use serde_json::{Map, Value, json, put};
use std::alloc::Global;
use xi_plain::{Act, Changes, Command, EditAct, Id, Motion, Touch};

/// A line without its LF that asks this of a front end's lines; an empty one for what none asks.
pub(crate) fn front_line(alloc: Global, command: &Command) -> Result<Text, NoMemory> {
    match &command.act {
        Act::Bad(fault) => refused_line(alloc, &command.id, fault),
        Act::Nothing => line_of(alloc, &command.id, "client_started", Map::new(alloc)),
        Act::Configure(changes) => {
            let params = configuring(alloc, *changes)?;
            line_of(alloc, &command.id, "modify_user_config", params)
        }
        Act::NewView { path } => {
            let mut params = Map::new(alloc);
            if let Some(path) = path {
                put(&mut params, alloc, "file_path", text_value(alloc, path)?)?;
            }
            line_of(alloc, &command.id, "new_view", params)
        }
        Act::CloseView { view } => {
            let params = of_view(alloc, view)?;
            line_of(alloc, &command.id, "close_view", params)
        }
        Act::Save { view, path } => {
            let mut params = of_view(alloc, view)?;
            put(&mut params, alloc, "file_path", text_value(alloc, path)?)?;
            line_of(alloc, &command.id, "save", params)
        }
        Act::Edit { view, act } => {
            let params = editing(alloc, view, act)?;
            line_of(alloc, &command.id, "edit", params)
        }
        _ => Ok(Text::new(alloc)),
    }
}

/// The line of a method with its parameters.
pub(crate) fn line_of(
    alloc: Global,
    id: &Id,
    method: &str,
    params: Map<String, Value>,
) -> Result<Text, NoMemory> {
    let mut members = Map::new(alloc);
    match id {
        Id::NoId => {}
        Id::Num(number) => put(&mut members, alloc, "id", number_value(*number))?,
        Id::Word(word) => put(&mut members, alloc, "id", text_value(alloc, word)?)?,
    }
    put(
        &mut members,
        alloc,
        "method",
        Value::try_from_str(alloc, method)?,
    )?;
    put(&mut members, alloc, "params", Value::Object(params))?;
    Ok(Text::from_string(Value::Object(members).to_string(alloc)?))
}

fn number_value(n: i128) -> Value {
    if 0 <= n && n < 1 << 64 {
        Value::from(n as u64)
    } else if n < 0 && -(1 << 63) <= n {
        Value::from(n as i64)
    } else {
        Value::Null
    }
}

fn of_view(alloc: Global, view: &Text) -> Result<Map<String, Value>, NoMemory> {
    let mut params = Map::new(alloc);
    put(&mut params, alloc, "view_id", text_value(alloc, view)?)?;
    Ok(params)
}

fn configuring(alloc: Global, changes: Changes) -> Result<Map<String, Value>, NoMemory> {
    let mut made = Map::new(alloc);
    if let Some(tab) = changes.tab {
        put(&mut made, alloc, "tab_size", Value::from(tab))?;
    }
    if let Some(width) = changes.width {
        put(&mut made, alloc, "wrap_width", Value::from(width))?;
    }
    put_truth(alloc, &mut made, "translate_tabs_to_spaces", changes.spaces)?;
    let mut params = Map::new(alloc);
    put(&mut params, alloc, "changes", Value::Object(made))?;
    put(
        &mut params,
        alloc,
        "domain",
        Value::try_from_str(alloc, "general")?,
    )?;
    Ok(params)
}

fn put_truth(
    alloc: Global,
    members: &mut Map<String, Value>,
    name: &str,
    truth: Option<bool>,
) -> Result<(), NoMemory> {
    if let Some(truth) = truth {
        put(members, alloc, name, Value::Bool(truth))?;
    }
    Ok(())
}

/// The parameters of `edit`.
fn editing(alloc: Global, view: &Text, act: &EditAct) -> Result<Map<String, Value>, NoMemory> {
    let mut params = of_view(alloc, view)?;
    put(
        &mut params,
        alloc,
        "method",
        Value::try_from_str(alloc, edit_name(act))?,
    )?;
    if let Some(inner) = edit_params(alloc, act)? {
        put(&mut params, alloc, "params", inner)?;
    }
    Ok(params)
}

fn edit_name(act: &EditAct) -> &'static str {
    match act {
        EditAct::Insert { .. } => "insert",
        EditAct::Paste { .. } => "paste",
        EditAct::InsertNewline => "insert_newline",
        EditAct::InsertTab => "insert_tab",
        EditAct::DeleteBackward => "delete_backward",
        EditAct::DeleteForward => "delete_forward",
        EditAct::DeleteWordBackward => "delete_word_backward",
        EditAct::DeleteWordForward => "delete_word_forward",
        EditAct::Cut => "cut",
        EditAct::Copy => "copy",
        EditAct::Undo => "undo",
        EditAct::Redo => "redo",
        EditAct::SelectAll => "select_all",
        EditAct::Collapse => "collapse_selections",
        EditAct::Move { motion, extend } => {
            if *extend {
                selecting_name(*motion)
            } else {
                moving_name(*motion)
            }
        }
        _ => place_name(act),
    }
}

fn place_name(act: &EditAct) -> &'static str {
    match act {
        EditAct::Scroll { .. } => "scroll",
        EditAct::RequestLines { .. } => "request_lines",
        EditAct::Click { .. } => "click",
        EditAct::Drag { .. } => "drag",
        EditAct::Gesture { .. } => "gesture",
        EditAct::GotoLine { .. } => "goto_line",
        EditAct::Find { .. } => "find",
        EditAct::FindNext { .. } => "find_next",
        EditAct::FindPrevious { .. } => "find_previous",
        _ => "resize",
    }
}

fn moving_name(motion: Motion) -> &'static str {
    match motion {
        Motion::Left => "move_left",
        Motion::Right => "move_right",
        Motion::Up => "move_up",
        Motion::Down => "move_down",
        Motion::WordLeft => "move_word_left",
        Motion::WordRight => "move_word_right",
        Motion::LineStart => "move_to_left_end_of_line",
        Motion::LineEnd => "move_to_right_end_of_line",
        Motion::TextStart => "move_to_beginning_of_document",
        Motion::TextEnd => "move_to_end_of_document",
    }
}

fn selecting_name(motion: Motion) -> &'static str {
    match motion {
        Motion::Left => "move_left_and_modify_selection",
        Motion::Right => "move_right_and_modify_selection",
        Motion::Up => "move_up_and_modify_selection",
        Motion::Down => "move_down_and_modify_selection",
        Motion::WordLeft => "move_word_left_and_modify_selection",
        Motion::WordRight => "move_word_right_and_modify_selection",
        Motion::LineStart => "move_to_left_end_of_line_and_modify_selection",
        Motion::LineEnd => "move_to_right_end_of_line_and_modify_selection",
        Motion::TextStart => "move_to_beginning_of_document_and_modify_selection",
        Motion::TextEnd => "move_to_end_of_document_and_modify_selection",
    }
}

fn touch_name(touch: Touch) -> &'static str {
    match touch {
        Touch::Point => "point_select",
        Touch::Toggle => "toggle_sel",
        Touch::Range => "range_select",
        Touch::Word => "word_select",
        Touch::Line => "line_select",
    }
}

/// The parameters of what `edit` names, where it has some.
fn edit_params(alloc: Global, act: &EditAct) -> Result<Option<Value>, NoMemory> {
    match act {
        EditAct::Insert { chars } | EditAct::Paste { chars } => {
            Ok(Some(json!(in alloc; {"chars": chars.as_str()})?))
        }
        EditAct::Scroll { first, last } | EditAct::RequestLines { first, last } => {
            let first = *first;
            let last = *last;
            Ok(Some(json!(in alloc; [first, last])?))
        }
        EditAct::GotoLine { line } => {
            let line = *line;
            Ok(Some(json!(in alloc; {"line": line})?))
        }
        _ => pointer_params(alloc, act),
    }
}

/// The parameters of what a pointer does.
fn pointer_params(alloc: Global, act: &EditAct) -> Result<Option<Value>, NoMemory> {
    match act {
        EditAct::Click {
            line,
            col,
            modifiers,
            count,
        } => {
            let line = *line;
            let col = *col;
            let modifiers = *modifiers;
            let count = *count;
            Ok(Some(json!(in alloc; [line, col, modifiers, count])?))
        }
        EditAct::Drag {
            line,
            col,
            modifiers,
        } => {
            let line = *line;
            let col = *col;
            let modifiers = *modifiers;
            Ok(Some(json!(in alloc; [line, col, modifiers])?))
        }
        EditAct::Gesture { line, col, ty } => {
            let line = *line;
            let col = *col;
            Ok(Some(json!(in alloc; {"col": col, "line": line, "ty": touch_name(*ty)})?))
        }
        _ => find_params(alloc, act),
    }
}

fn find_params(alloc: Global, act: &EditAct) -> Result<Option<Value>, NoMemory> {
    let mut params = Map::new(alloc);
    match act {
        EditAct::Find {
            chars,
            case_sensitive,
            regex,
            whole_words,
        } => {
            put(&mut params, alloc, "chars", text_value(alloc, chars)?)?;
            put_truth(alloc, &mut params, "case_sensitive", *case_sensitive)?;
            put_truth(alloc, &mut params, "regex", *regex)?;
            put_truth(alloc, &mut params, "whole_words", *whole_words)?;
        }
        EditAct::FindNext {
            wrap_around,
            allow_same,
        }
        | EditAct::FindPrevious {
            wrap_around,
            allow_same,
        } => {
            put_truth(alloc, &mut params, "wrap_around", *wrap_around)?;
            put_truth(alloc, &mut params, "allow_same", *allow_same)?;
        }
        _ => return Ok(None),
    }
    Ok(Some(Value::Object(params)))
}
