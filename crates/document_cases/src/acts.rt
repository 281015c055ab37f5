//! Lines that are commands of the front end.

use crate::words::{number, text_left};
use anyhow::{Context, bail};
use case_lines::Words;
use std::alloc::Global;
use xi_plain::{EditAct, Motion, Touch};

/// The command that begins with this word, and what the words after it say of it.
pub fn read_act(alloc: Global, word: &[u8], words: &mut Words<'_>) -> anyhow::Result<EditAct> {
    match word {
        b"insert" => Ok(EditAct::Insert {
            chars: text_left(alloc, words)?,
        }),
        b"paste" => Ok(EditAct::Paste {
            chars: text_left(alloc, words)?,
        }),
        b"find" => Ok(EditAct::Find {
            chars: text_left(alloc, words)?,
            case_sensitive: None,
            regex: None,
            whole_words: None,
        }),
        b"move" => moving(words, false),
        b"extend" => moving(words, true),
        b"gesture" => gesture(words),
        b"goto_line" => Ok(EditAct::GotoLine {
            line: number(words)?,
        }),
        b"click" | b"drag" | b"scroll" | b"request_lines" => placed(word, words),
        _ => plain(word).context("no event begins with this word"),
    }
}

fn moving(words: &mut Words<'_>, extend: bool) -> anyhow::Result<EditAct> {
    let motion = match words.next_word() {
        b"left" => Motion::Left,
        b"right" => Motion::Right,
        b"up" => Motion::Up,
        b"down" => Motion::Down,
        b"word_left" => Motion::WordLeft,
        b"word_right" => Motion::WordRight,
        b"line_start" => Motion::LineStart,
        b"line_end" => Motion::LineEnd,
        b"text_start" => Motion::TextStart,
        b"text_end" => Motion::TextEnd,
        _ => bail!("a motion is due, as `word_left`"),
    };
    Ok(EditAct::Move { motion, extend })
}

fn gesture(words: &mut Words<'_>) -> anyhow::Result<EditAct> {
    let ty = match words.next_word() {
        b"point" => Touch::Point,
        b"toggle" => Touch::Toggle,
        b"range" => Touch::Range,
        b"word" => Touch::Word,
        b"line" => Touch::Line,
        _ => bail!("`point`, `toggle`, `range`, `word` or `line` is due"),
    };
    let line = number(words)?;
    let col = number(words)?;
    Ok(EditAct::Gesture { line, col, ty })
}

/// The commands that two numbers complete: a line and a column of it, in bytes, or the first line and the one behind the last.
fn placed(word: &[u8], words: &mut Words<'_>) -> anyhow::Result<EditAct> {
    let line = number(words)?;
    let col = number(words)?;
    Ok(match word {
        b"scroll" => EditAct::Scroll {
            first: line,
            last: col,
        },
        b"request_lines" => EditAct::RequestLines {
            first: line,
            last: col,
        },
        b"drag" => EditAct::Drag {
            line,
            col,
            modifiers: 0,
        },
        _ => EditAct::Click {
            line,
            col,
            modifiers: 0,
            count: 1,
        },
    })
}

/// The commands that are one word.
fn plain(word: &[u8]) -> Option<EditAct> {
    match word {
        b"cut" => Some(EditAct::Cut),
        b"copy" => Some(EditAct::Copy),
        b"undo" => Some(EditAct::Undo),
        b"redo" => Some(EditAct::Redo),
        b"select_all" => Some(EditAct::SelectAll),
        b"collapse" => Some(EditAct::Collapse),
        _ => key(word).or(search(word)),
    }
}

/// The keys that insert or delete.
fn key(word: &[u8]) -> Option<EditAct> {
    match word {
        b"insert_newline" => Some(EditAct::InsertNewline),
        b"insert_tab" => Some(EditAct::InsertTab),
        _ => deletion(word.strip_prefix(b"delete_")?),
    }
}

fn deletion(way: &[u8]) -> Option<EditAct> {
    match way {
        b"backward" => Some(EditAct::DeleteBackward),
        b"forward" => Some(EditAct::DeleteForward),
        b"word_backward" => Some(EditAct::DeleteWordBackward),
        b"word_forward" => Some(EditAct::DeleteWordForward),
        _ => None,
    }
}

/// The searches that go on.
fn search(word: &[u8]) -> Option<EditAct> {
    match word {
        b"find_next" => Some(EditAct::FindNext {
            wrap_around: None,
            allow_same: None,
        }),
        b"find_previous" => Some(EditAct::FindPrevious {
            wrap_around: None,
            allow_same: None,
        }),
        _ => None,
    }
}
