//! Pieces, views of a text, and the order of texts.

ghost use Rattle.std.specs.Prelude.{[], ◌∷◌, Some};

use plain_screen::{Piece, TextView};
use plain_text::{NoMemory, Run, Text, TryClone};
use std::alloc::Global;
use std::cmp::Ordering;

/// A text of no characters, which is one empty piece.
struct NoText;

impl TextView for NoText {
    ghost text_of = { λ view. [] };

    ghost pieces_of = { λ view. record { start = 0; end = 0; ln = Some 1 } ∷ [] };

    fn lines(&self) -> u64 {
        1
    }

    fn line(&self, i: u64) -> Option<Piece> {
        if i > 0 {
            return None;
        }
        Some(Piece {
            start: 0,
            end: 0,
            ln: Some(1),
        })
    }

    fn line_of(&self, _gap: u64) -> u64 {
        0
    }

    fn logical_of(&self, _line: u64) -> Run {
        Run { start: 0, end: 0 }
    }

    fn text(&self, alloc: Global, _from: u64, _to: u64) -> Result<Text, NoMemory> {
        Ok(Text::new(alloc))
    }
}

fn last_line<T: TextView>(view: &T) -> Option<Piece> {
    view.line(view.lines().saturating_sub(1))
}

fn is_copied(alloc: Global, piece: Option<Piece>) -> bool {
    let Some(piece) = piece else {
        return false;
    };
    match piece.copy(alloc) {
        Ok(same) => same == piece,
        Err(_) => false,
    }
}

// Whether there is a piece, which is printed so.
fn prints(alloc: Global, piece: Option<Piece>, text: &str) -> bool {
    let Some(piece) = piece else {
        return false;
    };
    match format!(in alloc; "{piece:?}") {
        Ok(printed) => printed.as_str() == text,
        Err(_) => false,
    }
}

fn is_empty(text: Result<Text, NoMemory>) -> bool {
    match text {
        Ok(text) => text.is_empty(),
        Err(_) => false,
    }
}

#[test]
fn a_view_is_read_by_its_lines(rt: HostRuntime) {
    let alloc = rt.alloc();
    assert!(rt; is_copied(alloc, last_line(&NoText)));
    assert!(rt;
        prints(
            alloc,
            last_line(&NoText),
            "Piece { start: 0, end: 0, ln: Some(1) }"
        )
    );
    assert!(rt; NoText.line(1).is_none());
    assert!(rt; is_empty(NoText.text(alloc, 0, 0)));
}

fn stand_so(alloc: Global, first: &Text, second: &Text) -> bool {
    match second.copy(alloc) {
        Ok(same) => first < second && second > first && second.cmp(&same) == Ordering::Equal,
        Err(_) => false,
    }
}

// Whether the one text stands before the other.
fn is_before(alloc: Global, first: &str, second: &str) -> bool {
    let Ok(first) = Text::from_str(alloc, first) else {
        return false;
    };
    match Text::from_str(alloc, second) {
        Ok(second) => stand_so(alloc, &first, &second),
        Err(_) => false,
    }
}

#[test]
fn texts_stand_in_the_order_of_their_bytes(rt: HostRuntime) {
    let alloc = rt.alloc();
    assert!(rt; is_before(alloc, "", "\u{0}"));
    assert!(rt; is_before(alloc, "a", "a\u{0}"));
    assert!(rt; is_before(alloc, "ab", "b"));
}

#[test]
fn texts_stand_in_the_order_of_their_characters(rt: HostRuntime) {
    let alloc = rt.alloc();
    assert!(rt; is_before(alloc, "\u{7F}", "\u{80}"));
    assert!(rt; is_before(alloc, "\u{7FF}", "\u{800}"));
    assert!(rt; is_before(alloc, "\u{4E2D}a", "\u{FFFF}"));
    assert!(rt; is_before(alloc, "\u{FFFF}", "\u{10000}"));
}
