//! Motions over views of texts in memory.

ghost use Rattle.std.specs.Prelude.{◌≡◌, true, IfOk};
ghost use Rattle.std.specs.Str.{all_scalars};
ghost use Rattle.movement_core.specs.Lines.{StartAtPlaces};

use movement_core::moved_region;
use plain_text::{NoMemory, Region, Text};
use plain_view::PlainView;
use std::alloc::Global;
use xi_plain::Motion;

/// The text in one piece a logical line.
pub(crate) fn view_of(alloc: Global, text: &Text) -> Result<PlainView, NoMemory>
    ensures characters { IfOk result (λ view. all_scalars view.text ≡ true) }
    ensures starts { IfOk result (λ view. StartAtPlaces view.text view.pieces) }
    ensures text { IfOk result (λ view. view.text ≡ text.now) }
{
    let characters = text.as_str();
    let copy = Text::from_str(alloc, characters)?;
    PlainView::of_text(alloc, copy)
}

/// The caret and the goal of a caret after a motion.
pub(crate) fn after(
    alloc: Global,
    characters: &str,
    caret: u64,
    goal: Option<u128>,
    motion: Motion,
) -> Result<(u64, Option<u128>), NoMemory> {
    let text = Text::from_str(alloc, characters)?;
    let caret = caret.min(text.char_count());
    let view = view_of(alloc, &text)?;
    let region = Region {
        anchor: caret,
        caret,
        goal,
    };
    let moved = moved_region(alloc, &view, region, motion, false, 4)?;
    Ok((moved.caret, moved.goal))
}

// Whether a motion brings the caret there, with that goal.
fn goes(
    alloc: Global,
    characters: &str,
    caret: u64,
    goal: Option<u128>,
    motion: Motion,
    there: (u64, Option<u128>),
) -> bool {
    match after(alloc, characters, caret, goal, motion) {
        Ok(found) => found == there,
        Err(_) => false,
    }
}

const LINES: &str = "abcdef\nx\nabcdef";

#[test]
fn a_short_line_keeps_the_goal(rt: HostRuntime) {
    let alloc = rt.alloc();
    let goal = Some(4);
    assert!(rt; goes(alloc, LINES, 4, None, Motion::Down, (8, goal)));
    assert!(rt; goes(alloc, LINES, 8, goal, Motion::Down, (13, goal)));
    assert!(rt; goes(alloc, LINES, 13, goal, Motion::Down, (15, goal)));
}

#[test]
fn a_short_line_keeps_the_goal_going_up(rt: HostRuntime) {
    let alloc = rt.alloc();
    let goal = Some(4);
    assert!(rt; goes(alloc, LINES, 15, goal, Motion::Up, (8, goal)));
    assert!(rt; goes(alloc, LINES, 8, goal, Motion::Up, (4, goal)));
    assert!(rt; goes(alloc, LINES, 4, goal, Motion::Up, (0, goal)));
}

const WORDS: &str = "foo  bar-baz\n\n  qux";

#[test]
fn words_are_found_across_classes_and_lines(rt: HostRuntime) {
    let alloc = rt.alloc();
    assert!(rt; goes(alloc, WORDS, 0, None, Motion::WordRight, (3, None)));
    assert!(rt; goes(alloc, WORDS, 3, None, Motion::WordRight, (8, None)));
    assert!(rt; goes(alloc, WORDS, 8, None, Motion::WordRight, (9, None)));
}

#[test]
fn words_are_found_up_to_the_end_of_the_text(rt: HostRuntime) {
    let alloc = rt.alloc();
    assert!(rt; goes(alloc, WORDS, 9, None, Motion::WordRight, (12, None)));
    assert!(rt; goes(alloc, WORDS, 12, None, Motion::WordRight, (19, None)));
    assert!(rt; goes(alloc, WORDS, 19, None, Motion::WordRight, (19, None)));
}

#[test]
fn words_are_found_going_back(rt: HostRuntime) {
    let alloc = rt.alloc();
    assert!(rt; goes(alloc, WORDS, 19, None, Motion::WordLeft, (16, None)));
    assert!(rt; goes(alloc, WORDS, 16, None, Motion::WordLeft, (9, None)));
    assert!(rt; goes(alloc, WORDS, 9, None, Motion::WordLeft, (8, None)));
    assert!(rt; goes(alloc, WORDS, 8, None, Motion::WordLeft, (5, None)));
}

const CR_LF: &str = "ab cd\r\nxy";

#[test]
fn clusters_and_line_ends(rt: HostRuntime) {
    let alloc = rt.alloc();
    assert!(rt; goes(alloc, CR_LF, 1, None, Motion::LineEnd, (5, None)));
    assert!(rt; goes(alloc, CR_LF, 5, None, Motion::Down, (9, Some(5))));
    assert!(rt; goes(alloc, CR_LF, 7, None, Motion::Left, (5, None)));
    assert!(rt; goes(alloc, CR_LF, 8, None, Motion::LineStart, (7, None)));
}

#[test]
fn text_ends_and_clusters(rt: HostRuntime) {
    let alloc = rt.alloc();
    assert!(rt; goes(alloc, CR_LF, 8, None, Motion::TextStart, (0, None)));
    assert!(rt; goes(alloc, CR_LF, 0, None, Motion::TextEnd, (9, None)));
    assert!(rt;
        goes(
            alloc,
            "\u{1F468}\u{200D}\u{1F469}\u{1F1E9}\u{1F1EA}",
            0,
            None,
            Motion::Right,
            (3, None)
        )
    );
    assert!(rt; goes(alloc, "ae\u{301}b", 2, None, Motion::Right, (3, None)));
}
