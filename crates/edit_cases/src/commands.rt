//! Editing commands over views of texts in memory.

ghost use Rattle.std.specs.Prelude.{◌≡◌, true, length, IfOk, IsTrue};
ghost use Rattle.std.specs.Str.{all_scalars};
ghost use Rattle.movement_core.specs.Lines.{StartAtPlaces};
ghost use Rattle.edit_ops.specs.Commands.{IsDoneOnText};
ghost use Rattle.selection_core.specs.Mapped.{AreWithin};
ghost use Rattle.selection_core.specs.Selection.{IsSelection};

use crate::selections::{Rows, are_regions, are_within, selection};
use edit_ops::{copied, edit_of};
use plain_edits::UnitDelta;
use plain_text::{NoMemory, Sel, Text};
use plain_view::PlainView;
use std::alloc::Global;
use xi_plain::{Config, EditAct, Motion, Touch};

/// The text in one piece a logical line.
fn view_of(alloc: Global, text: &Text) -> Result<PlainView, NoMemory>
    ensures characters { IfOk result (λ view. all_scalars view.text ≡ true) }
    ensures starts { IfOk result (λ view. StartAtPlaces view.text view.pieces) }
    ensures text { IfOk result (λ view. view.text ≡ text.now) }
{
    let characters = text.as_str();
    let copy = Text::from_str(alloc, characters)?;
    PlainView::of_text(alloc, copy)
}

// The text after an edit, for a text of ASCII or of few characters: what is kept, and each addition at its gap.
fn text_after(alloc: Global, text: &Text, units: &UnitDelta) -> Result<Text, NoMemory> {
    let mut after = Text::new(alloc);
    let mut gap: u64 = 0;
    for c in text.as_str().chars() {
        put_added(&mut after, units, gap)?;
        if is_kept(units, gap) {
            after.push(c)?;
        }
        gap = gap.saturating_add(1);
    }
    put_added(&mut after, units, gap)?;
    Ok(after)
}

// Puts what is added at a gap at the end.
fn put_added(after: &mut Text, units: &UnitDelta, gap: u64) -> Result<(), NoMemory> {
    for added in units.added.as_slice() {
        if added.gap == gap {
            after.push_text(&added.text)?;
        }
    }
    Ok(())
}

// Whether the character with this index is kept.
fn is_kept(units: &UnitDelta, index: u64) -> bool {
    for run in units.kept.as_slice() {
        if run.start <= index && index < run.end {
            return true;
        }
    }
    false
}

// Whether the edit of a text leads to this one.
fn leads(alloc: Global, text: &Text, units: &UnitDelta, after: &str) -> bool {
    match text_after(alloc, text, units) {
        Ok(made) => made.as_str() == after,
        Err(_) => false,
    }
}

// Whether what a command makes of a text was made, and is this text and these regions.
fn makes(
    alloc: Global,
    text: &Text,
    made: Result<(UnitDelta, Sel), NoMemory>,
    after: &str,
    then: Rows<'_>,
) -> bool {
    match made {
        Ok((units, sel)) => {
            leads(alloc, text, &units, after) && are_regions(sel.regions.as_slice(), then)
        }
        Err(_) => false,
    }
}

// A tab is four columns of spaces.
const CONFIG: Config = Config {
    tab: 4,
    width: 0,
    spaces: true,
};

// Whether a command on a text and a selection in it comes to a text and regions.
fn comes_to(
    alloc: Global,
    text: &Text,
    sel: &Sel,
    act: &EditAct,
    after: &str,
    then: Rows<'_>,
) -> bool
    requires act { IsDoneOnText act.now }
    requires sound { IsSelection sel.now.regions }
    requires inside { AreWithin (length text.now) sel.now.regions }
{
    match view_of(alloc, text) {
        Ok(view) => makes(
            alloc,
            text,
            edit_of(alloc, &view, sel, act, &CONFIG),
            after,
            then,
        ),
        Err(_) => false,
    }
}

// The same of the regions of the rows, where they stand in the text.
fn comes_from(
    alloc: Global,
    text: &Text,
    regions: Rows<'_>,
    act: &EditAct,
    after: &str,
    then: Rows<'_>,
) -> bool
    requires { IsDoneOnText act.now }
{
    let Ok(sel) = selection(alloc, regions) else {
        return false;
    };
    if !are_within(sel.regions.as_slice(), text.char_count()) {
        return false;
    }
    comes_to(alloc, text, &sel, act, after, then)
}

// Whether a command gives a text and regions.
fn gives(
    alloc: Global,
    before: &str,
    regions: Rows<'_>,
    act: EditAct,
    after: &str,
    then: Rows<'_>,
) -> bool
    requires { IsDoneOnText act }
{
    match Text::from_str(alloc, before) {
        Ok(text) => comes_from(alloc, &text, regions, &act, after, then),
        Err(_) => false,
    }
}

// Whether a command leaves a text, and these regions.
fn leaves(alloc: Global, text: &str, regions: Rows<'_>, act: EditAct, then: Rows<'_>) -> bool
    requires { IsDoneOnText act }
{
    gives(alloc, text, regions, act, text, then)
}

// Whether typing these characters gives a text and regions.
fn typing(
    alloc: Global,
    before: &str,
    regions: Rows<'_>,
    chars: &str,
    after: &str,
    then: Rows<'_>,
) -> bool {
    match Text::from_str(alloc, chars) {
        Ok(chars) => gives(
            alloc,
            before,
            regions,
            EditAct::Insert { chars },
            after,
            then,
        ),
        Err(_) => false,
    }
}

#[test]
fn regions_are_replaced(rt: HostRuntime) {
    let alloc = rt.alloc();
    assert!(rt;
        typing(
            alloc,
            "abcd",
            &[(1, 1), (3, 3)],
            "XY",
            "aXYbcXYd",
            &[(3, 3), (7, 7)]
        )
    );
    assert!(rt;
        typing(
            alloc,
            "abcd",
            &[(0, 2), (2, 4)],
            "X",
            "XX",
            &[(1, 1), (2, 2)]
        )
    );
    assert!(rt; typing(alloc, "abcd", &[(3, 1)], "", "ad", &[(1, 1)]));
    assert!(rt;
        gives(
            alloc,
            "abcd",
            &[(0, 2), (2, 4)],
            EditAct::Cut,
            "",
            &[(0, 0)]
        )
    );
    assert!(rt;
        gives(
            alloc,
            "abcd",
            &[(2, 2)],
            EditAct::InsertNewline,
            "ab\ncd",
            &[(3, 3)]
        )
    );
}

#[test]
fn a_tab_goes_to_the_next_stop(rt: HostRuntime) {
    let alloc = rt.alloc();
    assert!(rt;
        gives(
            alloc,
            "ab",
            &[(0, 0), (1, 1)],
            EditAct::InsertTab,
            "    a   b",
            &[(4, 4), (8, 8)]
        )
    );
    assert!(rt;
        gives(
            alloc,
            "a\tb",
            &[(3, 3)],
            EditAct::InsertTab,
            "a\tb   ",
            &[(6, 6)]
        )
    );
    assert!(rt; gives(alloc, "中", &[(1, 1)], EditAct::InsertTab, "中  ", &[(3, 3)]));
}

#[test]
fn carets_delete_words(rt: HostRuntime) {
    let alloc = rt.alloc();
    assert!(rt;
        gives(
            alloc,
            "foobar baz",
            &[(3, 3), (5, 5)],
            EditAct::DeleteWordBackward,
            "r baz",
            &[(0, 0)]
        )
    );
    assert!(rt;
        gives(
            alloc,
            "foobar baz",
            &[(2, 4), (5, 5)],
            EditAct::DeleteWordBackward,
            "r baz",
            &[(0, 0)]
        )
    );
    assert!(rt;
        gives(
            alloc,
            "foobar baz",
            &[(6, 6)],
            EditAct::DeleteWordForward,
            "foobar",
            &[(6, 6)]
        )
    );
}

#[test]
fn carets_delete_clusters_backward(rt: HostRuntime) {
    let alloc = rt.alloc();
    assert!(rt;
        gives(
            alloc,
            "ae\u{301}b",
            &[(4, 4)],
            EditAct::DeleteBackward,
            "ae\u{301}",
            &[(3, 3)]
        )
    );
    assert!(rt;
        gives(
            alloc,
            "ae\u{301}",
            &[(3, 3)],
            EditAct::DeleteBackward,
            "a",
            &[(1, 1)]
        )
    );
    assert!(rt;
        gives(
            alloc,
            "abcd",
            &[(0, 0)],
            EditAct::DeleteBackward,
            "abcd",
            &[(0, 0)]
        )
    );
}

#[test]
fn carets_delete_characters_forward(rt: HostRuntime) {
    let alloc = rt.alloc();
    assert!(rt;
        gives(
            alloc,
            "a\r\nb",
            &[(1, 1)],
            EditAct::DeleteForward,
            "ab",
            &[(1, 1)]
        )
    );
    assert!(rt;
        gives(
            alloc,
            "abcd",
            &[(4, 4)],
            EditAct::DeleteForward,
            "abcd",
            &[(4, 4)]
        )
    );
}

// Whether a click with a count leaves a text, and these regions.
fn clicks(alloc: Global, text: &str, line: u64, col: u64, count: u64, then: Rows<'_>) -> bool {
    let click = EditAct::Click {
        line,
        col,
        modifiers: 0,
        count,
    };
    leaves(alloc, text, &[(0, 0)], click, then)
}

#[test]
fn clicks_find_points_words_and_lines(rt: HostRuntime) {
    let alloc = rt.alloc();
    assert!(rt; clicks(alloc, "ab\r\ncd", 0, 99, 1, &[(2, 2)]));
    assert!(rt; clicks(alloc, "ab\r\ncd", 1, 2, 2, &[(4, 6)]));
    assert!(rt; clicks(alloc, "ab\r\ncd", 0, 1, 3, &[(0, 4)]));
    assert!(rt; clicks(alloc, "ab\r\ncd", 2, 0, 1, &[(6, 6)]));
}

#[test]
fn clicks_find_wide_characters_and_words(rt: HostRuntime) {
    let alloc = rt.alloc();
    assert!(rt; clicks(alloc, "中a", 0, 2, 1, &[(0, 0)]));
    assert!(rt; clicks(alloc, "中a", 0, 3, 1, &[(1, 1)]));
    assert!(rt; clicks(alloc, "a\n\nb", 1, 0, 2, &[(1, 3)]));
    assert!(rt; clicks(alloc, "a  bc", 0, 2, 2, &[(1, 3)]));
}

#[test]
fn clicks_in_an_empty_text(rt: HostRuntime) {
    let alloc = rt.alloc();
    assert!(rt; clicks(alloc, "", 0, 0, 2, &[(0, 0)]));
    assert!(rt; clicks(alloc, "", 3, 7, 3, &[(0, 0)]));
}

// Whether a gesture at a point leaves letters, and these regions.
fn gestures(alloc: Global, regions: Rows<'_>, col: u64, ty: Touch, then: Rows<'_>) -> bool {
    let gesture = EditAct::Gesture { line: 0, col, ty };
    leaves(alloc, "abcdefghij", regions, gesture, then)
}

const DRAG: EditAct = EditAct::Drag {
    line: 0,
    col: 4,
    modifiers: 0,
};

#[test]
fn gestures_move_regions(rt: HostRuntime) {
    let alloc = rt.alloc();
    assert!(rt; gestures(alloc, &[(4, 1), (5, 5)], 0, Touch::Range, &[(5, 0)]));
    assert!(rt; gestures(alloc, &[(1, 1), (5, 5)], 3, Touch::Range, &[(1, 1), (5, 3)]));
    assert!(rt; gestures(alloc, &[(1, 1)], 8, Touch::Toggle, &[(1, 1), (8, 8)]));
}

#[test]
fn gestures_take_regions_away(rt: HostRuntime) {
    let alloc = rt.alloc();
    assert!(rt;
        gestures(
            alloc,
            &[(3, 1), (5, 3), (8, 8)],
            3,
            Touch::Toggle,
            &[(8, 8)]
        )
    );
    assert!(rt; gestures(alloc, &[(1, 3), (5, 3)], 3, Touch::Toggle, &[(5, 3)]));
    assert!(rt; gestures(alloc, &[(1, 3)], 7, Touch::Point, &[(7, 7)]));
    assert!(rt; leaves(alloc, "abcdef\nxyz", &[(2, 2), (8, 8)], DRAG, &[(8, 4)]));
}

const LINES: &str = "ab\r\ncd\n\ne";

const RIGHT: EditAct = EditAct::Move {
    motion: Motion::Right,
    extend: true,
};

// Whether a line with this number starts at a gap.
fn starts_at(alloc: Global, line: u64, gap: u64) -> bool {
    let to = EditAct::GotoLine { line };
    leaves(alloc, LINES, &[(3, 3)], to, &[(gap, gap)])
}

#[test]
fn numbered_lines_start_at_gaps(rt: HostRuntime) {
    let alloc = rt.alloc();
    assert!(rt; starts_at(alloc, 0, 0));
    assert!(rt; starts_at(alloc, 1, 4));
    assert!(rt; starts_at(alloc, 2, 7));
    assert!(rt; starts_at(alloc, 3, 8));
    assert!(rt; starts_at(alloc, 4, 9));
}

#[test]
fn the_whole_text_and_a_caret(rt: HostRuntime) {
    let alloc = rt.alloc();
    assert!(rt; leaves(alloc, LINES, &[(3, 5)], EditAct::SelectAll, &[(0, 9)]));
    assert!(rt;
        leaves(
            alloc,
            LINES,
            &[(1, 2), (5, 3)],
            EditAct::Collapse,
            &[(3, 3)]
        )
    );
    assert!(rt; leaves(alloc, LINES, &[(1, 2)], EditAct::Copy, &[(1, 2)]));
    assert!(rt; leaves(alloc, LINES, &[(1, 2)], RIGHT, &[(1, 4)]));
}

fn is(made: Result<Text, NoMemory>, expected: &str) -> bool {
    match made {
        Ok(text) => text.as_str() == expected,
        Err(_) => false,
    }
}

// Whether a copy of a selection comes to this text.
fn copy_is(alloc: Global, text: &Text, sel: &Sel, copy: &str) -> bool
    requires { AreWithin (length text.now) sel.now.regions }
{
    match view_of(alloc, text) {
        Ok(view) => is(copied(alloc, &view, sel), copy),
        Err(_) => false,
    }
}

// The same of the regions of the rows, where they stand in the text.
fn copy_of_rows_is(alloc: Global, text: &Text, regions: Rows<'_>, copy: &str) -> bool {
    let Ok(sel) = selection(alloc, regions) else {
        return false;
    };
    if !are_within(sel.regions.as_slice(), text.char_count()) {
        return false;
    }
    copy_is(alloc, text, &sel, copy)
}

fn copies(alloc: Global, text: &str, regions: Rows<'_>, copy: &str) -> bool {
    match Text::from_str(alloc, text) {
        Ok(text) => copy_of_rows_is(alloc, &text, regions, copy),
        Err(_) => false,
    }
}

#[test]
fn a_copy_joins_the_texts_of_regions(rt: HostRuntime) {
    let alloc = rt.alloc();
    assert!(rt; copies(alloc, "abcd", &[(0, 2), (2, 4)], "ab\ncd"));
    assert!(rt; copies(alloc, "abcd", &[(1, 1), (3, 2)], "c"));
    assert!(rt; copies(alloc, "abcd", &[(1, 1)], ""));
}
