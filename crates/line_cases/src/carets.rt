//! Motions of regions, of several carets, in wrapped lines, and inside a cluster.

ghost use Rattle.std.specs.Prelude.{◌≡◌, ◌≤◌, true, length, IfOk};
ghost use Rattle.std.specs.Str.{all_scalars};
ghost use Rattle.selection_core.specs.Mapped.{AreWithin};
ghost use Rattle.selection_core.specs.Selection.{greater_end};
ghost use Rattle.movement_core.specs.Lines.{StartAtPlaces};

use crate::motions::view_of;
use movement_core::{moved, moved_region};
use plain_screen::Piece;
use plain_text::{List, NoMemory, Region, Regions, Sel, Text};
use plain_view::PlainView;
use std::alloc::Global;
use xi_plain::Motion;

fn caret(gap: u64, goal: Option<u128>) -> Region {
    Region {
        anchor: gap,
        caret: gap,
        goal,
    }
}

// The region, within a text of this length.
fn within(region: Region, len: u64) -> Region
    ensures { greater_end result ≤ len }
{
    Region {
        anchor: region.anchor.min(len),
        caret: region.caret.min(len),
        goal: region.goal,
    }
}

// The region after a motion of a region in a text of a piece a line.
fn after(
    alloc: Global,
    characters: &str,
    region: Region,
    motion: Motion,
) -> Result<Region, NoMemory> {
    let text = Text::from_str(alloc, characters)?;
    let region = within(region, text.char_count());
    let view = view_of(alloc, &text)?;
    moved_region(alloc, &view, region, motion, false, 4)
}

// Whether a motion takes the region to a caret with this goal.
fn goes(
    alloc: Global,
    characters: &str,
    region: Region,
    motion: Motion,
    gap: u64,
    goal: Option<u128>,
) -> bool {
    match after(alloc, characters, region, motion) {
        Ok(found) => found == caret(gap, goal),
        Err(_) => false,
    }
}

#[test]
fn a_region_becomes_a_caret_and_a_cluster_is_left_whole(rt: HostRuntime) {
    let alloc = rt.alloc();
    let back = Region {
        anchor: 11,
        caret: 9,
        goal: None,
    };
    assert!(rt; goes(alloc, "abcd\nx\nabcdef", back, Motion::Up, 6, Some(2)));
    let inside = caret(2, None);
    assert!(rt; goes(alloc, "ae\u{301}b", inside, Motion::Left, 1, None));
    assert!(rt; goes(alloc, "ae\u{301}b", inside, Motion::Right, 3, None));
    assert!(rt;
        goes(
            alloc,
            "abcdef\nx\nabcdef",
            caret(9, None),
            Motion::Left,
            8,
            None
        )
    );
}

// The selection of two regions, within a text of this length.
fn both(alloc: Global, len: u64, first: Region, second: Region) -> Result<Sel, NoMemory>
    ensures { IfOk result (λ sel. AreWithin len sel.regions) }
{
    let mut regions = Regions::new(alloc);
    regions.push(within(first, len))?;
    regions.push(within(second, len))?;
    Ok(Sel { regions })
}

const TWO_LINES: &str = "abcdefghij\nabcdef";

// The selection after a motion of two carets in two lines.
fn both_after(alloc: Global, motion: Motion) -> Result<Sel, NoMemory> {
    let text = Text::from_str(alloc, TWO_LINES)?;
    let sel = both(
        alloc,
        text.char_count(),
        caret(13, Some(8)),
        caret(16, Some(1)),
    )?;
    let view = view_of(alloc, &text)?;
    moved(alloc, &view, &sel, motion, false, 4)
}

// Whether they go to the first caret, and to the second where there is one.
fn both_go(alloc: Global, motion: Motion, first: Region, second: Option<Region>) -> bool {
    match both_after(alloc, motion) {
        Ok(sel) => {
            sel.regions.get(0).copied() == Some(first)
                && sel.regions.get(1).copied() == second
                && sel.regions.get(2).is_none()
        }
        Err(_) => false,
    }
}

#[test]
fn carets_that_cross_are_sorted_and_those_that_meet_are_one(rt: HostRuntime) {
    let alloc = rt.alloc();
    let (left, right) = (caret(1, Some(1)), caret(8, Some(8)));
    assert!(rt; both_go(alloc, Motion::Up, left, Some(right)));
    assert!(rt; both_go(alloc, Motion::Down, caret(17, None), None));
}

// A line in two pieces.
fn wrapped(alloc: Global) -> Result<PlainView, NoMemory>
    ensures characters { IfOk result (λ view. all_scalars view.text ≡ true) }
    ensures starts { IfOk result (λ view. StartAtPlaces view.text view.pieces) }
    ensures len { IfOk result (λ view. length view.text ≡ 8) }
{
    let text = Text::from_str(alloc, "aa bb cc")?;
    let mut pieces = List::new(alloc);
    pieces.push(Piece {
        start: 0,
        end: 6,
        ln: Some(1),
    })?;
    pieces.push(Piece {
        start: 6,
        end: 8,
        ln: None,
    })?;
    PlainView::of_pieces(alloc, text, pieces)
}

// The caret after a motion in it.
fn wrapped_after(alloc: Global, gap: u64, motion: Motion) -> Result<Region, NoMemory> {
    let view = wrapped(alloc)?;
    let region = within(caret(gap, None), 8);
    moved_region(alloc, &view, region, motion, false, 4)
}

// Whether a caret in it goes to a caret with this goal.
fn wrapped_goes(alloc: Global, from: u64, motion: Motion, gap: u64, goal: Option<u128>) -> bool {
    match wrapped_after(alloc, from, motion) {
        Ok(found) => found == caret(gap, goal),
        Err(_) => false,
    }
}

#[test]
fn a_gap_between_pieces_stands_in_the_second(rt: HostRuntime) {
    let alloc = rt.alloc();
    assert!(rt; wrapped_goes(alloc, 1, Motion::LineEnd, 5, None));
    assert!(rt; wrapped_goes(alloc, 5, Motion::Right, 6, None));
    assert!(rt; wrapped_goes(alloc, 6, Motion::LineStart, 6, None));
    assert!(rt; wrapped_goes(alloc, 6, Motion::Down, 8, Some(0)));
}
