//! Selections.

ghost use Rattle.std.specs.Prelude.{◌≡◌, ◌^◌, ◌<◌, IsTrue, IfOk};
ghost use Rattle.std.specs.Str.{chars};
ghost use Rattle.plain_edits.specs.UnitDelta.{IsUnitDelta};
ghost use Rattle.selection_core.specs.Mapped.{AreWithin, length_after};
ghost use Rattle.selection_core.specs.Selection.{IsSelection};
ghost use Rattle.edit_cases.specs.Edits.{added_at, all_but, deleting_edit, replacing_edit};

use plain_edits::{Added, Adds, UnitDelta};
use plain_text::{NoMemory, Region, Regions, Run, Runs, Sel, Text};
use selection_core::Selection;
use std::alloc::Global;

fn region(anchor: u64, caret: u64) -> Region {
    Region {
        anchor,
        caret,
        goal: None,
    }
}

/// Regions by their anchors and carets.
pub(crate) type Rows<'a> = &'a [(u64, u64)];

// Whether these are the regions.
pub(crate) fn are_regions(regions: &[Region], rows: Rows<'_>) -> bool {
    for (there, row) in regions.iter().zip(rows) {
        if there.anchor != row.0 || there.caret != row.1 {
            return false;
        }
    }
    regions.len() == rows.len()
}

// The selection to which the regions were added, one after the other.
pub(crate) fn selection(alloc: Global, rows: Rows<'_>) -> Result<Sel, NoMemory>
    ensures { IfOk result (λ sel. IsSelection sel.regions) }
{
    let mut sel = Sel {
        regions: Regions::new(alloc),
    };
    for row in rows {
        sel = sel.add(alloc, region(row.0, row.1))?;
    }
    Ok(sel)
}

// Whether the selection was made, and has these regions.
fn is(made: Result<Sel, NoMemory>, rows: Rows<'_>) -> bool {
    match made {
        Ok(sel) => are_regions(sel.regions.as_slice(), rows),
        Err(_) => false,
    }
}

// Whether the regions of the rows come to these.
fn come_to(alloc: Global, rows: Rows<'_>, after: Rows<'_>) -> bool {
    is(selection(alloc, rows), after)
}

#[test]
fn a_region_joins_those_that_it_meets(rt: HostRuntime) {
    let alloc = rt.alloc();
    // Its place is before, between or behind the others.
    assert!(rt; come_to(alloc, &[(4, 6), (1, 2)], &[(1, 2), (4, 6)]));
    assert!(rt; come_to(alloc, &[(1, 2), (7, 7), (4, 5)], &[(1, 2), (4, 5), (7, 7)]));
    assert!(rt; come_to(alloc, &[(1, 2), (5, 4)], &[(1, 2), (5, 4)]));
}

#[test]
fn regions_that_touch_are_one_where_one_is_a_caret(rt: HostRuntime) {
    let alloc = rt.alloc();
    // Two that touch stay apart where none is a caret.
    assert!(rt; come_to(alloc, &[(3, 5), (3, 1)], &[(3, 1), (3, 5)]));
    assert!(rt; come_to(alloc, &[(1, 3), (3, 5)], &[(1, 3), (3, 5)]));
    assert!(rt; come_to(alloc, &[(1, 3), (3, 3)], &[(1, 3)]));
    assert!(rt; come_to(alloc, &[(5, 3), (3, 3)], &[(3, 5)]));
    assert!(rt; come_to(alloc, &[(2, 2), (2, 2)], &[(2, 2)]));
}

#[test]
fn regions_that_overlap_are_one(rt: HostRuntime) {
    let alloc = rt.alloc();
    // Those that overlap are one, forward where one of them is.
    assert!(rt; come_to(alloc, &[(1, 4), (6, 3)], &[(1, 6)]));
    assert!(rt; come_to(alloc, &[(4, 1), (6, 3)], &[(6, 1)]));
    assert!(rt;
        come_to(
            alloc,
            &[(0, 0), (1, 2), (4, 3), (8, 8), (0, 7)],
            &[(0, 7), (8, 8)]
        )
    );
}

// Whether the regions collapse to a caret there.
fn collapse(alloc: Global, rows: Rows<'_>, caret: u64) -> bool {
    match selection(alloc, rows) {
        Ok(sel) => {
            !sel.regions.as_slice().is_empty() && is(sel.collapse(alloc), &[(caret, caret)])
        }
        Err(_) => false,
    }
}

fn is_caret(alloc: Global, gap: u64) -> bool {
    is(Sel::caret_at(alloc, gap), &[(gap, gap)])
}

#[test]
fn a_selection_collapses_to_its_last_caret(rt: HostRuntime) {
    let alloc = rt.alloc();
    assert!(rt; collapse(alloc, &[(1, 2), (5, 4)], 4));
    assert!(rt; collapse(alloc, &[(1, 2), (7, 7), (4, 5)], 7));
    assert!(rt; collapse(alloc, &[(1, 3), (3, 3)], 3));
    assert!(rt; is_caret(alloc, 1));
}

// Whether no region goes past the end of a text of this length.
pub(crate) fn are_within(regions: &[Region], len: u64) -> bool
    ensures { IsTrue result → AreWithin len regions.now }
{
    for region in regions {
        if len < region.anchor.max(region.caret) {
            return false;
        }
    }
    true
}

// Two runs, from the start and to the end.
fn kept(alloc: Global, end: u64, start: u64, base: u64) -> Result<Runs, NoMemory>
    ensures { IfOk result (λ made. made ≡ all_but end start base) }
{
    let mut kept = Runs::new(alloc);
    kept.push(Run { start: 0, end })?;
    kept.push(Run { start, end: base })?;
    Ok(kept)
}

// One addition.
fn added(alloc: Global, gap: u64, text: &str) -> Result<Adds, NoMemory>
    ensures { IfOk result (λ made. made ≡ added_at gap (chars text.now)) }
{
    let mut added = Adds::new(alloc);
    let text = Text::from_str(alloc, text)?;
    added.push(Added { gap, text })?;
    Ok(added)
}

// The edit that drops three of six characters.
fn deleting(alloc: Global) -> Result<UnitDelta, NoMemory>
    ensures { IfOk result (λ made. made ≡ deleting_edit) }
{
    Ok(UnitDelta {
        base: 6,
        kept: kept(alloc, 1, 4, 6)?,
        added: Adds::new(alloc),
    })
}

// The edit that has `X` in the place of the second of three characters.
fn replacing(alloc: Global) -> Result<UnitDelta, NoMemory>
    ensures { IfOk result (λ made. made ≡ replacing_edit) }
{
    Ok(UnitDelta {
        base: 3,
        kept: kept(alloc, 1, 2, 3)?,
        added: added(alloc, 1, "X")?,
    })
}

// Whether the edit moves the regions there, by `after`.
fn moves(alloc: Global, edit: &UnitDelta, after: bool, from: Rows<'_>, to: Rows<'_>) -> bool
    requires well_formed { IsUnitDelta edit.now }
    requires bound { length_after edit.now < 2 ^ 64 }
{
    let Ok(sel) = selection(alloc, from) else {
        return false;
    };
    if !are_within(sel.regions.as_slice(), edit.base) {
        return false;
    }
    is(sel.map(alloc, edit, after), to)
}

fn replacing_moves(alloc: Global, after: bool, from: Rows<'_>, to: Rows<'_>) -> bool {
    match replacing(alloc) {
        Ok(edit) => moves(alloc, &edit, after, from, to),
        Err(_) => false,
    }
}

#[test]
fn an_edit_moves_the_regions(rt: HostRuntime) {
    let alloc = rt.alloc();
    assert!(rt; replacing_moves(alloc, false, &[(3, 3), (0, 1)], &[(0, 2), (3, 3)]));
    assert!(rt; replacing_moves(alloc, true, &[(3, 3), (0, 1)], &[(0, 1), (3, 3)]));
}

fn deleting_moves(alloc: Global, after: bool, from: Rows<'_>, to: Rows<'_>) -> bool {
    match deleting(alloc) {
        Ok(edit) => moves(alloc, &edit, after, from, to),
        Err(_) => false,
    }
}

#[test]
fn regions_that_an_edit_brings_together_join(rt: HostRuntime) {
    let alloc = rt.alloc();
    // Two that only touch stay apart.
    assert!(rt; deleting_moves(alloc, false, &[(0, 2), (3, 3), (6, 4)], &[(0, 1), (3, 1)]));
    assert!(rt; deleting_moves(alloc, false, &[(2, 2), (3, 4)], &[(1, 1)]));
    assert!(rt;
        deleting_moves(
            alloc,
            true,
            &[(0, 0), (1, 3), (6, 6)],
            &[(0, 0), (1, 1), (3, 3)]
        )
    );
}
