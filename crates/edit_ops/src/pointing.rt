ghost use Rattle.std.specs.Prelude.{◌≡◌, ◌≤◌, [], ◌∷◌, true, length, map, IfOk};
ghost use Rattle.std.specs.Str.{all_scalars};
ghost use Rattle.movement_core.specs.Lines.{StartAtPlaces};
ghost use Rattle.selection_core.specs.Mapped.{AreWithin};
ghost use Rattle.selection_core.specs.Selection.{IsSelection, caret_of, last_caret, spanning};
ghost use Rattle.edit_ops.specs.Inner.{AreSelected, IsSelecting, selected_by};
ghost use Rattle.edit_ops.specs.Points.{gap_of_point, line_around, start_of_numbered, word_around};
ghost use Rattle.edit_ops.specs.Regions.{dragged, regions_touched, touch_of_click, without_goal};

use crate::gestures::{drag, range_to, toggle};
use crate::numbered::start_of_line;
use crate::points::{line_region, point, word_at};
use movement_core::{moved, text_end};
use plain_screen::TextView;
use plain_text::{NoMemory, Region, Regions, Sel, TryClone};
use selection_core::Selection;
use std::alloc::Global;
use xi_plain::{EditAct, Touch};

/// The regions after a command that edits nothing. `tab` is the tab width in columns.
pub(crate) fn selected<T: TextView>(
    alloc: Global,
    view: &T,
    sel: &Sel,
    act: &EditAct,
    tab: u32,
) -> Result<Sel, NoMemory>
    requires act { IsSelecting act.now }
    requires characters { all_scalars (T.text_of view.now) ≡ true }
    requires starts { StartAtPlaces (T.text_of view.now) (T.pieces_of view.now) }
    requires sound { IsSelection sel.now.regions }
    requires inside { AreWithin (length (T.text_of view.now)) sel.now.regions }
    ensures { IfOk result (λ after. AreSelected (T.text_of view.now)
        (selected_by tab (T.text_of view.now) (T.pieces_of view.now) sel.now.regions act.now) after.regions) }
{
    match *act {
        EditAct::SelectAll => whole(alloc, view),
        EditAct::Collapse => collapsed(alloc, view, sel),
        EditAct::Move { motion, extend } => moved(alloc, view, sel, motion, extend, tab),
        EditAct::Click {
            line,
            col,
            modifiers: _,
            count,
        } => touched_at(alloc, view, sel, line, col, touch_of_click(count)),
        EditAct::Drag {
            line,
            col,
            modifiers: _,
        } => dragged_to(alloc, view, sel, line, col),
        EditAct::Gesture { line, col, ty } => touched_at(alloc, view, sel, line, col, ty),
        EditAct::GotoLine { line } => at_line(alloc, view, line),
        _ => sel.copy(alloc),
    }
}

// The gesture that a click with this count is.
fn touch_of_click(count: u64) -> Touch
    ensures { result ≡ touch_of_click count }
{
    match count {
        2 => Touch::Word,
        3 => Touch::Line,
        _ => Touch::Point,
    }
}

// One region alone.
fn alone(alloc: Global, region: Region) -> Result<Sel, NoMemory>
    ensures { IfOk result (λ sel. sel.regions ≡ region ∷ []) }
{
    let mut regions = Regions::new(alloc);
    regions.push(region)?;
    Ok(Sel { regions })
}

// The whole text.
fn whole<T: TextView>(alloc: Global, view: &T) -> Result<Sel, NoMemory>
    ensures { IfOk result (λ after. AreSelected (T.text_of view.now) (spanning true 0 (length (T.text_of view.now)) ∷ []) after.regions) }
{
    alone(
        alloc,
        Region {
            anchor: 0,
            caret: text_end(view),
            goal: None,
        },
    )
}

// A caret at that of the last region; at the text's start where there is none.
fn collapsed<T: TextView>(alloc: Global, view: &T, sel: &Sel) -> Result<Sel, NoMemory>
    requires sound { IsSelection sel.now.regions }
    requires inside { AreWithin (length (T.text_of view.now)) sel.now.regions }
    ensures { IfOk result (λ after. AreSelected (T.text_of view.now) (caret_of (last_caret sel.now.regions) ∷ []) after.regions) }
{
    if sel.regions.is_empty() {
        return Sel::caret_at(alloc, 0);
    }
    sel.collapse(alloc)
}

// A caret at the start of a logical line, counted from 0.
fn at_line<T: TextView>(alloc: Global, view: &T, line: u64) -> Result<Sel, NoMemory>
    ensures { IfOk result (λ after. AreSelected (T.text_of view.now) (caret_of (start_of_numbered (T.text_of view.now) line) ∷ [])
        after.regions) }
{
    Sel::caret_at(alloc, start_of_line(view, line))
}

// The last region, whose caret goes to a point.
fn dragged_to<T: TextView>(
    alloc: Global,
    view: &T,
    sel: &Sel,
    line: u64,
    column: u64,
) -> Result<Sel, NoMemory>
    requires characters { all_scalars (T.text_of view.now) ≡ true }
    requires starts { StartAtPlaces (T.text_of view.now) (T.pieces_of view.now) }
    requires inside { AreWithin (length (T.text_of view.now)) sel.now.regions }
    ensures { IfOk result (λ after. AreSelected (T.text_of view.now)
        (dragged (gap_of_point (T.text_of view.now) (T.pieces_of view.now) line column) sel.now.regions) after.regions) }
{
    let gap = point(alloc, view, line, column)?;
    drag(alloc, sel, gap)
}

// The regions after a gesture at a point.
fn touched_at<T: TextView>(
    alloc: Global,
    view: &T,
    sel: &Sel,
    line: u64,
    column: u64,
    ty: Touch,
) -> Result<Sel, NoMemory>
    requires characters { all_scalars (T.text_of view.now) ≡ true }
    requires starts { StartAtPlaces (T.text_of view.now) (T.pieces_of view.now) }
    requires sound { IsSelection sel.now.regions }
    requires inside { AreWithin (length (T.text_of view.now)) sel.now.regions }
    ensures { IfOk result (λ after. AreSelected (T.text_of view.now) (regions_touched (T.text_of view.now) ty
        (gap_of_point (T.text_of view.now) (T.pieces_of view.now) line column) (map without_goal sel.now.regions)) after.regions) }
{
    let gap = point(alloc, view, line, column)?;
    touched(alloc, view, sel, ty, gap)
}

// The regions after a gesture at a gap.
fn touched<T: TextView>(
    alloc: Global,
    view: &T,
    sel: &Sel,
    ty: Touch,
    gap: u64,
) -> Result<Sel, NoMemory>
    requires sound { IsSelection sel.now.regions }
    requires inside { AreWithin (length (T.text_of view.now)) sel.now.regions }
    requires gap { gap ≤ length (T.text_of view.now) }
    ensures { IfOk result (λ after. AreSelected (T.text_of view.now)
        (regions_touched (T.text_of view.now) ty gap (map without_goal sel.now.regions)) after.regions) }
{
    match ty {
        Touch::Point => Sel::caret_at(alloc, gap),
        Touch::Toggle => toggle(alloc, sel, gap),
        Touch::Range => range_to(alloc, sel, gap),
        Touch::Word => word_alone(alloc, view, gap),
        Touch::Line => line_alone(alloc, view, gap),
    }
}

// The word at a gap alone.
fn word_alone<T: TextView>(alloc: Global, view: &T, gap: u64) -> Result<Sel, NoMemory>
    ensures { IfOk result (λ after. AreSelected (T.text_of view.now) (word_around (T.text_of view.now) gap ∷ []) after.regions) }
{
    let word = word_at(alloc, view, gap)?;
    alone(alloc, word)
}

// The logical line at a gap alone.
fn line_alone<T: TextView>(alloc: Global, view: &T, gap: u64) -> Result<Sel, NoMemory>
    ensures { IfOk result (λ after. AreSelected (T.text_of view.now) (line_around (T.text_of view.now) gap ∷ []) after.regions) }
{
    let line = line_region(view, gap);
    alone(alloc, line)
}
