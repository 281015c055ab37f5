// Which lines of a screen stay, part by part.
ghost use Rattle.std.specs.Prelude.{◌≡◌, ◌+◌, ◌-◌, ◌^◌, ◌<◌, ◌≤◌, [], length, IfOk, OnOk};
ghost use Rattle.plain_screen.specs.Plan.{partner_at};
ghost use Rattle.plain_screen.specs.Touched.{partners_of};
ghost use Rattle.plain_screen.specs.View.{layout_line_of};
ghost use Rattle.line_cache.specs.Stays.{AreStays, partners_by, valid_by};
ghost use Rattle.match_index.specs.Found.{runs_in};
ghost use Rattle.doc_layout.specs.Found.{MayShow};
ghost use Rattle.doc_layout.specs.Layout.{layout};
ghost use Rattle.line_stays.specs.Change.{IsChangeTo, IsEditedTo, LeavesText, touched_by};
ghost use Rattle.line_stays.specs.declared.change.Change.TheVariants.{Edited};
ghost use Rattle.line_stays.specs.Edges.{AreCutAlike, first_piece, past_piece};
ghost use Rattle.line_stays.specs.Inner.{SayPartners};

use crate::change::Change;
use crate::edges::{first_piece, past_piece, piece_at};
use crate::parts::{Part, put_stays};
use doc_layout::Shown;
use line_cache::{Mirror, Stay};
use plain_screen::TextView;
use plain_text::{List, NoMemory};
use std::alloc::Global;

/// Lines that stay, as runs.
pub type Stays = List<Stay>;

/// The lines that stay on a front end's screen from one layout to the next, by what an event left of the text: of the lines that the front end has,
/// those that it has again, each with the same piece of the counterpart of its logical line, and whether that is not touched. Lines that it does
/// not have are not looked at. It costs the runs of its lines, for each of them the regions and the results that stand there, and where these or
/// styles are others it renders the lines of both.
pub fn stays_of<T: TextView>(
    alloc: Global,
    had: &Mirror,
    before: &Shown<'_, T>,
    after: &Shown<'_, T>,
    change: Change,
) -> Result<Stays, NoMemory>
    requires one { MayShow (T.text_of before.now.view.now) before.now.sel.now.regions before.now.results.now }
    requires another { MayShow (T.text_of after.now.view.now) after.now.sel.now.regions after.now.results.now }
    requires cut { AreCutAlike (T.text_of before.now.view.now) (T.text_of after.now.view.now)
        (T.pieces_of before.now.view.now) (T.pieces_of after.now.view.now) }
    requires fits { length (T.text_of before.now.view.now) + 1 < 2 ^ 64 }
    requires fits_after { length (T.text_of after.now.view.now) + 1 < 2 ^ 64 }
    requires change { IsChangeTo change (T.text_of before.now.view.now) (T.text_of after.now.view.now)
        before.now.layers.now after.now.layers.now }
    requires count { length had.now ≡ length (T.pieces_of before.now.view.now) }
    ensures sound { IfOk result (AreStays (length had.now) (length (T.pieces_of after.now.view.now))) }
    ensures partners { IfOk result (λ stays. valid_by had.now (partners_by stays (length (T.pieces_of after.now.view.now)))
        ≡ valid_by had.now (partners_of (touched_by change (T.text_of after.now.view.now))
        (layout (T.text_of before.now.view.now) (T.pieces_of before.now.view.now) before.now.sel.now.regions
        (runs_in before.now.results.now) before.now.layers.now)
        (layout (T.text_of after.now.view.now) (T.pieces_of after.now.view.now) after.now.sel.now.regions
        (runs_in after.now.results.now) after.now.layers.now))) }
{
    let stays = settled(alloc, had, before, after, change)?;
    Ok(stays)
}

// Of all lines, by whether the event left the text as it was.
fn settled<T: TextView>(
    alloc: Global,
    had: &Mirror,
    before: &Shown<'_, T>,
    after: &Shown<'_, T>,
    change: Change,
) -> Result<Stays, NoMemory>
    requires one { MayShow (T.text_of before.now.view.now) before.now.sel.now.regions before.now.results.now }
    requires another { MayShow (T.text_of after.now.view.now) after.now.sel.now.regions after.now.results.now }
    requires cut { AreCutAlike (T.text_of before.now.view.now) (T.text_of after.now.view.now)
        (T.pieces_of before.now.view.now) (T.pieces_of after.now.view.now) }
    requires fits { length (T.text_of before.now.view.now) + 1 < 2 ^ 64 }
    requires fits_after { length (T.text_of after.now.view.now) + 1 < 2 ^ 64 }
    requires change { IsChangeTo change (T.text_of before.now.view.now) (T.text_of after.now.view.now)
        before.now.layers.now after.now.layers.now }
    ensures { IfOk result (SayPartners had.now (partner_at (partners_of (touched_by change (T.text_of after.now.view.now))
        (layout (T.text_of before.now.view.now) (T.pieces_of before.now.view.now) before.now.sel.now.regions
        (runs_in before.now.results.now) before.now.layers.now)
        (layout (T.text_of after.now.view.now) (T.pieces_of after.now.view.now) after.now.sel.now.regions
        (runs_in after.now.results.now) after.now.layers.now)))
        (length (T.pieces_of before.now.view.now)) (length (T.pieces_of after.now.view.now))) }
{
    match change {
        Change::Edited { front, back } => beside(alloc, had, before, after, front, back),
        Change::Nothing => as_was(alloc, had, before, after, change),
        Change::Styled { from: _ } => as_was(alloc, had, before, after, change),
    }
}

// Of the lines of a text that an event left as it was.
fn as_was<T: TextView>(
    alloc: Global,
    had: &Mirror,
    before: &Shown<'_, T>,
    after: &Shown<'_, T>,
    change: Change,
) -> Result<Stays, NoMemory>
    requires one { MayShow (T.text_of before.now.view.now) before.now.sel.now.regions before.now.results.now }
    requires another { MayShow (T.text_of after.now.view.now) after.now.sel.now.regions after.now.results.now }
    requires cut { AreCutAlike (T.text_of before.now.view.now) (T.text_of after.now.view.now)
        (T.pieces_of before.now.view.now) (T.pieces_of after.now.view.now) }
    requires fits { length (T.text_of before.now.view.now) + 1 < 2 ^ 64 }
    requires fits_after { length (T.text_of after.now.view.now) + 1 < 2 ^ 64 }
    requires change { IsChangeTo change (T.text_of before.now.view.now) (T.text_of after.now.view.now)
        before.now.layers.now after.now.layers.now }
    requires leaves { LeavesText change }
    ensures { IfOk result (SayPartners had.now (partner_at (partners_of (touched_by change (T.text_of after.now.view.now))
        (layout (T.text_of before.now.view.now) (T.pieces_of before.now.view.now) before.now.sel.now.regions
        (runs_in before.now.results.now) before.now.layers.now)
        (layout (T.text_of after.now.view.now) (T.pieces_of after.now.view.now) after.now.sel.now.regions
        (runs_in after.now.results.now) after.now.layers.now)))
        (length (T.pieces_of before.now.view.now)) (length (T.pieces_of after.now.view.now))) }
{
    let all = Part {
        old: 0,
        new: 0,
        n: after.view.lines(),
    };
    let mut stays = Stays::new(alloc);
    put_stays(alloc, &mut stays, had, before, after, change, all)?;
    Ok(stays)
}

// Of the lines left and right of those that an edit touches by text.
fn beside<T: TextView>(
    alloc: Global,
    had: &Mirror,
    before: &Shown<'_, T>,
    after: &Shown<'_, T>,
    front: u64,
    back: u64,
) -> Result<Stays, NoMemory>
    requires one { MayShow (T.text_of before.now.view.now) before.now.sel.now.regions before.now.results.now }
    requires another { MayShow (T.text_of after.now.view.now) after.now.sel.now.regions after.now.results.now }
    requires cut { AreCutAlike (T.text_of before.now.view.now) (T.text_of after.now.view.now)
        (T.pieces_of before.now.view.now) (T.pieces_of after.now.view.now) }
    requires fits { length (T.text_of before.now.view.now) + 1 < 2 ^ 64 }
    requires fits_after { length (T.text_of after.now.view.now) + 1 < 2 ^ 64 }
    requires change { IsEditedTo front back (T.text_of before.now.view.now) (T.text_of after.now.view.now)
        before.now.layers.now after.now.layers.now }
    ensures { IfOk result (SayPartners had.now (partner_at (partners_of (touched_by (Edited front back) (T.text_of after.now.view.now))
        (layout (T.text_of before.now.view.now) (T.pieces_of before.now.view.now) before.now.sel.now.regions
        (runs_in before.now.results.now) before.now.layers.now)
        (layout (T.text_of after.now.view.now) (T.pieces_of after.now.view.now) after.now.sel.now.regions
        (runs_in after.now.results.now) after.now.layers.now)))
        (length (T.pieces_of before.now.view.now)) (length (T.pieces_of after.now.view.now))) }
{
    let change = Change::Edited { front, back };
    let left = left_part(after.view, front);
    let right = right_part(before.view, after.view, back);
    let mut stays = Stays::new(alloc);
    put_stays(alloc, &mut stays, had, before, after, change, left)?;
    put_stays(alloc, &mut stays, had, before, after, change, right)?;
    Ok(stays)
}

// The lines left of the logical line of a gap.
fn left_part<T: TextView>(view: &T, gap: u64) -> Part
    ensures { result ≡ record {
      old = 0;
      new = 0;
      n = first_piece (T.text_of view.now) (T.pieces_of view.now) (layout_line_of (T.pieces_of view.now) gap);
    } }
{
    Part {
        old: 0,
        new: 0,
        n: first_piece(view, view.line_of(gap)),
    }
}

// The lines right of the logical line of the gap that has so many characters right of it.
fn right_part<T: TextView>(before: &T, after: &T, back: u64) -> Part
    requires gap { back ≤ length (T.text_of after.now) }
    requires room { length (T.pieces_of after.now)
        - past_piece (T.pieces_of after.now) (layout_line_of (T.pieces_of after.now) (length (T.text_of after.now) - back))
        ≤ length (T.pieces_of before.now) }
    requires inside { past_piece (T.pieces_of after.now) (layout_line_of (T.pieces_of after.now) (length (T.text_of after.now) - back))
        ≤ length (T.pieces_of after.now) }
    ensures { result ≡ record {
      old = length (T.pieces_of before.now) - (length (T.pieces_of after.now)
          - past_piece (T.pieces_of after.now) (layout_line_of (T.pieces_of after.now) (length (T.text_of after.now) - back)));
      new = past_piece (T.pieces_of after.now) (layout_line_of (T.pieces_of after.now) (length (T.text_of after.now) - back));
      n = length (T.pieces_of after.now)
          - past_piece (T.pieces_of after.now) (layout_line_of (T.pieces_of after.now) (length (T.text_of after.now) - back));
    } }
{
    let len = piece_at(after, after.lines() - 1).end;
    let new = past_piece(after, after.line_of(len - back));
    let n = after.lines() - new;
    Part {
        old: before.lines() - n,
        new,
        n,
    }
}
