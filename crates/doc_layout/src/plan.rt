ghost use Rattle.std.specs.Prelude.{◌≡◌, ◌≤◌, [], length, IfOk, option_map, slice_range};
ghost use Rattle.plain_screen.specs.Plan.{update_plan};
ghost use Rattle.match_index.specs.Found.{runs_in};
ghost use Rattle.doc_layout.specs.Found.{MayShow};
ghost use Rattle.doc_layout.specs.Layout.{layout};
ghost use Rattle.doc_layout.specs.Told.{is_asked, planned, scroll_between};
ghost use Rattle.doc_layout.specs.PositionView.{position_view};
ghost use Rattle.doc_layout.specs.Inner.{stretch_op};

use crate::asked::Asked;
use crate::layout::{Shown, lines_of};
use plain_screen::{Op, Ops, TextView, Update};
use plain_text::NoMemory;
use std::alloc::Global;

/// The update that sends the lines that are asked for, and leaves the others invalid, in one operation for each run of them. It renders the
/// lines that it sends, each from its own characters, and no others; it costs these.
pub fn update_of<T: TextView>(
    alloc: Global,
    shown: &Shown<'_, T>,
    asked: Asked,
    pristine: bool,
) -> Result<Update, NoMemory>
    requires { MayShow (T.text_of shown.now.view.now) shown.now.sel.now.regions shown.now.results.now }
    ensures { IfOk result (λ made. made ≡ planned asked
        (layout (T.text_of shown.now.view.now) (T.pieces_of shown.now.view.now) shown.now.sel.now.regions
        (runs_in shown.now.results.now) shown.now.layers.now) pristine) }
{
    let ops = ops_of(alloc, shown, asked)?;
    Ok(Update { ops, pristine })
}

// The operations of all lines.
fn ops_of<T: TextView>(alloc: Global, shown: &Shown<'_, T>, asked: Asked) -> Result<Ops, NoMemory>
    requires { MayShow (T.text_of shown.now.view.now) shown.now.sel.now.regions shown.now.results.now }
    ensures { IfOk result (λ ops. ops ≡ update_plan asked.window asked.request
        (layout (T.text_of shown.now.view.now) (T.pieces_of shown.now.view.now) shown.now.sel.now.regions
        (runs_in shown.now.results.now) shown.now.layers.now) []) }
{
    let len = shown.view.lines();
    let mut ops = Ops::new(alloc);
    let mut at: u64 = 0;
    while at < len {
        let end = asked.stretch_end(at, len);
        ops.push(op_of(alloc, shown, asked, at, end)?)?;
        at = end;
    }
    Ok(ops)
}

// What tells of the lines from one index up to another, which are all asked for as the first is, or all not.
fn op_of<T: TextView>(
    alloc: Global,
    shown: &Shown<'_, T>,
    asked: Asked,
    from: u64,
    to: u64,
) -> Result<Op, NoMemory>
    requires may { MayShow (T.text_of shown.now.view.now) shown.now.sel.now.regions shown.now.results.now }
    requires ordered { from ≤ to }
    requires inside { to ≤ length (T.pieces_of shown.now.view.now) }
    ensures { IfOk result (λ op. op ≡ stretch_op (is_asked asked from) (slice_range
        (layout (T.text_of shown.now.view.now) (T.pieces_of shown.now.view.now) shown.now.sel.now.regions
        (runs_in shown.now.results.now) shown.now.layers.now) from to)) }
{
    if asked.has(from) {
        return Ok(Op::Ins {
            lines: lines_of(alloc, shown, from, to)?,
        });
    }
    Ok(Op::Invalidate { n: to - from })
}

/// The place of the caret, where it is another than before.
pub fn scroll_of(before: (u64, u64), after: (u64, u64)) -> Option<(u64, u64)>
    ensures { option_map position_view result
        ≡ scroll_between (position_view before) (position_view after) }
{
    if before == after { None } else { Some(after) }
}
