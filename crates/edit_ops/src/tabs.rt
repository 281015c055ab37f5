ghost use Rattle.std.specs.Prelude.{◌≡◌, ◌-◌, ◌<◌, true, length, map, replicate, IfOk};
ghost use Rattle.std.specs.Str.{all_scalars};
ghost use Rattle.cluster_core.specs.Columns.{tab_stop};
ghost use Rattle.selection_core.specs.Mapped.{AreWithin};
ghost use Rattle.selection_core.specs.Selection.{IsSelection, lesser_end};
ghost use Rattle.edit_ops.specs.Commands.{IsEffect, editing, tab_text};
ghost use Rattle.edit_ops.specs.Replacements.{replaced_by};

use crate::editing::replace;
use crate::replacement::Replacement;
use movement_core::{column_of, text_end};
use plain_edits::UnitDelta;
use plain_screen::TextView;
use plain_text::{List, NoMemory, Region, Run, Sel, Text};
use std::alloc::Global;
use xi_plain::Config;

/// The edit of a tab at each region, and the carets after it. This asks for one column at each region's lesser end.
pub(crate) fn tabbed<T: TextView>(
    alloc: Global,
    view: &T,
    sel: &Sel,
    config: &Config,
) -> Result<(UnitDelta, Sel), NoMemory>
    requires characters { all_scalars (T.text_of view.now) ≡ true }
    requires tab { 0 < config.now.tab }
    requires sound { IsSelection sel.now.regions }
    requires inside { AreWithin (length (T.text_of view.now)) sel.now.regions }
    ensures { IfOk result (λ made. IsEffect (T.text_of view.now) (editing (map (λ region. replaced_by (tab_text config.now
        (T.text_of view.now) (T.pieces_of view.now) (lesser_end region)) region) sel.now.regions)) made.0 made.1.regions) }
{
    let tabs = tabs_of(alloc, view, sel, config)?;
    replace(alloc, text_end(view), tabs)
}

// Each region is replaced by its tab.
fn tabs_of<T: TextView>(
    alloc: Global,
    view: &T,
    sel: &Sel,
    config: &Config,
) -> Result<List<Replacement>, NoMemory>
    requires characters { all_scalars (T.text_of view.now) ≡ true }
    requires tab { 0 < config.now.tab }
    ensures { IfOk result (λ tabs. tabs ≡ map (λ region. replaced_by (tab_text config.now (T.text_of view.now)
        (T.pieces_of view.now) (lesser_end region)) region) sel.now.regions) }
{
    let mut tabs = List::new(alloc);
    for region in sel.regions.as_slice() {
        tabs.push(tab_at(alloc, view, *region, config)?)?;
    }
    Ok(tabs)
}

// A region is replaced by its tab.
fn tab_at<T: TextView>(
    alloc: Global,
    view: &T,
    region: Region,
    config: &Config,
) -> Result<Replacement, NoMemory>
    requires characters { all_scalars (T.text_of view.now) ≡ true }
    requires tab { 0 < config.now.tab }
    ensures { IfOk result (λ made. made ≡ replaced_by (tab_text config.now (T.text_of view.now) (T.pieces_of view.now)
        (lesser_end region)) region) }
{
    let start = region.anchor.min(region.caret);
    let end = region.anchor.max(region.caret);
    let text = tab_text(alloc, view, start, config)?;
    Ok(Replacement {
        range: Run { start, end },
        text,
    })
}

// The text of a tab at a gap.
fn tab_text<T: TextView>(
    alloc: Global,
    view: &T,
    gap: u64,
    config: &Config,
) -> Result<Text, NoMemory>
    requires characters { all_scalars (T.text_of view.now) ≡ true }
    requires tab { 0 < config.now.tab }
    ensures { IfOk result (λ text. text ≡ tab_text config.now (T.text_of view.now) (T.pieces_of view.now) gap) }
{
    if !config.spaces {
        return Text::from_ascii(alloc, "\t");
    }
    let column = column_of(alloc, view, gap, config.tab)?;
    spaces(alloc, room_to_stop(config.tab, column))
}

// How many columns it is to the next tab stop.
fn room_to_stop(tab: u32, column: u128) -> u32
    requires { 0 < tab }
    ensures { result ≡ tab_stop tab column - column }
{
    let past = column % (tab as u128);
    tab - past as u32
}

// So many spaces.
fn spaces(alloc: Global, count: u32) -> Result<Text, NoMemory>
    ensures { IfOk result (λ text. text ≡ replicate count 32) }
{
    let mut text = Text::new(alloc);
    let mut left = count;
    while left > 0 {
        text.push(' ')?;
        left -= 1;
    }
    Ok(text)
}
