ghost use Rattle.std.specs.Prelude.{◌≡◌, ◌<◌, true, [], ◌∷◌, length, map, IfOk};
ghost use Rattle.std.specs.Str.{all_scalars};
ghost use Rattle.movement_core.specs.Lines.{StartAtPlaces};
ghost use Rattle.selection_core.specs.Mapped.{AreWithin};
ghost use Rattle.selection_core.specs.Selection.{IsSelection};
ghost use Rattle.edit_ops.specs.Commands.{IsDoneOnText, IsEffect, editing, effect_of};
ghost use Rattle.edit_ops.specs.Inner.{IsSideward, IsSelecting, reached};
ghost use Rattle.edit_ops.specs.Replacements.{IsEditOf, deleted_to, replaced_by};

use crate::deletions::delete_to;
use crate::editing::replace;
use crate::pointing::selected;
use crate::regions::replace_regions;
use crate::tabs::tabbed;
use movement_core::text_end;
use plain_edits::UnitDelta;
use plain_screen::TextView;
use plain_text::{List, NoMemory, Sel, Text};
use std::alloc::Global;
use xi_plain::{Config, EditAct, Motion};

/// What a command does: its edit in characters, and the regions after it. What edits nothing gives the edit that keeps all.
///
/// It costs what a sort of so many regions costs, the motions of its carets, and the texts that are added; a click or a gesture reads
/// the line of its point, or the word there, and a numbered line is searched among the pieces. Want of memory is its only error.
pub fn edit_of<T: TextView>(
    alloc: Global,
    view: &T,
    sel: &Sel,
    act: &EditAct,
    config: &Config,
) -> Result<(UnitDelta, Sel), NoMemory>
    requires act { IsDoneOnText act.now }
    requires tab { 0 < config.now.tab }
    requires characters { all_scalars (T.text_of view.now) ≡ true }
    requires starts { StartAtPlaces (T.text_of view.now) (T.pieces_of view.now) }
    requires sound { IsSelection sel.now.regions }
    requires inside { AreWithin (length (T.text_of view.now)) sel.now.regions }
    ensures { IfOk result (λ made. IsEffect (T.text_of view.now)
        (effect_of config.now (T.text_of view.now) (T.pieces_of view.now) sel.now.regions act.now) made.0 made.1.regions) }
{
    match act {
        EditAct::Insert { chars } => replaced(alloc, view, sel, chars),
        EditAct::Paste { chars } => replaced(alloc, view, sel, chars),
        EditAct::InsertNewline => broken(alloc, view, sel),
        EditAct::InsertTab => tabbed(alloc, view, sel, config),
        EditAct::DeleteBackward => deleted(alloc, view, sel, Motion::Left, config.tab),
        EditAct::DeleteForward => deleted(alloc, view, sel, Motion::Right, config.tab),
        EditAct::DeleteWordBackward => deleted(alloc, view, sel, Motion::WordLeft, config.tab),
        EditAct::DeleteWordForward => deleted(alloc, view, sel, Motion::WordRight, config.tab),
        EditAct::Cut => replaced(alloc, view, sel, &Text::new(alloc)),
        _ => unedited(alloc, view, sel, act, config),
    }
}

// The effect of one text for each region.
fn replaced<T: TextView>(
    alloc: Global,
    view: &T,
    sel: &Sel,
    text: &Text,
) -> Result<(UnitDelta, Sel), NoMemory>
    requires sound { IsSelection sel.now.regions }
    requires inside { AreWithin (length (T.text_of view.now)) sel.now.regions }
    ensures { IfOk result (λ made. IsEffect (T.text_of view.now) (editing (map (replaced_by text.now) sel.now.regions))
        made.0 made.1.regions) }
{
    replace_regions(alloc, text_end(view), sel, text)
}

// The effect of an LF for each region.
fn broken<T: TextView>(alloc: Global, view: &T, sel: &Sel) -> Result<(UnitDelta, Sel), NoMemory>
    requires sound { IsSelection sel.now.regions }
    requires inside { AreWithin (length (T.text_of view.now)) sel.now.regions }
    ensures { IfOk result (λ made. IsEffect (T.text_of view.now) (editing (map (replaced_by (10 ∷ [])) sel.now.regions))
        made.0 made.1.regions) }
{
    let feed = Text::from_ascii(alloc, "\n")?;
    replaced(alloc, view, sel, &feed)
}

// The effect of a deletion, which from a caret alone reaches where this motion goes.
fn deleted<T: TextView>(
    alloc: Global,
    view: &T,
    sel: &Sel,
    motion: Motion,
    tab: u32,
) -> Result<(UnitDelta, Sel), NoMemory>
    requires motion { IsSideward motion }
    requires characters { all_scalars (T.text_of view.now) ≡ true }
    requires starts { StartAtPlaces (T.text_of view.now) (T.pieces_of view.now) }
    requires inside { AreWithin (length (T.text_of view.now)) sel.now.regions }
    ensures { IfOk result (λ made. IsEffect (T.text_of view.now)
        (editing (map (λ region. deleted_to (reached (T.text_of view.now) motion region.caret) region) sel.now.regions))
        made.0 made.1.regions) }
{
    delete_to(alloc, view, text_end(view), sel, motion, tab)
}

// The effect of a command that edits nothing.
fn unedited<T: TextView>(
    alloc: Global,
    view: &T,
    sel: &Sel,
    act: &EditAct,
    config: &Config,
) -> Result<(UnitDelta, Sel), NoMemory>
    requires act { IsSelecting act.now }
    requires characters { all_scalars (T.text_of view.now) ≡ true }
    requires starts { StartAtPlaces (T.text_of view.now) (T.pieces_of view.now) }
    requires sound { IsSelection sel.now.regions }
    requires inside { AreWithin (length (T.text_of view.now)) sel.now.regions }
    ensures { IfOk result (λ made. IsEffect (T.text_of view.now)
        (effect_of config.now (T.text_of view.now) (T.pieces_of view.now) sel.now.regions act.now) made.0 made.1.regions) }
{
    let after = selected(alloc, view, sel, act, config.tab)?;
    let kept = all_kept(alloc, text_end(view))?;
    Ok((kept, after))
}

// The edit that keeps all of a text with so many characters.
fn all_kept(alloc: Global, base: u64) -> Result<UnitDelta, NoMemory>
    ensures { IfOk result (IsEditOf base []) }
{
    let (kept, _) = replace(alloc, base, List::new(alloc))?;
    Ok(kept)
}
