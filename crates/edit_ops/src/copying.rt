ghost use Rattle.std.specs.Prelude.{◌≡◌, ◌≤◌, List, ◌∷◌, ◌++◌, length, IfOk};
ghost use Rattle.plain_text.specs.declared.selection.Region.{Region as region_value};
ghost use Rattle.selection_core.specs.Mapped.{AreWithin};
ghost use Rattle.selection_core.specs.Selection.{greater_end};
ghost use Rattle.edit_ops.specs.Commands.{copied_text};
ghost use Rattle.edit_ops.specs.Inner.{copied_on};

use plain_screen::TextView;
use plain_text::{NoMemory, Region, Sel, Text};
use std::alloc::Global;

/// The texts of the regions that are no carets, in order, with an LF between each two; empty where there are none. This costs what
/// the view's `text` costs for each of these regions.
pub fn copied<T: TextView>(alloc: Global, view: &T, sel: &Sel) -> Result<Text, NoMemory>
    requires inside { AreWithin (length (T.text_of view.now)) sel.now.regions }
    ensures { IfOk result (λ text. text ≡ copied_text (T.text_of view.now) sel.now.regions) }
{
    let mut copied = Text::new(alloc);
    let mut is_first = true;
    for region in sel.regions.as_slice() {
        is_first = put_region(alloc, view, &mut copied, is_first, *region)?;
    }
    Ok(copied)
}

// Puts the text of a region at the end, after an LF unless it is the first. Gives whether the first one is still to come.
fn put_region<T: TextView>(
    alloc: Global,
    view: &T,
    copied: &mut Text,
    is_first: bool,
    region: Region,
) -> Result<bool, NoMemory>
    requires inside { greater_end region ≤ length (T.text_of view.now) }
    ensures { IfOk result (λ still. (rest : List region_value) → copied.new ++ copied_on (T.text_of view.now) still rest
        ≡ copied.old ++ copied_on (T.text_of view.now) is_first (region ∷ rest)) }
{
    if region.anchor == region.caret {
        return Ok(is_first);
    }
    let from = region.anchor.min(region.caret);
    let to = region.anchor.max(region.caret);
    let text = view.text(alloc, from, to)?;
    if is_first {
        copied.push_text(&text)?;
        return Ok(false);
    }
    copied.push('\n')?;
    copied.push_text(&text)?;
    Ok(false)
}
