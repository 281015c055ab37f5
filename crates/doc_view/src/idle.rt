ghost use Rattle.std.specs.Prelude.{◌≡◌, List};
ghost use Rattle.edit_ops.specs.declared.replacement.Replacement.{Replacement as replacement_value};
ghost use Rattle.edit_ops.specs.Replacements.{IsEditOf};
ghost use Rattle.doc_view.specs.Idle.{do_nothing};
ghost use Rattle.doc_view.specs.Inner.{is_whole_run};

use plain_edits::UnitDelta;

/// Whether an edit keeps all of its text, and adds nothing.
pub fn does_nothing(units: &UnitDelta) -> bool
    ensures { (replacements : List replacement_value) → IsEditOf units.now.base replacements units.now
        → result ≡ do_nothing units.now.base replacements }
{
    units.added.is_empty() && keeps_all(units)
}

// Whether an edit keeps all of its text.
fn keeps_all(units: &UnitDelta) -> bool
    ensures { result ≡ is_whole_run units.now.base units.now.kept }
{
    match units.kept.get(0) {
        Some(run) => run.start == 0 && run.end == units.base,
        None => units.base == 0,
    }
}
