// The index of the lines of a text: counted by who asks for it, and at an opening under a count of its own.
ghost use Rattle.std.specs.Prelude.{◌≡◌, ◌+◌, ◌<◌, ◌≤◌, length, IfOk};
ghost use Rattle.std.specs.Arc.{arc_value};
ghost use Rattle.plain_text.specs.Lines.{logical_lines};
ghost use Rattle.line_index.specs.Index.{touched_lines};
ghost use Rattle.doc_layout.specs.Changed.{IsChangeOf};
ghost use Rattle.doc_view.specs.Inner.{index_at};

use line_index::LineIndex;
use plain_edits::UnitDelta;
use plain_text::{NoMemory, Steps};
use rope_tree::Rope;
use std::alloc::Global;
use std::marker::Brand;
use std::sync::Arc;
use std::sync::ledger::{Blank, Ledger};
use xi_plain::Config;

/// The lines of a text for a configuration, whose steps nobody counts.
pub(crate) fn first_index(
    alloc: Global,
    text: &Rope,
    config: Config,
) -> Result<Arc<LineIndex, Global>, NoMemory>
    ensures { IfOk result (λ made. arc_value made ≡ index_at text.now config) }
{
    counted_index::<Brand>(alloc, text, config, Blank::new(1))
}

fn counted_index<L: Ledger>(
    alloc: Global,
    text: &Rope,
    config: Config,
    blank: Blank,
) -> Result<Arc<LineIndex, Global>, NoMemory>
    requires blank { (blank.name ≡ L.name) × ((blank.parts ≡ L.parts) × (0 < blank.parts)) }
    ensures { IfOk result (λ made. arc_value made ≡ index_at text.now config) }
{
    let mut steps = Steps::<L>::new(blank);
    index_of(alloc, text, config, &mut steps)
}

/// The lines of a text for a configuration.
pub(crate) fn index_of<L: Ledger>(
    alloc: Global,
    text: &Rope,
    config: Config,
    steps: &mut Steps<L>,
) -> Result<Arc<LineIndex, Global>, NoMemory>
    ensures made { IfOk result (λ made. arc_value made ≡ index_at text.now config) }
    ensures ticks { steps.new ≤ steps.old + length (logical_lines text.now) }
{
    let index = LineIndex::of_rope(alloc, text, config.width, config.tab, steps)?;
    Ok(Arc::new(alloc, index)?)
}

/// The lines of the text after an edit, of which the rope is that text.
pub(crate) fn edited_index<L: Ledger>(
    alloc: Global,
    index: &LineIndex,
    text: &Rope,
    units: &UnitDelta,
    steps: &mut Steps<L>,
) -> Result<Arc<LineIndex, Global>, NoMemory>
    requires { IsChangeOf index.now.text text.now units.now }
    ensures made { IfOk result (λ made. arc_value made ≡ record index.now { text = text.now }) }
    ensures ticks { steps.new ≤ steps.old + touched_lines units.now index.now.text }
{
    let edited = index.edited(alloc, text, units, steps)?;
    Ok(Arc::new(alloc, edited)?)
}
