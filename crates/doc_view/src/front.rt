// How far an edit leaves a text as it is.
ghost use Rattle.std.specs.Prelude.{◌≡◌};
ghost use Rattle.plain_edits.specs.UnitDelta.{IsUnitDelta};
ghost use Rattle.doc_view.specs.Front.{KeepsFront};
ghost use Rattle.doc_view.specs.Inner.{first_end, first_gap};

use plain_edits::{Added, UnitDelta};
use plain_text::Run;

/// A gap left of which an edit changes nothing: where its first change is, in O(1).
pub fn kept_front(units: &UnitDelta) -> u64
    requires { IsUnitDelta units.now }
    ensures { KeepsFront units.now result }
{
    let end = first_end(units.kept.as_slice());
    end.min(first_gap(units.added.as_slice(), units.base))
}

// Where the first run ends, if it starts at the start.
fn first_end(runs: &[Run]) -> u64
    ensures { result ≡ first_end runs.now }
{
    match runs.first() {
        Some(run) if run.start == 0 => run.end,
        _ => 0,
    }
}

// The gap of the first addition; this one where there is none.
fn first_gap(added: &[Added], base: u64) -> u64
    ensures { result ≡ first_gap base added.now }
{
    match added.first() {
        Some(first) => first.gap,
        None => base,
    }
}
