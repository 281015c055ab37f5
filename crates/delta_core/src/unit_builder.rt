ghost use Rattle.std.specs.Prelude.{◌≡◌, ℕ, ◌+◌, ◌^◌, ◌<◌, ◌||◌, false, if◌then◌else◌, ◌==◌, [], ◌∷◌, ◌++◌, IfOk, OnOk, OnErr};
ghost use Rattle.std.specs.Str.{chars};
ghost use Rattle.plain_edits.specs.Delta.{is_in_runs};
ghost use Rattle.plain_edits.specs.UnitDelta.{IsCanonical, unit_adds, unit_keeps};
ghost use Rattle.delta_core.specs.Inner.{run_to, with_added, with_run};

use plain_edits::{Added, Adds, UnitDelta};
use plain_text::{NoMemory, Run, Runs, Text};
use std::alloc::Global;
use std::marker::Model;
use std::mem;

// A unit delta in the making, over what is known of its base so far. To a contract it is that unit delta, which need not be canonical.
#[derive(Drop)]
pub(crate) struct UnitBuilder {
    alloc: Global,
    base: u64,
    // Where the last run starts, which goes to the end of the base; with no characters it is none.
    from: u64,
    // The runs before the last one.
    kept: Runs,
    // What is added left of the end of the base.
    added: Adds,
    // What is added at the end of the base.
    here: Text,
}

impl Model for UnitBuilder {
    ghost use Rattle.std.specs.Prelude.{[], ◌∷◌, ◌++◌};
    ghost use Rattle.plain_edits.specs.declared.delta.UnitDelta.{UnitDelta};

    ghost Value = { UnitDelta };

    ghost use Rattle.delta_core.specs.Inner.{IsUnfinished, run_to};

    ghost view = { λ b. record { base = b.base; kept = b.kept ++ run_to b.from b.base ∷ []; added = b.added ++ (record { gap = b.base; text = b.here }) ∷ [] } };

    ghost invariant = { λ b. IsUnfinished b.base b.from b.kept b.added };
}

impl UnitBuilder {
    pub(crate) fn new(alloc: Global) -> UnitBuilder
        ensures base { result.base ≡ 0 }
        ensures kept { (index : ℕ) → unit_keeps result index ≡ false }
        ensures added { (gap : ℕ) → unit_adds result gap ≡ [] }
    {
        UnitBuilder {
            alloc,
            base: 0,
            from: 0,
            kept: Runs::new(alloc),
            added: Adds::new(alloc),
            here: Text::new(alloc),
        }
    }

    // Goes over `n` characters of the base that are kept.
    pub(crate) fn keep(&mut self, n: u64) -> Result<(), NoMemory>
        requires { self.old.base + n < 2 ^ 64 }
        ensures base { OnOk result (self.new.base ≡ self.old.base + n) }
        ensures kept { OnOk result ((index : ℕ) → unit_keeps self.new index
            ≡ (unit_keeps self.old index || is_in_runs (run_to self.old.base (self.old.base + n) ∷ []) index)) }
        ensures added { OnOk result ((gap : ℕ) → unit_adds self.new gap ≡ unit_adds self.old gap) }
    {
        if n == 0 {
            return Ok(());
        }
        let gap = self.base;
        let text = mem::replace(&mut self.here, Text::new(self.alloc));
        self.base += n;
        push_added(&mut self.added, gap, text)
    }

    // Goes over `n` characters of the base that are dropped.
    pub(crate) fn pass(&mut self, n: u64) -> Result<(), NoMemory>
        requires { self.old.base + n < 2 ^ 64 }
        ensures base { OnOk result (self.new.base ≡ self.old.base + n) }
        ensures kept { OnOk result ((index : ℕ) → unit_keeps self.new index ≡ unit_keeps self.old index) }
        ensures added { OnOk result ((gap : ℕ) → unit_adds self.new gap ≡ unit_adds self.old gap) }
    {
        if n == 0 {
            return Ok(());
        }
        let end = self.base;
        let start = self.from;
        let text = mem::replace(&mut self.here, Text::new(self.alloc));
        self.base += n;
        self.from = self.base;
        push_run(&mut self.kept, start, end)?;
        push_added(&mut self.added, end, text)
    }

    // Adds a text at the end of the base so far.
    pub(crate) fn add(&mut self, text: &str) -> Result<(), NoMemory>
        ensures base { OnOk result (self.new.base ≡ self.old.base) }
        ensures kept { OnOk result ((index : ℕ) → unit_keeps self.new index ≡ unit_keeps self.old index) }
        ensures added { OnOk result ((gap : ℕ) → unit_adds self.new gap
            ≡ unit_adds self.old gap ++ (if self.old.base == gap then chars text.now else [])) }
    {
        self.here.push_str(text)
    }

    // The unit delta, as the only one of its meaning.
    pub(crate) fn into_units(self) -> Result<UnitDelta, NoMemory>
        ensures canonical { IfOk result (λ units. IsCanonical units) }
        ensures base { IfOk result (λ units. units.base ≡ self.base) }
        ensures kept { IfOk result (λ units. (index : ℕ) → unit_keeps units index ≡ unit_keeps self index) }
        ensures added { IfOk result (λ units. (gap : ℕ) → unit_adds units gap ≡ unit_adds self gap) }
    {
        let UnitBuilder {
            alloc: _,
            base,
            from,
            mut kept,
            mut added,
            here,
        } = self;
        push_run(&mut kept, from, base)?;
        push_added(&mut added, base, here)?;
        Ok(UnitDelta { base, kept, added })
    }
}

// Puts a run at the end, unless it is empty.
fn push_run(runs: &mut Runs, start: u64, end: u64) -> Result<(), NoMemory>
    ensures pushed { OnOk result (runs.new ≡ with_run runs.old start end) }
    ensures unchanged { OnErr result (runs.new ≡ runs.old) }
{
    if start < end {
        runs.push(Run { start, end })?;
    }
    Ok(())
}

// Puts an addition at the end, unless it is empty.
fn push_added(adds: &mut Adds, gap: u64, text: Text) -> Result<(), NoMemory>
    ensures pushed { OnOk result (adds.new ≡ with_added adds.old gap text) }
    ensures unchanged { OnErr result (adds.new ≡ adds.old) }
{
    if !text.is_empty() {
        adds.push(Added { gap, text })?;
    }
    Ok(())
}
