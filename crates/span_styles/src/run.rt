ghost use Rattle.std.specs.Prelude.{◌≡◌, ◌↔◌, ◌+◌, ◌^◌, ◌<◌, false, [], ◌++◌, length, drop, replicate, IfOk, OnOk, None};
ghost use Rattle.span_styles.specs.Inner.{AreStyleRuns, IsRestAt, LosesLast, has_style, layer_of};

use crate::walk::RunWalk;
use plain_text::NoMemory;
use std::alloc::Global;
use std::marker::Model;

/// Characters in a row that have one style, or none; they start where the run before ends.
#[derive(Clone, Copy)]
pub(crate) struct StyleRun {
    pub(crate) end: u64,
    pub(crate) style: Option<u64>,
}

/// So many characters of one style.
#[derive(Clone, Copy)]
pub(crate) struct Stretch {
    pub(crate) len: u64,
    pub(crate) style: Option<u64>,
}

/// A layer as its longest runs of one style. To a contract it is the layer.
#[derive(Drop)]
pub(crate) struct StyleRuns {
    runs: Vec<StyleRun>,
}

impl Model for StyleRuns {
    ghost use Rattle.plain_edits.specs.Styles.{Layer};
    ghost use Rattle.span_styles.specs.Inner.{AreStyleRuns, layer_of};

    ghost Value = { Layer };

    ghost view = { λ s. layer_of 0 s.runs.items };

    ghost invariant = { λ s. AreStyleRuns 0 s.runs.items };
}

impl StyleRuns {
    pub(crate) fn new(alloc: Global) -> StyleRuns
        ensures { result ≡ [] }
    {
        StyleRuns {
            runs: Vec::new(alloc),
        }
    }

    /// A layer of so many characters, of which none has a style.
    pub(crate) fn unstyled(alloc: Global, len: u64) -> Result<StyleRuns, NoMemory>
        ensures { IfOk result (λ made. made ≡ replicate len None) }
    {
        let mut made = StyleRuns::new(alloc);
        made.push(len, None)?;
        Ok(made)
    }

    /// How many characters there are, in O(1).
    pub(crate) fn len(&self) -> u64
        ensures { result ≡ length self.now }
    {
        match self.runs.last() {
            Some(run) => run.end,
            None => 0,
        }
    }

    /// Whether some character has a style, in O(1).
    pub(crate) fn has_styles(&self) -> bool
        ensures { (result ≡ false) ↔ (self.now ≡ replicate (length self.now) None) }
    {
        any_styled(&self.runs)
    }

    /// Puts `n` characters of one style at the end.
    pub(crate) fn push(&mut self, n: u64, style: Option<u64>) -> Result<(), NoMemory>
        requires { length self.old + n < 2 ^ 64 }
        ensures { OnOk result (self.new ≡ self.old ++ replicate n style) }
    {
        if n == 0 {
            return Ok(());
        }
        let end = self.len() + n;
        take_last_of(&mut self.runs, style);
        self.runs.push(StyleRun { end, style })?;
        Ok(())
    }

    /// The characters from a gap on. This costs the logarithm of the number of runs.
    pub(crate) fn walk_from(&self, at: u64) -> RunWalk<'_>
        ensures { result ≡ drop at self.now }
    {
        let _len = self.len();
        RunWalk::new(runs_after(&self.runs, at), at)
    }
}

// Whether some run has a style: of two neighbours one has.
fn any_styled(runs: &[StyleRun]) -> bool
    ensures { result ≡ has_style runs.now }
{
    match runs {
        [] => false,
        [run] => run.style.is_some(),
        _ => true,
    }
}

// Takes the last run off where it has this style.
fn take_last_of(runs: &mut Vec<StyleRun>, style: Option<u64>)
    ensures { LosesLast style runs.old.items runs.new.items }
{
    match runs.last() {
        Some(last) if last.style == style => {
            let _ = runs.pop();
        }
        _ => {}
    }
}

// The runs that end after a gap.
fn runs_after(runs: &[StyleRun], at: u64) -> &[StyleRun]
    requires { AreStyleRuns 0 runs.now }
    ensures { IsRestAt at (drop at (layer_of 0 runs.now)) result.now }
{
    let index = runs.partition_point(|run| run.end <= at);
    &runs[index..]
}
