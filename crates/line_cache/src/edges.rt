ghost use Rattle.std.specs.Prelude.{◌≡◌, ◌⊎◌, ℕ, ◌+◌, ◌-◌, ◌^◌, ◌<◌, ◌≤◌, ◌||◌};
ghost use Rattle.plain_screen.specs.Plan.{is_near, is_within};
ghost use Rattle.line_cache.specs.Edges.{AreAlike};

use plain_text::Run;

/// How many lines past the window stay valid on either side.
const MARGIN: u64 = 1000;

/// Whether the line with this index is in the run.
fn is_within(run: Run, index: u64) -> bool
    ensures { result ≡ is_within run index }
{
    run.start <= index && index < run.end
}

/// Whether it is in the run widened by the margin.
fn is_near(run: Run, index: u64) -> bool
    requires { index + 1 < 2 ^ 64 }
    ensures { result ≡ is_near run index }
{
    low_edge(run) <= index && index < high_edge(run)
}

/// Whether a line that stays is kept: it is near the window, or requested.
pub(crate) fn is_kept(window: Run, request: Run, index: u64) -> bool
    requires { index + 1 < 2 ^ 64 }
    ensures { result ≡ (is_near window index || is_within request index) }
{
    is_near(window, index) || is_within(request, index)
}

/// Whether a line is shown: it is in the window, or requested.
pub(crate) fn is_shown(window: Run, request: Run, index: u64) -> bool
    ensures { result ≡ (is_within window index || is_within request index) }
{
    is_within(window, index) || is_within(request, index)
}

/// Of the `n` lines from `at` on the first ones that stand alike: in the window or not, near it or not, and requested or not.
pub(crate) fn alike(window: Run, request: Run, at: u64, n: u64) -> u64
    requires some { 0 < n }
    requires room { at + n < 2 ^ 64 }
    ensures some { 0 < result }
    ensures within { result ≤ n }
    ensures alike { AreAlike window request at result }
{
    let n = until_edges(window.start, window.end, at, n);
    let n = until_edges(request.start, request.end, at, n);
    until_edges(low_edge(window), high_edge(window), at, n)
}

/// The same, up to the first of two edges.
fn until_edges(low: u64, high: u64, at: u64, n: u64) -> u64
    requires { 0 < n }
    ensures some { 0 < result }
    ensures within { result ≤ n }
    ensures low { (low ≤ at) ⊎ (at + result ≤ low) }
    ensures high { (high ≤ at) ⊎ (at + result ≤ high) }
{
    until(high, at, until(low, at, n))
}

/// The same, up to an edge.
fn until(edge: u64, at: u64, n: u64) -> u64
    requires { 0 < n }
    ensures some { 0 < result }
    ensures within { result ≤ n }
    ensures apart { (edge ≤ at) ⊎ (at + result ≤ edge) }
{
    if at < edge && edge - at < n {
        edge - at
    } else {
        n
    }
}

/// The first line near a run.
fn low_edge(run: Run) -> u64
    ensures { result ≡ run.start - 1000 }
{
    run.start.saturating_sub(MARGIN)
}

/// The line behind the last one near it, or the greatest number.
fn high_edge(run: Run) -> u64
    ensures low { result ≤ run.end + 1000 }
    ensures high { (result ≡ run.end + 1000) ⊎ (result + 1 ≡ 2 ^ 64) }
{
    run.end.saturating_add(MARGIN)
}
