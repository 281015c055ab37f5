// Which lines of a layout are asked for, and where stretches of them end: no call walks over lines.
ghost use Rattle.std.specs.Prelude.{◌≡◌, ◌<◌, false, true, if◌then◌else◌};
ghost use Rattle.plain_screen.specs.Plan.{is_within};
ghost use Rattle.doc_layout.specs.Told.{is_asked, is_covered};
ghost use Rattle.doc_layout.specs.Inner.{IsNextStart, IsOthersEnd, IsReach, IsStretch, is_run_covered};

use plain_text::Run;

/// The lines that a front end asks for: those of its window, and those that it requests. Both may lie past the text, or have no lines.
#[derive(Clone, Copy, PartialEq, Eq)]
pub struct Asked {
    pub window: Run,
    pub request: Run,
}

impl Asked {
    /// Whether of so many lines each that is asked for by `now` is asked for by this too.
    pub fn covers(&self, now: Asked, len: u64) -> bool
        ensures { result ≡ is_covered self.now now len }
    {
        self.covers_run(now.window, len) && self.covers_run(now.request, len)
    }

    // Whether of so many lines each of the run is asked for.
    fn covers_run(&self, run: Run, len: u64) -> bool
        ensures { result ≡ is_run_covered self.now run len }
    {
        let end = run.end.min(len);
        if end <= run.start {
            return true;
        }
        self.has(run.start) && end <= self.stretch_end(run.start, len)
    }

    // Whether the line with this index is asked for.
    pub(crate) fn has(&self, index: u64) -> bool
        ensures { result ≡ is_asked self.now index }
    {
        is_within(self.window, index) || is_within(self.request, index)
    }

    // Where of so many lines those end that are asked for as the line with this index is, or not asked for as it is not.
    pub(crate) fn stretch_end(&self, at: u64, len: u64) -> u64
        requires { at < len }
        ensures { IsStretch self.now at result len }
    {
        if self.has(at) {
            return self.asked_end(at).min(len);
        }
        self.others_end(at, len)
    }

    // Where the lines that are asked for end, from one of them on.
    fn asked_end(&self, at: u64) -> u64
        requires { is_asked self.now at ≡ true }
        ensures { IsReach self.now at result }
    {
        if is_within(self.window, at) {
            return reach(self.window, self.request);
        }
        reach(self.request, self.window)
    }

    // Where of so many lines those end that are not asked for, from one of them on.
    fn others_end(&self, at: u64, len: u64) -> u64
        requires inside { at < len }
        requires other { is_asked self.now at ≡ false }
        ensures { IsOthersEnd self.now at result len }
    {
        next_start(self.window, at, next_start(self.request, at, len))
    }
}

// Whether the line with this index is in the run.
fn is_within(run: Run, index: u64) -> bool
    ensures { result ≡ is_within run index }
{
    run.start <= index && index < run.end
}

// The end of a run, or of the other where that goes on from there.
fn reach(run: Run, other: Run) -> u64
    ensures { result ≡ (if is_within other run.end then other.end else run.end) }
{
    if is_within(other, run.end) {
        return other.end;
    }
    run.end
}

// The start of a run that has lines, where it comes after this line and before `end`, and else `end`.
fn next_start(run: Run, at: u64, end: u64) -> u64
    requires inside { at < end }
    requires other { is_within run at ≡ false }
    ensures { IsNextStart run at result end }
{
    if at < run.start && run.start < run.end {
        return run.start.min(end);
    }
    end
}
