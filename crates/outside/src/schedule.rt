ghost use Rattle.std.specs.Prelude.{◌≡◌, ◌^◌, ◌<◌, ◌≤◌};

use std::marker::Model;

/// When a source, a sink or a shelf in memory fails.
#[derive(Drop)]
pub(crate) struct Schedule {
    failing: Vec<u64>,
    calls: u64,
    faults: u64,
}

impl Model for Schedule {
    ghost use Rattle.outside.specs.Schedule.{FaultSchedule};

    ghost Value = { FaultSchedule };

    ghost view = { λ s. record {
      failing = s.failing.items;
      calls = s.calls;
      faults = s.faults;
    } };
}

impl Schedule {
    ghost use Rattle.outside.specs.Schedule.{schedule_of, is_due, next};

    pub(crate) fn new(failing: Vec<u64>) -> Self
        ensures { result ≡ schedule_of failing.items }
    {
        Schedule {
            failing,
            calls: 0,
            faults: 0,
        }
    }

    /// How many calls were made. The count stands still at the end of `u64`.
    pub(crate) fn calls(&self) -> u64
        ensures { result ≡ self.now.calls }
    {
        self.calls
    }

    /// How many calls failed.
    pub(crate) fn faults(&self) -> u64
        ensures { result ≡ self.now.faults }
    {
        self.faults
    }

    /// Counts a call, and says whether it is to fail.
    pub(crate) fn enter(&mut self) -> bool
        ensures due { result ≡ is_due self.old }
        ensures after { self.new ≡ next self.old }
        ensures stay { self.old.faults ≤ self.new.faults }
        ensures fit { self.new.faults < 2 ^ 64 }
    {
        let faults = self.faults;
        self.calls = self.calls.saturating_add(1);
        let is_due = self.failing.contains(&self.calls);
        if is_due {
            self.faults = faults.saturating_add(1);
        }
        is_due
    }
}
