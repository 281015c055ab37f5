ghost use Rattle.std.specs.Prelude.{◌≡◌, ◌^◌, ◌<◌, ◌≤◌};

use std::marker::Model;

/// Which calls of a link in memory fail, and how many were made and failed.
#[derive(Drop)]
pub(crate) struct CallList {
    failing: Vec<u64>,
    calls: u64,
    faults: u64,
}

impl Model for CallList {
    ghost use Rattle.outside.specs.Schedule.{FaultSchedule};

    ghost Value = { FaultSchedule };

    ghost view = { λ c. record {
      failing = c.failing.items;
      calls = c.calls;
      faults = c.faults;
    } };
}

impl CallList {
    ghost use Rattle.outside.specs.Schedule.{is_due, next, schedule_of};

    pub(crate) fn new(failing: Vec<u64>) -> CallList
        ensures { result ≡ schedule_of failing.items }
    {
        CallList {
            failing,
            calls: 0,
            faults: 0,
        }
    }

    pub(crate) fn calls(&self) -> u64
        ensures { result ≡ self.now.calls }
    {
        self.calls
    }

    pub(crate) fn faults(&self) -> u64
        ensures { result ≡ self.now.faults }
    {
        self.faults
    }

    /// Counts a call, and says whether it is to fail.
    pub(crate) fn enter(&mut self) -> bool
        ensures due { result ≡ is_due self.old }
        ensures after { self.new ≡ next self.old }
        ensures stay { self.old.faults ≤ self.new.faults }
        ensures fit { self.new.faults < 2 ^ 64 }
    {
        let faults = self.faults;
        self.calls = self.calls.saturating_add(1);
        let is_due = self.failing.contains(&self.calls);
        if is_due {
            self.faults = faults.saturating_add(1);
        }
        is_due
    }
}
