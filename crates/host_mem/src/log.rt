ghost use Rattle.std.specs.Prelude.{◌≡◌, ◌≤◌, None, Some, OnOk, OnErr};
ghost use Rattle.host_model.specs.Failures.{Rose, counted};

use super::call::Call;
use super::step::Entry;
use host_model::HostFailed;
use std::alloc::Global;
use std::marker::Model;

/// The calls of a memory host so far, and what of them counts for a crash.
#[derive(Drop)]
pub(crate) struct Log {
    calls: Vec<Call>,
    steps: Vec<Entry>,
    clock: u64,
    starved: u64,
}

impl Model for Log {
    ghost use Rattle.std.specs.Prelude.{◌≤◌, map};
    ghost use Rattle.host_mem.specs.Log.{Log};
    ghost use Rattle.host_mem.specs.Entries.{step_of};

    ghost Value = { Log };

    ghost view = { λ log. record {
      calls = log.calls.items;
      steps = map step_of log.steps.items;
      moment = log.clock;
      starved = log.starved;
    } };

    ghost invariant = { λ log. log.starved ≤ log.clock };
}

impl Log {
    ghost use Rattle.host_mem.specs.Log.{Recorded, starving, new_log};
    ghost use Rattle.host_mem.specs.Entries.{IsEntries, step_of};

    pub(crate) fn new(alloc: Global) -> Log
        ensures { result ≡ new_log }
    {
        Log {
            calls: Vec::new(alloc),
            steps: Vec::new(alloc),
            clock: 0,
            starved: 0,
        }
    }

    /// The number of the next call. Past the last number there is none, and the last stands.
    pub(crate) fn next(&self) -> u64
        ensures { result ≡ counted self.now.moment }
    {
        self.clock.saturating_add(1)
    }

    /// Counts a call for which there was no memory.
    pub(crate) fn starve(&mut self)
        ensures starving { self.new ≡ starving self.old }
        ensures later { self.old.moment ≤ self.new.moment }
    {
        self.clock = self.clock.saturating_add(1);
        self.starved = self.starved.saturating_add(1);
    }

    /// Counts and records a call. It fails where that finds no memory, or where no number is left.
    pub(crate) fn admit(&mut self, call: Call) -> Result<(), HostFailed>
        ensures ok { OnOk result (Recorded call None self.old self.new) }
        ensures fed { OnOk result (¬ Rose self.old.starved self.new.starved) }
        ensures err { OnErr result (self.new ≡ starving self.old) }
        ensures later { self.old.moment ≤ self.new.moment }
    {
        if self.clock == u64::MAX || self.calls.push(call).is_err() {
            self.starve();
            return Err(HostFailed);
        }
        self.clock += 1;
        Ok(())
    }

    /// Counts and records a call that counts for a crash.
    pub(crate) fn admit_step(&mut self, call: Call, entry: Entry) -> Result<(), HostFailed>
        ensures ok { OnOk result (Recorded call (Some (step_of entry)) self.old self.new) }
        ensures fed { OnOk result (¬ Rose self.old.starved self.new.starved) }
        ensures err { OnErr result (self.new ≡ starving self.old) }
        ensures later { self.old.moment ≤ self.new.moment }
    {
        if self.clock == u64::MAX {
            self.starve();
            return Err(HostFailed);
        }
        let Ok(()) = self.calls.try_reserve(1) else {
            self.starve();
            return Err(HostFailed);
        };
        if self.steps.push(entry).is_err() {
            self.starve();
            return Err(HostFailed);
        }
        self.calls.push(call).unwrap();
        self.clock += 1;
        Ok(())
    }

    pub(crate) fn starved(&self) -> u64
        ensures { result ≡ self.now.starved }
    {
        self.starved
    }

    pub(crate) fn calls(&self) -> &[Call]
        ensures { result.now ≡ self.now.calls }
    {
        self.calls.as_slice()
    }

    /// What counts for a crash, in its order.
    pub(crate) fn steps(&self) -> &[Entry]
        ensures { IsEntries result.now self.now.steps }
    {
        self.steps.as_slice()
    }
}
