ghost use Rattle.std.specs.Prelude.{◌≡◌, ◌-◌, ◌^◌, [], length, min, IfOk};

use crate::history::History;
use gds_law::{Fault, FaultSink, SinkTrouble};
use std::alloc::{AllocError, Global};
use std::marker::Model;

/// How many faults a list has room for before it grows.
const ROOM: usize = 16;

/// A sink that keeps the faults that it is told. Clauses see it as their list.
#[derive(Drop)]
pub struct ListSink {
    faults: Vec<Fault>,
}

impl Model for ListSink {
    ghost use Rattle.std.specs.Prelude.{List};
    ghost use Rattle.gds_law.specs.declared.fault.Fault.{Fault};

    ghost Value = { List Fault };

    ghost view = { λ sink. sink.faults.items };
}

impl ListSink {
    /// A sink that was told nothing yet.
    pub fn new(alloc: Global) -> Result<ListSink, AllocError>
        ensures { IfOk result (λ sink. sink ≡ []) }
    {
        let faults = Vec::with_capacity(alloc, ROOM)?;
        Ok(ListSink { faults })
    }

    /// The faults that it was told, in their order.
    pub fn faults(&self) -> &[Fault]
        ensures { result.now ≡ self.now }
    {
        self.faults.as_slice()
    }
}

impl FaultSink for ListSink {
    ghost listed = { λ sink. sink };

    ghost failures = { λ _. 0 };

    fn fault(&mut self, fault: &Fault) -> Result<(), SinkTrouble> {
        match self.faults.push(copied(fault)) {
            Ok(()) => Ok(()),
            Err(_) => Err(SinkTrouble::Memory),
        }
    }
}

/// The same fault. Nothing is allocated.
fn copied(fault: &Fault) -> Fault
    ensures { result ≡ fault.now }
{
    Fault {
        kind: fault.kind,
        block: fault.block,
        offset: fault.offset,
        level: fault.level,
        path: fault.path.copied(),
    }
}

/// A sink that counts the faults that it is told, and keeps none.
#[derive(Drop)]
pub struct CountSink {
    count: u64,
    told: History<Fault>,
}

impl Model for CountSink {
    ghost use Rattle.std.specs.Prelude.{List, length, min, ◌^◌, ◌-◌, ◌≡◌};
    ghost use Rattle.gds_law.specs.declared.fault.Fault.{Fault};

    ghost Value = { List Fault };

    ghost view = { λ sink. sink.told.items };

    ghost invariant = { λ sink. sink.count ≡ min (length sink.told.items) (2 ^ 64 - 1) };
}

impl CountSink {
    /// A sink that was told nothing yet.
    pub fn new() -> CountSink
        ensures { result ≡ [] }
    {
        CountSink {
            count: 0,
            told: History::new(),
        }
    }

    /// How many faults it was told. It stands still at the greatest number.
    pub fn count(&self) -> u64
        ensures { result ≡ min (length self.now) (2 ^ 64 - 1) }
    {
        self.count
    }
}

impl FaultSink for CountSink {
    ghost listed = { λ sink. sink };

    ghost failures = { λ _. 0 };

    fn fault(&mut self, fault: &Fault) -> Result<(), SinkTrouble> {
        self.count = self.count.saturating_add(1);
        self.told = self.told.and(fault);
        Ok(())
    }
}
