ghost use Rattle.std.specs.Prelude.{◌≡◌};

use gds_law::{Fault, FaultSink, SinkTrouble};
use std::alloc::Global;

/// A sink that keeps what it is told, and fails where it has no more room.
#[derive(Drop)]
pub(crate) struct Kept {
    pub(crate) faults: Vec<Fault>,
    room: usize,
    pub(crate) failures: u64,
}

impl FaultSink for Kept {
    ghost listed = { λ kept. kept.faults.items };

    ghost failures = { λ kept. kept.failures };

    fn fault(&mut self, fault: &Fault) -> Result<(), SinkTrouble> {
        if self.faults.len() >= self.room {
            self.failures = self.failures.saturating_add(1);
            return Err(SinkTrouble::Failed);
        }
        self.faults.push(copied(fault))?;
        Ok(())
    }
}

fn copied(fault: &Fault) -> Fault
    ensures { result ≡ fault.now }
{
    Fault {
        kind: fault.kind,
        block: fault.block,
        offset: fault.offset,
        level: fault.level,
        path: fault.path.copied(),
    }
}

pub(crate) fn with_room(alloc: Global, room: usize) -> Kept {
    Kept {
        faults: Vec::new(alloc),
        room,
        failures: 0,
    }
}
