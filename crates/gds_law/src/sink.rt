ghost use Rattle.std.specs.Prelude.{◌≡◌, ◌≤◌, ℕ, List, [], ◌∷◌, ◌++◌, OnOk, OnErr, IsErrOf};
ghost use Rattle.host_model.specs.Failures.{Rose};
ghost use Rattle.gds_law.specs.declared.fault.Fault.{Fault};

use crate::Fault;
use std::alloc::{AllocError, AllocFailed};
use thiserror::Error;

/// Why a fault could not be told.
#[derive(Clone, Copy, Debug, PartialEq, Eq, Error)]
pub enum SinkTrouble {
    /// Memory ran out.
    #[error("memory ran out")]
    Memory,
    /// The sink failed.
    #[error("the sink failed")]
    Failed,
}

impl From<AllocError> for SinkTrouble {
    ghost use Rattle.gds_law.specs.declared.sink.SinkTrouble.TheVariants.{Memory};

    ghost from_gives = { λ _ trouble. trouble ≡ Memory };

    fn from(_: AllocError) -> SinkTrouble {
        SinkTrouble::Memory
    }
}

impl<T: Drop> From<AllocFailed<T>> for SinkTrouble {
    ghost use Rattle.gds_law.specs.declared.sink.SinkTrouble.TheVariants.{Memory};

    ghost from_gives = { λ _ trouble. trouble ≡ Memory };

    fn from(_: AllocFailed<T>) -> SinkTrouble {
        SinkTrouble::Memory
    }
}

/// What faults are told to, one after another.
pub trait FaultSink {
    /// The faults that were told so far.
    ghost listed: { Self → List Fault };

    /// How often the sink has failed. It stands still at the greatest number of 64 bits.
    ghost failures: { Self → ℕ };

    /// Takes the fault, or where it can't leaves the list as it was.
    fn fault(&mut self, fault: &Fault) -> Result<(), SinkTrouble>
        ensures ok { OnOk result (listed self.new ≡ listed self.old ++ fault.now ∷ []) }
        ensures err { OnErr result (listed self.new ≡ listed self.old) }
        ensures failures { failures self.old ≤ failures self.new }
        ensures failed { IsErrOf result SinkTrouble.Failed → Rose (failures self.old) (failures self.new) };
}
