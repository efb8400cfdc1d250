ghost use Rattle.std.specs.Prelude.{◌≡◌};

use gds_law::SinkTrouble;
use host_model::UnitTrouble;
use std::alloc::{AllocError, AllocFailed};
use thiserror::Error;

/// Why the faults could not all be told.
#[derive(Clone, Copy, Debug, PartialEq, Eq, Error)]
pub enum IntegError {
    /// Memory ran out.
    #[error("memory ran out")]
    Memory,
    /// The file could not be read.
    #[error("the file could not be read")]
    ReadFault,
    /// The file isn't as it was: unit 0 is its header, and unit n + 1 is block n.
    #[error("unit {unit} has changed")]
    Changed {
        /// The unit that was asked for.
        unit: u32,
    },
    /// What faults are told to failed.
    #[error("a fault could not be told")]
    SayFault,
}

impl From<SinkTrouble> for IntegError {
    ghost use Rattle.integ_block.specs.Error.{of_sink};

    ghost from_gives = { λ trouble error. error ≡ of_sink trouble };

    fn from(trouble: SinkTrouble) -> IntegError {
        match trouble {
            SinkTrouble::Memory => IntegError::Memory,
            SinkTrouble::Failed => IntegError::SayFault,
        }
    }
}

impl From<UnitTrouble> for IntegError {
    ghost use Rattle.integ_block.specs.Error.{of_unit};

    ghost from_gives = { λ trouble error. error ≡ of_unit trouble };

    fn from(trouble: UnitTrouble) -> IntegError {
        match trouble {
            UnitTrouble::Memory => IntegError::Memory,
            UnitTrouble::Failed => IntegError::ReadFault,
            UnitTrouble::Changed { unit } => IntegError::Changed { unit },
        }
    }
}

impl From<AllocError> for IntegError {
    ghost use Rattle.integ_block.specs.declared.error.IntegError.TheVariants.{Memory};

    ghost from_gives = { λ _ error. error ≡ Memory };

    fn from(_: AllocError) -> IntegError {
        IntegError::Memory
    }
}

impl<T: Drop> From<AllocFailed<T>> for IntegError {
    ghost use Rattle.integ_block.specs.declared.error.IntegError.TheVariants.{Memory};

    ghost from_gives = { λ _ error. error ≡ Memory };

    fn from(_: AllocFailed<T>) -> IntegError {
        IntegError::Memory
    }
}
