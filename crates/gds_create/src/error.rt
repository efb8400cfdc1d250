ghost use Rattle.std.specs.Prelude.{◌≡◌};

use host_model::HostFailed;
use std::alloc::AllocError;
use thiserror::Error;

/// Why the files of a new database could not be made.
#[derive(Clone, Copy, Debug, PartialEq, Eq, Error)]
pub enum CreateError {
    /// Memory ran out.
    #[error("memory ran out")]
    Memory,
    /// The length of a file could not be had.
    #[error("a file could not be read")]
    ReadFault,
    /// A file could not be written. What the files hold then is refused or is the new database.
    #[error("a file could not be written")]
    WriteFault,
    /// A file has bytes.
    #[error("a file isn't empty")]
    NotEmpty,
}

impl From<HostFailed> for CreateError {
    ghost use Rattle.gds_create.specs.declared.error.CreateError.TheVariants.{WriteFault};

    ghost from_gives = { λ _ error. error ≡ WriteFault };

    /// A call that writes or syncs failed.
    fn from(_: HostFailed) -> CreateError {
        CreateError::WriteFault
    }
}

impl From<AllocError> for CreateError {
    ghost use Rattle.gds_create.specs.declared.error.CreateError.TheVariants.{Memory};

    ghost from_gives = { λ _ error. error ≡ Memory };

    fn from(_: AllocError) -> CreateError {
        CreateError::Memory
    }
}
