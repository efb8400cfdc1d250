use host_model::SourceFailed;
use std::alloc::{AllocError, AllocFailed};
use thiserror::Error;

/// Why a line could not be given.
#[derive(Clone, Copy, Debug, PartialEq, Eq, Error)]
pub enum LinesError {
    /// There was no memory for what was taken ahead.
    #[error("out of memory")]
    Memory,
    /// The source failed.
    #[error("the input failed")]
    InputFault,
    /// More bytes were taken from the source than the limit of an input.
    #[error("the input is too long")]
    InputTooLong,
}

impl From<AllocError> for LinesError {
    ghost use Rattle.std.specs.Prelude.{◌≡◌};
    ghost use Rattle.gds_lines.specs.declared.error.LinesError.TheVariants.{Memory};

    ghost from_gives = { λ _ e. e ≡ Memory };

    fn from(_: AllocError) -> LinesError {
        LinesError::Memory
    }
}

impl<T: Drop> From<AllocFailed<T>> for LinesError {
    ghost use Rattle.std.specs.Prelude.{◌≡◌};
    ghost use Rattle.gds_lines.specs.declared.error.LinesError.TheVariants.{Memory};

    ghost from_gives = { λ _ e. e ≡ Memory };

    fn from(_: AllocFailed<T>) -> LinesError {
        LinesError::Memory
    }
}

impl From<SourceFailed> for LinesError {
    ghost use Rattle.std.specs.Prelude.{◌≡◌};
    ghost use Rattle.gds_lines.specs.declared.error.LinesError.TheVariants.{InputFault};

    ghost from_gives = { λ _ e. e ≡ InputFault };

    fn from(_: SourceFailed) -> LinesError {
        LinesError::InputFault
    }
}
