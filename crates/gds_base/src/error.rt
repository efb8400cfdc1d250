ghost use Rattle.std.specs.Prelude.{◌≡◌};
ghost use Rattle.gds_base.specs.Errors.{base_error, trouble_error};
ghost use Rattle.gds_base.specs.declared.error.BaseError.TheVariants.{Memory};

use gds_units::UnitError;
use host_model::UnitTrouble;
use std::alloc::AllocError;
use thiserror::Error;

/// Why a call on a database failed.
#[derive(Clone, Copy, Debug, PartialEq, Eq, Error)]
pub enum BaseError {
    /// Memory ran out.
    #[error("memory ran out")]
    Memory,
    /// A file could not be read.
    #[error("a file could not be read")]
    ReadFault,
    /// A file could not be written. No call writes from then on: the files want to be opened again.
    #[error("a file could not be written")]
    WriteFault,
    /// An earlier call could not write, so nothing is written any more.
    #[error("an earlier call could not write")]
    Stopped,
    /// A file changed while it was open.
    #[error("unit {unit} has changed")]
    Changed {
        /// The unit that changed: 0 is the header, and n + 1 is block n.
        unit: u32,
    },
    /// The key has more bytes than the database allows.
    #[error("the key is too long")]
    KeyTooLong,
    /// The value has more bytes than the database allows.
    #[error("the value is too long")]
    ValueTooLong,
    /// The database has too few free blocks and can't grow enough.
    #[error("the database is full")]
    Full,
    /// A tree would get more levels than a database allows.
    #[error("the tree would be too deep")]
    TooDeep,
    /// The transaction numbers are spent.
    #[error("the transaction numbers are spent")]
    TnSpent,
}

impl From<AllocError> for BaseError {
    ghost from_gives = { λ _ error. error ≡ Memory };

    fn from(_: AllocError) -> BaseError {
        BaseError::Memory
    }
}

impl From<UnitError> for BaseError {
    ghost from_gives = { λ error whole. whole ≡ base_error error };

    /// Of the errors that calls on open units end with. What can't be opened has changed since it was.
    fn from(error: UnitError) -> BaseError {
        match error {
            UnitError::Memory => BaseError::Memory,
            UnitError::ReadFault => BaseError::ReadFault,
            UnitError::WriteFault => BaseError::WriteFault,
            UnitError::Stopped => BaseError::Stopped,
            UnitError::Changed { unit } => BaseError::Changed { unit },
            UnitError::NotEmpty | UnitError::BadImages { .. } | UnitError::Unsound { .. } => {
                BaseError::Changed { unit: 0 }
            }
        }
    }
}

impl From<UnitTrouble> for BaseError {
    ghost from_gives = { λ trouble error. error ≡ trouble_error trouble };

    /// A unit could not be read.
    fn from(trouble: UnitTrouble) -> BaseError {
        match trouble {
            UnitTrouble::Memory => BaseError::Memory,
            UnitTrouble::Failed => BaseError::ReadFault,
            UnitTrouble::Changed { unit } => BaseError::Changed { unit },
        }
    }
}
