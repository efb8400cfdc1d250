ghost use Rattle.std.specs.Prelude.{◌≡◌};
ghost use Rattle.gds_units.specs.Creating.{made_error};
ghost use Rattle.gds_units.specs.Opening.{unit_error};
ghost use Rattle.gds_units.specs.Reading.{trouble_of};
ghost use Rattle.gds_units.specs.declared.error.UnitError.TheVariants.{WriteFault};

use gds_create::CreateError;
use gds_recovery::RecoveryError;
use host_model::{Host, HostFailed, UnitTrouble};
use thiserror::Error;

/// Why a call on the units of a database failed.
#[derive(Clone, Copy, Debug, PartialEq, Eq, Error)]
pub enum UnitError {
    /// Memory ran out.
    #[error("memory ran out")]
    Memory,
    /// A file could not be read.
    #[error("a file could not be read")]
    ReadFault,
    /// A file could not be written. No call writes from then on: the files want to be opened again.
    #[error("a file could not be written")]
    WriteFault,
    /// An earlier call could not write, so nothing is written any more.
    #[error("an earlier call could not write")]
    Stopped,
    /// A file that was to be made is there.
    #[error("a file is there already")]
    NotEmpty,
    /// A field of the file of images isn't whole in the file or breaks its rule.
    #[error("the file of images is damaged at {at}")]
    BadImages {
        /// Where the field begins.
        at: u64,
    },
    /// The header of the recovered database can't be read.
    #[error("the database has {faults} faults")]
    Unsound {
        /// How many faults it has, which is the one that ends the reading.
        faults: u64,
    },
    /// A file changed while it was open.
    #[error("unit {unit} has changed")]
    Changed {
        /// The unit that changed: 0 is the header, and n + 1 is block n.
        unit: u32,
    },
}

impl From<HostFailed> for UnitError {
    ghost from_gives = { λ _ error. error ≡ WriteFault };

    /// A call that writes or syncs failed.
    fn from(_: HostFailed) -> UnitError {
        UnitError::WriteFault
    }
}

impl From<RecoveryError> for UnitError {
    ghost from_gives = { λ error whole. whole ≡ unit_error error };

    fn from(error: RecoveryError) -> UnitError {
        match error {
            RecoveryError::Memory => UnitError::Memory,
            RecoveryError::ReadFault => UnitError::ReadFault,
            RecoveryError::WriteFault => UnitError::WriteFault,
            RecoveryError::BadImages { at } => UnitError::BadImages { at },
            RecoveryError::Unsound { faults } => UnitError::Unsound { faults },
            RecoveryError::Changed { unit } => UnitError::Changed { unit },
        }
    }
}

impl From<CreateError> for UnitError {
    ghost from_gives = { λ error whole. whole ≡ made_error error };

    fn from(error: CreateError) -> UnitError {
        match error {
            CreateError::Memory => UnitError::Memory,
            CreateError::ReadFault => UnitError::ReadFault,
            CreateError::WriteFault => UnitError::WriteFault,
            CreateError::NotEmpty => UnitError::NotEmpty,
        }
    }
}

impl From<UnitError> for UnitTrouble {
    ghost from_gives = { λ error trouble. trouble ≡ trouble_of error };

    /// Of the errors that reading a unit ends with.
    fn from(error: UnitError) -> UnitTrouble {
        match error {
            UnitError::Memory => UnitTrouble::Memory,
            UnitError::Changed { unit } => UnitTrouble::Changed { unit },
            _ => UnitTrouble::Failed,
        }
    }
}

/// Something could not be said, or only in part.
#[derive(Clone, Copy, Debug, PartialEq, Eq, Error)]
#[error("the output failed")]
pub struct SayFailed;

impl From<HostFailed> for SayFailed {
    fn from(_: HostFailed) -> SayFailed {
        SayFailed
    }
}

/// A host that is handed back, since a database could not be opened or made on it.
#[derive(Drop)]
pub struct Returned<H: Host> {
    /// The host as the call left it.
    pub host: H,
    /// Why the call failed.
    pub error: UnitError,
}
