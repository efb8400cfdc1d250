ghost use Rattle.std.specs.Prelude.{◌≡◌};
ghost use Rattle.gds_recovery.specs.Errors.{chain_error, error_of};
ghost use Rattle.gds_recovery.specs.declared.error.RecoveryError.TheVariants.{WriteFault};
ghost use Rattle.gds_recovery.specs.declared.error.Trouble.TheVariants.{Write};

use gds_images::ImagesError;
use host_model::HostFailed;
use thiserror::Error;

/// Why the files of a database could not be recovered.
#[derive(Clone, Copy, Debug, PartialEq, Eq, Error)]
pub enum RecoveryError {
    /// Memory ran out.
    #[error("memory ran out")]
    Memory,
    /// A file could not be read.
    #[error("a file could not be read")]
    ReadFault,
    /// A file could not be written. Some of what was due may be done: the files want to be opened again.
    #[error("a file could not be written")]
    WriteFault,
    /// A field of the file of images isn't whole in the file or breaks its rule.
    #[error("the file of images is damaged at {at}")]
    BadImages {
        /// Where the field begins.
        at: u64,
    },
    /// The header of the recovered database can't be read.
    #[error("the database has {faults} faults")]
    Unsound {
        /// How many faults it has, which is the one that ends the reading.
        faults: u64,
    },
    /// A file changed while it was read.
    #[error("unit {unit} has changed")]
    Changed {
        /// The unit that changed: 0 is the header of the database file.
        unit: u32,
    },
}

impl From<HostFailed> for RecoveryError {
    ghost from_gives = { λ _ error. error ≡ WriteFault };

    /// A call that writes or syncs failed.
    fn from(_: HostFailed) -> RecoveryError {
        RecoveryError::WriteFault
    }
}

impl From<ImagesError> for RecoveryError {
    ghost from_gives = { λ error whole. whole ≡ chain_error error };

    fn from(error: ImagesError) -> RecoveryError {
        match error {
            ImagesError::Memory => RecoveryError::Memory,
            ImagesError::ReadFault => RecoveryError::ReadFault,
            ImagesError::BadImages { at } => RecoveryError::BadImages { at },
            ImagesError::Changed { unit } => RecoveryError::Changed { unit },
        }
    }
}

/// Why a part of a recovery didn't come to its end.
#[derive(Clone, Copy, Debug, PartialEq, Eq)]
pub(crate) enum Trouble {
    /// A file could not be read.
    Read,
    /// A file could not be written.
    Write,
    /// A file has fewer bytes than it had.
    Changed,
}

impl From<HostFailed> for Trouble {
    ghost from_gives = { λ _ trouble. trouble ≡ Write };

    /// A call that writes or syncs failed.
    fn from(_: HostFailed) -> Trouble {
        Trouble::Write
    }
}

impl From<Trouble> for RecoveryError {
    ghost from_gives = { λ trouble error. error ≡ error_of trouble };

    fn from(trouble: Trouble) -> RecoveryError {
        match trouble {
            Trouble::Read => RecoveryError::ReadFault,
            Trouble::Write => RecoveryError::WriteFault,
            Trouble::Changed => RecoveryError::Changed { unit: 0 },
        }
    }
}
