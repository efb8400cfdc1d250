ghost use Rattle.std.specs.Prelude.{◌≡◌};

use super::fields::BadField;
use host_model::HostFailed;
use std::alloc::AllocError;
use thiserror::Error;

/// Why the file of images could not be read.
#[derive(Clone, Copy, Debug, PartialEq, Eq, Error)]
pub enum ImagesError {
    /// Memory ran out.
    #[error("memory ran out")]
    Memory,
    /// The device failed.
    #[error("the device failed")]
    ReadFault,
    /// A field isn't whole in the file or breaks its rule.
    #[error("the file of images is damaged at {at}")]
    BadImages {
        /// Where the field begins.
        at: u64,
    },
    /// The file isn't as it was while it was read.
    #[error("the file has changed")]
    Changed {
        /// The unit that changed: 0 is the header of the database file.
        unit: u32,
    },
}

impl From<BadField> for ImagesError {
    ghost use Rattle.gds_images.specs.declared.error.ImagesError.TheVariants.{BadImages};

    ghost from_gives = { λ bad error. error ≡ BadImages bad.at };

    fn from(bad: BadField) -> ImagesError {
        ImagesError::BadImages { at: bad.at }
    }
}

/// Files of images are read here, and the calls that write them answer the host's failure itself.
impl From<HostFailed> for ImagesError {
    ghost use Rattle.gds_images.specs.declared.error.ImagesError.TheVariants.{ReadFault};

    ghost from_gives = { λ _ error. error ≡ ReadFault };

    fn from(_: HostFailed) -> ImagesError {
        ImagesError::ReadFault
    }
}

impl From<AllocError> for ImagesError {
    ghost use Rattle.gds_images.specs.declared.error.ImagesError.TheVariants.{Memory};

    ghost from_gives = { λ _ error. error ≡ Memory };

    fn from(_: AllocError) -> ImagesError {
        ImagesError::Memory
    }
}
