ghost use Rattle.std.specs.Prelude.{◌≡◌};

use host_model::HostFailed;
use std::alloc::{AllocError, AllocFailed};

/// Why an extract broke off.
#[derive(Clone, Copy, Debug, PartialEq, Eq)]
pub(crate) enum Trouble {
    /// Memory ran out.
    Memory,
    /// A file could not be read.
    Read,
    /// Standard output failed.
    Say,
    /// The database file gave other bytes than before, or fewer than its length had promised. Unit 0 is the header,
    /// and unit n + 1 is block n.
    Changed { unit: u64 },
}

impl From<AllocError> for Trouble {
    ghost use Rattle.gds_cli.specs.declared.thin.trouble.Trouble.TheVariants.{Memory};

    ghost from_gives = { λ _ t. t ≡ Memory };

    fn from(_: AllocError) -> Trouble {
        Trouble::Memory
    }
}

impl<T: Drop> From<AllocFailed<T>> for Trouble {
    ghost use Rattle.gds_cli.specs.declared.thin.trouble.Trouble.TheVariants.{Memory};

    ghost from_gives = { λ _ t. t ≡ Memory };

    fn from(_: AllocFailed<T>) -> Trouble {
        Trouble::Memory
    }
}

/// A host's failure at reading a file. One at saying is told apart where it comes.
impl From<HostFailed> for Trouble {
    ghost use Rattle.gds_cli.specs.declared.thin.trouble.Trouble.TheVariants.{Read};

    ghost from_gives = { λ _ t. t ≡ Read };

    fn from(_: HostFailed) -> Trouble {
        Trouble::Read
    }
}
