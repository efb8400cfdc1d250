ghost use Rattle.std.specs.Prelude.{◌≡◌};
ghost use Rattle.gds_header.specs.Kinds.{kind_of, name_of, IsDecidedByFront, EndsAlone};

use thiserror::Error;

/// What can be wrong with a file's header or its length, in the order in which faults are listed.
#[derive(Clone, Copy, Debug, PartialEq, Eq)]
pub enum HeaderKind {
    /// The file has fewer than 8,192 bytes.
    ShortHeader,
    /// The label is wrong.
    NotDatabase,
    /// The block size is 0 or no multiple of 512.
    BlockSizeNotMultiple,
    /// The block size is above 65,024.
    BlockSizeTooLarge,
    /// There are no blocks.
    NoBlocks,
    /// Another limit is broken.
    BadLimit,
    /// The file is shorter than its header and its blocks.
    ShortFile,
    /// The file is longer than that.
    LongFile,
    /// A byte or a bit of the master map that must be 0 isn't.
    ReservedByte,
    /// The transaction number is 0 or above 2^63.
    BadTransactionNumber,
}

impl HeaderKind {
    /// The name under which the fault is told.
    pub fn name(self) -> &'static str
        ensures { result.now ≡ name_of self }
    {
        match self {
            HeaderKind::ShortHeader => "DBFSTHEAD",
            HeaderKind::NotDatabase => "DBNOTDB",
            HeaderKind::BlockSizeNotMultiple => "DBNOTMLTP",
            HeaderKind::BlockSizeTooLarge => "DBSZGT64K",
            HeaderKind::NoBlocks => "DBTTLBLK0",
            HeaderKind::BadLimit => "GDSLIMIT",
            HeaderKind::ShortFile => "DBFSTBC",
            HeaderKind::LongFile => "DBFGTBC",
            HeaderKind::ReservedByte => "GDSRESV",
            HeaderKind::BadTransactionNumber => "GDSTN",
        }
    }
}

/// Why 8,192 bytes are no header: the first of these that is so.
#[derive(Clone, Copy, Debug, PartialEq, Eq, Error)]
pub enum HeaderFault {
    /// The label is wrong.
    #[error("not a database")]
    NotDb,
    /// The block size is 0 or no multiple of 512.
    #[error("the block size is no multiple of 512")]
    NotMultiple,
    /// The block size is above 65,024.
    #[error("the block size is too large")]
    TooLarge,
    /// There are no blocks.
    #[error("there are no blocks")]
    NoTotal,
    /// Another limit is broken.
    #[error("a limit is broken")]
    Limit,
}

impl From<HeaderFault> for HeaderKind {
    ghost from_gives = { λ fault kind. kind ≡ kind_of fault };

    fn from(fault: HeaderFault) -> HeaderKind {
        match fault {
            HeaderFault::NotDb => HeaderKind::NotDatabase,
            HeaderFault::NotMultiple => HeaderKind::BlockSizeNotMultiple,
            HeaderFault::TooLarge => HeaderKind::BlockSizeTooLarge,
            HeaderFault::NoTotal => HeaderKind::NoBlocks,
            HeaderFault::Limit => HeaderKind::BadLimit,
        }
    }
}

/// A law, with nothing to do: the kind that ends the reading of a file is decided by the file's length
/// and its first 8,192 bytes.
pub fn ending_is_decided_by_front()
    ensures { IsDecidedByFront }
{}

/// A law, with nothing to do: where a kind ends the reading of a file, it is the header's one fault.
pub fn ending_stands_alone()
    ensures { EndsAlone }
{}
