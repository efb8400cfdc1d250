ghost use Rattle.std.specs.Prelude.{◌≡◌};
ghost use Rattle.gds_law.specs.Kinds.{ends, fault_kind_of, name_of};

use gds_header::HeaderKind;

/// What can be wrong with a database file, in the order in which faults are told.
#[derive(Clone, Copy, Debug, PartialEq, Eq)]
pub enum FaultKind {
    /// The file has fewer than 8,192 bytes.
    ShortHeader,
    /// The label is wrong.
    NotDatabase,
    /// The block size is 0 or no multiple of 512.
    BlockSizeNotMultiple,
    /// The block size is above 65,024.
    BlockSizeTooLarge,
    /// There are no blocks.
    NoBlocks,
    /// Another limit of the header is broken.
    BadLimit,
    /// The file is shorter than its header and its blocks.
    ShortFile,
    /// The file is longer than that.
    LongFile,
    /// A byte or a bit of the master map that must be 0 isn't.
    ReservedByte,
    /// The header's transaction number is 0 or above 2^63.
    BadTransactionNumber,
    /// A block's version isn't 1, or its reserved byte isn't 0.
    BadVersion,
    /// A block's transaction number isn't below the header's.
    TransactionTooNew,
    /// A block's used count is below 16.
    UsedTooSmall,
    /// A block's used count is above the block size.
    UsedTooLarge,
    /// A root has level 0.
    RootAtLevelZero,
    /// A root's level is above 7, or another block's isn't one below that of the block that points to it.
    WrongLevel,
    /// A block has no record, and isn't a level-0 block of the directory without bounds.
    EmptyBlock,
    /// Fewer than 4 bytes are left for a record, or its size is below the least.
    RecordTooSmall,
    /// A record ends past the used count.
    RecordTooLarge,
    /// The last record of an index block hasn't size 8.
    StarSize,
    /// The compression count of the last record of an index block isn't 0.
    StarCount,
    /// The compression count of a first record isn't 0.
    FirstCount,
    /// A compression count isn't below the length of the key before it.
    CountTooLarge,
    /// No key ends within the greatest key's length, and more bytes are there.
    KeyTooLong,
    /// No key ends in a record.
    KeyWithoutEnd,
    /// A compression count isn't the number of leading bytes that the key shares.
    WrongCount,
    /// A key isn't above the key before it.
    KeyOutOfOrder,
    /// A key's name is no name.
    BadName,
    /// A key has more than 31 subscripts.
    TooManySubscripts,
    /// A subscript that isn't a string's has the bytes of no number.
    BadNumber,
    /// A subscript that begins as a string's is the encoding of none, or that of a canonical number.
    BadString,
    /// A subscript is the null string.
    NullSubscript,
    /// A key of the directory has a subscript.
    DirectorySubscript,
    /// A key has another name than its global's.
    WrongGlobal,
    /// A key isn't below the upper bound of its block.
    KeyAboveBound,
    /// A key is below the lower bound of its block or, in an index block, equal to it.
    KeyBelowBound,
    /// What follows a key should be a pointer and hasn't 4 bytes.
    RestNotPointer,
    /// A value is longer than the header allows.
    ValueTooLong,
    /// A pointer is 0 or at least 2^31.
    PointerNotPositive,
    /// A pointer names a block past the last one.
    PointerTooLarge,
    /// A pointer names a local bitmap.
    PointerToMap,
    /// A pointer names a block that an earlier path ends in.
    DoublyAllocated,
    /// A local bitmap's used count is below 144.
    MapUsedTooSmall,
    /// A local bitmap's used count is above 144.
    MapUsedTooLarge,
    /// A local bitmap's level isn't 255.
    MapLevel,
    /// The master map says that a group has a free block, and it has none.
    GroupMarkedFree,
    /// The master map says that a group is full, and it has a free block.
    GroupMarkedFull,
    /// The pair of a block in its map is the illegal one.
    IllegalPair,
    /// A block in use is marked free.
    UsedMarkedFree,
    /// A block that nothing uses is marked busy.
    UnusedMarkedBusy,
    /// The pair of a block past the last one isn't 00.
    PairPastTotal,
    /// The header's free count isn't the number of free blocks.
    WrongFreeCount,
}

impl FaultKind {
    /// The name under which the fault is told.
    pub fn name(self) -> &'static str
        ensures { result.now ≡ name_of self }
    {
        match self {
            FaultKind::ShortHeader => "DBFSTHEAD",
            FaultKind::NotDatabase => "DBNOTDB",
            FaultKind::BlockSizeNotMultiple => "DBNOTMLTP",
            FaultKind::BlockSizeTooLarge => "DBSZGT64K",
            FaultKind::NoBlocks => "DBTTLBLK0",
            FaultKind::BadLimit => "GDSLIMIT",
            FaultKind::ShortFile => "DBFSTBC",
            FaultKind::LongFile => "DBFGTBC",
            FaultKind::ReservedByte => "GDSRESV",
            FaultKind::BadTransactionNumber => "GDSTN",
            FaultKind::BadVersion => "GDSVERS",
            FaultKind::TransactionTooNew => "GDSBLKTN",
            FaultKind::UsedTooSmall => "DBBSIZMN",
            FaultKind::UsedTooLarge => "DBBSIZMX",
            FaultKind::RootAtLevelZero => "DBROOTBURN",
            FaultKind::WrongLevel => "DBINCLVL",
            FaultKind::EmptyBlock => "GDSEMPTY",
            FaultKind::RecordTooSmall => "DBRSIZMN",
            FaultKind::RecordTooLarge => "DBRSIZMX",
            FaultKind::StarSize => "DBSTARSIZ",
            FaultKind::StarCount => "DBSTARCMP",
            FaultKind::FirstCount => "DBCMPNZRO",
            FaultKind::CountTooLarge => "DBCMPMX",
            FaultKind::KeyTooLong => "DBGTDBMAX",
            FaultKind::KeyWithoutEnd => "GDSKEYEND",
            FaultKind::WrongCount => "DBCMPBAD",
            FaultKind::KeyOutOfOrder => "DBKEYORD",
            FaultKind::BadName => "DBBADKYNM",
            FaultKind::TooManySubscripts => "DBMAXNRSUBS",
            FaultKind::BadNumber => "DBBADNSUB",
            FaultKind::BadString => "GDSBADSTR",
            FaultKind::NullSubscript => "GDSNULL",
            FaultKind::DirectorySubscript => "DBDIRTSUBSC",
            FaultKind::WrongGlobal => "DBINVGBL",
            FaultKind::KeyAboveBound => "DBKEYGTIND",
            FaultKind::KeyBelowBound => "DBLTSIBL",
            FaultKind::RestNotPointer => "GDSREST",
            FaultKind::ValueTooLong => "GDSVALUE",
            FaultKind::PointerNotPositive => "DBPTRNOTPOS",
            FaultKind::PointerTooLarge => "DBPTRMX",
            FaultKind::PointerToMap => "DBPTRMAP",
            FaultKind::DoublyAllocated => "DBBDBALLOC",
            FaultKind::MapUsedTooSmall => "DBMBSIZMN",
            FaultKind::MapUsedTooLarge => "DBMBSIZMX",
            FaultKind::MapLevel => "DBLVLINC",
            FaultKind::GroupMarkedFree => "DBMBMINCFRE",
            FaultKind::GroupMarkedFull => "GDSMBFULL",
            FaultKind::IllegalPair => "DBBFSTAT",
            FaultKind::UsedMarkedFree => "DBMRKFREE",
            FaultKind::UnusedMarkedBusy => "DBMRKBUSY",
            FaultKind::PairPastTotal => "GDSBEYOND",
            FaultKind::WrongFreeCount => "GDSFREE",
        }
    }

    /// Whether the kind ends the reading: one of the header that of the file, one of a block or of a record that of
    /// its block.
    pub fn ends(self) -> bool
        ensures { result ≡ ends self }
    {
        matches!(
            self,
            FaultKind::ShortHeader
                | FaultKind::NotDatabase
                | FaultKind::BlockSizeNotMultiple
                | FaultKind::BlockSizeTooLarge
                | FaultKind::NoBlocks
                | FaultKind::BadLimit
                | FaultKind::ShortFile
                | FaultKind::UsedTooSmall
                | FaultKind::UsedTooLarge
                | FaultKind::RootAtLevelZero
                | FaultKind::WrongLevel
                | FaultKind::RecordTooSmall
                | FaultKind::RecordTooLarge
                | FaultKind::StarSize
                | FaultKind::FirstCount
                | FaultKind::CountTooLarge
                | FaultKind::KeyTooLong
                | FaultKind::KeyWithoutEnd
        )
    }
}

impl From<HeaderKind> for FaultKind {
    ghost from_gives = { λ kind fault. fault ≡ fault_kind_of kind };

    fn from(kind: HeaderKind) -> FaultKind {
        match kind {
            HeaderKind::ShortHeader => FaultKind::ShortHeader,
            HeaderKind::NotDatabase => FaultKind::NotDatabase,
            HeaderKind::BlockSizeNotMultiple => FaultKind::BlockSizeNotMultiple,
            HeaderKind::BlockSizeTooLarge => FaultKind::BlockSizeTooLarge,
            HeaderKind::NoBlocks => FaultKind::NoBlocks,
            HeaderKind::BadLimit => FaultKind::BadLimit,
            HeaderKind::ShortFile => FaultKind::ShortFile,
            HeaderKind::LongFile => FaultKind::LongFile,
            HeaderKind::ReservedByte => FaultKind::ReservedByte,
            HeaderKind::BadTransactionNumber => FaultKind::BadTransactionNumber,
        }
    }
}
