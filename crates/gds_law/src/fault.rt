use crate::{FaultKind, Path};

/// A fault, and where it stands. What has no sense for its kind is 0 or the empty path.
#[derive(Debug, PartialEq, Eq, Drop)]
pub struct Fault {
    pub kind: FaultKind,
    /// The block, for a pair of a map the block that it speaks of.
    pub block: u32,
    /// Where the record stands in the block, 0 for the block itself.
    pub offset: u32,
    /// The level byte of the block.
    pub level: u8,
    /// How the block is reached.
    pub path: Path,
}
