use thiserror::Error;

/// Why an edit wasn't made. The block is then as it was.
#[derive(Clone, Copy, Debug, PartialEq, Eq, Error)]
pub enum EditError {
    /// The entries don't fit in the block.
    #[error("the entries don't fit in the block")]
    NoRoom,
    /// The place isn't one of this block, or the block isn't packed.
    #[error("the place isn't one of this block")]
    Misplaced,
}

/// The place isn't one of this block, or the block isn't packed. The block is then as it was.
#[derive(Clone, Copy, Debug, PartialEq, Eq, Error)]
#[error("the place isn't one of this block")]
pub struct Misplaced;
