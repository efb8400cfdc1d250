use crate::Role;
use m_key::Key;

/// A block of a tree, and what is due there.
#[derive(Debug, PartialEq, Eq, Drop)]
pub struct Visit {
    pub block: u32,
    pub role: Role,
    /// The level that the block must have. A root has none.
    pub level: Option<u8>,
    /// Its keys aren't below this one, and in an index block not equal to it.
    pub low: Option<Key>,
    /// Its keys are below this one.
    pub high: Option<Key>,
}
