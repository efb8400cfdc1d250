use gds_pack::Key;

/// One of the blocks that a block has gone into, but the last.
#[derive(Debug, Drop)]
pub struct Part {
    /// The key that parts it from the next.
    pub key: Key,
    /// Its number.
    pub block: u32,
}

/// The blocks that a block has gone into.
#[derive(Debug, Drop)]
pub struct Parts {
    /// All but the last, in the order of their keys.
    pub parted: Vec<Part>,
    /// The number of the last.
    pub last: u32,
}
