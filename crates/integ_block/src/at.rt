use gds_law::{Path, Visit};

/// A block that a path leads to.
#[derive(Debug, PartialEq, Eq, Drop)]
pub struct At {
    pub path: Path,
    pub visit: Visit,
}

/// A record with a sound pointer, by its offset, and the block that it points to.
#[derive(Debug, PartialEq, Eq, Drop)]
pub struct Child {
    pub offset: u32,
    pub visit: Visit,
}
