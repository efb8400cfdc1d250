use m_key::Key;

/// Which tree a block belongs to.
#[derive(Debug, PartialEq, Eq, Drop)]
pub enum Role {
    /// The directory, which leads from names to the roots of globals.
    Directory,
    /// The tree of a global, by the bytes of its record's key in the directory before the first 0. They need be
    /// no name.
    Global(Key),
}
