//! Packed blocks: entries to the bytes of a block and back, and the cutting of a list of entries into
//! runs that each fit in a block.
//!
//! A record is its size (2 bytes), its compression count (2 bytes), its key but for as many leading bytes
//! as the count says, which are those of the key before it, and the rest: a pointer or a value. A key ends
//! with its first two neighbouring zero bytes. The last record of an index block is the star, which has no
//! key.
#![tactic(auto)]

mod cut;
mod entry;
mod laws;
mod packing;
mod unpacking;

pub use cut::cut_to_fit;
pub use entry::Entry;
pub use laws::{block_read, joined_size, part_size, size_with_one_more, three_runs};
pub use m_key::Key;
pub use packing::{pack, packed_size};
pub use unpacking::unpack;
