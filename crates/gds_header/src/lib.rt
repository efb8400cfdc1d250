//! The file header of a database: its first 8,192 bytes, their fields, and what can be wrong with them.
#![tactic(auto)]

mod header;
mod kind;

pub use header::{HEADER_LENGTH, Header};
pub use kind::{HeaderFault, HeaderKind, ending_is_decided_by_front, ending_stands_alone};
