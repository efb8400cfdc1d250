//! The search for a key in a packed block, which reads the records where they stand.
#![tactic(auto)]

mod laws;
mod place;
mod reading;
mod scan;

pub use laws::packed_blocks;
pub use place::Place;
pub use reading::{Child, child_at, rest_at};
pub use scan::{Unreadable, search};
