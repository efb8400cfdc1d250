//! Edits of a packed block in place: one record is put in, taken out or given another rest, and the record behind it is
//! packed anew. Nothing else is unpacked, and no memory is taken.
#![tactic(auto)]

mod error;
mod insertion;
mod laws;
mod reading;
mod record;
mod removal;
mod replacement;
mod tail;

pub use error::{EditError, Misplaced};
pub use gds_search::Place;
pub use insertion::insert;
pub use laws::edits_are_packable;
pub use removal::remove;
pub use replacement::replace;
