//! The bytes of a new database, as a definition, and the laws of it. They have no code; each is a function whose
//! contract is the law.
#![tactic(auto)]

mod laws;

pub use laws::{new_is_empty, new_is_whole};
