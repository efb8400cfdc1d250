//! The local bitmap of a group of 512 blocks: a block that keeps a state of two bits, a pair, for each.
//!
//! The pair of block k of the group is in bits 2 * (k mod 4) and 2 * (k mod 4) + 1, counted from the
//! lowest, of byte 16 + k div 4. So a map takes 144 bytes, its head of 16 among them.
#![tactic(auto)]

mod bitmap;
mod pairs;
mod state;

pub use bitmap::{count_free, first_free, fresh, mark, state_of};
pub use state::State;
