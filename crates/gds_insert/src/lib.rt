//! SET in one tree: an item is put into the leaf to which its key belongs, or takes the place of one with its key.
#![tactic(auto)]

mod entries;
mod in_pieces;
mod in_place;
mod laws;
mod reading;
mod setting;

pub use laws::leaf_with_item;
pub use setting::set_in;
