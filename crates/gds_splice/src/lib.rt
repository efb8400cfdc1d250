//! A block of a tree gets other entries or goes into pieces, and the index blocks above it are told.
#![tactic(auto)]

mod above;
mod changing;
mod dividing;
mod halving;
mod laws;
mod node;
mod one_up;
mod packable;
mod parting;
mod parts;
mod pieces;
mod putting;
mod raising;
mod sizes;
mod splicing;
mod taking;
mod telling;
mod writing;

pub use dividing::divide;
pub use halving::Growth;
pub use laws::{
    ancestor_may_part, block_goes_into_pieces, block_stays_one, leaf_may_part, pieces_are_there,
    root_is_raised, spliced_may_part, taken_blocks, tree_becomes,
};
pub use node::{Node, read_node};
pub use packable::is_packable;
pub use parting::part;
pub use parts::{Part, Parts};
pub use pieces::write_pieces;
pub use sizes::place_at;
pub use splicing::splice;
pub use taking::take_blocks;
pub use writing::put_entries;
