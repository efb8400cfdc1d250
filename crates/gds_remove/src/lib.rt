//! KILL in one tree: the items whose keys lie in a range go, and with them the blocks that have no entry left.
#![tactic(auto)]

mod children;
mod cutting;
mod emptying;
mod freeing;
mod in_place;
mod killing;
mod leaf;
mod node;
mod range;
mod sole;

pub use killing::kill_in;
