//! Laws about one tree of a file: which blocks are right, what stands below them, and what a change of a tree leaves
//! sound. They have no code; each is a function whose contract is the law.
#![tactic(auto)]

mod block_laws;
mod change_laws;
mod entry_laws;
mod tree_laws;

pub use block_laws::{block_by_entries, packed_block, right_block, used_bytes};
pub use change_laws::{
    collapsed_root, other_numbers, replaced_entries, split_block, split_root, tree_inside,
};
pub use entry_laws::{
    changed_index, changed_leaf, cut_entries, joined_entries, other_header, other_visit,
    parted_entry, trees_of_front,
};
pub use tree_laws::{kept_tree, tree_by_entries, tree_content, trees_in_parts, widened_tree};
