//! Laws about the index blocks above a block of a tree, its ancestors. They have no code; each is a function whose
//! contract is the law.
#![tactic(auto)]

mod laws;

pub use laws::{
    ancestors_kept, ancestors_of_path, spliced_block, starred_entry, steps_of_ancestors,
    tree_of_ancestors, visit_of_ancestors, whole_content,
};
