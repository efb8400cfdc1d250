//! Laws about a block of a tree whose entries go into several: its pieces are lawful and sound, and so are the entries
//! above that lead to them. They have no code; each is a function whose contract is the law.
#![tactic(auto)]

mod laws;

pub use laws::{
    lawful_pieces, parted_entries, piece_size, pieces_size, pieces_trees, raised_root,
    replaced_trees, written_pieces,
};
