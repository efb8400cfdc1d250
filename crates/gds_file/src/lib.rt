//! Laws about a whole file whose trees change.
#![tactic(auto)]

mod laws;

pub use laws::{
    file_stays_sound, frees, grown_room, grows, kill_items, maps_in_two_parts, reshapes, rewrites,
    same_carries_over, set_item, stamp_keeps_trees, takes,
};
