//! The file of before images: what blocks held at the last epoch, so that a database that was stopped can be laid back.
//!
//! The file is a label, gates, and behind each open gate a group of images. A group is written behind a closed gate and
//! made stable before the gate is opened.
#![tactic(auto)]

mod chain;
mod error;
mod fields;
mod group;
mod laws;
mod reading;

pub use chain::{Chain, Place, Places};
pub use error::ImagesError;
pub use group::{Group, append_group, close_gate, open_gate};
pub use laws::{
    ends_at_its_gate, lays_back_itself, lays_over_outside, needs_its_epoch, opens_to_group,
    rest_is_found, same_is_equivalence,
};
pub use reading::open_chain;
