//! What is asked of the globals of a database, and what changes them.
#![tactic(auto)]

mod asking;
mod committing;
mod killing;
mod laws;
mod levels;
mod looking;
mod planting;
mod questions;
mod ready;
mod setting;
mod taking;

pub use asking::get;
pub use committing::set;
pub use killing::{draft_kill, kill};
pub use laws::item_of_global;
pub use questions::{Next, data, order, query};
pub use ready::draft_set;
pub use setting::set_in_draft;
