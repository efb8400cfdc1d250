//! An open database that has no fault, by its type, and drafts of what is to be changed in it.
#![tactic(auto)]

mod base;
mod calls;
mod commit;
mod error;
mod groups;
mod growing;
mod laws;
mod plan;
mod reading;
mod reserving;
mod spaces;

pub use base::Base;
pub use error::BaseError;
pub use laws::finds;
