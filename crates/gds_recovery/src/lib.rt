//! What an opening makes of the two files of a database, whatever a stop has left of them.
#![tactic(auto)]

mod closing;
mod error;
mod laying;
mod reading;
mod recovery;
mod trimming;

pub use error::RecoveryError;
pub use recovery::recover;
