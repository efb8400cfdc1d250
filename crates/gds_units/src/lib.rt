//! The units of an open database, whose changes survive a stop at any moment.
//!
//! A database is opened by recovering it. Its units are read one by one, and changed by plans, each whole. Changed
//! units wait in memory until an epoch makes all of them durable at once: a crash leaves files of which the next
//! opening finds the database of the last epoch, or of the one that was being written.
#![tactic(auto)]

mod buffer;
mod error;
mod example;
mod plan;
mod units;

pub use error::{Returned, SayFailed, UnitError};
pub use example::{ExampleError, change_and_tell};
pub use plan::Plan;
pub use units::Units;
