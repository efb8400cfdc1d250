//! Makes changed units of a database file durable.
//!
//! Changed units wait in memory, beside their old bytes. At an epoch the old bytes are written behind the closed gate
//! of the file of images, the gate is opened, the units are written, and the gate is closed. A crash at any moment
//! leaves files of which an opening finds the database before the epoch or the one after it.
#![tactic(auto)]

mod epoch;
mod length;
mod units;
mod waiting;

pub use epoch::write_epoch;
pub use length::{grow_file, shorten_file};
pub use units::place_of;
pub use waiting::{UnitBytes, Waiting};
