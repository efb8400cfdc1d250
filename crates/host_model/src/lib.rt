//! The outside, as a database sees it: two files, a place to say things, and a source of input.
#![tactic(auto)]

mod host;
mod order;
mod source;
mod units;

pub use host::{FileNo, Host, HostFailed};
pub use order::{barrier, store, store_and_tell};
pub use source::{Source, SourceFailed};
pub use units::{UnitSource, UnitTrouble};
