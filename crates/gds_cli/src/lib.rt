//! The top call `gds`: one command on the files of a host, and its answer, with the exit status that it ends with.
#![tactic(auto)]

mod call;
mod create;
mod extract;
mod fault_list;
mod fault_text;
mod laws;
mod run;
mod saying;
mod status;
mod thin;

pub use call::{Ended, gds};
pub use laws::one_reply;
pub use status::Status;
