//! Hosts and a source in memory, that tell all they hold.
#![tactic(auto)]

mod call;
mod host;
mod log;
mod memory;
mod parts;
mod replay;
mod source;
mod step;
mod stored;
mod sure;

pub use call::Call;
pub use host::MemHost;
pub use source::MemSource;
pub use sure::SureHost;
