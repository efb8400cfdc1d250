//! A host over real files and standard output, and a source over standard input.
//!
//! What the system's files hold is not known, so both tell nothing. What is proved of them is what a
//! program may rely on whatever the system does: how many bytes came at most, and that each failure
//! is counted.
#![tactic(auto)]

mod host;
mod links;
mod opened;
mod place;
mod reading;
mod stdin;

pub use host::FileHost;
pub use links::without_links;
pub use reading::read_full_at;
pub use stdin::StdinSource;
