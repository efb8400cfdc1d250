//! The law of faults: what can be wrong with a database file, which faults stand in it and in which order. All of it
//! is said over the file's bytes, apart from how a program would find it. Beside it stand the types in which faults are
//! told, and what a call that tells them leaves of a sink.
#![tactic(auto)]

mod fault;
mod kind;
mod laws;
mod line_laws;
mod path;
mod path_laws;
mod role;
mod sink;
mod visit;

pub use fault::Fault;
pub use kind::FaultKind;
pub use laws::{bytes_test, key_test, text_test, units_are_blocks};
pub use line_laws::lines;
pub use path::Path;
pub use path_laws::{fault_lists, kept_paths};
pub use role::Role;
pub use sink::{FaultSink, SinkTrouble};
pub use visit::Visit;
