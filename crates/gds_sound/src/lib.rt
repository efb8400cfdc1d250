//! What a file without faults stands for: one map of globals. A second reading of a file, which goes by recursion on
//! the levels of its trees, says the same as the law of faults.
#![tactic(auto)]

mod laws;

pub use laws::{one_map, readings_agree};
