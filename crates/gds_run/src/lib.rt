//! A script of changes, questions and epochs, answered line by line on a database.
#![tactic(auto)]

mod call;
mod change;
mod error;
mod killing;
mod line;
mod lines;
mod question;
mod session;
mod setting;

pub use call::{Ran, run};
pub use error::RunError;
