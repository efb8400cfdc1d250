//! A database is opened: its two files are recovered, and INTEG finds no fault in the image.
#![tactic(auto)]

mod integrity;
mod opening;

pub use opening::open;
