//! Makes the two files of a new database.
//!
//! The file of images is made first, and then the database file, whose label is written last. A crash at any moment
//! leaves files that an opening refuses, or of which it finds the whole new database.
#![tactic(auto)]

mod blocks;
mod create;
mod database;
mod error;
mod first;
mod images;

pub use create::create_files;
pub use error::CreateError;
