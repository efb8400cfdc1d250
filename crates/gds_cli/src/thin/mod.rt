//! Thin files, whose directory is a single leaf and so is each global, and the extract of such files.
mod blocks;
mod directory;
mod distinct;
mod extract;
mod header;
mod images;
mod leaf;
mod saying;
mod trouble;

pub(crate) use extract::extract;
pub(crate) use trouble::Trouble;
