//! Changes of a database that are made ready in memory: a header and some blocks.
#![tactic(auto)]

mod draft;
mod laws;

pub use draft::Draft;
pub use laws::{
    committed_bytes, drafted_header, drafted_reads, header_put, nothing_drafted, put_rewrites,
    same_by_blocks, stamped_draft,
};
