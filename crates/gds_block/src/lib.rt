//! The blocks of a database file: the fields of a block's head, and its records, borrowed from its bytes.
//!
//! A block begins with a head of 16 bytes: version (2 bytes), a reserved byte, level (1), used count (4)
//! and transaction number (8), each number with its lowest byte first. The records follow up to the used
//! count. A record is its size (2 bytes), its compression count (2 bytes) and its body.
#![tactic(auto)]

mod fields;
mod head;
mod records;
mod view;

pub use fields::{pointer_of, put_bytes, put_u16, put_u32, put_u64, u16_at, u32_at, u64_at};
pub use head::write_head;
pub use records::{RecordView, Records, least_size};
pub use view::BlockView;
