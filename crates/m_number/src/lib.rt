//! M's canonical numbers: their texts and their bytes in keys, both ways, and their order.
#![tactic(auto)]

mod bytes;
mod digits;
mod encoded;
mod laws;
mod number;
mod text;

pub use bytes::{decode, encode};
pub use digits::Digits;
pub use encoded::is_encoded;
pub use laws::{byte_bounds, one_encoding, one_text, order, order_by_value, text_bound};
pub use number::Number;
pub use text::{parse_canonical, print};
