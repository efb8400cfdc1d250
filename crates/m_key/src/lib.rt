//! M's references, their keys, and the order in which both stand.
#![tactic(auto)]

mod collation;
mod escapes;
mod key;
mod key_end;
mod key_parts;
mod keys;
mod laws;
mod name;
mod reading;
mod reference;
mod spelling;
mod subscript;

pub use collation::compare;
pub use escapes::is_escaped_text;
pub use key::{Key, KeyTooLong};
pub use key_end::{end_in, end_within, ends_in_zero, join_key, key_from, shared_len};
pub use key_parts::{
    SubscriptParts, has_subscripts, name_part, split_at_zero, subscript_count, subscript_parts,
};
pub use keys::{key_len, key_of};
pub use laws::{changes, descendants, no_key_begins_another, order, places};
pub use name::{Name, is_name};
pub use reading::reference_of;
pub use reference::{Reference, SUBSCRIPT_LIMIT, Subscripts};
pub use spelling::{name_of, subscript_of};
pub use subscript::{Subscript, Text};
