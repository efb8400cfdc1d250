//! The texts of values and references, both ways, and the texts of extracts.
#![tactic(auto)]

mod laws;
mod null_reference;
mod printing;
mod quoting;
mod reading;
mod reference;
mod subscripts;
mod value;

pub use laws::{
    one_null_reference, one_reference, one_value, written_null_reference, written_reference,
    written_value,
};
pub use null_reference::read_null_reference;
pub use printing::{print_reference, print_value};
pub use reference::read_reference;
pub use value::read_value;
