ghost use Rattle.std.specs.Prelude.{◌↔◌, nat_eq, IsTrue, IfOk};
ghost use Rattle.std.specs.List.{IsDistinct};

use std::alloc::{AllocError, Global};
use std::collections::BTreeSet;

/// Whether no number stands in the list twice.
pub(crate) fn are_distinct(alloc: Global, numbers: &[u32]) -> Result<bool, AllocError>
    ensures { IfOk result (λ b. IsTrue b ↔ IsDistinct nat_eq numbers.now) }
{
    let mut seen = BTreeSet::new(alloc);
    for number in numbers {
        if !seen.insert(*number)? {
            return Ok(false);
        }
    }
    Ok(true)
}
