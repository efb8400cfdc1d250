ghost use Rattle.std.specs.Prelude.{◌≡◌, ℕ, List, IfOk, IfSome, IfNone};
ghost use Rattle.m_text.specs.Grammar.{IsValueText};

use crate::reading::read_string;
use m_number::parse_canonical;
use std::alloc::{AllocError, Global};

/// The value that the whole text stands for, where it stands for one.
pub fn read_value(alloc: Global, text: &[u8]) -> Result<Option<Vec<u8>>, AllocError>
    ensures some { IfOk result (λ o. IfSome o (λ value. IsValueText text.now value.items)) }
    ensures none { IfOk result (λ o. IfNone o ((value : List ℕ) → IsValueText text.now value → ⊥)) }
{
    if parse_canonical(text).is_some() {
        return Ok(Some(Vec::from_slice(alloc, text)?));
    }
    let mut value = Vec::new(alloc);
    let Some(rest) = read_string(text, &mut value)? else {
        return Ok(None);
    };
    if rest.is_empty() {
        Ok(Some(value))
    } else {
        Ok(None)
    }
}
