ghost use Rattle.std.specs.Prelude.{◌≡◌, ◌↔◌, ℕ, List, ◌++◌, Some, is_some, flat_map, IsTrue, IfSome, IfNone, IfOk};
ghost use Rattle.m_number.specs.Numeral.{Numeral, IsNumeral};
ghost use Rattle.m_number.specs.Text.{text_of};
ghost use Rattle.m_key.specs.Key.{escaped};
ghost use Rattle.m_key.specs.KeyParts.{unescaped};

use m_number::parse_canonical;
use std::alloc::{AllocError, Global};

/// Whether these bytes are those of a string in a key, behind its FF: a text's with its escapes, which is no canonical
/// number's. The null string passes.
pub fn is_escaped_text(bytes: &[u8]) -> bool
    ensures { IsTrue result ↔ ((text : List ℕ) × (unescaped bytes.now ≡ Some text)
        × ((n : Numeral) → IsNumeral n → text_of n ≡ text → ⊥)) }
{
    // No byte of a number's text is escaped.
    is_escaped(bytes) && parse_canonical(bytes).is_none()
}

/// Whether each byte of these is escaped right.
fn is_escaped(bytes: &[u8]) -> bool
    ensures { result ≡ is_some (unescaped bytes.now) }
{
    let mut rest = bytes;
    while !rest.is_empty() {
        let Some((_, more)) = unescape_one(rest) else {
            return false;
        };
        rest = more;
    }
    true
}

/// The bytes that are escaped so.
pub(crate) fn unescape(alloc: Global, bytes: &[u8]) -> Result<Option<Vec<u8>>, AllocError>
    ensures some { IfOk result (λ o. IfSome o (λ t. flat_map escaped t.items ≡ bytes.now)) }
    ensures none { IfOk result (λ o. IfNone o ((t : List ℕ) → flat_map escaped t ≡ bytes.now → ⊥)) }
{
    let mut text = Vec::with_capacity(alloc, bytes.len())?;
    let mut rest = bytes;
    while !rest.is_empty() {
        let Some((byte, more)) = unescape_one(rest) else {
            return Ok(None);
        };
        text.push(byte)?;
        rest = more;
    }
    Ok(Some(text))
}

/// The byte that is escaped at the front, and what stands behind it.
fn unescape_one(bytes: &[u8]) -> Option<(u8, &[u8])>
    ensures some { IfSome result (λ p. escaped p.0 ++ p.1.now ≡ bytes.now) }
    ensures none { IfNone result ((b : ℕ) (rest : List ℕ) → escaped b ++ rest ≡ bytes.now → ⊥) }
{
    match bytes {
        [1, 1, rest @ ..] => Some((0, rest)),
        [1, 2, rest @ ..] => Some((1, rest)),
        [0 | 1, ..] | [] => None,
        [byte, rest @ ..] => Some((*byte, rest)),
    }
}
