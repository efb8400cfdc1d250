ghost use Rattle.std.specs.Prelude.{◌≡◌, ◌↔◌, ℕ, ◌<◌, ◌≤◌, List, [], ◌∷◌, ◌++◌, length, map, All, flat_map};
ghost use Rattle.std.specs.Prelude.{slice_index, IsTrue, IfSome, IfNone, IfOk};
ghost use Rattle.m_number.specs.Numeral.{Numeral, IsNumeral};
ghost use Rattle.m_number.specs.Text.{text_of};
ghost use Rattle.m_key.specs.Node.{Node, NodeSubscript, IsText, IsSubscript, IsNode};
ghost use Rattle.m_key.specs.Key.{escaped, subscript_bytes, ended, key_bytes};
ghost use Rattle.m_key.specs.Reference.{node_subscript_of, subscript_list, node_of};

use crate::escapes::unescape;
use crate::key_parts::split_at_zero;
use crate::{Name, Reference, SUBSCRIPT_LIMIT, Subscript, Subscripts, Text};
use m_number::{decode, parse_canonical};
use std::alloc::{AllocError, Global};

/// The reference that has this key, where there is one.
pub fn reference_of(alloc: Global, key: &[u8]) -> Result<Option<Reference>, AllocError>
    ensures some { IfOk result (λ o. IfSome o (λ r. key_bytes (node_of r) ≡ key.now)) }
    ensures none { IfOk result (λ o. IfNone o
        ((n : Node) → IsNode n → key_bytes n ≡ key.now → ⊥)) }
{
    let Some((name, rest)) = split_at_zero(key) else {
        return Ok(None);
    };
    let Some(name) = Name::of(name) else {
        return Ok(None);
    };
    match read_all(alloc, rest)? {
        Some(subscripts) => Ok(Some(Reference { name, subscripts })),
        None => Ok(None),
    }
}

/// The subscripts that stand here, up to the 0 behind the last.
fn read_all(alloc: Global, bytes: &[u8]) -> Result<Option<Subscripts>, AllocError>
    ensures some { IfOk result (λ o. IfSome o
        (λ s. flat_map ended (map node_subscript_of (subscript_list s)) ++ 0 ∷ [] ≡ bytes.now)) }
    ensures none { IfOk result (λ o. IfNone o
        ((ss : List NodeSubscript) → length ss ≤ 31 → All IsSubscript ss
        → flat_map ended ss ++ 0 ∷ [] ≡ bytes.now → ⊥)) }
{
    let mut items = Vec::new(alloc);
    let mut rest = bytes;
    while !is_end(rest) {
        let Some((part, more)) = split_at_zero(rest) else {
            return Ok(None);
        };
        if items.len() == SUBSCRIPT_LIMIT {
            return Ok(None);
        }
        let Some(subscript) = read_one(alloc, part)? else {
            return Ok(None);
        };
        items.push(subscript)?;
        rest = more;
    }
    Ok(Some(Subscripts::new(items)))
}

fn is_end(bytes: &[u8]) -> bool
    ensures { IsTrue result ↔ (bytes.now ≡ 0 ∷ []) }
{
    bytes.len() == 1 && bytes[0] == 0
}

/// The subscript that has these bytes, without the 0 behind them.
fn read_one(alloc: Global, bytes: &[u8]) -> Result<Option<Subscript>, AllocError>
    ensures some { IfOk result (λ o. IfSome o (λ s. subscript_bytes (node_subscript_of s) ≡ bytes.now)) }
    ensures none { IfOk result (λ o. IfNone o
        ((s : NodeSubscript) → IsSubscript s → subscript_bytes s ≡ bytes.now → ⊥)) }
{
    if !bytes.is_empty() && bytes[0] == 0xFF {
        read_text(alloc, &bytes[1..])
    } else {
        Ok(decode(bytes).map(Subscript::Num))
    }
}

/// The string of these bytes, which stand behind the FF.
fn read_text(alloc: Global, bytes: &[u8]) -> Result<Option<Subscript>, AllocError>
    ensures some { IfOk result (λ o. IfSome o
        (λ s. subscript_bytes (node_subscript_of s) ≡ 0xFF ∷ bytes.now)) }
    ensures none { IfOk result (λ o. IfNone o
        ((t : List ℕ) → IsText t → flat_map escaped t ≡ bytes.now → ⊥)) }
{
    let Some(text) = unescape(alloc, bytes)? else {
        return Ok(None);
    };
    if is_string(&text) {
        Ok(Some(Subscript::Text(Text::of(text))))
    } else {
        Ok(None)
    }
}

/// Whether a text is neither null nor that of a canonical number.
fn is_string(text: &[u8]) -> bool
    ensures { IsTrue result
        ↔ ((0 < length text.now) × ((n : Numeral) → IsNumeral n → text_of n ≡ text.now → ⊥)) }
{
    match parse_canonical(text) {
        Some(_) => false,
        None => !text.is_empty(),
    }
}
