ghost use Rattle.std.specs.Prelude.{◌≡◌, ◌∷◌};
ghost use Rattle.m_key.specs.KeyParts.{subscript_parts, unescaped};
ghost use Rattle.gds_law.specs.Number.{is_number_bytes};
ghost use Rattle.gds_law.specs.Key.{is_text, subscript_fault, first_fault, key_fault};

use gds_law::FaultKind;
use m_key::{
    SUBSCRIPT_LIMIT, is_escaped_text, is_name, name_part, subscript_count, subscript_parts,
};
use m_number::is_encoded;

/// What is wrong with a key's name or its subscripts, the first of it.
pub(crate) fn key_fault(key: &[u8]) -> Option<FaultKind>
    ensures { result ≡ key_fault key.now }
{
    if !is_name(name_part(key)) {
        return Some(FaultKind::BadName);
    }
    if subscript_count(key) > SUBSCRIPT_LIMIT {
        return Some(FaultKind::TooManySubscripts);
    }
    first_fault(key)
}

/// What is wrong with the first bad one of a key's subscripts.
fn first_fault(key: &[u8]) -> Option<FaultKind>
    ensures { result ≡ first_fault (subscript_parts key.now) }
{
    for part in subscript_parts(key) {
        let fault = subscript_fault(part);
        if fault.is_some() {
            return fault;
        }
    }
    None
}

/// What is wrong with a subscript.
fn subscript_fault(part: &[u8]) -> Option<FaultKind>
    ensures { result ≡ subscript_fault part.now }
{
    match part.strip_prefix(b"\xFF") {
        Some(text) => string_fault(text),
        None if is_number(part) => None,
        None => Some(FaultKind::BadNumber),
    }
}

/// The same of a string's, by what stands behind its FF.
fn string_fault(text: &[u8]) -> Option<FaultKind>
    ensures { result ≡ subscript_fault (255 ∷ text.now) }
{
    if text.is_empty() {
        Some(FaultKind::NullSubscript)
    } else if is_text(text) {
        None
    } else {
        Some(FaultKind::BadString)
    }
}

fn is_number(bytes: &[u8]) -> bool
    ensures { result ≡ is_number_bytes bytes.now }
{
    is_encoded(bytes)
}

/// Whether these are a string's bytes with their escapes.
fn is_text(bytes: &[u8]) -> bool
    ensures { result ≡ is_text (unescaped bytes.now) }
{
    is_escaped_text(bytes)
}
