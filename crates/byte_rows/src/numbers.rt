//! Canonical numbers.

use crate::texts::{pieces, text, whether};
use crate::trouble::Trouble;
use crate::words::Words;
use m_number::{decode, encode, is_encoded, parse_canonical, print};
use std::alloc::Global;

pub(crate) fn answer(
    alloc: Global,
    word: &[u8],
    mut words: Words,
) -> Result<Option<Vec<u8>>, Trouble> {
    let bytes = match word {
        b"number" | b"digits" | b"is-number" => words.bytes(alloc)?,
        _ => return Ok(None),
    };
    Ok(Some(match word {
        b"number" => encoded(alloc, &bytes)?,
        b"digits" => printed(alloc, &bytes)?,
        _ => whether(alloc, is_encoded(&bytes))?,
    }))
}

/// The bytes in a key of the number that a text writes. They are those of a copy of it.
fn encoded(alloc: Global, bytes: &[u8]) -> Result<Vec<u8>, Trouble> {
    match parse_canonical(bytes) {
        Some(number) => pieces(alloc, encode(&number.clone()?).as_slice()),
        None => text(alloc, b"none"),
    }
}

/// The text of the number that has these bytes in a key.
fn printed(alloc: Global, bytes: &[u8]) -> Result<Vec<u8>, Trouble> {
    match decode(bytes) {
        Some(number) => text(alloc, print(&number).as_slice()),
        None => text(alloc, b"none"),
    }
}
