//! Values and references as texts.

use crate::bench::Bench;
use crate::keys::reference_text;
use crate::texts::{add_number, add_word, pieces, text};
use crate::trouble::Trouble;
use crate::words::Words;
use m_text::{print_value, read_reference, read_value};
use std::alloc::Global;

pub(crate) fn answer(
    alloc: Global,
    bench: &mut Bench,
    word: &[u8],
    mut words: Words,
) -> Result<Option<Vec<u8>>, Trouble> {
    let bytes = match word {
        b"text" | b"print-value" | b"read-value" | b"read-reference" => words.bytes(alloc)?,
        _ => return Ok(None),
    };
    Ok(Some(match word {
        b"text" => set_text(alloc, bench, bytes),
        b"print-value" => printed(alloc, &mut bench.text, &bytes)?,
        b"read-value" => value_in(alloc, &bytes)?,
        _ => reference_at_front(alloc, &bytes)?,
    }))
}

fn set_text(alloc: Global, bench: &mut Bench, bytes: Vec<u8>) -> Vec<u8> {
    bench.text = bytes;
    Vec::new(alloc)
}

/// The bench's text, with that of the value behind it.
fn printed(alloc: Global, out: &mut Vec<u8>, value: &[u8]) -> Result<Vec<u8>, Trouble> {
    print_value(value, out)?;
    text(alloc, out)
}

fn value_in(alloc: Global, bytes: &[u8]) -> Result<Vec<u8>, Trouble> {
    match read_value(alloc, bytes)? {
        Some(value) => pieces(alloc, &value),
        None => text(alloc, b"none"),
    }
}

/// How many bytes a reference takes at the front of a text, and the reference as it is written again.
fn reference_at_front(alloc: Global, bytes: &[u8]) -> Result<Vec<u8>, Trouble> {
    let Some((reference, read)) = read_reference(alloc, bytes)? else {
        return text(alloc, b"none");
    };
    let written = reference_text(alloc, &reference)?;
    let mut answer = Vec::new(alloc);
    add_number(alloc, &mut answer, read as u64)?;
    add_word(&mut answer, &written)?;
    Ok(answer)
}
