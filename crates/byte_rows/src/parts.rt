//! The parts of keys.

use crate::texts::{
    add, add_named, add_pieces, add_word, begin_line, number, number_or_none, pieces, whether,
    yes_or_no,
};
use crate::trouble::Trouble;
use crate::words::Words;
use m_key::{
    end_in, ends_in_zero, has_subscripts, is_escaped_text, join_key, key_from, name_part,
    shared_len, subscript_count, subscript_parts,
};
use std::alloc::Global;

/// The most bytes of a key.
const KEY_LIMIT: usize = 255;

pub(crate) fn answer(
    alloc: Global,
    word: &[u8],
    mut words: Words,
) -> Result<Option<Vec<u8>>, Trouble> {
    if word == b"join".as_slice() || word == b"shared".as_slice() {
        return Ok(Some(of_two(alloc, word, words)?));
    }
    let bytes = match word {
        b"parts" | b"end" | b"end-after-zero" | b"ends-in-zero" | b"copy" | b"is-string" => {
            words.bytes(alloc)?
        }
        _ => return Ok(None),
    };
    Ok(Some(of_one(alloc, word, &bytes)?))
}

fn of_one(alloc: Global, word: &[u8], bytes: &[u8]) -> Result<Vec<u8>, Trouble> {
    match word {
        b"parts" => parts(alloc, bytes),
        b"end" => end(alloc, false, bytes),
        b"end-after-zero" => end(alloc, true, bytes),
        b"ends-in-zero" => whether(alloc, ends_in_zero(bytes)),
        b"copy" => copied(alloc, bytes),
        _ => whether(alloc, is_escaped_text(bytes)),
    }
}

fn of_two(alloc: Global, word: &[u8], mut words: Words) -> Result<Vec<u8>, Trouble> {
    let first = words.bytes(alloc)?;
    let second = words.bytes(alloc)?;
    if word == b"shared".as_slice() {
        return number(alloc, shared_len(&first, &second) as u64);
    }
    joined(alloc, &first, &second)
}

fn joined(alloc: Global, first: &[u8], second: &[u8]) -> Result<Vec<u8>, Trouble> {
    if first.len() > KEY_LIMIT || second.len() > KEY_LIMIT - first.len() {
        return Err(Trouble::Words);
    }
    pieces(alloc, join_key(first, second).as_slice())
}

fn copied(alloc: Global, bytes: &[u8]) -> Result<Vec<u8>, Trouble> {
    if bytes.len() > KEY_LIMIT {
        return Err(Trouble::Words);
    }
    pieces(alloc, key_from(bytes).as_slice())
}

fn end(alloc: Global, after_zero: bool, bytes: &[u8]) -> Result<Vec<u8>, Trouble> {
    number_or_none(alloc, end_in(after_zero, bytes).map(|end| end as u64))
}

/// The name, the number of subscripts, whether there are any, and each on a line of its own.
fn parts(alloc: Global, key: &[u8]) -> Result<Vec<u8>, Trouble> {
    let mut answer = Vec::new(alloc);
    add_word(&mut answer, b"name ")?;
    add_pieces(&mut answer, name_part(key))?;
    add_named(
        alloc,
        &mut answer,
        b"subscripts",
        subscript_count(key) as u64,
    )?;
    add_word(&mut answer, yes_or_no(has_subscripts(key)))?;
    add_parts(&mut answer, key)?;
    Ok(answer)
}

fn add_parts(answer: &mut Vec<u8>, key: &[u8]) -> Result<(), Trouble> {
    for part in subscript_parts(key) {
        begin_line(answer)?;
        add(answer, b"subscript ")?;
        add_pieces(answer, part)?;
    }
    Ok(())
}
