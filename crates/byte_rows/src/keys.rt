//! References, their keys and their order.

use crate::bench::Bench;
use crate::texts::{add, number, pieces, text, whether};
use crate::trouble::Trouble;
use crate::words::Words;
use m_key::{
    Key, Name, Reference, Subscript, Subscripts, compare, is_name, key_len, key_of, name_of,
    reference_of, subscript_of,
};
use m_text::print_reference;
use std::alloc::Global;
use std::cmp::Ordering;

pub(crate) fn answer(
    alloc: Global,
    bench: &mut Bench,
    word: &[u8],
    words: Words,
) -> Result<Option<Vec<u8>>, Trouble> {
    Ok(Some(match word {
        b"key" => key(alloc, &mut bench.key, words)?,
        b"key-length" => key_length(alloc, words)?,
        b"list" => listed(alloc, &mut bench.list, words)?,
        b"orders" => orders(alloc, &bench.list)?,
        b"reference" => reference_in(alloc, words)?,
        b"is-name" => is_a_name(alloc, words)?,
        b"name" => name(alloc, words)?,
        _ => return Ok(None),
    }))
}

/// The reference whose name and subscripts are the words left.
fn reference(alloc: Global, mut words: Words) -> Result<Reference, Trouble> {
    let name = word_as_name(alloc, &mut words)?;
    let subscripts = subscripts(alloc, words)?;
    if subscripts.len() > 31 {
        return Err(Trouble::Words);
    }
    Ok(Reference {
        name,
        subscripts: Subscripts::new(subscripts),
    })
}

fn word_as_name(alloc: Global, words: &mut Words) -> Result<Name, Trouble> {
    let bytes = words.piece(alloc)?;
    name_of(&bytes).ok_or(Trouble::Words)
}

/// The subscripts whose texts are the words left.
fn subscripts(alloc: Global, mut words: Words) -> Result<Vec<Subscript>, Trouble> {
    let mut all = Vec::new(alloc);
    for _ in 0..words.0.len() {
        if words.is_empty() {
            break;
        }
        let subscript = subscript(alloc, &mut words)?;
        all.push(subscript).map_err(|_| Trouble::Memory)?;
    }
    Ok(all)
}

fn subscript(alloc: Global, words: &mut Words) -> Result<Subscript, Trouble> {
    let bytes = words.piece(alloc)?;
    if bytes.is_empty() {
        return Err(Trouble::Words);
    }
    Ok(subscript_of(alloc, &bytes)?)
}

/// The key of a reference, which is kept where it isn't too long.
fn key(alloc: Global, key: &mut Key, words: Words) -> Result<Vec<u8>, Trouble> {
    let reference = reference(alloc, words)?;
    match key_of(&reference, key) {
        Ok(()) => pieces(alloc, key.as_slice()),
        Err(long) => too_long(alloc, long.len, key.len()),
    }
}

/// A key would have so many bytes, and the one before it still has `kept`.
fn too_long(alloc: Global, len: u64, kept: usize) -> Result<Vec<u8>, Trouble> {
    Ok(format!(in alloc; "{len} bytes are too many, and the last key has {kept}")?.into_bytes())
}

fn key_length(alloc: Global, words: Words) -> Result<Vec<u8>, Trouble> {
    let reference = reference(alloc, words)?;
    number(alloc, key_len(&reference))
}

fn listed(alloc: Global, list: &mut Vec<Reference>, words: Words) -> Result<Vec<u8>, Trouble> {
    let reference = reference(alloc, words)?;
    list.push(reference).map_err(|_| Trouble::Memory)?;
    Ok(Vec::new(alloc))
}

/// A line for each reference of the list, with a sign for each of them.
fn orders(alloc: Global, list: &[Reference]) -> Result<Vec<u8>, Trouble> {
    let mut answer = Vec::new(alloc);
    for reference in list {
        if !answer.is_empty() {
            add(&mut answer, b"\n")?;
        }
        add_signs(&mut answer, reference, list)?;
    }
    Ok(answer)
}

fn add_signs(answer: &mut Vec<u8>, one: &Reference, list: &[Reference]) -> Result<(), Trouble> {
    for other in list {
        add(answer, sign(compare(one, other)))?;
    }
    Ok(())
}

fn sign(order: Ordering) -> &'static [u8] {
    match order {
        Ordering::Less => b"<",
        Ordering::Equal => b"=",
        Ordering::Greater => b">",
    }
}

/// The text of the reference that has this key.
fn reference_in(alloc: Global, mut words: Words) -> Result<Vec<u8>, Trouble> {
    let bytes = words.bytes(alloc)?;
    match reference_of(alloc, &bytes)? {
        Some(reference) => reference_text(alloc, &reference),
        None => text(alloc, b"none"),
    }
}

/// The text of a reference.
pub(crate) fn reference_text(alloc: Global, reference: &Reference) -> Result<Vec<u8>, Trouble> {
    let mut answer = Vec::new(alloc);
    print_reference(reference, &mut answer)?;
    Ok(answer)
}

fn is_a_name(alloc: Global, mut words: Words) -> Result<Vec<u8>, Trouble> {
    let bytes = words.bytes(alloc)?;
    whether(alloc, is_name(&bytes))
}

fn name(alloc: Global, mut words: Words) -> Result<Vec<u8>, Trouble> {
    let bytes = words.bytes(alloc)?;
    match name_of(&bytes) {
        Some(name) => pieces(alloc, name.bytes()),
        None => text(alloc, b"none"),
    }
}
