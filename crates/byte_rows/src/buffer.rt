//! The bench's bytes, and numbers in them.

use crate::bench::Bench;
use crate::texts::{hex, number, number_or_none};
use crate::trouble::Trouble;
use crate::words::Words;
use gds_block::{pointer_of, put_bytes, put_u16, put_u32, put_u64, u16_at, u32_at, u64_at};
use std::alloc::Global;

pub(crate) fn answer(
    alloc: Global,
    bench: &mut Bench,
    word: &[u8],
    mut words: Words,
) -> Result<Option<Vec<u8>>, Trouble> {
    match word {
        b"bytes" => bench.bytes = words.bytes(alloc)?,
        b"put" => put(alloc, &mut bench.bytes, words)?,
        b"cut" => bench.bytes.truncate(words.size()?),
        b"put-u16" | b"put-u32" | b"put-u64" => put_number(&mut bench.bytes, word, words)?,
        _ => return told(alloc, &bench.bytes, word, words),
    }
    Ok(Some(Vec::new(alloc)))
}

/// What commands answer that leave the bytes as they are.
fn told(
    alloc: Global,
    bytes: &[u8],
    word: &[u8],
    mut words: Words,
) -> Result<Option<Vec<u8>>, Trouble> {
    Ok(Some(match word {
        b"show" => shown(alloc, bytes, words)?,
        b"u16" | b"u32" | b"u64" => number(alloc, number_at(bytes, word, words)?)?,
        b"pointer" => {
            let rest = words.bytes(alloc)?;
            number_or_none(alloc, pointer_of(&rest).map(u64::from))?
        }
        _ => return Ok(None),
    }))
}

/// Writes bytes over those at a place.
fn put(alloc: Global, out: &mut [u8], mut words: Words) -> Result<(), Trouble> {
    let at = words.size()?;
    let bytes = words.bytes(alloc)?;
    if at > out.len() || bytes.len() > out.len() - at {
        return Err(Trouble::Words);
    }
    put_bytes(out, at, &bytes);
    Ok(())
}

/// So many bytes from a place on.
fn shown(alloc: Global, bytes: &[u8], mut words: Words) -> Result<Vec<u8>, Trouble> {
    let at = words.size()?;
    let end = at.saturating_add(words.size()?);
    hex(alloc, bytes.get(at..end).ok_or(Trouble::Words)?)
}

/// Writes the number of a word, whose length the command's word says.
fn put_number(out: &mut [u8], word: &[u8], mut words: Words) -> Result<(), Trouble> {
    let at = words.size()?;
    if at > out.len() || out.len() - at < 8 {
        return Err(Trouble::Words);
    }
    match word {
        b"put-u16" => put_u16(out, at, words.short()?),
        b"put-u32" => put_u32(out, at, words.small()?),
        _ => put_u64(out, at, words.number()?),
    }
    Ok(())
}

fn number_at(bytes: &[u8], word: &[u8], mut words: Words) -> Result<u64, Trouble> {
    let at = words.size()?;
    let left = bytes.len().saturating_sub(at);
    match word {
        b"u16" if left >= 2 => Ok(u64::from(u16_at(bytes, at))),
        b"u32" if left >= 4 => Ok(u64::from(u32_at(bytes, at))),
        b"u64" if left >= 8 => Ok(u64_at(bytes, at)),
        _ => Err(Trouble::Words),
    }
}
