//! Blocks and their records, made and read.

use crate::bench::Bench;
use crate::texts::{add, add_named, add_pieces, begin_line, number, text};
use crate::trouble::Trouble;
use crate::words::Words;
use gds_block::{
    BlockView, RecordView, least_size, put_bytes, put_u16, put_u32, u32_at, write_head,
};
use m_key::shared_len;
use std::alloc::Global;

/// The greatest size of a block.
const GREATEST_SIZE: usize = 65_024;

pub(crate) fn answer(
    alloc: Global,
    bench: &mut Bench,
    word: &[u8],
    mut words: Words,
) -> Result<Option<Vec<u8>>, Trouble> {
    Ok(Some(match word {
        b"block" => {
            bench.previous.clear();
            bench.bytes = new_block(alloc, words)?;
            Vec::new(alloc)
        }
        b"head" => head(alloc, &mut bench.bytes, words)?,
        b"record" => record(alloc, &mut bench.bytes, words)?,
        b"entry" => entry(alloc, bench, words)?,
        b"read-block" => read(alloc, &bench.bytes)?,
        b"least" => number(alloc, u64::from(least_size(words.byte()?)))?,
        _ => return Ok(None),
    }))
}

/// A block of this level, of this transaction and of so many bytes, which has no record.
fn new_block(alloc: Global, mut words: Words) -> Result<Vec<u8>, Trouble> {
    let level = words.byte()?;
    let tn = words.number()?;
    let size = words.size()?;
    if !(16..=GREATEST_SIZE).contains(&size) {
        return Err(Trouble::Words);
    }
    let mut bytes = Vec::from_elem(alloc, 0, size)?;
    write_head(&mut bytes, level, 16, tn);
    Ok(bytes)
}

/// Writes a head with a level, a used count and a transaction number.
fn head(alloc: Global, bytes: &mut [u8], mut words: Words) -> Result<Vec<u8>, Trouble> {
    let level = words.byte()?;
    let used = words.small()?;
    let tn = words.number()?;
    if bytes.len() < 16 {
        return Err(Trouble::Words);
    }
    write_head(bytes, level, used, tn);
    Ok(Vec::new(alloc))
}

/// A record with a count and a body, behind those that the block has.
fn record(alloc: Global, bytes: &mut [u8], mut words: Words) -> Result<Vec<u8>, Trouble> {
    let count = words.short()?;
    let body = words.bytes(alloc)?;
    added(alloc, put_record(bytes, count, &body))
}

/// A record with a key and what follows it, of which the leading bytes that the key shares with the one before are left
/// out.
fn entry(alloc: Global, bench: &mut Bench, mut words: Words) -> Result<Vec<u8>, Trouble> {
    let key = words.bytes(alloc)?;
    let rest = words.bytes(alloc)?;
    let count = shared_len(&bench.previous, &key);
    let mut body = key.get(count..).unwrap_or(&[]).to_vec(alloc)?;
    body.extend_from_slice(&rest)?;
    let count = u16::try_from(count).map_err(|_| Trouble::Words)?;
    let is_put = put_record(&mut bench.bytes, count, &body);
    bench.previous = key;
    added(alloc, is_put)
}

fn added(alloc: Global, is_put: Option<()>) -> Result<Vec<u8>, Trouble> {
    match is_put {
        Some(()) => Ok(Vec::new(alloc)),
        None => text(alloc, b"no room"),
    }
}

/// Writes a record behind the used bytes, if there is room for it.
fn put_record(bytes: &mut [u8], count: u16, body: &[u8]) -> Option<()> {
    let len = bytes.len();
    if !(16..=GREATEST_SIZE).contains(&len) {
        return None;
    }
    let at = u32_at(bytes, 4) as usize;
    let size = body.len().checked_add(4)?;
    if at > len || size > len - at {
        return None;
    }
    put_u16(bytes, at, size as u16);
    put_u16(bytes, at + 2, count);
    put_bytes(bytes, at + 4, body);
    put_u32(bytes, 4, (at + size) as u32);
    Some(())
}

/// The head of a block, and its records.
fn read(alloc: Global, bytes: &[u8]) -> Result<Vec<u8>, Trouble> {
    let Some(block) = BlockView::new(bytes) else {
        return text(alloc, b"no block");
    };
    let mut answer = Vec::new(alloc);
    add_head(alloc, &mut answer, &block)?;
    for record in block.records() {
        begin_line(&mut answer)?;
        add_record(alloc, &mut answer, record)?;
    }
    Ok(answer)
}

fn add_head(alloc: Global, answer: &mut Vec<u8>, block: &BlockView<'_>) -> Result<(), Trouble> {
    add_named(alloc, answer, b"version", u64::from(block.version()))?;
    add_named(alloc, answer, b"reserved", u64::from(block.reserved()))?;
    add_named(alloc, answer, b"level", u64::from(block.level()))?;
    add_named(alloc, answer, b"used", u64::from(block.used()))?;
    add_named(alloc, answer, b"tn", block.tn())
}

fn add_record(alloc: Global, answer: &mut Vec<u8>, record: RecordView<'_>) -> Result<(), Trouble> {
    add_named(alloc, answer, b"record", u64::from(record.offset))?;
    add_named(alloc, answer, b"count", u64::from(record.count))?;
    add(answer, b" body ")?;
    add_pieces(answer, record.body)
}
