//! Where a block stands.

use crate::bench::{Bench, Stand};
use crate::trouble::Trouble;
use crate::words::{Words, decimal};
use gds_law::{Path, Role, Visit};
use integ_block::At;
use m_key::{Key, key_from};
use std::alloc::Global;

/// The most bytes of a key.
const KEY_LIMIT: usize = 255;

pub(crate) fn answer(
    alloc: Global,
    bench: &mut Bench,
    word: &[u8],
    mut words: Words,
) -> Result<Option<Vec<u8>>, Trouble> {
    match word {
        b"stand" => bench.stand = stand(alloc, words)?,
        b"room" => bench.room = words.size()?,
        _ => return Ok(None),
    }
    Ok(Some(Vec::new(alloc)))
}

/// A block, `directory` or its global's name, `root` or its level, and its bounds.
fn stand(alloc: Global, mut words: Words) -> Result<Stand, Trouble> {
    let block = words.small()?;
    let name = name_called(alloc, words.word())?;
    let level = level_called(words.word())?;
    let (low, high) = bounds(alloc, words)?;
    Ok(Stand {
        block,
        name,
        level,
        low,
        high,
    })
}

fn name_called(alloc: Global, word: &[u8]) -> Result<Option<Vec<u8>>, Trouble> {
    if word == b"directory".as_slice() {
        return Ok(None);
    }
    Ok(Some(Words(word).piece(alloc)?))
}

fn level_called(word: &[u8]) -> Result<Option<u8>, Trouble> {
    if word == b"root".as_slice() {
        return Ok(None);
    }
    let level = decimal(word).ok_or(Trouble::Words)?;
    Ok(Some(u8::try_from(level).map_err(|_| Trouble::Words)?))
}

/// The keys behind the words `from` and `to`.
fn bounds(alloc: Global, mut words: Words) -> Result<(Vec<u8>, Vec<u8>), Trouble> {
    words.word();
    let low = words.bytes(alloc)?;
    let high = words.bytes(alloc)?;
    Ok((low, high))
}

/// The same for INTEG of a block, to which no path leads.
pub(crate) fn at(stand: &Stand) -> Result<At, Trouble> {
    Ok(At {
        path: Path::new(),
        visit: visit(stand)?,
    })
}

pub(crate) fn visit(stand: &Stand) -> Result<Visit, Trouble> {
    Ok(Visit {
        block: stand.block,
        role: role(stand)?,
        level: stand.level,
        low: bound(&stand.low)?,
        high: bound(&stand.high)?,
    })
}

fn role(stand: &Stand) -> Result<Role, Trouble> {
    match &stand.name {
        None => Ok(Role::Directory),
        Some(name) => Ok(Role::Global(key(name)?)),
    }
}

fn bound(bytes: &[u8]) -> Result<Option<Key>, Trouble> {
    if bytes.is_empty() {
        return Ok(None);
    }
    Ok(Some(key(bytes)?))
}

fn key(bytes: &[u8]) -> Result<Key, Trouble> {
    if bytes.len() > KEY_LIMIT {
        return Err(Trouble::Words);
    }
    Ok(key_from(bytes))
}
