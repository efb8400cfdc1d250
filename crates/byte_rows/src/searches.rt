//! Searches in packed blocks, and edits of them.

use crate::bench::Bench;
use crate::texts::{add_named, pieces, text};
use crate::trouble::Trouble;
use crate::words::Words;
use gds_block::BlockView;
use gds_edit::{EditError, insert, remove, replace};
use gds_search::{Place, child_at, rest_at, search};
use std::alloc::Global;

pub(crate) fn answer(
    alloc: Global,
    bench: &mut Bench,
    word: &[u8],
    words: Words,
) -> Result<Option<Vec<u8>>, Trouble> {
    Ok(Some(match word {
        b"search" => found(alloc, bench, words)?,
        b"place" => {
            bench.place = place(words)?;
            Vec::new(alloc)
        }
        b"rest" => rest(alloc, bench)?,
        b"child" => child(alloc, bench)?,
        b"insert" | b"replace" | b"remove" => edited(alloc, bench, word, words)?,
        _ => return Ok(None),
    }))
}

/// Where a key stands, which becomes the bench's place.
fn found(alloc: Global, bench: &mut Bench, mut words: Words) -> Result<Vec<u8>, Trouble> {
    let key = words.bytes(alloc)?;
    let Some(block) = BlockView::new(&bench.bytes) else {
        return text(alloc, b"no block");
    };
    match search(&block, &key) {
        Ok(place) => {
            bench.place = place;
            place_text(alloc, place)
        }
        Err(_) => text(alloc, b"unreadable"),
    }
}

fn place_text(alloc: Global, place: Place) -> Result<Vec<u8>, Trouble> {
    let mut answer = text(alloc, if place.is_equal { b"at" } else { b"before" })?;
    add_named(alloc, &mut answer, b"offset", place.offset as u64)?;
    add_named(alloc, &mut answer, b"shared", place.shared as u64)?;
    add_named(alloc, &mut answer, b"next", place.next_shared as u64)?;
    Ok(answer)
}

/// A place that is made by hand: offset, whether its key is the entry's, and the counts of shared bytes.
fn place(mut words: Words) -> Result<Place, Trouble> {
    Ok(Place {
        offset: words.size()?,
        is_equal: words.yes()?,
        shared: words.size()?,
        next_shared: words.size()?,
    })
}

fn rest(alloc: Global, bench: &Bench) -> Result<Vec<u8>, Trouble> {
    match rest_at(&bench.bytes, &bench.place) {
        Some(rest) => pieces(alloc, rest),
        None => text(alloc, b"none"),
    }
}

fn child(alloc: Global, bench: &Bench) -> Result<Vec<u8>, Trouble> {
    let Some(child) = child_at(&bench.bytes, &bench.place) else {
        return text(alloc, b"none");
    };
    let mut answer = Vec::new(alloc);
    add_named(alloc, &mut answer, b"offset", child.offset as u64)?;
    add_named(alloc, &mut answer, b"block", u64::from(child.block))?;
    Ok(answer)
}

/// Edits the block at the bench's place.
fn edited(alloc: Global, bench: &mut Bench, word: &[u8], words: Words) -> Result<Vec<u8>, Trouble> {
    let place = bench.place;
    let outcome = match word {
        b"insert" => inserted(alloc, &mut bench.bytes, place, words)?,
        b"replace" => replaced(alloc, &mut bench.bytes, place, words)?,
        _ => remove(&mut bench.bytes, &place).map_err(|_| EditError::Misplaced),
    };
    text(alloc, outcome_word(outcome))
}

fn inserted(
    alloc: Global,
    bytes: &mut [u8],
    place: Place,
    mut words: Words,
) -> Result<Result<(), EditError>, Trouble> {
    let key = words.bytes(alloc)?;
    let rest = words.bytes(alloc)?;
    Ok(insert(bytes, &place, &key, &rest))
}

fn replaced(
    alloc: Global,
    bytes: &mut [u8],
    place: Place,
    mut words: Words,
) -> Result<Result<(), EditError>, Trouble> {
    let rest = words.bytes(alloc)?;
    Ok(replace(bytes, &place, &rest))
}

fn outcome_word(outcome: Result<(), EditError>) -> &'static [u8] {
    match outcome {
        Ok(()) => b"done",
        Err(EditError::NoRoom) => b"no room",
        Err(EditError::Misplaced) => b"misplaced",
    }
}
