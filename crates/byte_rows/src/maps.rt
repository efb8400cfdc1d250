//! Local bitmaps.

use crate::bench::Bench;
use crate::texts::{number, number_or_none, text};
use crate::trouble::Trouble;
use crate::words::Words;
use gds_bitmap::{State, count_free, first_free, fresh, mark, state_of};
use std::alloc::Global;

/// The bytes of a map, with its head.
const MAP_LENGTH: usize = 144;

/// How many blocks a map has a pair for.
const GROUP: u32 = 512;

pub(crate) fn answer(
    alloc: Global,
    bench: &mut Bench,
    word: &[u8],
    words: Words,
) -> Result<Option<Vec<u8>>, Trouble> {
    match word {
        b"map" | b"mark" => change(&mut bench.bytes, word, words)?,
        b"state" | b"first-free" | b"count-free" => {
            return Ok(Some(told(alloc, &bench.bytes, word, words)?));
        }
        _ => return Ok(None),
    }
    Ok(Some(Vec::new(alloc)))
}

fn change(map: &mut [u8], word: &[u8], mut words: Words) -> Result<(), Trouble> {
    let number = words.small()?;
    if map.len() < MAP_LENGTH || number > GROUP {
        return Err(Trouble::Words);
    }
    if word == b"map".as_slice() {
        fresh(map, number, words.number()?);
        return Ok(());
    }
    let state = state_called(words.word())?;
    if number == GROUP {
        return Err(Trouble::Words);
    }
    mark(map, number, state);
    Ok(())
}

fn told(alloc: Global, map: &[u8], word: &[u8], mut words: Words) -> Result<Vec<u8>, Trouble> {
    let asked = words.small()?;
    if map.len() < MAP_LENGTH || asked > GROUP {
        return Err(Trouble::Words);
    }
    match word {
        b"first-free" => number_or_none(alloc, first_free(map, asked).map(u64::from)),
        b"count-free" => number(alloc, u64::from(count_free(map, asked))),
        _ if asked < GROUP => text(alloc, state_word(state_of(map, asked))),
        _ => Err(Trouble::Words),
    }
}

fn state_called(word: &[u8]) -> Result<State, Trouble> {
    match word {
        b"busy" => Ok(State::Busy),
        b"new" => Ok(State::New),
        b"illegal" => Ok(State::Illegal),
        b"recycled" => Ok(State::Recycled),
        _ => Err(Trouble::Words),
    }
}

fn state_word(state: State) -> &'static [u8] {
    match state {
        State::Busy => b"busy",
        State::New => b"new",
        State::Illegal => b"illegal",
        State::Recycled => b"recycled",
    }
}
