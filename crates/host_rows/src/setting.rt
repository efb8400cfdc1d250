//! Commands on what a task is given.

use crate::bench::{Given, empty_host, nothing_given};
use crate::trouble::Trouble;
use crate::verbs::OnGiven;
use crate::words::Words;
use gds_header::Header;
use host_mem::MemHost;
use std::alloc::Global;

pub(crate) fn give(
    alloc: Global,
    host: &mut MemHost,
    given: &mut Given,
    verb: OnGiven,
    words: Words,
) -> Result<(), Trouble> {
    match verb {
        OnGiven::Case => {
            *host = empty_host(alloc);
            *given = nothing_given(alloc);
            Ok(())
        }
        OnGiven::Numbers => numbers(&mut given.numbers, words),
        OnGiven::Input => input(alloc, &mut given.input, words),
        OnGiven::Line => add_line(&mut given.input, words.0),
        OnGiven::Question => add_line(&mut given.questions, words.0),
        OnGiven::Pieces => pieces(alloc, &mut given.piece, &mut given.takes, words),
    }
}

/// Sets numbers, each behind its name.
fn numbers(numbers: &mut Header, words: Words) -> Result<(), Trouble> {
    let mut rest = words;
    for _ in 0..words.0.len() {
        if !rest.is_empty() {
            let name = rest.word();
            set_number(numbers, name, rest.small()?)?;
        }
    }
    Ok(())
}

fn set_number(numbers: &mut Header, name: &[u8], number: u32) -> Result<(), Trouble> {
    match name {
        b"block" => numbers.block_size = number,
        b"alloc" => numbers.total = number,
        b"ext" => numbers.extension = number,
        b"limit" => numbers.limit = number,
        b"key" => numbers.key_max = number,
        b"value" => numbers.value_max = number,
        _ => return Err(Trouble::Words),
    }
    Ok(())
}

fn input(alloc: Global, input: &mut Vec<u8>, words: Words) -> Result<(), Trouble> {
    let mut rest = words;
    *input = rest.bytes(alloc)?;
    Ok(())
}

fn add_line(script: &mut Vec<u8>, line: &[u8]) -> Result<(), Trouble> {
    script.extend_from_slice(line)?;
    script.extend_from_slice(b"\n")?;
    Ok(())
}

fn pieces(
    alloc: Global,
    piece: &mut usize,
    takes: &mut Vec<u64>,
    words: Words,
) -> Result<(), Trouble> {
    let mut rest = words;
    *piece = rest.size()?;
    *takes = rest.numbers(alloc)?;
    Ok(())
}
