//! Rows: a command and its answer.

use crate::bench::Bench;
use crate::trouble::Trouble;
use crate::words::Words;
use crate::{
    blocks, buffer, commands, faults, headers, keys, maps, numbers, packs, parts, searches, values,
    visits, walks,
};
use std::alloc::{AllocError, Global};

/// What stands before each line of an answer.
const INDENT: &[u8] = b"  ";

/// What is said for a line: the line, and its answer beneath it. An answer that stands in the text already is left out.
pub(crate) fn said(alloc: Global, bench: &mut Bench, line: &str) -> Result<Vec<u8>, AllocError> {
    let line = line.as_bytes();
    let mut said = Vec::new(alloc);
    if line.starts_with(INDENT) {
        return Ok(said);
    }
    said.extend_from_slice(line)?;
    said.push(b'\n')?;
    if line.is_empty() || line.starts_with(b"#") {
        return Ok(said);
    }
    match answer(alloc, bench, line) {
        Ok(answer) => add_indented(&mut said, &answer)?,
        Err(Trouble::Words) => add_indented(&mut said, b"no command")?,
        Err(Trouble::Memory) => return Err(AllocError),
    }
    Ok(said)
}

/// Adds the lines of an answer.
fn add_indented(said: &mut Vec<u8>, answer: &[u8]) -> Result<(), AllocError> {
    if answer.is_empty() {
        return Ok(());
    }
    for line in answer.split(|byte| *byte == b'\n') {
        said.extend_from_slice(INDENT)?;
        said.extend_from_slice(line)?;
        said.push(b'\n')?;
    }
    Ok(())
}

fn answer(alloc: Global, bench: &mut Bench, line: &[u8]) -> Result<Vec<u8>, Trouble> {
    let mut words = Words(line);
    let word = words.word();
    if word == b"case".as_slice() {
        bench.clear(alloc);
        return Ok(Vec::new(alloc));
    }
    if let Some(answer) = of_texts(alloc, bench, word, words)? {
        return Ok(answer);
    }
    of_bytes(alloc, bench, word, words)
}

/// The answer of a command on texts and keys.
fn of_texts(
    alloc: Global,
    bench: &mut Bench,
    word: &[u8],
    words: Words,
) -> Result<Option<Vec<u8>>, Trouble> {
    if let Some(answer) = numbers::answer(alloc, word, words)? {
        return Ok(Some(answer));
    }
    if let Some(answer) = keys::answer(alloc, bench, word, words)? {
        return Ok(Some(answer));
    }
    if let Some(answer) = parts::answer(alloc, word, words)? {
        return Ok(Some(answer));
    }
    if let Some(answer) = values::answer(alloc, bench, word, words)? {
        return Ok(Some(answer));
    }
    commands::answer(alloc, word, words)
}

/// The answer of a command on the bench's bytes or its file.
fn of_bytes(
    alloc: Global,
    bench: &mut Bench,
    word: &[u8],
    words: Words,
) -> Result<Vec<u8>, Trouble> {
    if let Some(answer) = buffer::answer(alloc, bench, word, words)? {
        return Ok(answer);
    }
    if let Some(answer) = headers::answer(alloc, bench, word, words)? {
        return Ok(answer);
    }
    if let Some(answer) = blocks::answer(alloc, bench, word, words)? {
        return Ok(answer);
    }
    if let Some(answer) = maps::answer(alloc, bench, word, words)? {
        return Ok(answer);
    }
    of_trees(alloc, bench, word, words)
}

/// The answer of a command on packed blocks, on faults or on the bench's file.
fn of_trees(
    alloc: Global,
    bench: &mut Bench,
    word: &[u8],
    words: Words,
) -> Result<Vec<u8>, Trouble> {
    if let Some(answer) = packs::answer(alloc, bench, word)? {
        return Ok(answer);
    }
    if let Some(answer) = searches::answer(alloc, bench, word, words)? {
        return Ok(answer);
    }
    if let Some(answer) = visits::answer(alloc, bench, word, words)? {
        return Ok(answer);
    }
    if let Some(answer) = faults::answer(alloc, bench, word)? {
        return Ok(answer);
    }
    walks::answer(alloc, bench, word, words)
}
