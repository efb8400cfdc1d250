//! The words of a command line, and the lines of a script.

use crate::keys::reference_text;
use crate::texts::{add, add_named, add_pieces, add_word, text};
use crate::trouble::Trouble;
use crate::words::Words;
use gds_words::{Command, ScriptLine, read_script, read_words};
use m_key::Reference;
use std::alloc::Global;

pub(crate) fn answer(alloc: Global, word: &[u8], words: Words) -> Result<Option<Vec<u8>>, Trouble> {
    Ok(Some(match word {
        b"words" => command(alloc, words)?,
        b"line" => line(alloc, words)?,
        _ => return Ok(None),
    }))
}

/// The words left, each a piece.
fn strings(alloc: Global, mut words: Words) -> Result<Vec<String>, Trouble> {
    let mut all = Vec::new(alloc);
    for _ in 0..words.0.len() {
        if words.is_empty() {
            break;
        }
        let word = string(alloc, &mut words)?;
        all.push(word).map_err(|_| Trouble::Memory)?;
    }
    Ok(all)
}

fn string(alloc: Global, words: &mut Words) -> Result<String, Trouble> {
    let bytes = words.piece(alloc)?;
    String::from_utf8(bytes).map_err(|_| Trouble::Words)
}

/// The command that the words name.
fn command(alloc: Global, words: Words) -> Result<Vec<u8>, Trouble> {
    let words = strings(alloc, words)?;
    let mut answer = Vec::new(alloc);
    match read_words(&words) {
        Err(bad) => add_named(alloc, &mut answer, b"bad word", bad.place as u64)?,
        Ok(Command::Version) => add(&mut answer, b"version")?,
        Ok(Command::Integ) => add(&mut answer, b"integ")?,
        Ok(Command::Run) => add(&mut answer, b"run")?,
        Ok(Command::Extract { stamp }) => add_extract(&mut answer, stamp.as_slice())?,
        Ok(
            Command::Create {
                block,
                key,
                value,
                alloc: blocks,
                ext,
                limit,
            },
        ) => add_create(alloc, &mut answer, [block, key, value, blocks, ext, limit])?,
    }
    Ok(answer)
}

fn add_extract(answer: &mut Vec<u8>, stamp: &[u8]) -> Result<(), Trouble> {
    add(answer, b"extract ")?;
    add_pieces(answer, stamp)
}

fn add_create(alloc: Global, answer: &mut Vec<u8>, numbers: [u32; 6]) -> Result<(), Trouble> {
    let [block, key, value, blocks, ext, limit] = numbers;
    add(answer, b"create")?;
    add_named(alloc, answer, b"block", u64::from(block))?;
    add_named(alloc, answer, b"key", u64::from(key))?;
    add_named(alloc, answer, b"value", u64::from(value))?;
    add_named(alloc, answer, b"alloc", u64::from(blocks))?;
    add_named(alloc, answer, b"ext", u64::from(ext))?;
    add_named(alloc, answer, b"limit", u64::from(limit))
}

/// What a line of a script asks for.
fn line(alloc: Global, mut words: Words) -> Result<Vec<u8>, Trouble> {
    let bytes = words.bytes(alloc)?;
    match read_script(alloc, &bytes)? {
        None => text(alloc, b"none"),
        Some(ScriptLine::Set { reference, value }) => setting(alloc, &reference, &value),
        Some(ScriptLine::Kill { reference }) => verb(alloc, b"kill", &reference),
        Some(ScriptLine::Get { reference }) => verb(alloc, b"get", &reference),
        Some(ScriptLine::Order { reference, first }) => {
            verb(alloc, if first { b"first" } else { b"order" }, &reference)
        }
        Some(ScriptLine::DataOf { reference }) => verb(alloc, b"data", &reference),
        Some(ScriptLine::Query { reference }) => verb(alloc, b"query", &reference),
        Some(ScriptLine::Epoch) => text(alloc, b"epoch"),
    }
}

fn verb(alloc: Global, verb: &[u8], reference: &Reference) -> Result<Vec<u8>, Trouble> {
    let written = reference_text(alloc, reference)?;
    let mut answer = text(alloc, verb)?;
    add_word(&mut answer, &written)?;
    Ok(answer)
}

fn setting(alloc: Global, reference: &Reference, value: &[u8]) -> Result<Vec<u8>, Trouble> {
    let mut answer = verb(alloc, b"set", reference)?;
    add(&mut answer, b" ")?;
    add_pieces(&mut answer, value)?;
    Ok(answer)
}
