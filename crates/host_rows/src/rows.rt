//! Rows: a command and its answer.

use crate::bench::Bench;
use crate::texts::text;
use crate::trouble::Trouble;
use crate::verbs::{Table, Verb, verb_of};
use crate::words::Words;
use crate::{calls, chains, files, promise, setting, showing, shrinking, stops, tables};
use std::alloc::{AllocError, Global};

/// What stands before each line of an answer.
const INDENT: &[u8] = b"  ";

/// What is said for a line: the line, and its answer beneath it. An answer that stands in the text already is left out.
pub(crate) fn said(alloc: Global, bench: &mut Bench, line: &[u8]) -> Result<Vec<u8>, AllocError> {
    if line.starts_with(INDENT) {
        return Ok(Vec::new(alloc));
    }
    if line.is_empty() || line.starts_with(b"#") {
        return beneath(alloc, line, b"");
    }
    match answer(alloc, bench, line) {
        Ok(answer) => beneath(alloc, line, &answer),
        Err(Trouble::Words) => beneath(alloc, line, b"no command"),
        Err(Trouble::Memory) => Err(AllocError),
    }
}

/// A line and the lines of an answer beneath it.
fn beneath(alloc: Global, line: &[u8], answer: &[u8]) -> Result<Vec<u8>, AllocError> {
    let mut said = line.to_vec(alloc)?;
    said.push(b'\n')?;
    if answer.is_empty() {
        return Ok(said);
    }
    for line in answer.split(|byte| *byte == b'\n') {
        said.extend_from_slice(INDENT)?;
        said.extend_from_slice(line)?;
        said.push(b'\n')?;
    }
    Ok(said)
}

fn answer(alloc: Global, bench: &mut Bench, line: &[u8]) -> Result<Vec<u8>, Trouble> {
    let mut words = Words(line);
    match verb_of(words.word()) {
        Some(verb) => answer_to(alloc, bench, verb, words),
        None => Err(Trouble::Words),
    }
}

fn answer_to(
    alloc: Global,
    bench: &mut Bench,
    verb: Verb,
    words: Words,
) -> Result<Vec<u8>, Trouble> {
    match verb {
        Verb::Files(verb) => {
            let done = files::change(alloc, &mut bench.host, &mut bench.saved, verb, words);
            nothing(alloc, done)
        }
        Verb::Given(verb) => {
            let done = setting::give(alloc, &mut bench.host, &mut bench.given, verb, words);
            nothing(alloc, done)
        }
        Verb::Shown(verb) => showing::shown(alloc, &bench.host, &bench.saved, verb, words),
        Verb::Calls(verb) => calls::answer(alloc, &mut bench.host, verb, words),
        Verb::Parts(verb) => chains::answer(alloc, &mut bench.host, &bench.given, verb, words),
        Verb::Table(verb) => table(alloc, bench, verb, words),
        Verb::Task(task) => tables::performed(alloc, &mut bench.host, &bench.given, task, words),
    }
}

/// No answer, of a command that was done.
fn nothing(alloc: Global, done: Result<(), Trouble>) -> Result<Vec<u8>, Trouble> {
    match done {
        Ok(()) => text(alloc, b""),
        Err(trouble) => Err(trouble),
    }
}

fn table(alloc: Global, bench: &Bench, verb: Table, words: Words) -> Result<Vec<u8>, Trouble> {
    match verb {
        Table::Failures => tables::failures(alloc, &bench.host, &bench.given, words),
        Table::Stops => stops::stops(alloc, &bench.host, &bench.given, &bench.saved, words),
        Table::Promise => promise::promise(alloc, &bench.host, &bench.given),
        Table::Shrink => shrinking::shrink(alloc, &bench.host, &bench.given, words),
    }
}
