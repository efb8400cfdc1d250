//! What is done with a host that a command has. No function here fails while it has a host: the host goes back with the
//! outcome.

use crate::bench::Given;
use crate::outcomes::{run_outcome, status_outcome, unit_outcome};
use crate::trouble::Trouble;
use crate::units;
use crate::verbs::Task;
use crate::words::{Words, add_piece};
use gds_cli::gds;
use gds_create::create_files;
use gds_header::{HEADER_LENGTH, Header};
use gds_recovery::recover;
use gds_run::run;
use gds_units::{UnitError, Units};
use host_mem::{MemHost, MemSource};
use std::alloc::{AllocError, Global};
use std::str;

/// A host after a task, and how the task ended.
#[derive(Drop)]
pub(crate) struct Performed {
    pub(crate) host: MemHost,
    pub(crate) outcome: Result<Vec<u8>, Trouble>,
}

/// Performs a task with the words behind it.
pub(crate) fn perform(
    alloc: Global,
    host: MemHost,
    task: Task,
    words: Words,
    given: &Given,
) -> Performed {
    match task {
        Task::Run => perform_run(alloc, host, given),
        Task::Gds => perform_gds(alloc, host, words, given),
        Task::Create => perform_creation(alloc, host, &given.numbers),
        Task::Recover => perform_recovery(alloc, host),
        Task::Open => perform_opening(alloc, host),
        Task::Units => units::perform(alloc, host, words, &given.numbers),
    }
}

/// A task that can't be begun.
fn refused(host: MemHost, trouble: Trouble) -> Performed {
    Performed {
        host,
        outcome: Err(trouble),
    }
}

/// The source of a task's input.
pub(crate) fn source_of(alloc: Global, given: &Given) -> Result<MemSource, AllocError> {
    let input = given.input.to_vec(alloc)?;
    let takes = given.takes.to_vec(alloc)?;
    let piece = given.piece;
    Ok(MemSource::new(input, if piece > 0 { piece } else { 1 }, takes))
}

fn perform_run(alloc: Global, host: MemHost, given: &Given) -> Performed {
    match source_of(alloc, given) {
        Ok(source) => run_on(alloc, host, source),
        Err(_) => refused(host, Trouble::Memory),
    }
}

fn run_on(alloc: Global, host: MemHost, source: MemSource) -> Performed {
    let ran = run(alloc, host, source);
    Performed {
        host: ran.host,
        outcome: run_outcome(alloc, ran.result),
    }
}

fn perform_gds(alloc: Global, host: MemHost, words: Words, given: &Given) -> Performed {
    match call_of(alloc, words, given) {
        Ok((line, source)) => gds_on(alloc, host, line, source),
        Err(trouble) => refused(host, trouble),
    }
}

/// The words of a call, and its input.
pub(crate) fn call_of(
    alloc: Global,
    words: Words,
    given: &Given,
) -> Result<(Vec<String>, MemSource), Trouble> {
    let line = line_of(alloc, words)?;
    let source = source_of(alloc, given)?;
    Ok((line, source))
}

fn gds_on(alloc: Global, host: MemHost, line: Vec<String>, source: MemSource) -> Performed {
    let ended = gds(alloc, &line, host, source);
    Performed {
        host: ended.host,
        outcome: status_outcome(alloc, ended.status.code()),
    }
}

/// The words of a call: bare ones, and such in quotes. A piece behind `+` goes on with the word before it.
fn line_of(alloc: Global, words: Words) -> Result<Vec<String>, Trouble> {
    let mut rest = words;
    let mut line: Vec<String> = Vec::new(alloc);
    for _ in 0..words.0.len() {
        if !rest.is_empty() {
            add_to_line(alloc, &mut line, rest.word())?;
        }
    }
    Ok(line)
}

fn add_to_line(alloc: Global, line: &mut Vec<String>, word: &[u8]) -> Result<(), Trouble> {
    match word.first() {
        Some(b'+') => go_on(line, piece_text(alloc, word.get(1..).unwrap_or(&[]))?),
        Some(b'\'' | b'"') => push_word(line, piece_text(alloc, word)?),
        _ => push_word(line, text_of(alloc, word)?),
    }
}

/// Goes on with the last word.
fn go_on(line: &mut Vec<String>, text: String) -> Result<(), Trouble> {
    match line.last_mut() {
        Some(last) => Ok(last.push_str(text.as_str())?),
        None => Err(Trouble::Words),
    }
}

fn push_word(line: &mut Vec<String>, word: String) -> Result<(), Trouble> {
    match line.push(word) {
        Ok(()) => Ok(()),
        Err(_) => Err(Trouble::Memory),
    }
}

fn piece_text(alloc: Global, piece: &[u8]) -> Result<String, Trouble> {
    let mut bytes = Vec::new(alloc);
    add_piece(&mut bytes, piece)?;
    text_of(alloc, &bytes)
}

fn text_of(alloc: Global, bytes: &[u8]) -> Result<String, Trouble> {
    match str::from_utf8(bytes) {
        Ok(text) => Ok(String::from_str(alloc, text)?),
        Err(_) => Err(Trouble::Words),
    }
}

/// The bytes of a header with these numbers, of which a header within the limits is read.
pub(crate) fn header_bytes(numbers: &Header) -> [u8; HEADER_LENGTH] {
    let mut bytes = [0; HEADER_LENGTH];
    numbers.write(&mut bytes);
    bytes
}

fn perform_creation(alloc: Global, host: MemHost, numbers: &Header) -> Performed {
    let mut host = host;
    let outcome = match created(alloc, &mut host, numbers) {
        Some(ended) => unit_outcome(alloc, ended),
        None => Err(Trouble::Words),
    };
    Performed { host, outcome }
}

/// Makes the files, where the numbers may stand in a header.
fn created(alloc: Global, host: &mut MemHost, numbers: &Header) -> Option<Result<(), UnitError>> {
    let Ok(header) = Header::read(&header_bytes(numbers)) else {
        return None;
    };
    match create_files(alloc, host, &header) {
        Ok(_) => Some(Ok(())),
        Err(error) => Some(Err(UnitError::from(error))),
    }
}

fn perform_recovery(alloc: Global, host: MemHost) -> Performed {
    let mut host = host;
    let ended = recovered(alloc, &mut host);
    Performed {
        host,
        outcome: unit_outcome(alloc, ended),
    }
}

fn recovered(alloc: Global, host: &mut MemHost) -> Result<(), UnitError> {
    match recover(alloc, host) {
        Ok(_) => Ok(()),
        Err(error) => Err(UnitError::from(error)),
    }
}

fn perform_opening(alloc: Global, host: MemHost) -> Performed {
    let (host, ended) = opened(alloc, host);
    Performed {
        host,
        outcome: unit_outcome(alloc, ended),
    }
}

fn opened(alloc: Global, host: MemHost) -> (MemHost, Result<(), UnitError>) {
    match Units::open(alloc, host) {
        Ok(units) => (units.into_host(), Ok(())),
        Err(returned) => (returned.host, Err(returned.error)),
    }
}
