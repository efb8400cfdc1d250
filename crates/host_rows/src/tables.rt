//! A task, and one whose calls fail in turn.

use crate::bench::{Files, Given, files_of, host_of, parts_of, take_host};
use crate::calls::{add_call, calls_of, count_of, number_and_kind};
use crate::tasks::{Performed, perform};
use crate::texts::{add, add_word_number, line_count};
use crate::trouble::Trouble;
use crate::verbs::{Task, task_of};
use crate::words::Words;
use host_mem::{Call, MemHost};
use std::alloc::Global;

/// Performs a task with a host. Answers what was said, and how it ended.
pub(crate) fn performed(
    alloc: Global,
    host: &mut MemHost,
    given: &Given,
    task: Task,
    words: Words,
) -> Result<Vec<u8>, Trouble> {
    let before = parts_of(host).2.len();
    let performed = perform(alloc, take_host(alloc, host), task, words, given);
    *host = performed.host;
    told(alloc, host, before, performed.outcome)
}

/// What a host said behind so many bytes, an outcome, and how many calls found no memory.
fn told(
    alloc: Global,
    host: &MemHost,
    before: usize,
    outcome: Result<Vec<u8>, Trouble>,
) -> Result<Vec<u8>, Trouble> {
    let outcome = outcome?;
    let mut answer = parts_of(host).2.get(before..).unwrap_or(&[]).to_vec(alloc)?;
    end_line(&mut answer)?;
    add(&mut answer, &outcome)?;
    add_starved(alloc, &mut answer, host.starved())?;
    Ok(answer)
}

/// Ends a last line that isn't ended.
fn end_line(answer: &mut Vec<u8>) -> Result<(), Trouble> {
    match answer.last() {
        None | Some(b'\n') => Ok(()),
        Some(_) => add(answer, b"\n"),
    }
}

fn add_starved(alloc: Global, answer: &mut Vec<u8>, starved: u64) -> Result<(), Trouble> {
    if starved == 0 {
        return Ok(());
    }
    add_word_number(alloc, answer, b"\nstarved", starved)
}

/// What is seen of a task that was performed.
#[derive(Drop)]
struct Seen {
    outcome: Vec<u8>,
    said: Vec<u8>,
    calls: Vec<Call>,
}

/// What is seen of a task that is performed on a copy of the files, with the call of this number failing.
fn seen_failing(
    alloc: Global,
    files: &Files,
    failing: u64,
    task: Task,
    words: Words,
    given: &Given,
) -> Result<Seen, Trouble> {
    let failing = [failing].to_vec(alloc)?;
    let files = files.copy(alloc)?;
    seen_of(
        alloc,
        perform(alloc, host_of(files, failing), task, words, given),
    )
}

fn seen_of(alloc: Global, performed: Performed) -> Result<Seen, Trouble> {
    let Performed { host, outcome } = performed;
    match outcome {
        Ok(outcome) => seen_by(alloc, &host, outcome),
        Err(trouble) => Err(trouble),
    }
}

fn seen_by(alloc: Global, host: &MemHost, outcome: Vec<u8>) -> Result<Seen, Trouble> {
    let said = parts_of(host).2.to_vec(alloc)?;
    let calls = calls_of(alloc, host)?;
    Ok(Seen {
        outcome,
        said,
        calls,
    })
}

/// Performs a task on copies of the host's files, once for each call that it makes and with that call failing. Answers
/// for each how the task ended, how many lines were said and how many calls were made; and the same where none fails.
pub(crate) fn failures(
    alloc: Global,
    host: &MemHost,
    given: &Given,
    words: Words,
) -> Result<Vec<u8>, Trouble> {
    let mut rest = words;
    let task = task_of(rest.word()).ok_or(Trouble::Words)?;
    let files = files_of(alloc, host)?;
    let whole = seen_failing(alloc, &files, 0, task, rest, given)?;
    let mut answer = Vec::new(alloc);
    for call in &whole.calls {
        let (number, _) = number_and_kind(call);
        let failed = seen_failing(alloc, &files, number, task, rest, given)?;
        add_row(alloc, &mut answer, call, &failed, &whole)?;
    }
    add(&mut answer, b"no call")?;
    add_seen(alloc, &mut answer, &whole, &whole)?;
    Ok(answer)
}

fn add_row(
    alloc: Global,
    answer: &mut Vec<u8>,
    call: &Call,
    failed: &Seen,
    whole: &Seen,
) -> Result<(), Trouble> {
    add_call(alloc, answer, call)?;
    add_seen(alloc, answer, failed, whole)?;
    add(answer, b"\n")
}

/// Adds how a task ended, how many lines it said and how many calls it made, and where it said something else than the
/// first lines of those that are due.
fn add_seen(alloc: Global, answer: &mut Vec<u8>, seen: &Seen, whole: &Seen) -> Result<(), Trouble> {
    add(answer, b": ")?;
    add(answer, &seen.outcome)?;
    add_word_number(alloc, answer, b", said", line_count(&seen.said))?;
    add_word_number(alloc, answer, b", calls", seen.calls.len() as u64)?;
    if whole.said.starts_with(&seen.said) {
        Ok(())
    } else {
        add(answer, b", other lines")
    }
}

/// How many calls a task makes on these files.
pub(crate) fn length_of(
    alloc: Global,
    files: &Files,
    task: Task,
    words: Words,
    given: &Given,
) -> Result<u64, Trouble> {
    let files = files.copy(alloc)?;
    let performed = perform(alloc, host_of(files, Vec::new(alloc)), task, words, given);
    Ok(count_of(&performed.host))
}
