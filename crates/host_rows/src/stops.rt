//! A task that is stopped at each of its calls, what each crash leaves, and what is opened then.

use crate::bench::{Files, Given, Saved, crashed_files, files_of, fused_host, host_of, parts_of};
use crate::showing::same_names;
use crate::tables::length_of;
use crate::tasks::{Performed, perform};
use crate::texts::{add, add_number};
use crate::trouble::Trouble;
use crate::verbs::{Task, task_of};
use crate::words::Words;
use host_mem::MemHost;
use std::alloc::Global;

/// How many ways a crash has.
pub(crate) const WAYS: u64 = 4;

/// What is known of a task behind it: how it ended, what was said, and the files.
#[derive(Drop)]
pub(crate) struct After {
    pub(crate) outcome: Vec<u8>,
    pub(crate) said: Vec<u8>,
    pub(crate) files: Files,
}

/// Performs a task on a copy of the files, on a host of which each call past so many fails, and then crashes it in a
/// way.
pub(crate) fn stopped(
    alloc: Global,
    files: &Files,
    calls: u64,
    way: u64,
    task: Task,
    words: Words,
    given: &Given,
) -> Result<After, Trouble> {
    let host = fused_host(alloc, files.copy(alloc)?, calls);
    after_crash(alloc, perform(alloc, host, task, words, given), way)
}

fn after_crash(alloc: Global, performed: Performed, way: u64) -> Result<After, Trouble> {
    let Performed { host, outcome } = performed;
    let said = said_by(alloc, &host);
    let files = left_by(alloc, host, way);
    joined(outcome, said, files)
}

fn said_by(alloc: Global, host: &MemHost) -> Result<Vec<u8>, Trouble> {
    Ok(parts_of(host).2.to_vec(alloc)?)
}

fn left_by(alloc: Global, host: MemHost, way: u64) -> Result<Files, Trouble> {
    match crashed_files(alloc, host, way) {
        Ok(files) => Ok(files),
        Err(_) => Err(Trouble::Memory),
    }
}

fn joined(
    outcome: Result<Vec<u8>, Trouble>,
    said: Result<Vec<u8>, Trouble>,
    files: Result<Files, Trouble>,
) -> Result<After, Trouble> {
    let outcome = outcome?;
    let said = said?;
    let files = files?;
    Ok(After {
        outcome,
        said,
        files,
    })
}

/// Performs a task on a copy of the files, and nothing fails.
pub(crate) fn unstopped(
    alloc: Global,
    files: &Files,
    task: Task,
    given: &Given,
) -> Result<After, Trouble> {
    let host = host_of(files.copy(alloc)?, Vec::new(alloc));
    after_all(alloc, perform(alloc, host, task, Words(b""), given))
}

fn after_all(alloc: Global, performed: Performed) -> Result<After, Trouble> {
    let Performed { host, outcome } = performed;
    let said = said_by(alloc, &host);
    let files = held_by(alloc, &host);
    joined(outcome, said, files)
}

fn held_by(alloc: Global, host: &MemHost) -> Result<Files, Trouble> {
    Ok(files_of(alloc, host)?)
}

/// For each number of calls after which the task is stopped: how it ended, and behind it what an opening finds where
/// the crash comes in the first way, the second and so on. Numbers with the same answer stand together.
pub(crate) fn stops(
    alloc: Global,
    host: &MemHost,
    given: &Given,
    saved: &[Saved],
    words: Words,
) -> Result<Vec<u8>, Trouble> {
    let mut rest = words;
    let task = task_of(rest.word()).ok_or(Trouble::Words)?;
    let files = files_of(alloc, host)?;
    let mut lines = Lines::new(alloc);
    for calls in 0..=length_of(alloc, &files, task, rest, given)? {
        let found = found_at(alloc, &files, calls, task, rest, given, saved)?;
        lines.add(alloc, calls, found)?;
    }
    lines.end(alloc)
}

/// Lines for numbers that go up, in which those stand together that have the same text.
#[derive(Drop)]
pub(crate) struct Lines {
    ended: Vec<u8>,
    first: u64,
    last: u64,
    text: Vec<u8>,
}

impl Lines {
    /// None yet.
    pub(crate) fn new(alloc: Global) -> Lines {
        Lines {
            ended: Vec::new(alloc),
            first: 0,
            last: 0,
            text: Vec::new(alloc),
        }
    }

    /// Adds a number and its text.
    pub(crate) fn add(&mut self, alloc: Global, number: u64, text: Vec<u8>) -> Result<(), Trouble> {
        if self.text.as_slice() != text.as_slice() {
            self.end_line(alloc)?;
            self.first = number;
            self.text = text;
        }
        self.last = number;
        Ok(())
    }

    /// Ends the line of the last numbers, where there are such.
    fn end_line(&mut self, alloc: Global) -> Result<(), Trouble> {
        if self.text.is_empty() {
            return Ok(());
        }
        let lines = &mut self.ended;
        if !lines.is_empty() {
            add(lines, b"\n")?;
        }
        add_span(alloc, lines, self.first, self.last)?;
        add(lines, b": ")?;
        add(lines, &self.text)
    }

    /// All lines.
    pub(crate) fn end(self, alloc: Global) -> Result<Vec<u8>, Trouble> {
        let mut all = self;
        all.end_line(alloc)?;
        let Lines { ended, .. } = all;
        Ok(ended)
    }
}

/// Adds the first of some numbers, and the last where that is another one.
fn add_span(alloc: Global, lines: &mut Vec<u8>, first: u64, last: u64) -> Result<(), Trouble> {
    add_number(alloc, lines, first)?;
    if first == last {
        return Ok(());
    }
    add(lines, b" to ")?;
    add_number(alloc, lines, last)
}

/// How a task ended that was stopped, and what openings find after each crash.
fn found_at(
    alloc: Global,
    files: &Files,
    calls: u64,
    task: Task,
    words: Words,
    given: &Given,
    saved: &[Saved],
) -> Result<Vec<u8>, Trouble> {
    let mut found = Vec::new(alloc);
    for way in 0..WAYS {
        let after = stopped(alloc, files, calls, way, task, words, given)?;
        if way == 0 {
            add(&mut found, &after.outcome)?;
        }
        add_found(alloc, &mut found, &after.files, given, saved)?;
    }
    Ok(found)
}

/// Adds what an opening finds in these files. Where a second opening finds something else that is told.
fn add_found(
    alloc: Global,
    found: &mut Vec<u8>,
    left: &Files,
    given: &Given,
    saved: &[Saved],
) -> Result<(), Trouble> {
    let once = unstopped(alloc, left, Task::Open, given)?;
    let twice = unstopped(alloc, &once.files, Task::Open, given)?;
    add(found, b" | ")?;
    add_opened(alloc, found, &once, saved)?;
    if once.outcome.as_slice() == twice.outcome.as_slice()
        && once.files.db.as_slice() == twice.files.db.as_slice()
    {
        return Ok(());
    }
    add(found, b" and then ")?;
    add_opened(alloc, found, &twice, saved)
}

/// Adds the names of the saved files with the database file of an opening, or why there was none.
fn add_opened(
    alloc: Global,
    found: &mut Vec<u8>,
    opened: &After,
    saved: &[Saved],
) -> Result<(), Trouble> {
    if opened.outcome.as_slice() != b"done".as_slice() {
        return add(found, &opened.outcome);
    }
    let names = same_names(alloc, saved, &opened.files.db)?;
    add(found, &names)
}
