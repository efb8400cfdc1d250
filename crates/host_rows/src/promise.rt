//! What is promised of a run that is stopped: an opening finds the nodes of its first changes, at least so many as the
//! last epoch said.

use crate::bench::{Files, Given, files_of};
use crate::stops::{After, Lines, WAYS, stopped, unstopped};
use crate::tables::length_of;
use crate::texts::{add, add_number, add_word_number};
use crate::trouble::Trouble;
use crate::verbs::Task;
use crate::words::{Words, decimal};
use host_mem::MemHost;
use std::alloc::{AllocError, Global};

/// How much was tried, and how much of it went wrong.
#[derive(Clone, Copy)]
struct Counts {
    crashes: u64,
    stops_in_openings: u64,
    crashes_in_openings: u64,
    wrong: u64,
}

/// The parts of a try-out that stay the same: the files before the run, what the run is given, what a run of the
/// questions is given, and the answers to these behind each number of first changes.
#[derive(Clone, Copy)]
struct Try<'a> {
    files: &'a Files,
    given: &'a Given,
    questions: &'a Given,
    due: &'a [Vec<u8>],
}

/// Runs the input on copies of the files, and stops it after each number of calls. After each crash that may come the
/// database is opened, also with the opening stopped after each number of its calls and crashed once more.
pub(crate) fn promise(alloc: Global, host: &MemHost, given: &Given) -> Result<Vec<u8>, Trouble> {
    let files = files_of(alloc, host)?;
    let questions = with_input(alloc, given, &given.questions)?;
    let due = answers_due(alloc, &files, given, &questions)?;
    let tried = Try {
        files: &files,
        given,
        questions: &questions,
        due: &due,
    };
    let calls = length_of(alloc, &files, Task::Run, Words(b""), given)?;
    all_stops(alloc, tried, calls)
}

fn all_stops(alloc: Global, tried: Try, calls: u64) -> Result<Vec<u8>, Trouble> {
    let mut counts = Counts {
        crashes: 0,
        stops_in_openings: 0,
        crashes_in_openings: 0,
        wrong: 0,
    };
    let mut lines = Lines::new(alloc);
    for calls in 0..=calls {
        let found = found_at(alloc, tried, calls, &mut counts)?;
        lines.add(alloc, calls, found)?;
    }
    with_counts(alloc, lines.end(alloc)?, counts)
}

fn with_counts(alloc: Global, lines: Vec<u8>, counts: Counts) -> Result<Vec<u8>, Trouble> {
    let mut answer = lines;
    add_word_number(alloc, &mut answer, b"\ncrashes", counts.crashes)?;
    add_word_number(
        alloc,
        &mut answer,
        b"\nstops in openings",
        counts.stops_in_openings,
    )?;
    add_word_number(
        alloc,
        &mut answer,
        b"\ncrashes in openings",
        counts.crashes_in_openings,
    )?;
    add_word_number(alloc, &mut answer, b"\nwrong", counts.wrong)?;
    Ok(answer)
}

/// The same with another input, of which no take fails.
fn with_input(alloc: Global, given: &Given, input: &[u8]) -> Result<Given, AllocError> {
    let input = input.to_vec(alloc)?;
    Ok(Given {
        numbers: given.numbers,
        input,
        piece: given.piece,
        takes: Vec::new(alloc),
        questions: Vec::new(alloc),
    })
}

/// The answers to the questions about these files, and how they ended.
fn asked(alloc: Global, files: &Files, questions: &Given) -> Result<Vec<u8>, Trouble> {
    let after = unstopped(alloc, files, Task::Run, questions)?;
    let mut answers = after.said;
    add(&mut answers, &after.outcome)?;
    Ok(answers)
}

/// The answers behind each number of first changes, each run on a copy of the files.
fn answers_due(
    alloc: Global,
    files: &Files,
    given: &Given,
    questions: &Given,
) -> Result<Vec<Vec<u8>>, Trouble> {
    let mut all = Vec::new(alloc);
    push(&mut all, asked(alloc, files, questions)?)?;
    let mut end: usize = 0;
    for line in given.input.split(|byte| *byte == b'\n') {
        end = end.saturating_add(line.len()).saturating_add(1);
        if is_change(line) {
            let front = given.input.get(..end).unwrap_or(&given.input);
            push(&mut all, asked_behind(alloc, files, front, questions)?)?;
        }
    }
    Ok(all)
}

fn push(all: &mut Vec<Vec<u8>>, one: Vec<u8>) -> Result<(), Trouble> {
    match all.push(one) {
        Ok(()) => Ok(()),
        Err(_) => Err(Trouble::Memory),
    }
}

fn is_change(line: &[u8]) -> bool {
    line.starts_with(b"SET ") || line.starts_with(b"KILL ")
}

/// The answers to the questions behind a run of these lines.
fn asked_behind(
    alloc: Global,
    files: &Files,
    lines: &[u8],
    questions: &Given,
) -> Result<Vec<u8>, Trouble> {
    let given = with_input(alloc, questions, lines)?;
    let after = unstopped(alloc, files, Task::Run, &given)?;
    asked(alloc, &after.files, questions)
}

/// The number that the last whole line of an epoch says, or 0.
fn lasting(said: &[u8]) -> u64 {
    let mut number = 0;
    for line in said.split(|byte| *byte == b'\n') {
        if let Some(digits) = line.strip_prefix(b"EPOCH ") {
            number = decimal(digits).unwrap_or(number);
        }
    }
    number
}

/// What openings find after each crash of a run that is stopped: how many changes.
fn found_at(
    alloc: Global,
    tried: Try,
    calls: u64,
    counts: &mut Counts,
) -> Result<Vec<u8>, Trouble> {
    let mut found = Vec::new(alloc);
    for way in 0..WAYS {
        add_way(alloc, &mut found, tried, calls, way, counts)?;
    }
    Ok(found)
}

fn add_way(
    alloc: Global,
    found: &mut Vec<u8>,
    tried: Try,
    calls: u64,
    way: u64,
    counts: &mut Counts,
) -> Result<(), Trouble> {
    let run = stopped(
        alloc,
        tried.files,
        calls,
        way,
        Task::Run,
        Words(b""),
        tried.given,
    )?;
    let least = lasting(&run.said);
    if way == 0 {
        add_word_number(alloc, found, b"lasting", least)?;
        add(found, b", found")?;
    }
    counts.crashes = counts.crashes.saturating_add(1);
    let answers = asked(alloc, &run.files, tried.questions)?;
    add_changes(alloc, found, changes_of(tried.due, &answers, least), counts)?;
    open_stopped(alloc, tried, &run.files, counts)
}

/// Adds how many changes were found, or that other nodes were.
fn add_changes(
    alloc: Global,
    found: &mut Vec<u8>,
    changes: Option<u64>,
    counts: &mut Counts,
) -> Result<(), Trouble> {
    add(found, b" ")?;
    match changes {
        Some(changes) => add_number(alloc, found, changes),
        None => {
            counts.wrong = counts.wrong.saturating_add(1);
            add(found, b"others")
        }
    }
}

/// How many first changes, at least so many, have these answers.
fn changes_of(due: &[Vec<u8>], answers: &[u8], least: u64) -> Option<u64> {
    for (changes, one) in (0..).zip(due) {
        if changes >= least && one.as_slice() == answers {
            return Some(changes);
        }
    }
    None
}

/// Opens these files with the opening stopped after each number of its calls, and again after each crash. The last
/// opening has to give the same database file as one that isn't stopped.
fn open_stopped(
    alloc: Global,
    tried: Try,
    left: &Files,
    counts: &mut Counts,
) -> Result<(), Trouble> {
    let due = recovered(alloc, left, tried.given)?;
    for calls in 0..=length_of(alloc, left, Task::Recover, Words(b""), tried.given)? {
        counts.stops_in_openings = counts.stops_in_openings.saturating_add(1);
        for way in 0..WAYS {
            let came = recovered_again(alloc, left, calls, way, tried.given)?;
            count_opening(counts, came.as_slice() == due.as_slice());
        }
    }
    Ok(())
}

fn count_opening(counts: &mut Counts, is_right: bool) {
    counts.crashes_in_openings = counts.crashes_in_openings.saturating_add(1);
    if !is_right {
        counts.wrong = counts.wrong.saturating_add(1);
    }
}

/// The same behind an opening that is stopped, and a crash.
fn recovered_again(
    alloc: Global,
    left: &Files,
    calls: u64,
    way: u64,
    given: &Given,
) -> Result<Vec<u8>, Trouble> {
    let again = stopped(alloc, left, calls, way, Task::Recover, Words(b""), given)?;
    recovered(alloc, &again.files, given)
}

/// The database file behind an opening, and how that ended.
fn recovered(alloc: Global, files: &Files, given: &Given) -> Result<Vec<u8>, Trouble> {
    let After { outcome, files, .. } = unstopped(alloc, files, Task::Recover, given)?;
    let Files { db, .. } = files;
    let mut found = db;
    add(&mut found, &outcome)?;
    Ok(found)
}
