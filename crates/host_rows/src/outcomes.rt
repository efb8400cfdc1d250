//! How calls ended, in words.

use crate::texts::{add, add_word_number, text};
use crate::trouble::Trouble;
use gds_run::RunError;
use gds_units::UnitError;
use std::alloc::Global;

/// A word, and a number behind it where it has one.
type Outcome = (&'static [u8], Option<u64>);

/// The word of a call that did what it was asked.
const DONE: Outcome = (b"done", None);

fn said(alloc: Global, outcome: Outcome) -> Result<Vec<u8>, Trouble> {
    let (word, number) = outcome;
    let Some(number) = number else {
        return text(alloc, word);
    };
    let mut answer = Vec::new(alloc);
    add_word_number(alloc, &mut answer, word, number)?;
    Ok(answer)
}

fn of_run(error: RunError) -> Outcome {
    match error {
        RunError::Memory => (b"memory", None),
        RunError::ReadFault => (b"read fault", None),
        RunError::WriteFault => (b"write fault", None),
        RunError::SayFault => (b"say fault", None),
        RunError::InputFault => (b"input fault", None),
        RunError::InputTooLong => (b"input too long", None),
        RunError::BadImages { at } => (b"bad images", Some(at)),
        RunError::Unsound { faults } => (b"unsound", Some(faults)),
        RunError::Changed { unit } => (b"changed", Some(u64::from(unit))),
    }
}

fn of_units(error: UnitError) -> Outcome {
    match error {
        UnitError::Memory => (b"memory", None),
        UnitError::ReadFault => (b"read fault", None),
        UnitError::WriteFault => (b"write fault", None),
        UnitError::Stopped => (b"stopped", None),
        UnitError::NotEmpty => (b"not empty", None),
        UnitError::BadImages { at } => (b"bad images", Some(at)),
        UnitError::Unsound { faults } => (b"unsound", Some(faults)),
        UnitError::Changed { unit } => (b"changed", Some(u64::from(unit))),
    }
}

/// How a run ended.
pub(crate) fn run_outcome(alloc: Global, ended: Result<(), RunError>) -> Result<Vec<u8>, Trouble> {
    match ended {
        Ok(()) => said(alloc, DONE),
        Err(error) => said(alloc, of_run(error)),
    }
}

/// How a call on units ended.
pub(crate) fn unit_outcome(
    alloc: Global,
    ended: Result<(), UnitError>,
) -> Result<Vec<u8>, Trouble> {
    match ended {
        Ok(()) => said(alloc, DONE),
        Err(error) => said(alloc, of_units(error)),
    }
}

/// The exit status of a call by words.
pub(crate) fn status_outcome(alloc: Global, code: u8) -> Result<Vec<u8>, Trouble> {
    said(alloc, (b"status", Some(u64::from(code))))
}

/// Adds an outcome behind those so far.
pub(crate) fn add_outcome(outcomes: &mut Vec<u8>, outcome: &[u8]) -> Result<(), Trouble> {
    if !outcomes.is_empty() {
        add(outcomes, b", ")?;
    }
    add(outcomes, outcome)
}
