//! Calls on the units of a database, one after another.

ghost use Rattle.std.specs.Prelude.{◌≡◌, ◌<◌, ◌≤◌, IfOk, OnOk, ◌∷◌, []};
ghost use Rattle.gds_epoch.specs.WaitingView.{units_of};
ghost use Rattle.gds_header.specs.Fields.{place_of};

use crate::outcomes::{add_outcome, unit_outcome};
use crate::tasks::{Performed, header_bytes};
use crate::texts::{add, add_number, add_word_number, text};
use crate::trouble::Trouble;
use crate::words::{Words, split_at_byte};
use gds_epoch::UnitBytes;
use gds_header::{HEADER_LENGTH, Header};
use gds_units::{Plan, Returned, UnitError, Units};
use host_mem::MemHost;
use host_model::{UnitSource, UnitTrouble};
use std::alloc::{AllocError, Global};

/// Makes a database or opens it, and makes the calls behind that. Its outcome is that of each, or that of the first
/// where it fails.
pub(crate) fn perform(alloc: Global, host: MemHost, words: Words, numbers: &Header) -> Performed {
    let (first, calls) = split_at_byte(words.0, b',');
    if first == b"open".as_slice() {
        return begun(alloc, Units::open(alloc, host), calls);
    }
    let Ok(header) = Header::read(&header_bytes(numbers)) else {
        return Performed {
            host,
            outcome: Err(Trouble::Words),
        };
    };
    begun(alloc, Units::create(alloc, host, &header), calls)
}

fn begun(
    alloc: Global,
    begun: Result<Units<MemHost>, Returned<MemHost>>,
    calls: &[u8],
) -> Performed {
    match begun {
        Ok(units) => on_units(alloc, units, calls),
        Err(Returned { host, error }) => Performed {
            host,
            outcome: unit_outcome(alloc, Err(error)),
        },
    }
}

fn on_units(alloc: Global, units: Units<MemHost>, calls: &[u8]) -> Performed {
    let mut units = units;
    let outcome = outcomes(alloc, &mut units, calls);
    Performed {
        host: units.into_host(),
        outcome,
    }
}

/// How each call ended.
fn outcomes(alloc: Global, units: &mut Units<MemHost>, calls: &[u8]) -> Result<Vec<u8>, Trouble> {
    let mut outcomes = text(alloc, b"done")?;
    let mut rest = calls;
    for _ in 0..calls.len() {
        if !rest.is_empty() {
            let (call, behind) = split_at_byte(rest, b',');
            let outcome = outcome_of(alloc, units, Words(call.trim_ascii_start()))?;
            add_outcome(&mut outcomes, &outcome)?;
            rest = behind;
        }
    }
    Ok(outcomes)
}

fn outcome_of(alloc: Global, units: &mut Units<MemHost>, words: Words) -> Result<Vec<u8>, Trouble> {
    let mut rest = words;
    match rest.word() {
        b"length" => told_length(alloc, length(units)),
        b"lend" => told_loan(alloc, units, rest.small()?),
        word => {
            let result = call(alloc, units, word, rest)?;
            unit_outcome(alloc, result)
        }
    }
}

/// A call that writes.
fn call(
    alloc: Global,
    units: &mut Units<MemHost>,
    word: &[u8],
    words: Words,
) -> Result<Result<(), UnitError>, Trouble> {
    let mut rest = words;
    match word {
        b"change" => Ok(change(
            alloc,
            units,
            rest.small()?,
            rest.small()?,
            byte_of(alloc, rest)?,
        )),
        b"grow" => grow(units, rest.small()?),
        b"epoch" => Ok(units.epoch()),
        b"shorten" => Ok(shorten(units)),
        _ => Err(Trouble::Words),
    }
}

fn byte_of(alloc: Global, words: Words) -> Result<u8, Trouble> {
    let mut rest = words;
    rest.bytes(alloc)?.first().copied().ok_or(Trouble::Words)
}

fn length(units: &mut Units<MemHost>) -> Result<u64, UnitTrouble> {
    units.length()
}

fn told_length(alloc: Global, length: Result<u64, UnitTrouble>) -> Result<Vec<u8>, Trouble> {
    let Ok(length) = length else {
        return text(alloc, b"no length");
    };
    let mut answer = Vec::new(alloc);
    add_word_number(alloc, &mut answer, b"length", length)?;
    Ok(answer)
}

/// Says of a unit that is lent how many bytes it has, and which byte where all are the same.
fn told_loan(alloc: Global, units: &Units<MemHost>, unit: u32) -> Result<Vec<u8>, Trouble> {
    let Some(lent) = units.lend(unit) else {
        return text(alloc, b"not lent");
    };
    let mut answer = Vec::new(alloc);
    add_word_number(alloc, &mut answer, b"lent", lent.len() as u64)?;
    let first = lent.first().copied().unwrap_or(0);
    if lent.iter().all(|byte| *byte == first) {
        add(&mut answer, b" of byte ")?;
        add_number(alloc, &mut answer, u64::from(first))?;
    }
    Ok(answer)
}

/// A plan of two units.
fn plan(alloc: Global, header: &[u8], unit: u32, block: &[u8]) -> Result<Plan, AllocError>
    ensures { IfOk result (λ plan. units_of plan.units.items
        ≡ (record { unit = 0; bytes = header.now }) ∷ (record { unit = unit; bytes = block.now }) ∷ []) }
{
    let mut units = Vec::new(alloc);
    units.push(UnitBytes {
        unit: 0,
        bytes: header.to_vec(alloc)?,
    })?;
    units.push(UnitBytes {
        unit,
        bytes: block.to_vec(alloc)?,
    })?;
    Ok(Plan { units })
}

/// Makes the file longer where the database is to have more blocks.
fn make_room(units: &mut Units<MemHost>, total: u32) -> Result<(), UnitError>
    requires { total ≤ 8388608 }
    ensures header { units.new.header ≡ units.old.header }
    ensures extent { OnOk result (place_of units.old.header total ≤ units.new.extent) }
{
    if units.header().total < total {
        units.grow(total)
    } else {
        Ok(())
    }
}

fn grow(units: &mut Units<MemHost>, total: u32) -> Result<Result<(), UnitError>, Trouble> {
    if total > 1_048_576 {
        return Err(Trouble::Words);
    }
    Ok(make_room(units, total))
}

/// Commits another total, which is the next transaction's number too, and a block that is filled with a byte. Where no
/// plan may have these numbers, as with blocks that don't have 512 bytes, the answer is `Memory`.
fn change(
    alloc: Global,
    units: &mut Units<MemHost>,
    total: u32,
    block: u32,
    byte: u8,
) -> Result<(), UnitError> {
    let now = *units.header();
    if now.block_size != 512 || total < 3 || total > now.limit || block >= total {
        return Err(UnitError::Memory);
    }
    make_room(units, total)?;
    let mut header = [0; HEADER_LENGTH];
    Header {
        total,
        tn: u64::from(total),
        ..now
    }
    .write(&mut header);
    let Ok(plan) = plan(alloc, &header, block + 1, &[byte; 512]) else {
        return Err(UnitError::Memory);
    };
    units.commit(plan)
}

/// Cuts the file. Where units wait the answer is `Memory`.
fn shorten(units: &mut Units<MemHost>) -> Result<(), UnitError> {
    if units.changed() > 0 {
        return Err(UnitError::Memory);
    }
    units.shorten()
}
