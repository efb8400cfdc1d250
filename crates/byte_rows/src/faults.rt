//! INTEG of one block, and its quick reading.

ghost use Rattle.std.specs.Prelude.{IfOk};
ghost use Rattle.gds_header.specs.Kinds.{IsWithinLimits};

use crate::bench::Bench;
use crate::sink::{Kept, with_room};
use crate::texts::{
    add, add_named, add_number, add_pieces, add_word, begin_line, number, text, whether,
};
use crate::trouble::Trouble;
use crate::visits::{at, visit};
use gds_header::{HEADER_LENGTH, Header};
use gds_law::{Fault, Role, Visit};
use integ::CountSink;
use integ_block::{Child, IntegError, block_faults};
use integ_quick::is_clean_leaf;
use m_key::Key;
use std::alloc::Global;

pub(crate) fn answer(
    alloc: Global,
    bench: &Bench,
    word: &[u8],
) -> Result<Option<Vec<u8>>, Trouble> {
    Ok(Some(match word {
        b"faults" => told(alloc, bench)?,
        b"children" => children(alloc, bench)?,
        b"count-faults" => counted(alloc, bench)?,
        b"quick" => quick(alloc, bench)?,
        _ => return Ok(None),
    }))
}

/// The header, where it is within the limits.
pub(crate) fn within_limits(header: &Header) -> Result<Header, Trouble>
    ensures { IfOk result IsWithinLimits }
{
    let mut bytes = [0; HEADER_LENGTH];
    header.write(&mut bytes);
    Header::read(&bytes).map_err(|_| Trouble::Words)
}

/// The faults of the block, each on a line of its own, then how many they are.
fn told(alloc: Global, bench: &Bench) -> Result<Vec<u8>, Trouble> {
    let header = within_limits(&bench.header)?;
    let at = at(&bench.stand)?;
    if bench.bytes.len() != header.block_size as usize {
        return Err(Trouble::Words);
    }
    let mut sink = with_room(alloc, bench.room);
    let mut children = Vec::new(alloc);
    let outcome = block_faults(&bench.bytes, &at, &header, &mut sink, &mut children);
    listed(alloc, &sink, outcome)
}

/// What a sink was told, and how the call ended that told it.
pub(crate) fn listed(
    alloc: Global,
    sink: &Kept,
    outcome: Result<u64, IntegError>,
) -> Result<Vec<u8>, Trouble> {
    let mut answer = Vec::new(alloc);
    for fault in &sink.faults {
        begin_line(&mut answer)?;
        add_fault(alloc, &mut answer, fault)?;
    }
    begin_line(&mut answer)?;
    match outcome {
        Ok(count) => add_named(alloc, &mut answer, b"faults", count)?,
        Err(error) => add_error(alloc, &mut answer, error)?,
    }
    add_failures(alloc, &mut answer, sink.failures)?;
    Ok(answer)
}

/// Adds a line that says how often a sink or a file failed, where it did.
pub(crate) fn add_failures(alloc: Global, answer: &mut Vec<u8>, count: u64) -> Result<(), Trouble> {
    if count == 0 {
        return Ok(());
    }
    begin_line(answer)?;
    add_named(alloc, answer, b"failures", count)
}

fn add_error(alloc: Global, answer: &mut Vec<u8>, error: IntegError) -> Result<(), Trouble> {
    match error {
        IntegError::Memory => Err(Trouble::Memory),
        IntegError::ReadFault => add(answer, b"stopped by a read"),
        IntegError::SayFault => add(answer, b"stopped by the sink"),
        IntegError::Changed { unit } => add_named(
            alloc,
            answer,
            b"stopped by a change of unit",
            u64::from(unit),
        ),
    }
}

fn add_fault(alloc: Global, answer: &mut Vec<u8>, fault: &Fault) -> Result<(), Trouble> {
    add(answer, fault.kind.name().as_bytes())?;
    add_named(alloc, answer, b"block", u64::from(fault.block))?;
    add_named(alloc, answer, b"offset", u64::from(fault.offset))?;
    add_named(alloc, answer, b"level", u64::from(fault.level))?;
    for (block, offset) in fault.path.as_slice() {
        add_named(alloc, answer, b"path", u64::from(*block))?;
        add(answer, b":")?;
        add_number(alloc, answer, u64::from(*offset))?;
    }
    Ok(())
}

/// The children that the block leads to.
fn children(alloc: Global, bench: &Bench) -> Result<Vec<u8>, Trouble> {
    let header = within_limits(&bench.header)?;
    let at = at(&bench.stand)?;
    if bench.bytes.len() != header.block_size as usize {
        return Err(Trouble::Words);
    }
    let mut sink = with_room(alloc, bench.room);
    let mut children = Vec::new(alloc);
    match block_faults(&bench.bytes, &at, &header, &mut sink, &mut children) {
        Ok(_) => children_text(alloc, &children),
        Err(_) => text(alloc, b"stopped by the sink"),
    }
}

fn children_text(alloc: Global, children: &[Child]) -> Result<Vec<u8>, Trouble> {
    let mut answer = Vec::new(alloc);
    for child in children {
        begin_line(&mut answer)?;
        add_named(alloc, &mut answer, b"offset", u64::from(child.offset))?;
        add_visit(alloc, &mut answer, &child.visit)?;
    }
    Ok(answer)
}

fn add_visit(alloc: Global, answer: &mut Vec<u8>, visit: &Visit) -> Result<(), Trouble> {
    add_named(alloc, answer, b"block", u64::from(visit.block))?;
    add_role(answer, &visit.role)?;
    match visit.level {
        None => add_word(answer, b"root")?,
        Some(level) => add_named(alloc, answer, b"level", u64::from(level))?,
    }
    add_bound(answer, b"from ", &visit.low)?;
    add_bound(answer, b"to ", &visit.high)
}

fn add_role(answer: &mut Vec<u8>, role: &Role) -> Result<(), Trouble> {
    match role {
        Role::Directory => add_word(answer, b"directory"),
        Role::Global(name) => {
            add_word(answer, b"global ")?;
            add_pieces(answer, name.as_slice())
        }
    }
}

fn add_bound(answer: &mut Vec<u8>, word: &[u8], bound: &Option<Key>) -> Result<(), Trouble> {
    match bound {
        None => Ok(()),
        Some(key) => {
            add_word(answer, word)?;
            add_pieces(answer, key.as_slice())
        }
    }
}

/// How many faults a counting sink was told.
fn counted(alloc: Global, bench: &Bench) -> Result<Vec<u8>, Trouble> {
    let header = within_limits(&bench.header)?;
    let at = at(&bench.stand)?;
    if bench.bytes.len() != header.block_size as usize {
        return Err(Trouble::Words);
    }
    let mut sink = CountSink::new();
    let mut children = Vec::new(alloc);
    match block_faults(&bench.bytes, &at, &header, &mut sink, &mut children) {
        Ok(_) => number(alloc, sink.count()),
        Err(_) => text(alloc, b"stopped by the sink"),
    }
}

/// Whether the quick reading finds a sound leaf.
fn quick(alloc: Global, bench: &Bench) -> Result<Vec<u8>, Trouble> {
    let header = within_limits(&bench.header)?;
    let visit = visit(&bench.stand)?;
    if bench.bytes.len() != header.block_size as usize {
        return Err(Trouble::Words);
    }
    whether(alloc, is_clean_leaf(&bench.bytes, &header, &visit))
}
