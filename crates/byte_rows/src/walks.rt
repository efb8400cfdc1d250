//! The bench's file, the walk of its trees, and its INTEG.

use crate::bench::Bench;
use crate::faults::{add_failures, listed, within_limits};
use crate::headers::written;
use crate::sink::{Kept, with_room};
use crate::texts::{add, hex};
use crate::trouble::Trouble;
use crate::units::Units;
use crate::words::Words;
use gds_block::put_bytes;
use gds_header::{HEADER_LENGTH, Header};
use integ::integ;
use integ_block::IntegError;
use integ_walk::{Seen, walk};
use std::alloc::Global;

pub(crate) fn answer(
    alloc: Global,
    bench: &mut Bench,
    word: &[u8],
    mut words: Words,
) -> Result<Vec<u8>, Trouble> {
    match word {
        b"file" => bench.file = new_file(alloc, &bench.header)?,
        b"file-block" => put_block(bench, words)?,
        b"file-cut" => bench.file.truncate(words.size()?),
        b"reads" => bench.reads = words.number()?,
        b"walk" => return walked(alloc, bench),
        b"integ" => return judged(alloc, bench),
        _ => return Err(Trouble::Words),
    }
    Ok(Vec::new(alloc))
}

/// A file with this header, whose blocks hold zeros.
fn new_file(alloc: Global, header: &Header) -> Result<Vec<u8>, Trouble> {
    let mut file = written(alloc, header)?;
    file.resize(header.file_length() as usize, 0)?;
    Ok(file)
}

/// Writes the bench's bytes over the front of a block of the file.
fn put_block(bench: &mut Bench, mut words: Words) -> Result<(), Trouble> {
    let block = words.size()?;
    let place = block.saturating_mul(bench.header.block_size as usize);
    put_front(
        &mut bench.file,
        HEADER_LENGTH.saturating_add(place),
        &bench.bytes,
    )
}

fn put_front(file: &mut [u8], at: usize, bytes: &[u8]) -> Result<(), Trouble> {
    if at > file.len() || bytes.len() > file.len() - at {
        return Err(Trouble::Words);
    }
    put_bytes(file, at, bytes);
    Ok(())
}

fn units(alloc: Global, bench: &Bench) -> Result<Units, Trouble> {
    Ok(Units {
        file: bench.file.to_vec(alloc)?,
        reads: bench.reads,
        failures: 0,
    })
}

/// The faults of the trees, and the set of the blocks in use.
fn walked(alloc: Global, bench: &Bench) -> Result<Vec<u8>, Trouble> {
    let header = within_limits(&bench.header)?;
    let mut units = units(alloc, bench)?;
    let mut sink = with_room(alloc, bench.room);
    let outcome = walk(alloc, &mut units, &header, &mut sink);
    let mut answer = walk_text(alloc, &sink, outcome)?;
    add_failures(alloc, &mut answer, units.failures)?;
    Ok(answer)
}

fn walk_text(
    alloc: Global,
    sink: &Kept,
    outcome: Result<Seen, IntegError>,
) -> Result<Vec<u8>, Trouble> {
    match outcome {
        Err(error) => listed(alloc, sink, Err(error)),
        Ok(seen) => {
            let mut answer = listed(alloc, sink, Ok(seen.faults))?;
            add(&mut answer, b" used ")?;
            add(&mut answer, &hex(alloc, &seen.used)?)?;
            Ok(answer)
        }
    }
}

/// The faults of the file.
fn judged(alloc: Global, bench: &Bench) -> Result<Vec<u8>, Trouble> {
    let mut units = units(alloc, bench)?;
    let mut sink = with_room(alloc, bench.room);
    let outcome = integ(alloc, &mut units, &mut sink);
    let mut answer = listed(alloc, &sink, outcome)?;
    add_failures(alloc, &mut answer, units.failures)?;
    Ok(answer)
}
