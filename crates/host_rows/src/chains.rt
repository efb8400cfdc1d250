//! Files of images: reading one, and writing a group of it; and what an input is taken as.

use crate::bench::Given;
use crate::lines::all_lines;
use crate::outcomes::unit_outcome;
use crate::tasks::source_of;
use crate::texts::{add, add_number, add_word_number, number, pieces, text};
use crate::trouble::Trouble;
use crate::verbs::OnParts;
use crate::words::{Words, add_piece};
use gds_images::{Chain, Group, ImagesError, Place, append_group, open_chain, open_gate};
use gds_lines::LinesError;
use gds_units::UnitError;
use host_mem::{MemHost, MemSource};
use host_model::{FileNo, Host, HostFailed, Source};
use std::alloc::Global;

pub(crate) fn answer(
    alloc: Global,
    host: &mut MemHost,
    given: &Given,
    verb: OnParts,
    words: Words,
) -> Result<Vec<u8>, Trouble> {
    match verb {
        OnParts::Chain => chain(alloc, host, words),
        OnParts::Group => group(alloc, host, words),
        OnParts::Lines => lines(alloc, given),
        OnParts::Take => take(alloc, given, words),
    }
}

/// Reads the file of images for a database of a length.
fn chain(alloc: Global, host: &mut MemHost, words: Words) -> Result<Vec<u8>, Trouble> {
    let mut rest = words;
    let length = rest.number()?;
    match open_chain(alloc, host, length) {
        Ok(chain) => told_chain(alloc, &chain),
        Err(error) => unit_outcome(alloc, Err(unit_error(error))),
    }
}

fn unit_error(error: ImagesError) -> UnitError {
    match error {
        ImagesError::Memory => UnitError::Memory,
        ImagesError::ReadFault => UnitError::ReadFault,
        ImagesError::BadImages { at } => UnitError::BadImages { at },
        ImagesError::Changed { unit } => UnitError::Changed { unit },
    }
}

fn told_chain(alloc: Global, chain: &Chain) -> Result<Vec<u8>, Trouble> {
    let mut answer = Vec::new(alloc);
    add_word_number(alloc, &mut answer, b"epoch", chain.epoch_length)?;
    add_word_number(alloc, &mut answer, b", next gate", chain.next_gate)?;
    for place in chain.images.as_slice() {
        add_place(alloc, &mut answer, place)?;
    }
    Ok(answer)
}

fn add_place(alloc: Global, answer: &mut Vec<u8>, place: &Place) -> Result<(), Trouble> {
    add_word_number(alloc, answer, b"\nimage of", u64::from(place.len))?;
    add_word_number(alloc, answer, b" at", place.at)?;
    add_word_number(alloc, answer, b" from", place.from)
}

/// Writes a group behind a gate, with the first images, so many of them, and opens the gate. Answers where the next
/// gate is.
fn group(alloc: Global, host: &mut MemHost, words: Words) -> Result<Vec<u8>, Trouble> {
    let mut rest = words;
    let gate = rest.small()?;
    let length = rest.number()?;
    let kept = rest.size()?;
    let mut images = images_of(alloc, rest)?;
    images.truncate(kept);
    match stored(host, gate, &mut images, length) {
        Ok(next) => number(alloc, next),
        Err(HostFailed) => text(alloc, b"failed"),
    }
}

/// The images of these words: each a place, and a piece of bytes.
fn images_of(alloc: Global, words: Words) -> Result<Group, Trouble> {
    let mut rest = words;
    let mut images = Group::new(alloc)?;
    for _ in 0..words.0.len() {
        if !rest.is_empty() {
            let at = rest.number()?;
            let bytes = piece(alloc, rest.word())?;
            add_image(&mut images, at, &bytes)?;
        }
    }
    Ok(images)
}

fn piece(alloc: Global, word: &[u8]) -> Result<Vec<u8>, Trouble> {
    let mut bytes = Vec::new(alloc);
    add_piece(&mut bytes, word)?;
    Ok(bytes)
}

fn add_image(images: &mut Group, at: u64, bytes: &[u8]) -> Result<(), Trouble> {
    if bytes.len() >= 65_536 {
        return Err(Trouble::Words);
    }
    Ok(images.push(at, bytes)?)
}

/// Writes a group behind a gate and opens it, where the file has that gate, and answers where the next one is.
fn stored(
    host: &mut MemHost,
    gate: u32,
    images: &mut Group,
    length: u64,
) -> Result<u64, HostFailed> {
    let gate = u64::from(gate);
    if host.len(FileNo::Images)? <= gate {
        return Err(HostFailed);
    }
    let next = append_group(host, gate, images, length)?;
    if host.len(FileNo::Images)? <= gate {
        return Err(HostFailed);
    }
    open_gate(host, gate)?;
    Ok(next)
}

/// The lines of the input.
fn lines(alloc: Global, given: &Given) -> Result<Vec<u8>, Trouble> {
    match all_lines(alloc, source_of(alloc, given)?) {
        Ok(lines) => told_lines(alloc, &lines),
        Err(LinesError::InputFault) => text(alloc, b"input fault"),
        Err(LinesError::InputTooLong) => text(alloc, b"input too long"),
        Err(LinesError::Memory) => Err(Trouble::Memory),
    }
}

fn told_lines(alloc: Global, lines: &[Vec<u8>]) -> Result<Vec<u8>, Trouble> {
    let mut answer = Vec::new(alloc);
    add_number(alloc, &mut answer, lines.len() as u64)?;
    for line in lines {
        add(&mut answer, b"\n")?;
        let shown = pieces(alloc, line)?;
        add(&mut answer, &shown)?;
    }
    Ok(answer)
}

/// Takes four bytes of the input, so often, each into a buffer full of dots.
fn take(alloc: Global, given: &Given, words: Words) -> Result<Vec<u8>, Trouble> {
    let mut rest = words;
    let times = rest.number()?;
    taken(alloc, source_of(alloc, given)?, times)
}

fn taken(alloc: Global, source: MemSource, times: u64) -> Result<Vec<u8>, Trouble> {
    let mut source = source;
    let mut answer = Vec::new(alloc);
    for _ in 0..times {
        add_taken(alloc, &mut answer, &mut source)?;
    }
    Ok(answer)
}

fn add_taken(alloc: Global, answer: &mut Vec<u8>, source: &mut MemSource) -> Result<(), Trouble> {
    if !answer.is_empty() {
        add(answer, b"\n")?;
    }
    let mut out = [b'.'; 4];
    let Ok(count) = source.take(&mut out) else {
        return add(answer, b"failed");
    };
    add_number(alloc, answer, count as u64)?;
    add(answer, b" ")?;
    add(answer, &out)
}
