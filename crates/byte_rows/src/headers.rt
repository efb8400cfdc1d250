//! File headers, read and written.

use crate::bench::{Bench, HUNDRED};
use crate::texts::{add_named, text, whether};
use crate::trouble::Trouble;
use crate::words::Words;
use gds_header::{HEADER_LENGTH, Header, HeaderKind};
use std::alloc::Global;

/// How many groups of blocks a file may have.
const GROUPS: u32 = 2048;

pub(crate) fn answer(
    alloc: Global,
    bench: &mut Bench,
    word: &[u8],
    words: Words,
) -> Result<Option<Vec<u8>>, Trouble> {
    match word {
        b"header" => bench.header = with_fields(words)?,
        b"write-header" => bench.bytes = written(alloc, &bench.header)?,
        b"mark-group" => mark(&mut bench.header, words)?,
        b"group" => return Ok(Some(whether(alloc, has_free(&bench.header, words)?)?)),
        b"read-header" => return Ok(Some(read(alloc, bench)?)),
        _ => return Ok(None),
    }
    Ok(Some(Vec::new(alloc)))
}

/// The header of a new file of 100 blocks of 1,024 bytes, but for the fields that the words name, each with its number.
fn with_fields(mut words: Words) -> Result<Header, Trouble> {
    let mut header = HUNDRED;
    header.master[0] = 1;
    for _ in 0..words.0.len() {
        if words.is_empty() {
            break;
        }
        let field = words.word();
        set_field(&mut header, field, words.number()?)?;
    }
    Ok(header)
}

fn set_field(header: &mut Header, field: &[u8], number: u64) -> Result<(), Trouble> {
    if field == b"tn".as_slice() {
        header.tn = number;
        return Ok(());
    }
    let number = u32::try_from(number).map_err(|_| Trouble::Words)?;
    match field {
        b"block" => header.block_size = number,
        b"total" => header.total = number,
        b"free" => header.free = number,
        b"extension" => header.extension = number,
        b"limit" => header.limit = number,
        b"key" => header.key_max = number,
        b"value" => header.value_max = number,
        _ => return Err(Trouble::Words),
    }
    Ok(())
}

/// The bytes of a header.
pub(crate) fn written(alloc: Global, header: &Header) -> Result<Vec<u8>, Trouble> {
    let mut bytes = [0; HEADER_LENGTH];
    header.write(&mut bytes);
    Ok(bytes.to_vec(alloc)?)
}

fn mark(header: &mut Header, mut words: Words) -> Result<(), Trouble> {
    let group = words.small()?;
    let has = words.yes()?;
    if group >= GROUPS {
        return Err(Trouble::Words);
    }
    header.mark_group(group, has);
    Ok(())
}

fn has_free(header: &Header, mut words: Words) -> Result<bool, Trouble> {
    let group = words.small()?;
    if group >= GROUPS {
        return Err(Trouble::Words);
    }
    Ok(header.group_has_free(group))
}

/// The fields of the header that the bytes are, which becomes the bench's; or the name of what is wrong with them.
fn read(alloc: Global, bench: &mut Bench) -> Result<Vec<u8>, Trouble> {
    if bench.bytes.len() != HEADER_LENGTH {
        return Err(Trouble::Words);
    }
    match Header::read(&bench.bytes) {
        Ok(header) => {
            bench.header = header;
            fields(alloc, &header)
        }
        Err(fault) => text(alloc, HeaderKind::from(fault).name().as_bytes()),
    }
}

fn fields(alloc: Global, header: &Header) -> Result<Vec<u8>, Trouble> {
    let mut answer = Vec::new(alloc);
    add_named(alloc, &mut answer, b"block", u64::from(header.block_size))?;
    add_named(alloc, &mut answer, b"total", u64::from(header.total))?;
    add_named(alloc, &mut answer, b"free", u64::from(header.free))?;
    add_named(
        alloc,
        &mut answer,
        b"extension",
        u64::from(header.extension),
    )?;
    add_named(alloc, &mut answer, b"limit", u64::from(header.limit))?;
    add_named(alloc, &mut answer, b"key", u64::from(header.key_max))?;
    add_named(alloc, &mut answer, b"value", u64::from(header.value_max))?;
    add_named(alloc, &mut answer, b"tn", header.tn)?;
    add_named(alloc, &mut answer, b"length", header.file_length())?;
    Ok(answer)
}
