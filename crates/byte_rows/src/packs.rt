//! The entries of packed blocks.

use crate::bench::Bench;
use crate::texts::{add, add_named, add_pieces, begin_line, text};
use crate::trouble::Trouble;
use gds_block::BlockView;
use gds_pack::{Entry, packed_size, unpack};
use std::alloc::Global;

pub(crate) fn answer(
    alloc: Global,
    bench: &Bench,
    word: &[u8],
) -> Result<Option<Vec<u8>>, Trouble> {
    match word {
        b"unpack" => Ok(Some(unpacked(alloc, &bench.bytes)?)),
        _ => Ok(None),
    }
}

/// How many bytes the block's entries take when they are packed, and each entry.
fn unpacked(alloc: Global, bytes: &[u8]) -> Result<Vec<u8>, Trouble> {
    let Some(block) = BlockView::new(bytes) else {
        return text(alloc, b"no block");
    };
    match unpack(alloc, &block)? {
        Some(entries) => listed(alloc, &entries),
        None => text(alloc, b"none"),
    }
}

fn listed(alloc: Global, entries: &[Entry]) -> Result<Vec<u8>, Trouble> {
    let mut answer = Vec::new(alloc);
    add_named(alloc, &mut answer, b"packed", packed_size(entries))?;
    for entry in entries {
        begin_line(&mut answer)?;
        add_entry(&mut answer, entry)?;
    }
    Ok(answer)
}

fn add_entry(answer: &mut Vec<u8>, entry: &Entry) -> Result<(), Trouble> {
    add(answer, b"entry ")?;
    add_pieces(answer, entry.key.as_slice())?;
    add(answer, b" with ")?;
    add_pieces(answer, &entry.rest)
}
