//! Commands that show what the files hold.

use crate::bench::{Saved, parts_of, saved_as};
use crate::files::file_no;
use crate::texts::{add, add_word_number, hex, number, pieces, text};
use crate::trouble::Trouble;
use crate::verbs::Shown;
use crate::words::Words;
use gds_header::HEADER_LENGTH;
use host_mem::MemHost;
use host_model::FileNo;
use std::alloc::Global;

pub(crate) fn shown(
    alloc: Global,
    host: &MemHost,
    saved: &[Saved],
    verb: Shown,
    words: Words,
) -> Result<Vec<u8>, Trouble> {
    let parts = parts_of(host);
    match verb {
        Shown::Sizes => sizes(alloc, parts),
        Shown::Said => pieces(alloc, parts.2),
        Shown::Pieces => pieces(alloc, stretch(parts, words)?),
        Shown::Hex => hex(alloc, stretch(parts, words)?),
        Shown::Same => same(alloc, parts, saved, words),
        Shown::Blocks => blocks(alloc, parts.0, words),
    }
}

/// The database file, the file of images, and what was said.
type Parts<'a> = (&'a [u8], &'a [u8], &'a [u8]);

fn sizes(alloc: Global, parts: Parts) -> Result<Vec<u8>, Trouble> {
    let mut answer = Vec::new(alloc);
    add_word_number(alloc, &mut answer, b"db", parts.0.len() as u64)?;
    add_word_number(alloc, &mut answer, b", images", parts.1.len() as u64)?;
    Ok(answer)
}

/// The bytes of a file from a place on, so many of them as the words say, or those that there are.
fn stretch<'a>(parts: Parts<'a>, words: Words) -> Result<&'a [u8], Trouble> {
    let mut rest = words;
    let file = match file_no(rest.word())? {
        FileNo::Db => parts.0,
        FileNo::Images => parts.1,
    };
    let at = rest.size()?;
    let length = rest.size()?;
    let behind = file.get(at..).unwrap_or(&[]);
    Ok(behind.get(..length).unwrap_or(behind))
}

/// How many blocks behind the header begin with these bytes.
fn blocks(alloc: Global, db: &[u8], words: Words) -> Result<Vec<u8>, Trouble> {
    let mut rest = words;
    let size = rest.size()?;
    let front = rest.bytes(alloc)?;
    let behind = db.get(HEADER_LENGTH..).unwrap_or(&[]);
    number(alloc, count_blocks(behind, size, &front))
}

fn count_blocks(blocks: &[u8], size: usize, front: &[u8]) -> u64 {
    let mut count: u64 = 0;
    for block in blocks.chunks(size.max(1)) {
        if block.starts_with(front) {
            count = count.saturating_add(1);
        }
    }
    count
}

/// Whether both files are those that were saved under a name.
fn same(alloc: Global, parts: Parts, saved: &[Saved], words: Words) -> Result<Vec<u8>, Trouble> {
    let saved = saved_as(saved, words.0)?;
    let is_db = saved.db.as_slice() == parts.0;
    let is_images = saved.images.as_slice() == parts.1;
    let answer: &[u8] = match (is_db, is_images) {
        (true, true) => b"same",
        (true, false) => b"other images",
        (false, true) => b"other db",
        (false, false) => b"both others",
    };
    text(alloc, answer)
}

/// The names of the saved files whose database file has these bytes, or that there are none.
pub(crate) fn same_names(alloc: Global, saved: &[Saved], db: &[u8]) -> Result<Vec<u8>, Trouble> {
    let mut names = Vec::new(alloc);
    for one in saved {
        if one.files.db.as_slice() == db {
            add_name(&mut names, &one.name)?;
        }
    }
    if names.is_empty() {
        add(&mut names, b"none")?;
    }
    Ok(names)
}

fn add_name(names: &mut Vec<u8>, name: &[u8]) -> Result<(), Trouble> {
    if !names.is_empty() {
        add(names, b" ")?;
    }
    add(names, name)
}
