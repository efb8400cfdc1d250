//! Commands on the files of a host, and on what fails.

use crate::bench::{Files, Saved, crashed, files_of, host_of, saved_as, take_host};
use crate::trouble::Trouble;
use crate::verbs::OnFiles;
use crate::words::Words;
use host_mem::MemHost;
use host_model::FileNo;
use std::alloc::Global;

pub(crate) fn change(
    alloc: Global,
    host: &mut MemHost,
    saved: &mut Vec<Saved>,
    verb: OnFiles,
    words: Words,
) -> Result<(), Trouble> {
    match verb {
        OnFiles::Db => renewed(alloc, host, set(alloc, host, FileNo::Db, words)),
        OnFiles::Images => renewed(alloc, host, set(alloc, host, FileNo::Images, words)),
        OnFiles::Put => renewed(alloc, host, put(alloc, host, words)),
        OnFiles::Keep => renewed(alloc, host, keep(alloc, host, words)),
        OnFiles::Fail => fail(alloc, host, words),
        OnFiles::Fuse => fuse(host, words),
        OnFiles::Crash => crash(alloc, host, words),
        OnFiles::Save => save(alloc, host, saved, words),
        OnFiles::Load => renewed(alloc, host, load(alloc, saved, words)),
        OnFiles::Forget => {
            saved.clear();
            Ok(())
        }
    }
}

/// Puts a new host with these files, of which no call fails, in the place of the host.
fn renewed(
    alloc: Global,
    host: &mut MemHost,
    files: Result<Files, Trouble>,
) -> Result<(), Trouble> {
    match files {
        Ok(files) => {
            *host = host_of(files, Vec::new(alloc));
            Ok(())
        }
        Err(trouble) => Err(trouble),
    }
}

/// The file that a word names.
pub(crate) fn file_no(word: &[u8]) -> Result<FileNo, Trouble> {
    match word {
        b"db" => Ok(FileNo::Db),
        b"images" => Ok(FileNo::Images),
        _ => Err(Trouble::Words),
    }
}

/// These files with others bytes in one of them.
fn with(files: Files, file: FileNo, bytes: Vec<u8>) -> Files {
    let Files { db, images } = files;
    match file {
        FileNo::Db => Files { db: bytes, images },
        FileNo::Images => Files { db, images: bytes },
    }
}

/// The bytes of one of these files.
fn bytes_of(alloc: Global, files: &Files, file: FileNo) -> Result<Vec<u8>, Trouble> {
    match file {
        FileNo::Db => Ok(files.db.to_vec(alloc)?),
        FileNo::Images => Ok(files.images.to_vec(alloc)?),
    }
}

fn set(alloc: Global, host: &MemHost, file: FileNo, words: Words) -> Result<Files, Trouble> {
    let mut rest = words;
    let bytes = rest.bytes(alloc)?;
    let files = files_of(alloc, host)?;
    Ok(with(files, file, bytes))
}

fn put(alloc: Global, host: &MemHost, words: Words) -> Result<Files, Trouble> {
    let mut rest = words;
    let file = file_no(rest.word())?;
    let at = rest.size()?;
    let bytes = rest.bytes(alloc)?;
    let files = files_of(alloc, host)?;
    let mut changed = bytes_of(alloc, &files, file)?;
    put_over(&mut changed, at, &bytes)?;
    Ok(with(files, file, changed))
}

/// Puts bytes over those at a place. Where the file is shorter zeros come between, and it gets longer.
fn put_over(file: &mut Vec<u8>, at: usize, bytes: &[u8]) -> Result<(), Trouble> {
    let end = at.saturating_add(bytes.len());
    if file.len() < end {
        file.resize(end, 0)?;
    }
    for (place, byte) in file.iter_mut().skip(at).zip(bytes) {
        *place = *byte;
    }
    Ok(())
}

fn keep(alloc: Global, host: &MemHost, words: Words) -> Result<Files, Trouble> {
    let mut rest = words;
    let file = file_no(rest.word())?;
    let length = rest.size()?;
    let files = files_of(alloc, host)?;
    let mut changed = bytes_of(alloc, &files, file)?;
    changed.truncate(length);
    Ok(with(files, file, changed))
}

fn fail(alloc: Global, host: &mut MemHost, words: Words) -> Result<(), Trouble> {
    let mut rest = words;
    let failing = rest.numbers(alloc)?;
    let files = files_of(alloc, host)?;
    *host = host_of(files, failing);
    Ok(())
}

fn fuse(host: &mut MemHost, words: Words) -> Result<(), Trouble> {
    let mut rest = words;
    host.fuse(rest.number()?);
    Ok(())
}

fn crash(alloc: Global, host: &mut MemHost, words: Words) -> Result<(), Trouble> {
    let mut rest = words;
    let way = rest.number()?;
    match crashed(take_host(alloc, host), way) {
        Ok(left) => {
            *host = left;
            Ok(())
        }
        Err(_) => Err(Trouble::Memory),
    }
}

fn save(
    alloc: Global,
    host: &MemHost,
    saved: &mut Vec<Saved>,
    words: Words,
) -> Result<(), Trouble> {
    let name = words.0.to_vec(alloc)?;
    let files = files_of(alloc, host)?;
    match saved.push(Saved { name, files }) {
        Ok(()) => Ok(()),
        Err(_) => Err(Trouble::Memory),
    }
}

fn load(alloc: Global, saved: &[Saved], words: Words) -> Result<Files, Trouble> {
    let files = saved_as(saved, words.0)?;
    Ok(files.copy(alloc)?)
}
