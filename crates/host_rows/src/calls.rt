//! Single calls of a host, and what is known of those that were made.

use crate::bench::{Files, files_of};
use crate::files::file_no;
use crate::texts::{add, add_number, add_word_number, number, pieces, text};
use crate::trouble::Trouble;
use crate::verbs::OnCalls;
use crate::words::Words;
use host_mem::{Call, MemHost, SureHost};
use host_model::{FileNo, Host, HostFailed};
use std::alloc::{AllocError, Global};

/// A call of a host.
#[derive(Drop)]
enum Step {
    Len(FileNo),
    /// So many bytes, 4 at most, from a place on.
    Read(FileNo, u64, usize),
    Write(FileNo, u64, Vec<u8>),
    Cut(FileNo, u64),
    Sync(FileNo),
    Say(Vec<u8>),
}

/// The most bytes that are read in one call.
const MOST: usize = 64;

pub(crate) fn answer(
    alloc: Global,
    host: &mut MemHost,
    verb: OnCalls,
    words: Words,
) -> Result<Vec<u8>, Trouble> {
    match verb {
        OnCalls::Call => call(alloc, host, words),
        OnCalls::Sure => sure(alloc, host, words),
        OnCalls::Count => number(alloc, count_of(host)),
        OnCalls::Reads => number(alloc, reads_of(host)),
        OnCalls::List => list(alloc, host),
    }
}

/// How many calls a host has had.
pub(crate) fn count_of(host: &MemHost) -> u64 {
    host.calls().len() as u64
}

fn reads_of(host: &MemHost) -> u64 {
    host.reads()
}

fn step_of(alloc: Global, words: Words) -> Result<Step, Trouble> {
    let mut rest = words;
    match rest.word() {
        b"len" => Ok(Step::Len(file_no(rest.word())?)),
        b"read" => Ok(Step::Read(file_no(rest.word())?, rest.number()?, rest.size()?)),
        b"write" => Ok(Step::Write(file_no(rest.word())?, rest.number()?, rest.bytes(alloc)?)),
        b"cut" => Ok(Step::Cut(file_no(rest.word())?, rest.number()?)),
        b"sync" => Ok(Step::Sync(file_no(rest.word())?)),
        b"say" => Ok(Step::Say(rest.bytes(alloc)?)),
        _ => Err(Trouble::Words),
    }
}

fn call(alloc: Global, host: &mut MemHost, words: Words) -> Result<Vec<u8>, Trouble> {
    let step = step_of(alloc, words)?;
    called(alloc, host, &step)
}

/// The same call of a host that never fails, with the same files.
fn sure(alloc: Global, host: &MemHost, words: Words) -> Result<Vec<u8>, Trouble> {
    let step = step_of(alloc, words)?;
    let files = files_of(alloc, host)?;
    sure_called(alloc, sure_host(files), &step)
}

fn sure_called(alloc: Global, host: SureHost, step: &Step) -> Result<Vec<u8>, Trouble> {
    let mut host = host;
    let answer = called(alloc, &mut host, step);
    with_reads(alloc, answer, sure_reads(&host))
}

fn with_reads(
    alloc: Global,
    answer: Result<Vec<u8>, Trouble>,
    reads: u64,
) -> Result<Vec<u8>, Trouble> {
    let mut answer = answer?;
    add_word_number(alloc, &mut answer, b", reads", reads)?;
    Ok(answer)
}

fn sure_host(files: Files) -> SureHost {
    let alloc = *files.db.allocator();
    let Files { db, images } = files;
    SureHost::new(alloc, db, images)
}

fn sure_reads(host: &SureHost) -> u64 {
    host.reads()
}

/// Makes a call and says what it answered.
fn called<H: Host>(alloc: Global, host: &mut H, step: &Step) -> Result<Vec<u8>, Trouble> {
    let mut out = [b'.'; MOST];
    match made(host, step, &mut out) {
        Ok(count) => told(alloc, step, count, &out),
        Err(HostFailed) => text(alloc, b"failed"),
    }
}

/// What a call answered that succeeded.
fn told(alloc: Global, step: &Step, count: u64, out: &[u8]) -> Result<Vec<u8>, Trouble> {
    match step {
        Step::Len(_) => number(alloc, count),
        Step::Read(_, _, length) => {
            let mut answer = number(alloc, count)?;
            add(&mut answer, b" ")?;
            let shown = pieces(alloc, out.get(..*length).unwrap_or(&[]))?;
            add(&mut answer, &shown)?;
            Ok(answer)
        }
        _ => text(alloc, b"done"),
    }
}

fn made<H: Host>(host: &mut H, step: &Step, out: &mut [u8; MOST]) -> Result<u64, HostFailed> {
    match step {
        Step::Len(file) => return host.len(*file),
        Step::Read(file, at, length) => return read(host, *file, *at, *length, out),
        Step::Write(file, at, bytes) => write(host, *file, *at, bytes)?,
        Step::Cut(file, len) => cut(host, *file, *len)?,
        Step::Sync(file) => host.sync(*file)?,
        Step::Say(bytes) => host.say(bytes)?,
    }
    Ok(0)
}

fn read<H: Host>(
    host: &mut H,
    file: FileNo,
    at: u64,
    length: usize,
    out: &mut [u8; MOST],
) -> Result<u64, HostFailed> {
    match out.get_mut(..length) {
        Some(front) => Ok(host.read(file, at, front)? as u64),
        None => Err(HostFailed),
    }
}

fn write<H: Host>(host: &mut H, file: FileNo, at: u64, bytes: &[u8]) -> Result<(), HostFailed> {
    if at == 0 {
        return host.write_at(file, 0, bytes);
    }
    if host.len(file)? < at {
        return Err(HostFailed);
    }
    host.write_at(file, at, bytes)
}

fn cut<H: Host>(host: &mut H, file: FileNo, len: u64) -> Result<(), HostFailed> {
    if len == 0 {
        return host.cut(file, 0);
    }
    if host.len(file)? < len {
        return Err(HostFailed);
    }
    host.cut(file, len)
}

/// What is known of the calls that a host has had.
pub(crate) fn calls_of(alloc: Global, host: &MemHost) -> Result<Vec<Call>, AllocError> {
    host.calls().to_vec(alloc)
}

fn list(alloc: Global, host: &MemHost) -> Result<Vec<u8>, Trouble> {
    let mut answer = Vec::new(alloc);
    for call in host.calls() {
        if !answer.is_empty() {
            add(&mut answer, b"\n")?;
        }
        add_call(alloc, &mut answer, call)?;
    }
    Ok(answer)
}

/// Adds the number of a call, its kind and its file.
pub(crate) fn add_call(alloc: Global, answer: &mut Vec<u8>, call: &Call) -> Result<(), Trouble> {
    let (number, kind) = number_and_kind(call);
    add_number(alloc, answer, number)?;
    add(answer, b" ")?;
    add(answer, kind)?;
    add(answer, file_name(call))
}

/// The number of a call, and its kind.
pub(crate) fn number_and_kind(call: &Call) -> (u64, &'static [u8]) {
    match call {
        Call::Len { number, .. } => (*number, b"len"),
        Call::Read { number, .. } => (*number, b"read"),
        Call::Write { number, .. } => (*number, b"write"),
        Call::Cut { number, .. } => (*number, b"cut"),
        Call::Sync { number, .. } => (*number, b"sync"),
        Call::Say { number, .. } => (*number, b"say"),
    }
}

fn file_name(call: &Call) -> &'static [u8] {
    match call {
        Call::Len { file, .. }
        | Call::Read { file, .. }
        | Call::Write { file, .. }
        | Call::Cut { file, .. }
        | Call::Sync { file, .. } => match file {
            FileNo::Db => b" db",
            FileNo::Images => b" images",
        },
        Call::Say { .. } => b"",
    }
}
