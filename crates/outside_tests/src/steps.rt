//! Calls of a host as data, so that a test is a table of them.

use host_model::{FileNo, Host, HostFailed};
use std::alloc::{AllocError, Global};

/// A call of a host on the file that a test is about.
#[derive(Clone, Copy)]
pub(crate) enum Step {
    Len,
    /// Up to four bytes are read, from this one on.
    Read(u64),
    /// The bytes are written from this place on. Behind the first byte the length is asked for in a call before, and
    /// past the end none is written.
    Write(u64, &'static [u8]),
    /// The file is cut, as a write is made.
    Cut(u64),
    Sync,
    Say(&'static [u8]),
}

/// What calls answered: the number that each gave, or 0, or nothing where it failed; and the buffer of each read that
/// succeeded, which was full of dots before.
#[derive(Drop)]
pub(crate) struct Answers {
    pub(crate) numbers: Vec<Option<u64>>,
    pub(crate) read: Vec<u8>,
}

/// Makes these calls.
pub(crate) fn make_calls<H: Host>(
    alloc: Global,
    host: &mut H,
    file: FileNo,
    steps: &[Step],
) -> Result<Answers, AllocError> {
    let mut numbers = Vec::new(alloc);
    let mut read = Vec::new(alloc);
    for step in steps {
        let mut out = [b'.'; 4];
        let answer = call(host, file, *step, &mut out);
        if matches!(step, Step::Read(_)) && answer.is_ok() {
            read.extend_from_slice(&out)?;
        }
        numbers.push(answer.ok())?;
    }
    Ok(Answers { numbers, read })
}

fn call<H: Host>(
    host: &mut H,
    file: FileNo,
    step: Step,
    out: &mut [u8],
) -> Result<u64, HostFailed> {
    match step {
        Step::Len => return host.len(file),
        Step::Read(at) => return Ok(host.read(file, at, out)? as u64),
        Step::Write(at, bytes) => write(host, file, at, bytes)?,
        Step::Cut(len) => cut(host, file, len)?,
        Step::Sync => host.sync(file)?,
        Step::Say(bytes) => host.say(bytes)?,
    }
    Ok(0)
}

fn write<H: Host>(host: &mut H, file: FileNo, at: u64, bytes: &[u8]) -> Result<(), HostFailed> {
    if at == 0 {
        return host.write_at(file, 0, bytes);
    }
    if host.len(file)? < at {
        return Err(HostFailed);
    }
    host.write_at(file, at, bytes)
}

fn cut<H: Host>(host: &mut H, file: FileNo, len: u64) -> Result<(), HostFailed> {
    if len == 0 {
        return host.cut(file, 0);
    }
    if host.len(file)? < len {
        return Err(HostFailed);
    }
    host.cut(file, len)
}
