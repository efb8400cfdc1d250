ghost use Rattle.std.specs.Prelude.{◌≡◌, ◌+◌, ◌≤◌, ◌++◌, length, take, Some, is_ok, if◌then◌else◌, IsSome, IsTrue};
ghost use Rattle.std.specs.Prelude.{IfOk, vec_len};
ghost use Rattle.std.specs.Vec.{vec_capacity};
ghost use Rattle.host_model.specs.Failures.{counted};
ghost use Rattle.host_model.specs.Disk.{written};
ghost use Rattle.host_mem.specs.Log.{Logged};
ghost use Rattle.host_mem.specs.Memory.{only_done};
ghost use Rattle.host_mem.specs.Step.{Cut, Say, Sync, Write};
ghost use Rattle.host_mem.specs.Stored.{first_of};

use super::call::Call;
use super::log::Log;
use super::step::Entry;
use host_model::{FileNo, HostFailed};
use std::alloc::{AllocError, Global};

/// Bytes as they are now, and as they were at first where they may have changed since.
#[derive(Drop)]
pub(crate) struct Stored {
    pub(crate) bytes: Vec<u8>,
    pub(crate) first: Option<Vec<u8>>,
}

/// Keeps the bytes as they were at first, before a change.
pub(crate) fn keep_first(stored: &mut Stored, alloc: Global) -> Result<(), AllocError>
    ensures now { stored.new.bytes ≡ stored.old.bytes }
    ensures first { first_of stored.new ≡ first_of stored.old }
    ensures kept { IfOk result (λ _. IsSome stored.new.first) }
{
    if stored.first.is_none() {
        stored.first = Some(stored.bytes.as_slice().to_vec(alloc)?);
    }
    Ok(())
}

/// The bytes as they were at first.
pub(crate) fn first_bytes(stored: &Stored) -> &[u8]
    ensures { result.now ≡ first_of stored.now }
{
    match &stored.first {
        Some(first) => first.as_slice(),
        None => stored.bytes.as_slice(),
    }
}

/// Finds the memory for a write, and answers a copy of its bytes.
fn make_ready(
    stored: &mut Stored,
    alloc: Global,
    at: usize,
    bytes: &[u8],
) -> Result<Vec<u8>, AllocError>
    requires { at ≤ vec_len stored.old.bytes }
    ensures now { stored.new.bytes.items ≡ stored.old.bytes.items }
    ensures first { first_of stored.new ≡ first_of stored.old }
    ensures kept { IfOk result (λ _. IsSome stored.new.first) }
    ensures room { IfOk result (λ _. at + length bytes.now ≤ vec_capacity stored.new.bytes) }
    ensures copy { IfOk result (λ copy. copy.items ≡ bytes.now) }
{
    keep_first(stored, alloc)?;
    let behind = stored.bytes.len() - at;
    stored
        .bytes
        .try_reserve(bytes.len().saturating_sub(behind))?;
    bytes.to_vec(alloc)
}

/// Writes over the bytes from `at` on, and past their end.
fn overwrite(now: &mut Vec<u8>, at: usize, bytes: &[u8])
    requires place { at ≤ vec_len now.old }
    requires room { at + length bytes.now ≤ vec_capacity now.old }
    ensures { now.new.items ≡ written at bytes.now now.old.items }
{
    if bytes.len() <= now.len() - at {
        now[at..at + bytes.len()].copy_from_slice(bytes);
    } else {
        now.truncate(at);
        now.extend_from_slice(bytes).unwrap();
    }
}

/// Writes into a file, and records that.
pub(crate) fn write(
    stored: &mut Stored,
    log: &mut Log,
    alloc: Global,
    file: FileNo,
    at: u64,
    bytes: &[u8],
    listed: bool,
) -> Result<(), HostFailed>
    requires { at ≤ length stored.old.bytes.items }
    ensures now { stored.new.bytes.items ≡
        (if is_ok result then written at bytes.now stored.old.bytes.items else stored.old.bytes.items) }
    ensures first { first_of stored.new ≡ first_of stored.old }
    ensures log { Logged (IsTrue listed) (Call.Write (counted log.old.moment) file at (length bytes.now))
        (Some (Write (counted log.old.moment) file at bytes.now (is_ok result))) result log.old log.new }
{
    let number = log.next();
    let len = bytes.len();
    let Ok(copy) = make_ready(stored, alloc, at as usize, bytes) else {
        log.starve();
        return Err(HostFailed);
    };
    let entry = Entry::Write {
        number,
        file,
        at,
        bytes: copy,
        done: !listed,
    };
    let call = Call::Write {
        number,
        file,
        at,
        len,
    };
    log.admit_step(call, entry)?;
    if listed {
        return Err(HostFailed);
    }
    overwrite(&mut stored.bytes, at as usize, bytes);
    Ok(())
}

/// Cuts a file, and records that.
pub(crate) fn cut(
    stored: &mut Stored,
    log: &mut Log,
    alloc: Global,
    file: FileNo,
    len: u64,
    listed: bool,
) -> Result<(), HostFailed>
    requires { len ≤ length stored.old.bytes.items }
    ensures now { stored.new.bytes.items ≡
        (if is_ok result then take len stored.old.bytes.items else stored.old.bytes.items) }
    ensures first { first_of stored.new ≡ first_of stored.old }
    ensures log { Logged (IsTrue listed) (Call.Cut (counted log.old.moment) file len)
        (Some (Cut (counted log.old.moment) file len (is_ok result))) result log.old log.new }
{
    let number = log.next();
    if keep_first(stored, alloc).is_err() {
        log.starve();
        return Err(HostFailed);
    }
    let entry = Entry::Cut {
        number,
        file,
        len,
        done: !listed,
    };
    log.admit_step(Call::Cut { number, file, len }, entry)?;
    if listed {
        return Err(HostFailed);
    }
    stored.bytes.truncate(len as usize);
    Ok(())
}

/// Records a sync, which has nothing else to do.
pub(crate) fn sync(log: &mut Log, file: FileNo, listed: bool) -> Result<(), HostFailed>
    ensures { Logged (IsTrue listed) (Call.Sync (counted log.old.moment) file)
        (only_done result (Sync (counted log.old.moment) file)) result log.old log.new }
{
    let number = log.next();
    let call = Call::Sync { number, file };
    if listed {
        let _ = log.admit(call);
        return Err(HostFailed);
    }
    log.admit_step(call, Entry::Sync { number, file })
}

/// Says bytes, and records that.
pub(crate) fn say(
    said: &mut Stored,
    log: &mut Log,
    alloc: Global,
    bytes: &[u8],
    listed: bool,
) -> Result<(), HostFailed>
    ensures now { said.new.bytes.items ≡
        (if is_ok result then said.old.bytes.items ++ bytes.now else said.old.bytes.items) }
    ensures first { first_of said.new ≡ first_of said.old }
    ensures log { Logged (IsTrue listed) (Call.Say (counted log.old.moment) (length bytes.now))
        (only_done result (Say (counted log.old.moment) bytes.now)) result log.old log.new }
{
    let number = log.next();
    let len = bytes.len();
    let call = Call::Say { number, len };
    if listed {
        let _ = log.admit(call);
        return Err(HostFailed);
    }
    let at = said.bytes.len();
    let Ok(copy) = make_ready(said, alloc, at, bytes) else {
        log.starve();
        return Err(HostFailed);
    };
    log.admit_step(
        call,
        Entry::Say {
            number,
            bytes: copy,
        },
    )?;
    said.bytes.extend_from_slice(bytes).unwrap();
    Ok(())
}
