ghost use Rattle.std.specs.Prelude.{◌≡◌, ◌++◌, length, map, slice_index, IsTrue, if◌then◌else◌, IfOk, OnOk};
ghost use Rattle.host_model.specs.Disk.{written};
ghost use Rattle.host_mem.specs.Drive.{crashed, is_covered, is_loose, is_within, scribbled, settled, shortened};
ghost use Rattle.host_mem.specs.Drive.{synced, wrote};
ghost use Rattle.host_mem.specs.Entries.{step_of};
ghost use Rattle.host_mem.specs.History.{apply, replayed};
ghost use Rattle.host_mem.specs.Replay.{drive_seen, state_seen};

use super::step::{Entry, Range};
use host_model::FileNo;
use std::alloc::{AllocError, Global};

/// One file on its disk: what a read gives, what the last sync left, the least length since, and the ranges written
/// since.
#[derive(Drop)]
pub(crate) struct Disk {
    pub(crate) bytes: Vec<u8>,
    pub(crate) stable: Vec<u8>,
    pub(crate) least: u64,
    pub(crate) ranges: Vec<Range>,
}

/// Both files on their disks, and what was said.
#[derive(Drop)]
pub(crate) struct Disks {
    pub(crate) db: Disk,
    pub(crate) images: Disk,
    pub(crate) said: Vec<u8>,
}

/// A file of which a crash leaves what a read gives.
pub(crate) fn settle(alloc: Global, bytes: &[u8]) -> Result<Disk, AllocError>
    ensures { IfOk result (λ disk. drive_seen disk ≡ settled bytes.now) }
{
    Ok(Disk {
        bytes: bytes.to_vec(alloc)?,
        stable: bytes.to_vec(alloc)?,
        least: bytes.len() as u64,
        ranges: Vec::new(alloc),
    })
}

/// Writes over the bytes from `at` on, and past their end.
fn lay(now: &mut Vec<u8>, at: u64, bytes: &[u8]) -> Result<(), AllocError>
    ensures { OnOk result (now.new.items ≡ written at bytes.now now.old.items) }
{
    let start = at.min(now.len() as u64) as usize;
    if bytes.len() <= now.len() - start {
        now[start..start + bytes.len()].copy_from_slice(bytes);
        return Ok(());
    }
    now.truncate(start);
    now.extend_from_slice(bytes)
}

fn write(disk: &mut Disk, at: u64, bytes: &[u8], done: bool) -> Result<(), AllocError>
    ensures { OnOk result (drive_seen disk.new ≡ wrote at bytes.now done (drive_seen disk.old)) }
{
    let len = bytes.len();
    disk.ranges.push(Range { at, len })?;
    if done {
        lay(&mut disk.bytes, at, bytes)?;
    }
    Ok(())
}

fn cut(disk: &mut Disk, len: u64, done: bool)
    ensures { drive_seen disk.new ≡ shortened len done (drive_seen disk.old) }
{
    disk.least = disk.least.min(len);
    if done {
        disk.bytes
            .truncate(len.min(disk.bytes.len() as u64) as usize);
    }
}

fn sync(disk: &mut Disk, alloc: Global) -> Result<(), AllocError>
    ensures { OnOk result (drive_seen disk.new ≡ synced (drive_seen disk.old)) }
{
    disk.stable = disk.bytes.as_slice().to_vec(alloc)?;
    disk.least = disk.bytes.len() as u64;
    disk.ranges.clear();
    Ok(())
}

/// Makes one step.
fn step(disks: &mut Disks, alloc: Global, entry: &Entry) -> Result<(), AllocError>
    ensures { OnOk result (state_seen disks.new ≡ apply (step_of entry.now) (state_seen disks.old)) }
{
    match entry {
        Entry::Write {
            file,
            at,
            bytes,
            done,
            ..
        } => match file {
            FileNo::Db => write(&mut disks.db, *at, bytes.as_slice(), *done),
            FileNo::Images => write(&mut disks.images, *at, bytes.as_slice(), *done),
        },
        Entry::Cut {
            file,
            len,
            done,
            ..
        } => {
            match file {
                FileNo::Db => cut(&mut disks.db, *len, *done),
                FileNo::Images => cut(&mut disks.images, *len, *done),
            }
            Ok(())
        }
        Entry::Sync { file, .. } => match file {
            FileNo::Db => sync(&mut disks.db, alloc),
            FileNo::Images => sync(&mut disks.images, alloc),
        },
        Entry::Say { bytes, .. } => disks.said.extend_from_slice(bytes.as_slice()),
    }
}

/// Makes the steps in their order.
pub(crate) fn replay(disks: &mut Disks, alloc: Global, entries: &[Entry]) -> Result<(), AllocError>
    ensures { OnOk result (state_seen disks.new ≡ replayed (state_seen disks.old) (map step_of entries.now)) }
{
    for entry in entries {
        step(disks, alloc, entry)?;
    }
    Ok(())
}

/// Whether a crash may leave anything at this place.
fn is_free(disk: &Disk, at: u64) -> bool
    ensures { result ≡ is_loose (drive_seen disk.now) at }
{
    disk.least <= at || is_written(disk, at)
}

/// Whether this place was written since the last sync.
fn is_written(disk: &Disk, at: u64) -> bool
    ensures { result ≡ is_covered at disk.now.ranges.items }
{
    disk.ranges.iter().any(|range| holds(range, at))
}

/// Whether the byte at this place lies in the range.
fn holds(range: &Range, at: u64) -> bool
    ensures { result ≡ is_within at range.now }
{
    range.at <= at && at - range.at < range.len as u64
}

/// The stable byte at a place, or FF hex where a crash may leave anything.
fn scribbled_byte(disk: &Disk, at: usize) -> u8
    ensures { result ≡ (if is_loose (drive_seen disk.now) at then 255 else slice_index disk.now.stable.items at) }
{
    if is_free(disk, at as u64) {
        return 0xFF;
    }
    disk.stable.as_slice().get(at).copied().unwrap_or(0)
}

fn scribble(disk: &Disk, alloc: Global, len: usize) -> Result<Vec<u8>, AllocError>
    ensures { IfOk result (λ bytes. bytes.items ≡ scribbled (drive_seen disk.now) len) }
{
    let mut bytes = Vec::new(alloc);
    for at in 0..len {
        bytes.push(scribbled_byte(disk, at))?;
    }
    Ok(bytes)
}

/// What the crash of this choice leaves of the file.
pub(crate) fn leave(disk: &Disk, alloc: Global, choice: u64) -> Result<Vec<u8>, AllocError>
    ensures { IfOk result (λ bytes. bytes.items ≡ crashed choice (drive_seen disk.now)) }
{
    match choice % 4 {
        0 => disk.stable.as_slice().to_vec(alloc),
        1 => disk.bytes.as_slice().to_vec(alloc),
        2 => scribble(disk, alloc, disk.stable.len()),
        _ => scribble(disk, alloc, disk.bytes.len()),
    }
}
