ghost use Rattle.std.specs.Prelude.{◌≡◌, ◌-◌, ◌<◌, ◌≤◌, ◌++◌, min, length, take, drop, All, None, Some, is_ok};
ghost use Rattle.std.specs.Prelude.{if◌then◌else◌, IsTrue, IfOk, OnOk, OnErr};
ghost use Rattle.host_model.specs.Failures.{NeverFell, counted};
ghost use Rattle.host_model.specs.Files.{AreBytes, file_of, saying, with_file};
ghost use Rattle.host_model.specs.Disk.{written};
ghost use Rattle.host_mem.specs.History.{start};
ghost use Rattle.host_mem.specs.Inside.{held, seen};
ghost use Rattle.host_mem.specs.Memory.{Called, filled, memory_of, failed_by, IsLook, only_done};
ghost use Rattle.host_mem.specs.Log.{Logged};
ghost use Rattle.host_mem.specs.Replay.{state_seen};
ghost use Rattle.host_mem.specs.Step.{Cut, Say, Sync, Write};

use super::call::Call;
use super::log::Log;
use super::replay::{Disks, settle};
use super::step::Entry;
use super::stored::{Stored, cut, first_bytes, say, sync, write};
use host_model::{FileNo, HostFailed};
use std::alloc::{AllocError, Global};

/// What both memory hosts are made of: two files, what was said, the calls so far, and the counts.
#[derive(Drop)]
pub(crate) struct Parts {
    pub(crate) db: Stored,
    pub(crate) images: Stored,
    pub(crate) said: Stored,
    pub(crate) log: Log,
    pub(crate) alloc: Global,
    pub(crate) read_failures: u64,
    pub(crate) write_failures: u64,
    pub(crate) say_failures: u64,
    pub(crate) reads: u64,
}

impl Parts {
    pub(crate) fn len(&mut self, file: FileNo, listed: bool) -> Result<u64, HostFailed>
        ensures length { IfOk result (λ n. n ≡ length (file_of (held self.old) file)) }
        ensures bytes { AreBytes (held self.old) }
        ensures held { held self.new ≡ held self.old }
        ensures failures { NeverFell (seen self.old).failures (seen self.new).failures }
        ensures called { Called (IsTrue listed) (Call.Len (counted self.old.log.moment) file) None result
            (seen self.old) (seen self.new) }
    {
        self.hold_bytes();
        let number = self.log.next();
        self.look(Call::Len { number, file }, listed)?;
        Ok(self.bytes(file).len() as u64)
    }

    pub(crate) fn read(
        &mut self,
        file: FileNo,
        at: u64,
        out: &mut [u8],
        listed: bool,
    ) -> Result<usize, HostFailed>
        ensures count { IfOk result (λ n. n ≡ min (length out.old) (length (file_of (held self.old) file) - at)) }
        ensures bytes { OnOk result (out.new ≡ filled (file_of (held self.old) file) at out.old) }
        ensures unread { OnErr result (out.new ≡ out.old) }
        ensures held { held self.new ≡ held self.old }
        ensures failures { NeverFell (seen self.old).failures (seen self.new).failures }
        ensures called { Called (IsTrue listed) (Call.Read (counted self.old.log.moment) file at (length out.old))
            None result (seen self.old) (seen self.new) }
    {
        let number = self.log.next();
        let len = out.len();
        let call = Call::Read {
            number,
            file,
            at,
            len,
        };
        self.look(call, listed)?;
        if let FileNo::Db = file {
            self.reads = self.reads.saturating_add(1);
        }
        Ok(fill(self.bytes(file), at, out))
    }

    pub(crate) fn write_at(
        &mut self,
        file: FileNo,
        at: u64,
        bytes: &[u8],
        listed: bool,
    ) -> Result<(), HostFailed>
        requires { at ≤ length (file_of (held self.old) file) }
        ensures held { held self.new ≡ (if is_ok result
            then with_file file (written at bytes.now (file_of (held self.old) file)) (held self.old)
            else held self.old) }
        ensures failures { NeverFell (seen self.old).failures (seen self.new).failures }
        ensures called { Called (IsTrue listed) (Call.Write (counted self.old.log.moment) file at (length bytes.now))
            (Some (Write (counted self.old.log.moment) file at bytes.now (is_ok result))) result (seen self.old)
            (seen self.new) }
    {
        let result = match file {
            FileNo::Db => write(
                &mut self.db,
                &mut self.log,
                self.alloc,
                file,
                at,
                bytes,
                listed,
            ),
            FileNo::Images => write(
                &mut self.images,
                &mut self.log,
                self.alloc,
                file,
                at,
                bytes,
                listed,
            ),
        };
        if result.is_err() {
            self.write_failures = self.write_failures.saturating_add(1);
        }
        result
    }

    pub(crate) fn cut(&mut self, file: FileNo, len: u64, listed: bool) -> Result<(), HostFailed>
        requires { len ≤ length (file_of (held self.old) file) }
        ensures held { held self.new ≡ (if is_ok result
            then with_file file (take len (file_of (held self.old) file)) (held self.old)
            else held self.old) }
        ensures failures { NeverFell (seen self.old).failures (seen self.new).failures }
        ensures called { Called (IsTrue listed) (Call.Cut (counted self.old.log.moment) file len)
            (Some (Cut (counted self.old.log.moment) file len (is_ok result))) result (seen self.old) (seen self.new) }
    {
        let result = match file {
            FileNo::Db => cut(&mut self.db, &mut self.log, self.alloc, file, len, listed),
            FileNo::Images => cut(
                &mut self.images,
                &mut self.log,
                self.alloc,
                file,
                len,
                listed,
            ),
        };
        if result.is_err() {
            self.write_failures = self.write_failures.saturating_add(1);
        }
        result
    }

    pub(crate) fn sync(&mut self, file: FileNo, listed: bool) -> Result<(), HostFailed>
        ensures held { held self.new ≡ held self.old }
        ensures failures { NeverFell (seen self.old).failures (seen self.new).failures }
        ensures called { Called (IsTrue listed) (Call.Sync (counted self.old.log.moment) file)
            (only_done result (Sync (counted self.old.log.moment) file)) result (seen self.old) (seen self.new) }
    {
        let result = sync(&mut self.log, file, listed);
        if result.is_err() {
            self.write_failures = self.write_failures.saturating_add(1);
        }
        result
    }

    pub(crate) fn say(&mut self, bytes: &[u8], listed: bool) -> Result<(), HostFailed>
        ensures held { held self.new ≡ (if is_ok result then saying (held self.old) bytes.now else held self.old) }
        ensures failures { NeverFell (seen self.old).failures (seen self.new).failures }
        ensures called { Called (IsTrue listed) (Call.Say (counted self.old.log.moment) (length bytes.now))
            (only_done result (Say (counted self.old.log.moment) bytes.now)) result (seen self.old) (seen self.new) }
    {
        let result = say(&mut self.said, &mut self.log, self.alloc, bytes, listed);
        if result.is_err() {
            self.say_failures = self.say_failures.saturating_add(1);
        }
        result
    }

    /// Records a call that only reads, and says whether it goes on.
    fn look(&mut self, call: Call, listed: bool) -> Result<(), HostFailed>
        requires { IsLook call }
        ensures held { held self.new ≡ held self.old }
        ensures failures { NeverFell (seen self.old).failures (seen self.new).failures }
        ensures reads { self.new.reads ≡ self.old.reads }
        ensures first { (seen self.new).first ≡ (seen self.old).first }
        ensures log { Logged (IsTrue listed) call None result self.old.log self.new.log }
        ensures counts { (seen self.new).failures ≡
            (if is_ok result then (seen self.old).failures else failed_by call (seen self.old).failures) }
    {
        if self.log.admit(call).is_err() || listed {
            self.read_failures = self.read_failures.saturating_add(1);
            return Err(HostFailed);
        }
        Ok(())
    }

    /// Both files on their disks and what was said, as they were at first.
    pub(crate) fn first_disks(&self) -> Result<Disks, AllocError>
        ensures { IfOk result (λ disks. state_seen disks ≡ start (seen self.now).first) }
    {
        Ok(Disks {
            db: settle(self.alloc, first_bytes(&self.db))?,
            images: settle(self.alloc, first_bytes(&self.images))?,
            said: first_bytes(&self.said).to_vec(self.alloc)?,
        })
    }

    /// Does nothing: what both files hold are bytes.
    fn hold_bytes(&self)
        ensures { AreBytes (held self.now) }
    {
        are_bytes(self.db.bytes.as_slice());
        are_bytes(self.images.bytes.as_slice());
    }

    pub(crate) fn bytes(&self, file: FileNo) -> &[u8]
        ensures { result.now ≡ file_of (held self.now) file }
    {
        match file {
            FileNo::Db => self.db.bytes.as_slice(),
            FileNo::Images => self.images.bytes.as_slice(),
        }
    }
}

/// Does nothing: each item of a slice of bytes is below 256.
fn are_bytes(bytes: &[u8])
    ensures { All (λ b. b < 256) bytes.now }
{}

/// Puts what the file has from `at` on at the front of `out`, and answers how many bytes those are.
fn fill(file: &[u8], at: u64, out: &mut [u8]) -> usize
    ensures count { result ≡ min (length out.old) (length file.now - at) }
    ensures bytes { out.new ≡ filled file.now at out.old }
{
    let start = at.min(file.len() as u64) as usize;
    copy_front(&file[start..], out)
}

/// Copies as many bytes as both have to the front of `out`, and answers how many those are.
pub(crate) fn copy_front(from: &[u8], out: &mut [u8]) -> usize
    ensures count { result ≡ min (length out.old) (length from.now) }
    ensures bytes { out.new ≡ take result from.now ++ drop result out.old }
{
    let count = out.len().min(from.len());
    out[..count].copy_from_slice(&from[..count]);
    count
}
