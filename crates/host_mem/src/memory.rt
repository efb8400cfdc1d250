ghost use Rattle.std.specs.Prelude.{◌≡◌, ◌-◌, ◌≤◌, min, length, None, Some, is_ok, IsTrue, IfOk, OnOk, OnErr};
ghost use Rattle.host_model.specs.Disk.{Changes, Cut as CutAt, Cuts, Elapses, Follows, SaysSome, Settles, Stays};
ghost use Rattle.host_model.specs.Disk.{Torn, Writes, during};
ghost use Rattle.host_model.specs.Failures.{NeverFell, counted};
ghost use Rattle.host_model.specs.Files.{AreBytes, Says, file_of};

use super::call::Call;
use super::log::Log;
use super::parts::Parts;
use super::replay::{Disks, leave, replay};
use super::stored::Stored;
use host_model::{FileNo, HostFailed};
use std::alloc::{AllocError, Global};
use std::marker::Model;

/// What both memory hosts are.
#[derive(Drop)]
pub(crate) struct Memory {
    parts: Parts,
}

impl Model for Memory {
    ghost use Rattle.host_mem.specs.Memory.{Memory};

    ghost Value = { Memory };

    ghost use Rattle.host_mem.specs.Inside.{IsMemory, seen};

    ghost view = { λ memory. seen memory.parts };

    ghost invariant = { λ memory. IsMemory memory.parts };
}

impl Memory {
    ghost use Rattle.host_mem.specs.History.{crashed_state};
    ghost use Rattle.host_mem.specs.Memory.{Called, contents_of, filled, left_since, memory_of, only_done, state_of};
    ghost use Rattle.host_mem.specs.Step.{Cut, Say, Sync, Write};

    pub(crate) fn new(alloc: Global, db: Vec<u8>, images: Vec<u8>, said: Vec<u8>) -> Memory
        ensures { result ≡ memory_of (record { db = db.items; images = images.items; said = said.items }) }
    {
        Memory {
            parts: Parts {
                db: Stored {
                    bytes: db,
                    first: None,
                },
                images: Stored {
                    bytes: images,
                    first: None,
                },
                said: Stored {
                    bytes: said,
                    first: None,
                },
                log: Log::new(alloc),
                alloc,
                read_failures: 0,
                write_failures: 0,
                say_failures: 0,
                reads: 0,
            },
        }
    }

    /// The number of the next call.
    pub(crate) fn next(&self) -> u64
        ensures { result ≡ counted self.now.log.moment }
    {
        self.parts.log.next()
    }

    pub(crate) fn len(&mut self, file: FileNo, listed: bool) -> Result<u64, HostFailed>
        ensures length { IfOk result (λ n. n ≡ length (file_of (contents_of self.old) file)) }
        ensures bytes { AreBytes (contents_of self.old) }
        ensures told { contents_of self.new ≡ contents_of self.old }
        ensures crash { Stays (left_since self.old self.old.log.moment) (left_since self.new self.new.log.moment) }
        ensures time { Elapses self.old.log.moment self.new.log.moment (left_since self.old) (left_since self.new)
            (left_since self.new self.new.log.moment) }
        ensures failures { NeverFell self.old.failures self.new.failures }
        ensures called { Called (IsTrue listed) (Call.Len (counted self.old.log.moment) file) None result self.old
            self.new }
    {
        self.parts.len(file, listed)
    }

    pub(crate) fn read(
        &mut self,
        file: FileNo,
        at: u64,
        out: &mut [u8],
        listed: bool,
    ) -> Result<usize, HostFailed>
        ensures count { IfOk result
            (λ n. n ≡ min (length out.old) (length (file_of (contents_of self.old) file) - at)) }
        ensures bytes { OnOk result (out.new ≡ filled (file_of (contents_of self.old) file) at out.old) }
        ensures unread { OnErr result (out.new ≡ out.old) }
        ensures told { contents_of self.new ≡ contents_of self.old }
        ensures crash { Stays (left_since self.old self.old.log.moment) (left_since self.new self.new.log.moment) }
        ensures time { Elapses self.old.log.moment self.new.log.moment (left_since self.old) (left_since self.new)
            (left_since self.new self.new.log.moment) }
        ensures failures { NeverFell self.old.failures self.new.failures }
        ensures called { Called (IsTrue listed) (Call.Read (counted self.old.log.moment) file at (length out.old))
            None result self.old self.new }
    {
        self.parts.read(file, at, out, listed)
    }

    pub(crate) fn write_at(
        &mut self,
        file: FileNo,
        at: u64,
        bytes: &[u8],
        listed: bool,
    ) -> Result<(), HostFailed>
        requires { at ≤ length (file_of (contents_of self.old) file) }
        ensures told { Changes file (Writes at bytes.now result) (contents_of self.old) (contents_of self.new) }
        ensures exactly { OnErr result (contents_of self.new ≡ contents_of self.old) }
        ensures crash { Follows (Changes file (Torn at (length bytes.now)))
            (left_since self.old self.old.log.moment) (left_since self.new self.new.log.moment) }
        ensures time { Elapses self.old.log.moment self.new.log.moment (left_since self.old) (left_since self.new)
            (left_since self.new self.new.log.moment) }
        ensures failures { NeverFell self.old.failures self.new.failures }
        ensures called { Called (IsTrue listed) (Call.Write (counted self.old.log.moment) file at (length bytes.now))
            (Some (Write (counted self.old.log.moment) file at bytes.now (is_ok result))) result self.old self.new }
    {
        self.parts.write_at(file, at, bytes, listed)
    }

    pub(crate) fn cut(&mut self, file: FileNo, len: u64, listed: bool) -> Result<(), HostFailed>
        requires { len ≤ length (file_of (contents_of self.old) file) }
        ensures told { Changes file (Cuts len result) (contents_of self.old) (contents_of self.new) }
        ensures exactly { OnErr result (contents_of self.new ≡ contents_of self.old) }
        ensures crash { Follows (Changes file (CutAt len)) (left_since self.old self.old.log.moment)
            (left_since self.new self.new.log.moment) }
        ensures time { Elapses self.old.log.moment self.new.log.moment (left_since self.old) (left_since self.new)
            (left_since self.new self.new.log.moment) }
        ensures failures { NeverFell self.old.failures self.new.failures }
        ensures called { Called (IsTrue listed) (Call.Cut (counted self.old.log.moment) file len)
            (Some (Cut (counted self.old.log.moment) file len (is_ok result))) result self.old self.new }
    {
        self.parts.cut(file, len, listed)
    }

    pub(crate) fn sync(&mut self, file: FileNo, listed: bool) -> Result<(), HostFailed>
        ensures settled { OnOk result
            (Settles file (file_of (contents_of self.old) file) (left_since self.new self.new.log.moment)) }
        ensures told { contents_of self.new ≡ contents_of self.old }
        ensures crash { Stays (left_since self.old self.old.log.moment) (left_since self.new self.new.log.moment) }
        ensures time { Elapses self.old.log.moment self.new.log.moment (left_since self.old) (left_since self.new)
            (left_since self.new self.new.log.moment) }
        ensures failures { NeverFell self.old.failures self.new.failures }
        ensures called { Called (IsTrue listed) (Call.Sync (counted self.old.log.moment) file)
            (only_done result (Sync (counted self.old.log.moment) file)) result self.old self.new }
    {
        self.parts.sync(file, listed)
    }

    pub(crate) fn say(&mut self, bytes: &[u8], listed: bool) -> Result<(), HostFailed>
        ensures said { Says bytes.now result (contents_of self.old) (contents_of self.new) }
        ensures exactly { OnErr result (contents_of self.new ≡ contents_of self.old) }
        ensures crash { Follows (SaysSome bytes.now) (left_since self.old self.old.log.moment)
            (left_since self.new self.new.log.moment) }
        ensures time { Elapses self.old.log.moment self.new.log.moment (left_since self.old) (left_since self.new)
            (during (SaysSome bytes.now) (left_since self.old self.old.log.moment)) }
        ensures failures { NeverFell self.old.failures self.new.failures }
        ensures called { Called (IsTrue listed) (Call.Say (counted self.old.log.moment) (length bytes.now))
            (only_done result (Say (counted self.old.log.moment) bytes.now)) result self.old self.new }
    {
        self.parts.say(bytes, listed)
    }

    /// A host with what the crash of this choice leaves, and no call made.
    pub(crate) fn crash(&self, choice: u64) -> Result<Memory, AllocError>
        ensures { IfOk result (λ memory. memory ≡ memory_of (crashed_state choice (state_of self.now))) }
    {
        let alloc = self.parts.alloc;
        let mut disks = self.parts.first_disks()?;
        replay(&mut disks, alloc, self.parts.log.steps())?;
        let Disks { db, images, said } = disks;
        let db = leave(&db, alloc, choice)?;
        let images = leave(&images, alloc, choice)?;
        Ok(Memory::new(alloc, db, images, said))
    }

    pub(crate) fn alloc(&self) -> Global {
        self.parts.alloc
    }

    pub(crate) fn parts(&self) -> (&[u8], &[u8], &[u8])
        ensures db { result.0.now ≡ (contents_of self.now).db }
        ensures images { result.1.now ≡ (contents_of self.now).images }
        ensures said { result.2.now ≡ (contents_of self.now).said }
    {
        (
            self.parts.db.bytes.as_slice(),
            self.parts.images.bytes.as_slice(),
            self.parts.said.bytes.as_slice(),
        )
    }

    pub(crate) fn starved(&self) -> u64
        ensures { result ≡ self.now.log.starved }
    {
        self.parts.log.starved()
    }

    pub(crate) fn reads(&self) -> u64
        ensures { result ≡ self.now.reads }
    {
        self.parts.reads
    }

    pub(crate) fn calls(&self) -> &[Call]
        ensures { result.now ≡ self.now.log.calls }
    {
        self.parts.log.calls()
    }
}
