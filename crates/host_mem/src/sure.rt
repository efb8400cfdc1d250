ghost use Rattle.std.specs.Prelude.{◌≡◌, ◌≤◌, ◌↔◌, length, Contains, None, Some, is_ok, IsTrue, IfOk, OnOk, OnErr};
ghost use Rattle.host_model.specs.Disk.{Changes, Cut as CutAt, Cuts, Follows, SaysSome, Settles, Torn, Writes, during};
ghost use Rattle.host_model.specs.Failures.{Rose, counted};
ghost use Rattle.host_model.specs.Files.{AreBytes, Reads, Says, file_of};
ghost use Rattle.host_model.specs.Frames.{ChangedNothing, WasCalled};
ghost use Rattle.host_mem.specs.Laws.{LeftSince-longer, told_is_left, told_said_stays};
ghost use Rattle.host_mem.specs.Memory.{Called, contents_of, failures_of, filled, left_since, moment_of, new_memory};
ghost use Rattle.host_mem.specs.Memory.{only_done, told_by};
ghost use Rattle.host_mem.specs.Step.{Cut, Say, Sync, Write};

use super::call::Call;
use super::memory::Memory;
use host_model::{FileNo, Host, HostFailed};
use std::alloc::Global;
use std::marker::Model;

/// A host in memory that tells everything, and fails only where it finds no memory of its own.
#[derive(Drop)]
pub struct SureHost {
    memory: Memory,
}

impl Model for SureHost {
    ghost use Rattle.host_mem.specs.Memory.{Memory};

    ghost Value = { Memory };

    ghost view = { λ host. host.memory };
}

impl SureHost {
    /// A host with these two files.
    pub fn new(alloc: Global, db: Vec<u8>, images: Vec<u8>) -> SureHost
        ensures { result ≡ new_memory db.items images.items }
    {
        SureHost {
            memory: Memory::new(alloc, db, images, Vec::new(alloc)),
        }
    }

    /// Both files, and what was said.
    pub fn parts(&self) -> (&[u8], &[u8], &[u8])
        ensures db { result.0.now ≡ (contents_of self.now).db }
        ensures images { result.1.now ≡ (contents_of self.now).images }
        ensures said { result.2.now ≡ (contents_of self.now).said }
    {
        self.memory.parts()
    }

    /// The calls so far, in their order. One for which memory was short is left out.
    pub fn calls(&self) -> &[Call]
        ensures { result.now ≡ self.now.log.calls }
    {
        self.memory.calls()
    }

    /// How many calls found no memory for the record of them, for a write or for the said bytes.
    pub fn starved(&self) -> u64
        ensures { result ≡ self.now.log.starved }
    {
        self.memory.starved()
    }

    /// How many reads of the database file succeeded.
    pub fn reads(&self) -> u64
        ensures { result ≡ self.now.reads }
    {
        self.memory.reads()
    }
}

impl Host for SureHost {
    ghost told = { told_by };

    ghost moment = { moment_of };

    ghost failures = { failures_of };

    ghost left_since = { left_since };

    fn len(&mut self, file: FileNo) -> Result<u64, HostFailed>
        ensures length { IfOk result (λ n. n ≡ length (file_of (contents_of self.old) file)) }
        ensures bytes { AreBytes (contents_of self.old) }
        ensures kept { ChangedNothing told_by moment_of failures_of left_since self.old self.new }
        ensures failed { OnErr result (Rose self.old.failures.read self.new.failures.read) }
        ensures recorded { Called (⊥) (Call.Len (counted self.old.log.moment) file)
            None result self.old self.new }
    {
        self.memory.len(file, false)
    }

    fn read(&mut self, file: FileNo, at: u64, out: &mut [u8]) -> Result<usize, HostFailed>
        ensures count { IfOk result (λ n. n ≤ length out.old) }
        ensures bytes { IfOk result (Reads (file_of (contents_of self.old) file) at out.old out.new) }
        ensures kept { ChangedNothing told_by moment_of failures_of left_since self.old self.new }
        ensures failed { OnErr result (Rose self.old.failures.read self.new.failures.read) }
        ensures filled { OnOk result (out.new ≡ filled (file_of (contents_of self.old) file) at out.old) }
        ensures unread { OnErr result (out.new ≡ out.old) }
        ensures recorded { Called (⊥) (Call.Read (counted self.old.log.moment) file at (length out.old))
            None result self.old self.new }
    {
        self.memory.read(file, at, out, false)
    }

    fn write_at(&mut self, file: FileNo, at: u64, bytes: &[u8]) -> Result<(), HostFailed>
        requires { at ≤ length (file_of (contents_of self.old) file) }
        ensures told { Changes file (Writes at bytes.now result) (contents_of self.old) (contents_of self.new) }
        ensures crash { Follows (Changes file (Torn at (length bytes.now)))
            (left_since self.old self.old.log.moment) (left_since self.new self.new.log.moment) }
        ensures called { WasCalled moment_of failures_of left_since self.old self.new
            (left_since self.new self.new.log.moment) }
        ensures failed { OnErr result (Rose self.old.failures.write self.new.failures.write) }
        ensures recorded { Called (⊥) (Call.Write (counted self.old.log.moment) file at (length bytes.now))
            (Some (Write (counted self.old.log.moment) file at bytes.now (is_ok result))) result self.old self.new }
    {
        self.memory.write_at(file, at, bytes, false)
    }

    fn cut(&mut self, file: FileNo, len: u64) -> Result<(), HostFailed>
        requires { len ≤ length (file_of (contents_of self.old) file) }
        ensures told { Changes file (Cuts len result) (contents_of self.old) (contents_of self.new) }
        ensures crash { Follows (Changes file (CutAt len))
            (left_since self.old self.old.log.moment) (left_since self.new self.new.log.moment) }
        ensures called { WasCalled moment_of failures_of left_since self.old self.new
            (left_since self.new self.new.log.moment) }
        ensures failed { OnErr result (Rose self.old.failures.write self.new.failures.write) }
        ensures recorded { Called (⊥) (Call.Cut (counted self.old.log.moment) file len)
            (Some (Cut (counted self.old.log.moment) file len (is_ok result))) result self.old self.new }
    {
        self.memory.cut(file, len, false)
    }

    fn sync(&mut self, file: FileNo) -> Result<(), HostFailed>
        ensures settled { OnOk result
            (Settles file (file_of (contents_of self.old) file) (left_since self.new self.new.log.moment)) }
        ensures kept { ChangedNothing told_by moment_of failures_of left_since self.old self.new }
        ensures failed { OnErr result (Rose self.old.failures.write self.new.failures.write) }
        ensures recorded { Called (⊥) (Call.Sync (counted self.old.log.moment) file)
            (only_done result (Sync (counted self.old.log.moment) file)) result self.old self.new }
    {
        self.memory.sync(file, false)
    }

    fn say(&mut self, bytes: &[u8]) -> Result<(), HostFailed>
        ensures said { Says bytes.now result (contents_of self.old) (contents_of self.new) }
        ensures crash { Follows (SaysSome bytes.now)
            (left_since self.old self.old.log.moment) (left_since self.new self.new.log.moment) }
        ensures called { WasCalled moment_of failures_of left_since self.old self.new
            (during (SaysSome bytes.now) (left_since self.old self.old.log.moment)) }
        ensures failed { OnErr result (Rose self.old.failures.say self.new.failures.say) }
        ensures recorded { Called (⊥) (Call.Say (counted self.old.log.moment) (length bytes.now))
            (only_done result (Say (counted self.old.log.moment) bytes.now)) result self.old self.new }
    {
        self.memory.say(bytes, false)
    }

    ghost longer = { λ host t u c. LeftSince-longer host.first host.log.steps host.log.moment t u c };

    ghost now_left = { λ host c. told_is_left host.first host.log.steps host.log.moment c };

    ghost said_stays = { λ host now c. told_said_stays host.first host.log.steps host.log.moment now c };
}
