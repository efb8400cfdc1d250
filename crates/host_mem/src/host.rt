ghost use Rattle.std.specs.Prelude.{◌≡◌, ◌≤◌, ◌↔◌, [], length, Contains, None, Some, is_ok, IsTrue, IfOk, OnOk, OnErr};
ghost use Rattle.host_model.specs.Disk.{Changes, Cut as CutAt, Cuts, Follows, SaysSome, Settles, Torn, Writes, during};
ghost use Rattle.host_model.specs.Failures.{Rose, counted};
ghost use Rattle.host_model.specs.Files.{AreBytes, Reads, Says, file_of};
ghost use Rattle.host_model.specs.Frames.{ChangedNothing, WasCalled};
ghost use Rattle.host_mem.specs.History.{crashed_state};
ghost use Rattle.host_mem.specs.Laws.{LeftSince-longer, told_is_left, told_said_stays};
ghost use Rattle.host_mem.specs.Listed.{IsToFail, burnt, failures_of, left_by, moment_of, told_by};
ghost use Rattle.host_mem.specs.Memory.{Called, contents_of, filled, left_since, memory_of, new_memory, only_done};
ghost use Rattle.host_mem.specs.Memory.{state_of};
ghost use Rattle.host_mem.specs.Step.{Cut, Say, Sync, Write};

use super::call::Call;
use super::memory::Memory;
use host_model::{FileNo, Host, HostFailed};
use std::alloc::{AllocError, Global};
use std::marker::Model;

/// A host in memory that tells everything, and fails the calls whose clock numbers it was given, and those past its
/// fuse.
#[derive(Drop)]
pub struct MemHost {
    memory: Memory,
    failing: Vec<u64>,
    fuse: Option<u64>,
}

impl Model for MemHost {
    ghost use Rattle.host_mem.specs.Listed.{Listed};

    ghost Value = { Listed };

    ghost view = { λ host. record { memory = host.memory; failing = host.failing.items; fuse = host.fuse } };
}

impl MemHost {
    /// A host with these two files. The calls with the numbers `failing` will fail, counted from 1 for the first.
    pub fn new(alloc: Global, db: Vec<u8>, images: Vec<u8>, failing: Vec<u64>) -> MemHost
        ensures { result ≡ record { memory = new_memory db.items images.items; failing = failing.items; fuse = None } }
    {
        MemHost {
            memory: Memory::new(alloc, db, images, Vec::new(alloc)),
            failing,
            fuse: None,
        }
    }

    /// Every call after the next `calls` calls will fail. An earlier fuse no longer counts.
    pub fn fuse(&mut self, calls: u64)
        ensures { self.new ≡ record self.old { fuse = Some calls } }
    {
        self.fuse = Some(calls);
    }

    /// Both files, and what was said.
    pub fn parts(&self) -> (&[u8], &[u8], &[u8])
        ensures db { result.0.now ≡ (contents_of self.now.memory).db }
        ensures images { result.1.now ≡ (contents_of self.now.memory).images }
        ensures said { result.2.now ≡ (contents_of self.now.memory).said }
    {
        self.memory.parts()
    }

    /// The calls so far, in their order. One for which memory was short is left out.
    pub fn calls(&self) -> &[Call]
        ensures { result.now ≡ self.now.memory.log.calls }
    {
        self.memory.calls()
    }

    /// How many calls found no memory for the record of them, for a write or for the said bytes.
    pub fn starved(&self) -> u64
        ensures { result ≡ self.now.memory.log.starved }
    {
        self.memory.starved()
    }

    /// How many reads of the database file succeeded.
    pub fn reads(&self) -> u64
        ensures { result ≡ self.now.memory.reads }
    {
        self.memory.reads()
    }

    /// A host with what a crash leaves now, and no call made. For both files, by the remainder of `choice` divided by
    /// 4: 0 loses what isn't stable, 1 keeps it all; 2 leaves the length of 0 and 3 that of 1, and FF hex wherever a
    /// crash may leave anything.
    pub fn crash(self, choice: u64) -> Result<MemHost, AllocError>
        ensures exactly { IfOk result (λ host. host ≡ record {
          memory = memory_of (crashed_state choice (state_of self.memory));
          failing = [];
          fuse = None;
        }) }
        ensures allowed { IfOk result
            (λ host. left_since self.memory self.memory.log.moment (contents_of host.memory)) }
    {
        let memory = self.memory.crash(choice)?;
        Ok(MemHost {
            memory,
            failing: Vec::new(self.memory.alloc()),
            fuse: None,
        })
    }

    /// Whether the call that begins is to fail. The fuse burns down by it.
    fn begin(&mut self) -> bool
        ensures answer { IsTrue result ↔ IsToFail self.old }
        ensures memory { self.new.memory ≡ self.old.memory }
        ensures failing { self.new.failing ≡ self.old.failing }
        ensures fuse { self.new.fuse ≡ burnt self.old.fuse }
    {
        let is_spent = match self.fuse {
            Some(calls) => {
                self.fuse = Some(calls.saturating_sub(1));
                calls == 0
            }
            None => false,
        };
        is_spent || self.failing.contains(&self.memory.next())
    }
}

impl Host for MemHost {
    ghost told = { told_by };

    ghost moment = { moment_of };

    ghost failures = { failures_of };

    ghost left_since = { left_by };

    fn len(&mut self, file: FileNo) -> Result<u64, HostFailed>
        ensures length { IfOk result (λ n. n ≡ length (file_of (contents_of self.old.memory) file)) }
        ensures bytes { AreBytes (contents_of self.old.memory) }
        ensures kept { ChangedNothing told_by moment_of failures_of left_by self.old self.new }
        ensures failed { OnErr result (Rose self.old.memory.failures.read self.new.memory.failures.read) }
        ensures failing { self.new.failing ≡ self.old.failing }
        ensures fuse { self.new.fuse ≡ burnt self.old.fuse }
        ensures recorded { Called (IsToFail self.old) (Call.Len (counted self.old.memory.log.moment) file)
            None result self.old.memory self.new.memory }
    {
        let listed = self.begin();
        self.memory.len(file, listed)
    }

    fn read(&mut self, file: FileNo, at: u64, out: &mut [u8]) -> Result<usize, HostFailed>
        ensures count { IfOk result (λ n. n ≤ length out.old) }
        ensures bytes { IfOk result (Reads (file_of (contents_of self.old.memory) file) at out.old out.new) }
        ensures kept { ChangedNothing told_by moment_of failures_of left_by self.old self.new }
        ensures failed { OnErr result (Rose self.old.memory.failures.read self.new.memory.failures.read) }
        ensures failing { self.new.failing ≡ self.old.failing }
        ensures fuse { self.new.fuse ≡ burnt self.old.fuse }
        ensures filled { OnOk result (out.new ≡ filled (file_of (contents_of self.old.memory) file) at out.old) }
        ensures unread { OnErr result (out.new ≡ out.old) }
        ensures recorded { Called (IsToFail self.old)
            (Call.Read (counted self.old.memory.log.moment) file at (length out.old))
            None result self.old.memory self.new.memory }
    {
        let listed = self.begin();
        self.memory.read(file, at, out, listed)
    }

    fn write_at(&mut self, file: FileNo, at: u64, bytes: &[u8]) -> Result<(), HostFailed>
        requires { at ≤ length (file_of (contents_of self.old.memory) file) }
        ensures told { Changes file (Writes at bytes.now result) (contents_of self.old.memory)
            (contents_of self.new.memory) }
        ensures crash { Follows (Changes file (Torn at (length bytes.now)))
            (left_since self.old.memory self.old.memory.log.moment)
            (left_since self.new.memory self.new.memory.log.moment) }
        ensures called { WasCalled moment_of failures_of left_by self.old self.new
            (left_since self.new.memory self.new.memory.log.moment) }
        ensures failed { OnErr result (Rose self.old.memory.failures.write self.new.memory.failures.write) }
        ensures failing { self.new.failing ≡ self.old.failing }
        ensures fuse { self.new.fuse ≡ burnt self.old.fuse }
        ensures recorded { Called (IsToFail self.old)
            (Call.Write (counted self.old.memory.log.moment) file at (length bytes.now))
            (Some (Write (counted self.old.memory.log.moment) file at bytes.now (is_ok result))) result
            self.old.memory self.new.memory }
    {
        let listed = self.begin();
        self.memory.write_at(file, at, bytes, listed)
    }

    fn cut(&mut self, file: FileNo, len: u64) -> Result<(), HostFailed>
        requires { len ≤ length (file_of (contents_of self.old.memory) file) }
        ensures told { Changes file (Cuts len result) (contents_of self.old.memory) (contents_of self.new.memory) }
        ensures crash { Follows (Changes file (CutAt len))
            (left_since self.old.memory self.old.memory.log.moment)
            (left_since self.new.memory self.new.memory.log.moment) }
        ensures called { WasCalled moment_of failures_of left_by self.old self.new
            (left_since self.new.memory self.new.memory.log.moment) }
        ensures failed { OnErr result (Rose self.old.memory.failures.write self.new.memory.failures.write) }
        ensures failing { self.new.failing ≡ self.old.failing }
        ensures fuse { self.new.fuse ≡ burnt self.old.fuse }
        ensures recorded { Called (IsToFail self.old) (Call.Cut (counted self.old.memory.log.moment) file len)
            (Some (Cut (counted self.old.memory.log.moment) file len (is_ok result))) result self.old.memory
            self.new.memory }
    {
        let listed = self.begin();
        self.memory.cut(file, len, listed)
    }

    fn sync(&mut self, file: FileNo) -> Result<(), HostFailed>
        ensures settled { OnOk result
            (Settles file (file_of (contents_of self.old.memory) file)
            (left_since self.new.memory self.new.memory.log.moment)) }
        ensures kept { ChangedNothing told_by moment_of failures_of left_by self.old self.new }
        ensures failed { OnErr result (Rose self.old.memory.failures.write self.new.memory.failures.write) }
        ensures failing { self.new.failing ≡ self.old.failing }
        ensures fuse { self.new.fuse ≡ burnt self.old.fuse }
        ensures recorded { Called (IsToFail self.old) (Call.Sync (counted self.old.memory.log.moment) file)
            (only_done result (Sync (counted self.old.memory.log.moment) file)) result self.old.memory self.new.memory }
    {
        let listed = self.begin();
        self.memory.sync(file, listed)
    }

    fn say(&mut self, bytes: &[u8]) -> Result<(), HostFailed>
        ensures said { Says bytes.now result (contents_of self.old.memory) (contents_of self.new.memory) }
        ensures crash { Follows (SaysSome bytes.now)
            (left_since self.old.memory self.old.memory.log.moment)
            (left_since self.new.memory self.new.memory.log.moment) }
        ensures called { WasCalled moment_of failures_of left_by self.old self.new
            (during (SaysSome bytes.now) (left_since self.old.memory self.old.memory.log.moment)) }
        ensures failed { OnErr result (Rose self.old.memory.failures.say self.new.memory.failures.say) }
        ensures failing { self.new.failing ≡ self.old.failing }
        ensures fuse { self.new.fuse ≡ burnt self.old.fuse }
        ensures recorded { Called (IsToFail self.old) (Call.Say (counted self.old.memory.log.moment) (length bytes.now))
            (only_done result (Say (counted self.old.memory.log.moment) bytes.now)) result self.old.memory
            self.new.memory }
    {
        let listed = self.begin();
        self.memory.say(bytes, listed)
    }

    ghost longer = { λ host t u c.
        LeftSince-longer host.memory.first host.memory.log.steps host.memory.log.moment t u c };

    ghost now_left = { λ host c. told_is_left host.memory.first host.memory.log.steps host.memory.log.moment c };

    ghost said_stays = { λ host now c.
        told_said_stays host.memory.first host.memory.log.steps host.memory.log.moment now c };
}
