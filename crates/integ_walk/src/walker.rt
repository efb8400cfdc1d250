ghost use Rattle.std.specs.Prelude.{◌≡◌, ◌<◌, ◌≤◌, ◌+◌, ◌/◌, ◌^◌, ◌++◌, [], ℕ, length, map, true, false, None};
ghost use Rattle.std.specs.Prelude.{IfOk, OnOk, IsErrOf};
ghost use Rattle.std.specs.Option.{ForSome};
ghost use Rattle.host_model.specs.Failures.{Rose};
ghost use Rattle.host_model.specs.Units.{IsUnit};
ghost use Rattle.gds_block.specs.Block.{level_of};
ghost use Rattle.gds_header.specs.Fields.{block_of};
ghost use Rattle.gds_header.specs.Kinds.{IsWithinLimits};
ghost use Rattle.gds_law.specs.Block.{faults_of_block};
ghost use Rattle.gds_law.specs.Sink.{Grew};
ghost use Rattle.gds_law.specs.Visit.{visit_of};
ghost use Rattle.integ_block.specs.Child.{child_of};
ghost use Rattle.integ_walk.specs.BlockSet.{has_block};
ghost use Rattle.integ_walk.specs.Frame.{all_links, link_of, state_of};
ghost use Rattle.integ_walk.specs.Link.{links_of};
ghost use Rattle.integ_walk.specs.Walk.{HasCause, IsHeaderOf};
ghost use Rattle.integ_walk.specs.Walker.{Begins, ComesOn, IsState, entered, most_of_block, with_link, work_left};

use crate::Seen;
use crate::block_set::BlockSet;
use crate::frame::{Frame, next_link};
use crate::link::Link;
use gds_header::Header;
use gds_law::{FaultSink, Path, Role, Visit};
use host_model::{UnitSource, UnitTrouble};
use integ_block::{At, Child, IntegError, block_faults};
use std::alloc::{AllocError, Global};

/// The directory's root.
const ROOT: u32 = 1;

/// A walk of the trees of a file, which keeps the frames of the blocks from the directory's root to the one that was
/// read last. Each call takes the file's header.
#[derive(Drop)]
pub(crate) struct Walker {
    pub(crate) alloc: Global,
    /// The blocks that kept paths end in.
    pub(crate) used: BlockSet,
    pub(crate) frames: Vec<Frame>,
    /// The bytes of the block that was read last.
    pub(crate) block: Vec<u8>,
    /// How many faults were told.
    pub(crate) faults: u64,
}

impl Walker {
    /// A walk that hasn't begun.
    pub(crate) fn new(alloc: Global, header: &Header) -> Result<Walker, AllocError>
        ensures none { IfOk result (λ walker. (b : ℕ) → has_block walker.used.bytes.items b ≡ false) }
        ensures room { IfOk result (λ walker. length walker.used.bytes.items ≡ (header.now.total + 7) / 8) }
        ensures buffer { IfOk result (λ walker. length walker.block.items ≡ header.now.block_size) }
        ensures links { IfOk result (λ walker. (state_of header.now walker).links ≡ []) }
        ensures faults { IfOk result (λ walker. walker.faults ≡ 0) }
    {
        Ok(Walker {
            alloc,
            used: BlockSet::new(alloc, header.total)?,
            frames: Vec::new(alloc),
            block: vec![in alloc; 0; header.block_size as usize]?,
            faults: 0,
        })
    }

    /// Enters the directory's root, with which a walk begins.
    pub(crate) fn begin<U: UnitSource, F: FaultSink>(
        &mut self,
        header: &Header,
        units: &mut U,
        sink: &mut F,
    ) -> Result<(), IntegError>
        requires limits { IsWithinLimits header.now }
        requires none { (b : ℕ) → has_block self.old.used.bytes.items b ≡ false }
        requires room { length self.old.used.bytes.items ≡ (header.now.total + 7) / 8 }
        requires links { (state_of header.now self.old).links ≡ [] }
        requires faults { self.old.faults ≡ 0 }
        requires buffer { length self.old.block.items ≡ header.now.block_size }
        requires header { ForSome (U.image units.old) (IsHeaderOf header.now) }

        ensures state { OnOk result (IsState (state_of header.now self.new)) }
        ensures buffer { length self.new.block.items ≡ length self.old.block.items }
        ensures on { ForSome (U.image units.old)
            (λ file. Begins file (F.listed sink.old) (F.listed sink.new) (state_of header.now self.new) result) }
        ensures cause { HasCause U.image U.failures F.failures units.old units.new sink.old sink.new result }
        ensures source { U.was_read units.old units.new }
    {
        self.used.insert(ROOT);
        let visit = Visit {
            block: ROOT,
            role: Role::Directory,
            level: None,
            low: None,
            high: None,
        };
        let path = Path::new();
        self.enter(At { path, visit }, header, units, sink)
    }

    /// Goes on to the next kept path: tells the faults of its block, and before them of each reached path in between
    /// that it leads to a block in which an earlier one ends. Answers false where no kept path is left.
    pub(crate) fn step<U: UnitSource, F: FaultSink>(
        &mut self,
        header: &Header,
        units: &mut U,
        sink: &mut F,
    ) -> Result<bool, IntegError>
        requires state { IsState (state_of header.now self.old) }
        requires buffer { length self.old.block.items ≡ header.now.block_size }
        requires header { ForSome (U.image units.old) (IsHeaderOf header.now) }
        ensures state { OnOk result (IsState (state_of header.now self.new)) }
        ensures less { IfOk result
            (λ more. more ≡ true
            → work_left (state_of header.now self.new) < work_left (state_of header.now self.old)) }
        ensures end { IfOk result (λ more. more ≡ false → (state_of header.now self.new).links ≡ []) }
        ensures buffer { length self.new.block.items ≡ length self.old.block.items }
        ensures on { ForSome (U.image units.old) (λ file. ComesOn file (F.listed sink.old)
            (state_of header.now self.old) (F.listed sink.new) (state_of header.now self.new) result) }
        ensures cause { HasCause U.image U.failures F.failures units.old units.new sink.old sink.new result }
        ensures source { U.was_read units.old units.new }
    {
        while let Some(link) = next_link(&mut self.frames) {
            if self.follow(link, header, units, sink)? {
                return Ok(true);
            }
        }
        Ok(false)
    }

    /// Follows a link: enters its block, or tells that an earlier path ends there. Answers whether it was entered.
    fn follow<U: UnitSource, F: FaultSink>(
        &mut self,
        link: Link,
        header: &Header,
        units: &mut U,
        sink: &mut F,
    ) -> Result<bool, IntegError>
        requires state { IsState (with_link (link_of link) (state_of header.now self.old)) }
        requires buffer { length self.old.block.items ≡ header.now.block_size }
        requires header { ForSome (U.image units.old) (IsHeaderOf header.now) }
        ensures state { OnOk result (IsState (state_of header.now self.new)) }
        ensures less { OnOk result
            (work_left (state_of header.now self.new)
            < work_left (with_link (link_of link) (state_of header.now self.old))) }
        ensures buffer { length self.new.block.items ≡ length self.old.block.items }
        ensures on { ForSome (U.image units.old)
            (λ file. ComesOn file (F.listed sink.old) (with_link (link_of link) (state_of header.now self.old))
            (F.listed sink.new) (state_of header.now self.new) result) }
        ensures cause { HasCause U.image U.failures F.failures units.old units.new sink.old sink.new result }
        ensures source { U.was_read units.old units.new }
    {
        let is_new = self.used.insert(link.child.visit.block);
        if is_new {
            self.enter(link.into_at(), header, units, sink)?;
        } else {
            sink.fault(&link.into_fault())?;
            self.faults += 1;
        }
        Ok(is_new)
    }

    /// Reads a block, tells its faults, and keeps its children.
    fn enter<U: UnitSource, F: FaultSink>(
        &mut self,
        at: At,
        header: &Header,
        units: &mut U,
        sink: &mut F,
    ) -> Result<(), IntegError>
        requires limits { IsWithinLimits header.now }
        requires within { at.visit.block < header.now.total }
        requires fits { self.old.faults + most_of_block header.now < 2 ^ 64 }
        requires buffer { length self.old.block.items ≡ header.now.block_size }
        requires header { ForSome (U.image units.old) (IsHeaderOf header.now) }
        ensures entered { OnOk result (state_of header.now self.new
            ≡ entered (state_of header.now self.old) (visit_of at.visit) at.path self.new.block.items) }
        ensures read { ForSome (U.image units.old)
            (λ file. OnOk result (self.new.block.items ≡ block_of file at.visit.block)) }
        ensures told { ForSome (U.image units.old) (λ file. Grew (F.listed sink.old) (F.listed sink.new)
            (faults_of_block header.now at.path (visit_of at.visit) (block_of file at.visit.block)) result) }
        ensures buffer { length self.new.block.items ≡ length self.old.block.items }
        ensures cause { HasCause U.image U.failures F.failures units.old units.new sink.old sink.new result }
        ensures source { U.was_read units.old units.new }
    {
        self.read(at.visit.block, units)?;
        let mut children = Vec::new(self.alloc);
        self.faults += block_faults(&self.block, &at, header, sink, &mut children)?;
        self.push(at, children)?;
        Ok(())
    }

    /// Reads the bytes of a block.
    fn read<U: UnitSource>(&mut self, block: u32, units: &mut U) -> Result<(), UnitTrouble>
        requires number { block < 2 ^ 31 }
        requires unit { ForSome (U.image units.old)
            (λ file. IsUnit file (block + 1) (length self.old.block.items)) }
        ensures bytes { ForSome (U.image units.old) (λ file. OnOk result (self.new.block.items ≡ block_of file block)) }
        ensures buffer { length self.new.block.items ≡ length self.old.block.items }
        ensures others { self.new ≡ record self.old { block = self.new.block } }
        ensures image { U.image units.new ≡ U.image units.old }
        ensures source { U.was_read units.old units.new }
        ensures failures { U.failures units.old ≤ U.failures units.new }
        ensures failed { IsErrOf result UnitTrouble.Failed → Rose (U.failures units.old) (U.failures units.new) }
        ensures changed { (unit : ℕ) → IsErrOf result (UnitTrouble.Changed unit) → U.image units.old ≡ None }
    {
        units.unit(block + 1, &mut self.block)
    }

    /// Keeps the children of the block that was read last.
    fn push(&mut self, at: At, children: Vec<Child>) -> Result<(), AllocError>
        requires { 4 ≤ length self.old.block.items }
        ensures links { OnOk result (all_links self.new.frames.items
            ≡ links_of at.path at.visit.block (level_of self.old.block.items) (map child_of children.items)
            ++ all_links self.old.frames.items) }
        ensures others { self.new ≡ record self.old { frames = self.new.frames } }
    {
        if children.is_empty() {
            return Ok(());
        }
        self.frames.push(Frame {
            path: at.path,
            block: at.visit.block,
            level: self.block[3],
            children: children.into_iter(),
        })?;
        Ok(())
    }

    /// What the walk has seen.
    pub(crate) fn into_seen(self) -> Seen
        ensures used { result.used.items ≡ self.used.bytes.items }
        ensures faults { result.faults ≡ self.faults }
    {
        Seen {
            used: self.used.bytes,
            faults: self.faults,
        }
    }
}
