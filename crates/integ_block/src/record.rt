ghost use Rattle.std.specs.Prelude.{◌≡◌, ◌+◌, ◌-◌, ◌<◌, ◌≤◌, ◌^◌, true, false, [], ◌∷◌, length, map, option_map};
ghost use Rattle.std.specs.Prelude.{IfOk, IfErr};
ghost use Rattle.m_key.specs.KeyParts.{name_part};
ghost use Rattle.gds_law.specs.Kinds.{ends};
ghost use Rattle.gds_law.specs.BlockReading.{is_last, is_first};
ghost use Rattle.gds_law.specs.Record.{low_of};
ghost use Rattle.gds_law.specs.Sink.{Grew, WasTold};
ghost use Rattle.gds_law.specs.Visit.{global_root};
ghost use Rattle.m_key.specs.KeyEnd.{HasOpenFronts};
ghost use Rattle.integ_block.specs.BlockReading.{reading};
ghost use Rattle.integ_block.specs.Entry.{children_here, faults_here, kinds_here, seen};
ghost use Rattle.integ_block.specs.Entry.{IsEntry, IsCount, IsKeyPart, LeavesHere};
ghost use Rattle.integ_block.specs.Child.{child_of};

use crate::Child;
use crate::copies::{bound_of, role_of};
use crate::entry::{Entry, Step};
use crate::key::key_fault;
use crate::reading::BlockReading;
use gds_block::RecordView;
use gds_law::{FaultKind, FaultSink, Role, SinkTrouble, Visit};
use m_key::{Key, end_within, join_key, key_from, name_part};

/// Where the first record of a block stands.
pub(crate) const FIRST: u32 = 16;

/// A record, and the key before it, which is empty where there is none.
#[derive(Clone, Copy)]
pub(crate) struct Record<'a> {
    pub(crate) reading: BlockReading<'a>,
    pub(crate) previous: &'a Key,
    pub(crate) view: RecordView<'a>,
}

impl<'a> Record<'a> {
    /// Tells the kinds that stand of the record, and appends its child.
    pub(crate) fn tell_all<F: FaultSink>(
        self,
        sink: &mut F,
        children: &mut Vec<Child>,
    ) -> Result<Step, SinkTrouble>
        requires small { self.view.offset + 4 + length self.view.body.now < 2 ^ 32 }
        requires fronts { HasOpenFronts self.previous.now.items }
        ensures told { WasTold F.listed F.failures sink.old sink.new (faults_here self.entry)
            result SinkTrouble.Failed }
        ensures count { IfOk result (λ step. step.count ≡ length (kinds_here self.entry)) }
        ensures few { IfOk result (λ step. step.count ≤ 17) }
        ensures children { Grew (map child_of children.old.items) (map child_of children.new.items)
            (children_here self.entry) result }
        ensures leaves { IfOk result (λ step. LeavesHere self.entry step.key) }
    {
        match self.read() {
            Ok(entry) => entry.tell_all(sink, children),
            Err(kind) => {
                self.reading.tell(self.view.offset, kind, sink)?;
                Ok(Step {
                    count: 1,
                    key: None,
                })
            }
        }
    }

    /// Reads the record, or answers the kind that ends the reading of its block, which then is its only one.
    fn read(self) -> Result<Entry<'a>, FaultKind>
        requires small { self.view.offset + 4 + length self.view.body.now < 2 ^ 32 }
        requires fronts { HasOpenFronts self.previous.now.items }
        ensures ok { IfOk result IsEntry }
        ensures same { IfOk result (λ entry. entry.record ≡ self.entry) }
        ensures err { IfErr result (λ kind. kinds_here self.entry ≡ kind ∷ []) }
        ensures ends { IfErr result (λ kind. ends kind ≡ true) }
    {
        if self.is_last() {
            self.read_star()
        } else {
            self.read_keyed()
        }
    }

    /// Whether this is a record of an index block that ends at the used count.
    fn is_last(&self) -> bool
        requires { self.now.view.offset + 4 + length self.now.view.body.now < 2 ^ 32 }
        ensures { result ≡ is_last (reading self.now.reading) (seen self.now) }
    {
        let end = self.view.offset + 4 + self.view.body.len() as u32;
        self.reading.level > 0 && end == self.reading.used
    }

    fn read_star(self) -> Result<Entry<'a>, FaultKind>
        requires { is_last (reading self.reading) (seen self) ≡ true }
        ensures ok { IfOk result IsEntry }
        ensures same { IfOk result (λ entry. entry.record ≡ self.entry) }
        ensures err { IfErr result (λ kind. kinds_here self.entry ≡ kind ∷ []) }
        ensures ends { IfErr result (λ kind. ends kind ≡ true) }
    {
        if self.view.body.len() != 4 {
            return Err(FaultKind::StarSize);
        }
        Ok(Entry {
            record: self,
            key: None,
            rest: self.view.body,
            fault: None,
        })
    }

    fn read_keyed(self) -> Result<Entry<'a>, FaultKind>
        requires not_last { is_last (reading self.reading) (seen self) ≡ false }
        requires fronts { HasOpenFronts self.previous.now.items }
        ensures ok { IfOk result IsEntry }
        ensures same { IfOk result (λ entry. entry.record ≡ self.entry) }
        ensures err { IfErr result (λ kind. kinds_here self.entry ≡ kind ∷ []) }
        ensures ends { IfErr result (λ kind. ends kind ≡ true) }
    {
        self.check_count()?;
        let len = self.key_part()?;
        let (end, rest) = self.view.body.split_at(len);
        let key = join_key(&self.previous.as_slice()[..self.view.count as usize], end);
        let fault = key_fault(key.as_slice());
        Ok(Entry {
            record: self,
            key: Some(key),
            rest,
            fault,
        })
    }

    /// The count is 0 in the first record, and in any other below the length of the key before it.
    fn check_count(&self) -> Result<(), FaultKind>
        requires { is_last (reading self.now.reading) (seen self.now) ≡ false }
        ensures ok { IfOk result (λ _. IsCount (reading self.now.reading) (seen self.now)) }
        ensures err { IfErr result (λ kind. kinds_here self.now ≡ kind ∷ []) }
        ensures ends { IfErr result (λ kind. ends kind ≡ true) }
    {
        if self.is_first() {
            if self.view.count > 0 {
                return Err(FaultKind::FirstCount);
            }
        } else if self.view.count as usize >= self.previous.as_slice().len() {
            return Err(FaultKind::CountTooLarge);
        }
        Ok(())
    }

    /// How many bytes of the body belong to the key.
    fn key_part(&self) -> Result<usize, FaultKind>
        requires not_last { is_last (reading self.now.reading) (seen self.now) ≡ false }
        requires count { IsCount (reading self.now.reading) (seen self.now) }
        requires fronts { HasOpenFronts self.now.previous.now.items }
        ensures ok { IfOk result (IsKeyPart (reading self.now.reading) (seen self.now)) }
        ensures err { IfErr result (λ kind. kinds_here self.now ≡ kind ∷ []) }
        ensures ends { IfErr result (λ kind. ends kind ≡ true) }
    {
        let count = self.view.count as usize;
        let greatest = self.reading.header.key_max as usize;
        let front = &self.previous.as_slice()[..count];
        match end_within(front, self.view.body, greatest) {
            Some(len) => Ok(len),
            None if count + self.view.body.len() > greatest => Err(FaultKind::KeyTooLong),
            None => Err(FaultKind::KeyWithoutEnd),
        }
    }

    /// Whether this is the first record of its block.
    pub(crate) fn is_first(&self) -> bool
        ensures { result ≡ is_first (seen self.now) }
    {
        self.view.offset == FIRST
    }

    /// A child that is the root of the global with this key's name.
    pub(crate) fn root(&self, block: u32, key: &Key) -> Child
        ensures { child_of result ≡ record {
          offset = self.now.view.offset;
          visit = global_root block (name_part key.now.items);
        } }
    {
        Child {
            offset: self.view.offset,
            visit: Visit {
                block,
                role: Role::Global(key_from(name_part(key.as_slice()))),
                level: None,
                low: None,
                high: None,
            },
        }
    }

    /// A child in the same tree, with this upper bound.
    pub(crate) fn below(&self, block: u32, high: Option<Key>) -> Child
        requires { 0 < self.now.reading.level }
        ensures { child_of result ≡ record {
          offset = self.now.view.offset;
          visit = record {
            block = block;
            role = (reading self.now.reading).visit.role;
            level = Some (self.now.reading.level - 1);
            low = low_of (reading self.now.reading) (seen self.now);
            high = option_map (λ key. key.items) high;
          };
        } }
    {
        Child {
            offset: self.view.offset,
            visit: Visit {
                block,
                role: role_of(&self.reading.at.visit.role),
                level: Some(self.reading.level - 1),
                low: self.low(),
                high,
            },
        }
    }

    /// The lower bound below the record: the key before it or, in the first record, the block's own.
    fn low(&self) -> Option<Key>
        ensures { option_map (λ key. key.items) result ≡ low_of (reading self.now.reading) (seen self.now) }
    {
        if self.is_first() {
            bound_of(&self.reading.at.visit.low)
        } else {
            Some(key_from(self.previous.as_slice()))
        }
    }
}
