ghost use Rattle.std.specs.Prelude.{◌≡◌, ◌≤◌, if◌then◌else◌, map, filter, length, IfOk};
ghost use Rattle.std.specs.Option.{option_to_list};
ghost use Rattle.gds_law.specs.BlockReading.{is_last, pointer_of};
ghost use Rattle.gds_law.specs.Record.{children_of_record, holds, is_kind, keyed_holds, last_holds, target_of};
ghost use Rattle.gds_law.specs.Sink.{Grew, WasTold};
ghost use Rattle.integ_block.specs.BlockReading.{reading, faults_at};
ghost use Rattle.integ_block.specs.Entry.{children_here, faults_here, kinds_here, seen, IsEntry, IsKeyed, LeavesHere};
ghost use Rattle.integ_block.specs.Child.{child_of};

use crate::Child;
use crate::compare::is_below;
use crate::copies::bound_of;
use crate::record::Record;
use gds_block::pointer_of;
use gds_law::{FaultKind, FaultSink, SinkTrouble};
use m_key::{Key, has_subscripts, key_from, name_part, shared_len};

/// The kinds that are asked of a record that doesn't end the reading of its block, in their order.
const ENTRY_KINDS: [FaultKind; 17] = [
    FaultKind::StarCount,
    FaultKind::WrongCount,
    FaultKind::KeyOutOfOrder,
    FaultKind::BadName,
    FaultKind::TooManySubscripts,
    FaultKind::BadNumber,
    FaultKind::BadString,
    FaultKind::NullSubscript,
    FaultKind::DirectorySubscript,
    FaultKind::WrongGlobal,
    FaultKind::KeyAboveBound,
    FaultKind::KeyBelowBound,
    FaultKind::RestNotPointer,
    FaultKind::ValueTooLong,
    FaultKind::PointerNotPositive,
    FaultKind::PointerTooLarge,
    FaultKind::PointerToMap,
];

/// A record that doesn't end the reading of its block.
#[derive(Drop)]
pub(crate) struct Entry<'a> {
    pub(crate) record: Record<'a>,
    /// The key. The last record of an index block has none.
    pub(crate) key: Option<Key>,
    /// What follows the key: a pointer or a value.
    pub(crate) rest: &'a [u8],
    /// What is wrong with the key's name or its subscripts.
    pub(crate) fault: Option<FaultKind>,
}

/// What a record leaves: how many faults were told of it, and its key, behind which the next record stands. There is
/// no key where no further record is asked.
#[derive(Drop)]
pub(crate) struct Step {
    pub(crate) count: u64,
    pub(crate) key: Option<Key>,
}

impl Entry<'_> {
    /// Tells the kinds that stand of the record, and appends its child.
    pub(crate) fn tell_all<F: FaultSink>(
        self,
        sink: &mut F,
        children: &mut Vec<Child>,
    ) -> Result<Step, SinkTrouble>
        requires { IsEntry self }
        ensures told { WasTold F.listed F.failures sink.old sink.new (faults_here self.entry.record)
            result SinkTrouble.Failed }
        ensures count { IfOk result (λ step. step.count ≡ length (kinds_here self.entry.record)) }
        ensures few { IfOk result (λ step. step.count ≤ 17) }
        ensures children { Grew (map child_of children.old.items) (map child_of children.new.items)
            (children_here self.entry.record) result }
        ensures leaves { IfOk result (λ step. LeavesHere self.entry.record step.key) }
    {
        let count = self.tell(&ENTRY_KINDS, sink)?;
        if let Some(child) = self.child() {
            children.push(child)?;
        }
        Ok(Step {
            count,
            key: self.key,
        })
    }

    /// Tells those of the kinds that stand of the record, and answers how many they are.
    fn tell<F: FaultSink>(&self, kinds: &[FaultKind], sink: &mut F) -> Result<u64, SinkTrouble>
        requires { IsEntry self.now }
        ensures told { let found = filter (holds (reading self.now.record.reading) (seen self.now.record)) kinds.now in
            WasTold F.listed F.failures sink.old sink.new (faults_at (reading self.now.record.reading)
            self.now.record.reading.at.now.path self.now.record.view.offset found) result SinkTrouble.Failed }
        ensures count { let found = filter (holds (reading self.now.record.reading) (seen self.now.record)) kinds.now in
            IfOk result (λ count. count ≡ length found) }
        ensures few { IfOk result (λ count. count ≤ length kinds.now) }
    {
        let mut count = 0;
        for kind in kinds {
            if self.holds(*kind) {
                self.record
                    .reading
                    .tell(self.record.view.offset, *kind, sink)?;
                count += 1;
            }
        }
        Ok(count)
    }

    /// Whether the kind stands of the record.
    fn holds(&self, kind: FaultKind) -> bool
        requires { IsEntry self.now }
        ensures { result ≡ holds (reading self.now.record.reading) (seen self.now.record) kind }
    {
        let total = self.record.reading.header.total;
        match kind {
            FaultKind::PointerNotPositive => self.pointer().is_some_and(|p| p == 0 || p >= 1 << 31),
            FaultKind::PointerTooLarge => self.pointer().is_some_and(|p| p >= total && p < 1 << 31),
            FaultKind::PointerToMap => self
                .pointer()
                .is_some_and(|p| p > 0 && p < total && p % 512 == 0),
            _ => self.plain_holds(kind),
        }
    }

    /// The same of a kind that isn't a pointer's.
    fn plain_holds(&self, kind: FaultKind) -> bool
        requires { IsEntry self.now }
        ensures { let b = reading self.now.record.reading in let s = seen self.now.record in
            result ≡ (if is_last b s then last_holds s kind else keyed_holds b s kind) }
    {
        match &self.key {
            None => kind == FaultKind::StarCount && self.record.view.count > 0,
            Some(key) => self.keyed_holds(key.as_slice(), kind),
        }
    }

    /// The same of such a kind and a record that isn't the last one of an index block.
    fn keyed_holds(&self, key: &[u8], kind: FaultKind) -> bool
        requires { IsKeyed (reading self.now.record.reading) (seen self.now.record) key.now self.now.rest.now
            self.now.fault }
        ensures { result ≡ keyed_holds (reading self.now.record.reading) (seen self.now.record) kind }
    {
        let reading = self.record.reading;
        let previous = self.record.previous.as_slice();
        match kind {
            FaultKind::FirstCount
            | FaultKind::CountTooLarge
            | FaultKind::KeyTooLong
            | FaultKind::KeyWithoutEnd => false,
            FaultKind::WrongCount => self.record.view.count as usize != shared_len(previous, key),
            FaultKind::KeyOutOfOrder => !is_below(previous, key),
            FaultKind::DirectorySubscript => {
                reading.is_directory() && self.fault.is_none() && has_subscripts(key)
            }
            FaultKind::WrongGlobal => reading.is_other_global(name_part(key)),
            FaultKind::KeyAboveBound => reading.is_above_bound(key),
            FaultKind::KeyBelowBound => reading.is_below_bound(key),
            FaultKind::RestNotPointer => reading.points() && self.rest.len() != 4,
            FaultKind::ValueTooLong => {
                !reading.points() && self.rest.len() > reading.header.value_max as usize
            }
            _ => self.fault.is_some_and(|fault| is_kind(kind, fault)),
        }
    }

    /// The pointer of the record, where it has one.
    fn pointer(&self) -> Option<u32>
        requires { IsEntry self.now }
        ensures { result ≡ pointer_of (reading self.now.record.reading) (seen self.now.record) }
    {
        if self.key.is_none() || self.record.reading.points() {
            pointer_of(self.rest)
        } else {
            None
        }
    }

    /// Where the record's pointer leads, if it is sound.
    fn child(&self) -> Option<Child>
        requires { IsEntry self.now }
        ensures { map child_of (option_to_list result)
            ≡ children_of_record (reading self.now.record.reading) (seen self.now.record) }
    {
        let pointer = self.pointer()?;
        if self.record.reading.is_sound(pointer) {
            Some(self.child_at(pointer))
        } else {
            None
        }
    }

    fn child_at(&self, block: u32) -> Child
        requires { IsEntry self.now }
        ensures { child_of result ≡ record {
          offset = self.now.record.view.offset;
          visit = target_of (reading self.now.record.reading) (seen self.now.record) block;
        } }
    {
        match &self.key {
            Some(key) if self.record.reading.level == 0 => self.record.root(block, key),
            Some(key) => self.record.below(block, Some(key_from(key.as_slice()))),
            None => self
                .record
                .below(block, bound_of(&self.record.reading.at.visit.high)),
        }
    }
}

/// Whether this kind is what is wrong with a key's name or its subscripts.
fn is_kind(kind: FaultKind, fault: FaultKind) -> bool
    ensures { result ≡ is_kind kind fault }
{
    match kind {
        FaultKind::BadName => matches!(fault, FaultKind::BadName),
        FaultKind::TooManySubscripts => matches!(fault, FaultKind::TooManySubscripts),
        FaultKind::BadNumber => matches!(fault, FaultKind::BadNumber),
        FaultKind::BadString => matches!(fault, FaultKind::BadString),
        FaultKind::NullSubscript => matches!(fault, FaultKind::NullSubscript),
        _ => false,
    }
}
