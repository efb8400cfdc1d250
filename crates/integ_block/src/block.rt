ghost use Rattle.std.specs.Prelude.{◌≡◌, ◌≤◌, ◌<◌, ◌^◌, [], length, map, IfOk};
ghost use Rattle.std.specs.Option.{option_to_list};
ghost use Rattle.gds_block.specs.Block.{level_of, used_of, IsBlock};
ghost use Rattle.gds_block.specs.Record.{bytes_left, records_of};
ghost use Rattle.gds_law.specs.Block.{children_from, fault_at, kinds_from, size_kinds};
ghost use Rattle.gds_law.specs.Sink.{Grew, WasTold};
ghost use Rattle.integ_block.specs.BlockReading.{reading, faults_at};
ghost use Rattle.integ_block.specs.Child.{child_of};

use crate::Child;
use crate::entry::Step;
use crate::reading::BlockReading;
use crate::record::{FIRST, Record};
use gds_block::{BlockView, least_size, u16_at};
use gds_law::{FaultKind, FaultSink, SinkTrouble};
use m_key::Key;

impl BlockReading<'_> {
    /// Tells the kinds that stand of the records of the block, and appends their children. It answers how many kinds
    /// were told.
    pub(crate) fn tell_records<F: FaultSink>(
        &self,
        block: &BlockView<'_>,
        bytes: &[u8],
        sink: &mut F,
        children: &mut Vec<Child>,
    ) -> Result<u64, SinkTrouble>
        requires same { block.now ≡ bytes.now }
        requires is_block { IsBlock bytes.now }
        requires level { self.now.level ≡ level_of bytes.now }
        requires used { self.now.used ≡ used_of bytes.now }
        ensures told { let b = reading self.now in WasTold F.listed F.failures sink.old sink.new
            (map (fault_at b self.now.at.now.path) (kinds_from b bytes.now 16 [] (records_of bytes.now)))
            result SinkTrouble.Failed }
        ensures count { let b = reading self.now in
            IfOk result (λ count. count ≡ length (kinds_from b bytes.now 16 [] (records_of bytes.now))) }
        ensures few { IfOk result (λ count. count < 2 ^ 40) }
        ensures children { Grew (map child_of children.old.items) (map child_of children.new.items)
            (children_from (reading self.now) [] (records_of bytes.now)) result }
    {
        let mut count = 0;
        let mut end = FIRST;
        let mut previous = Key::new();
        for view in block.records() {
            let record = Record {
                reading: *self,
                previous: &previous,
                view,
            };
            let Step { count: told, key } = record.tell_all(sink, children)?;
            count += told;
            let Some(key) = key else {
                return Ok(count);
            };
            previous = key;
            end = view.offset + 4 + view.body.len() as u32;
        }
        let last = self.tell_size(bytes, end, sink)?;
        Ok(count + last)
    }

    /// Tells what stands where no well-sized record does: nothing where no bytes are left up to the used count.
    fn tell_size<F: FaultSink>(
        &self,
        bytes: &[u8],
        end: u32,
        sink: &mut F,
    ) -> Result<u64, SinkTrouble>
        requires whole { self.now.used ≤ length bytes.now }
        requires within { end ≤ self.now.used }
        requires used { self.now.used ≡ used_of bytes.now }
        ensures told { let b = reading self.now in WasTold F.listed F.failures sink.old sink.new
            (faults_at b self.now.at.now.path end (size_kinds b.level (bytes_left bytes.now end)))
            result SinkTrouble.Failed }
        ensures count { let b = reading self.now in
            IfOk result (λ count. count ≡ length (size_kinds b.level (bytes_left bytes.now end))) }
        ensures few { IfOk result (λ count. count ≤ 1) }
    {
        let left = &bytes[..self.used as usize][end as usize..];
        match size_kind(self.level, left) {
            Some(kind) => {
                self.tell(end, kind, sink)?;
                Ok(1)
            }
            None => Ok(0),
        }
    }
}

/// What stands where no well-sized record does and these bytes are left.
fn size_kind(level: u8, left: &[u8]) -> Option<FaultKind>
    ensures { option_to_list result ≡ size_kinds level left.now }
{
    if left.is_empty() {
        None
    } else if left.len() < 4 || u16_at(left, 0) < least_size(level) {
        Some(FaultKind::RecordTooSmall)
    } else if left.len() < u16_at(left, 0) as usize {
        Some(FaultKind::RecordTooLarge)
    } else {
        None
    }
}
