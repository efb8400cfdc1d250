ghost use Rattle.std.specs.Prelude.{◌≡◌, ◌≤◌, length, filter, IfOk};
ghost use Rattle.std.specs.List.{list_any};
ghost use Rattle.gds_header.specs.Kinds.{through_first};
ghost use Rattle.gds_law.specs.Block.{head_holds, is_wrong_level, may_be_empty};
ghost use Rattle.gds_law.specs.Kinds.{ends};
ghost use Rattle.gds_law.specs.Sink.{WasTold};
ghost use Rattle.integ_block.specs.BlockReading.{reading, faults_at};

use crate::reading::BlockReading;
use gds_block::{u16_at, u64_at};
use gds_law::{FaultKind, FaultSink, SinkTrouble};

/// The kinds that are asked of a block's head, in their order.
pub(crate) const HEAD_KINDS: [FaultKind; 7] = [
    FaultKind::BadVersion,
    FaultKind::TransactionTooNew,
    FaultKind::UsedTooSmall,
    FaultKind::UsedTooLarge,
    FaultKind::RootAtLevelZero,
    FaultKind::WrongLevel,
    FaultKind::EmptyBlock,
];

/// What was told of a head: how many faults, and whether the last of them ends the reading of the block.
#[derive(Clone, Copy)]
pub(crate) struct HeadTold {
    pub(crate) count: u64,
    pub(crate) is_end: bool,
}

impl BlockReading<'_> {
    /// Tells those of the kinds that stand of the head, up to the first that ends the reading.
    pub(crate) fn tell_head<F: FaultSink>(
        &self,
        bytes: &[u8],
        kinds: &[FaultKind],
        sink: &mut F,
    ) -> Result<HeadTold, SinkTrouble>
        requires { 16 ≤ length bytes.now }
        ensures told { let found = through_first ends (filter (head_holds (reading self.now) bytes.now) kinds.now) in
            WasTold F.listed F.failures sink.old sink.new (faults_at (reading self.now) self.now.at.now.path 0 found)
            result SinkTrouble.Failed }
        ensures count { let found = through_first ends (filter (head_holds (reading self.now) bytes.now) kinds.now) in
            IfOk result (λ told. told.count ≡ length found) }
        ensures is_end { let found = through_first ends (filter (head_holds (reading self.now) bytes.now) kinds.now) in
            IfOk result (λ told. told.is_end ≡ list_any ends found) }
        ensures few { IfOk result (λ told. told.count ≤ length kinds.now) }
    {
        let mut count = 0;
        for kind in kinds {
            if self.head_holds(bytes, *kind) {
                self.tell(0, *kind, sink)?;
                count += 1;
                if kind.ends() {
                    return Ok(HeadTold {
                        count,
                        is_end: true,
                    });
                }
            }
        }
        Ok(HeadTold {
            count,
            is_end: false,
        })
    }

    /// Whether the kind stands of the head.
    fn head_holds(&self, bytes: &[u8], kind: FaultKind) -> bool
        requires { 16 ≤ length bytes.now }
        ensures { result ≡ head_holds (reading self.now) bytes.now kind }
    {
        match kind {
            FaultKind::BadVersion => u16_at(bytes, 0) != 1 || bytes[2] != 0,
            FaultKind::TransactionTooNew => self.header.tn <= u64_at(bytes, 8),
            FaultKind::UsedTooSmall => self.used < 16,
            FaultKind::UsedTooLarge => self.used > self.header.block_size,
            FaultKind::RootAtLevelZero => self.at.visit.level.is_none() && self.level == 0,
            FaultKind::WrongLevel => self.is_wrong_level(),
            FaultKind::EmptyBlock => self.used == 16 && !self.may_be_empty(),
            _ => false,
        }
    }

    /// A root has a level from 1 to 7, and every other block the level that is due.
    fn is_wrong_level(&self) -> bool
        ensures { result ≡ is_wrong_level (reading self.now).visit.level self.now.level }
    {
        match self.at.visit.level {
            None => self.level > 7,
            Some(due) => self.level != due,
        }
    }

    /// Whether it is lawful that the block has no record.
    fn may_be_empty(&self) -> bool
        ensures { result ≡ may_be_empty (reading self.now) }
    {
        self.level == 0
            && self.is_directory()
            && self.at.visit.low.is_none()
            && self.at.visit.high.is_none()
    }
}
