ghost use Rattle.std.specs.Prelude.{◌≡◌, ◌≤◌, ◌<◌, ◌+◌, ◌-◌, ◌*◌, ◌==◌, ℕ, length, min, slice_index, IfOk};
ghost use Rattle.std.specs.Int.{bit_at};
ghost use Rattle.std.specs.Option.{option_to_list};
ghost use Rattle.gds_law.specs.Maps.{map_number};
ghost use Rattle.gds_law.specs.Sink.{WasTold};
ghost use Rattle.integ_walk.specs.BlockSet.{has_block};
ghost use Rattle.integ.specs.GroupMap.{in_use, free_count, head_faults, head_holds, head_kinds, faults_in};
ghost use Rattle.integ.specs.GroupMap.{faults_of, kinds_at, pair_faults};

use crate::pairs::{are_right, pair_fault};
use crate::telling::{tell, tell_standing};
use gds_bitmap::{count_free, state_of};
use gds_block::{u16_at, u32_at, u64_at};
use gds_header::Header;
use gds_law::{FaultKind, FaultSink, SinkTrouble};

/// How many blocks a group has, its map among them.
pub(crate) const GROUP: u32 = 512;

/// A group's map as it is read: which group it is, the bytes of the map, and the set of the blocks that kept paths
/// end in. Block b is bit b mod 8 of byte b div 8 of the set.
#[derive(Clone, Copy)]
pub(crate) struct Group<'a> {
    pub(crate) header: &'a Header,
    pub(crate) number: u32,
    pub(crate) map: &'a [u8],
    pub(crate) used: &'a [u8],
    ghost whole: { 144 ≤ length map.now },
    ghost within: { 512 * number < header.now.total },
    ghost limited: { header.now.total ≤ 1048576 },
}

/// What was told of a group: how many faults, and how many of its blocks are free.
#[derive(Clone, Copy)]
pub(crate) struct GroupTold {
    pub(crate) faults: u64,
    pub(crate) free: u32,
}

impl Group<'_> {
    ghost use Rattle.integ.specs.GroupView.{map_of};

    /// Tells the faults of the map, and then those of its pairs.
    pub(crate) fn tell_all<F: FaultSink>(&self, sink: &mut F) -> Result<GroupTold, SinkTrouble>
        ensures told { let g = map_of self.now in
            WasTold F.listed F.failures sink.old sink.new (faults_of g) result SinkTrouble.Failed }
        ensures count { let g = map_of self.now in
            IfOk result (λ told. told.faults ≡ length (faults_of g)) }
        ensures few { IfOk result (λ told. told.faults ≤ 1024) }
        ensures free { IfOk result (λ told. told.free ≡ free_count (map_of self.now)) }
        ensures within { IfOk result (λ told. told.free ≤ 512) }
    {
        let free = count_free(self.map, self.present());
        let of_map = self.tell_head(free, sink)?;
        let of_pairs = self.tell_pairs(sink)?;
        Ok(GroupTold {
            faults: of_map + of_pairs,
            free,
        })
    }

    /// How many of the group's blocks the file has.
    fn present(&self) -> u32
        ensures { result ≡ min 512 (self.now.header.now.total - 512 * self.now.number) }
    {
        (self.header.total - GROUP * self.number).min(GROUP)
    }

    /// Tells what is wrong with the map's head, or with what the master map says of the group.
    fn tell_head<F: FaultSink>(&self, free: u32, sink: &mut F) -> Result<u64, SinkTrouble>
        requires { free ≡ free_count (map_of self.now) }
        ensures told { WasTold F.listed F.failures sink.old sink.new (head_faults (map_of self.now)) result
            SinkTrouble.Failed }
        ensures count { IfOk result (λ count. count ≡ length (head_kinds (map_of self.now))) }
        ensures few { IfOk result (λ count. count ≤ 7) }
    {
        let used = u32_at(self.map, 4);
        let marked_free = self.header.group_has_free(self.number);
        let has_free = free > 0;
        let kinds = [
            (FaultKind::BadVersion, self.has_bad_version()),
            (
                FaultKind::TransactionTooNew,
                self.header.tn <= u64_at(self.map, 8),
            ),
            (FaultKind::MapUsedTooSmall, used < 144),
            (FaultKind::MapUsedTooLarge, used > 144),
            (FaultKind::MapLevel, self.map[3] != 255),
            (FaultKind::GroupMarkedFree, marked_free & !has_free),
            (FaultKind::GroupMarkedFull, !marked_free & has_free),
        ];
        tell_standing(GROUP * self.number, &kinds, sink)
    }

    fn has_bad_version(&self) -> bool
        ensures { result ≡ head_holds (map_of self.now) FaultKind.BadVersion }
    {
        u16_at(self.map, 0) != 1 || self.map[2] != 0
    }

    /// Tells what is wrong with the pairs: four at once where nothing is.
    fn tell_pairs<F: FaultSink>(&self, sink: &mut F) -> Result<u64, SinkTrouble>
        ensures told { WasTold F.listed F.failures sink.old sink.new (pair_faults (map_of self.now)) result
            SinkTrouble.Failed }
        ensures count { IfOk result (λ count. count ≡ length (pair_faults (map_of self.now))) }
        ensures few { IfOk result (λ count. count ≤ 512) }
    {
        let whole = self.present() / 4;
        let mut count = 0;
        for (place, byte) in self.map[16..144].iter().enumerate() {
            let place = place as u32;
            if place >= whole || !are_right(*byte, self.used_of_four(place)) {
                count += self.tell_four(4 * place, sink)?;
            }
        }
        Ok(count)
    }

    /// Which of the four blocks of a byte of the map are in use, the first in bit 0.
    fn used_of_four(&self, place: u32) -> u8
        requires { place < 128 }
        ensures small { result < 16 }
        ensures bits { (j : ℕ) → j < 4
            → (bit_at result j == 1) ≡ in_use self.now.used.now (map_number self.now.number + (4 * place + j)) }
    {
        let byte = byte_at(self.used, 64 * self.number as usize + place as usize / 2);
        let four = (byte >> (4 * (place % 2))) & 15;
        if place == 0 { four | 1 } else { four }
    }

    /// Tells what is wrong with the pairs of a block and the three behind it.
    fn tell_four<F: FaultSink>(&self, first: u32, sink: &mut F) -> Result<u64, SinkTrouble>
        requires { first + 4 ≤ 512 }
        ensures told { let found = faults_in (map_of self.now) first 4 in
            WasTold F.listed F.failures sink.old sink.new found result SinkTrouble.Failed }
        ensures count { let found = faults_in (map_of self.now) first 4 in
            IfOk result (λ count. count ≡ length found) }
        ensures few { IfOk result (λ count. count ≤ 4) }
    {
        let mut count = 0;
        for k in first..first + 4 {
            if let Some(kind) = self.fault_at(k) {
                tell(GROUP * self.number + k, kind, sink)?;
                count += 1;
            }
        }
        Ok(count)
    }

    /// What is wrong with the pair of block `k` of the group, if anything is.
    fn fault_at(&self, k: u32) -> Option<FaultKind>
        requires { k < 512 }
        ensures { option_to_list result ≡ kinds_at (map_of self.now) k }
    {
        let block = GROUP * self.number + k;
        pair_fault(
            state_of(self.map, k),
            block < self.header.total,
            k == 0 || has_block(self.used, block),
        )
    }
}

/// Whether the block is in the set.
fn has_block(set: &[u8], block: u32) -> bool
    ensures { result ≡ has_block set.now block }
{
    byte_at(set, block as usize / 8) >> (block % 8) & 1 == 1
}

/// The byte at a place, or 0 behind the last.
fn byte_at(bytes: &[u8], place: usize) -> u8
    ensures { result ≡ slice_index bytes.now place }
{
    bytes.get(place).copied().unwrap_or(0)
}
