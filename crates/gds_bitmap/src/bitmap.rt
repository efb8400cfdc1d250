ghost use Rattle.std.specs.Prelude.{◌≡◌, ◌<◌, ◌≤◌, length, IfSome, IfNone};
ghost use Rattle.gds_block.specs.Block.{HasHead};
ghost use Rattle.gds_bitmap.specs.Pairs.{count_below};
ghost use Rattle.gds_bitmap.specs.Bitmap.{state_at, is_free_at, NoneFree, IsFirstFree, Marks, IsFresh};

use crate::pairs::{count_free_in, first_free_in, pair_in, with_pair};
use crate::state::State;
use gds_block::write_head;

/// The state of block `k` of the group.
pub fn state_of(map: &[u8], k: u32) -> State
    requires map { 144 ≤ length map.now }
    requires k { k < 512 }
    ensures { result ≡ state_at map.now k }
{
    State::of_pair(pair_in(map[16 + k as usize / 4], k % 4))
}

/// Gives block `k` of the group this state. No other pair and no other byte changes.
pub fn mark(map: &mut [u8], k: u32, state: State)
    requires map { 144 ≤ length map.old }
    requires k { k < 512 }
    ensures { Marks map.old map.new k state }
{
    let place = 16 + k as usize / 4;
    map[place] = with_pair(map[place], k % 4, state.pair());
}

/// The least free block below `present`, if one is free.
pub fn first_free(map: &[u8], present: u32) -> Option<u32>
    requires map { 144 ≤ length map.now }
    requires present { present ≤ 512 }
    ensures within { IfSome result (λ k. k < present) }
    ensures found { IfSome result (IsFirstFree map.now) }
    ensures none { IfNone result (NoneFree map.now present) }
{
    let bytes = present.div_ceil(4) as usize;
    for (place, byte) in map[16..16 + bytes].iter().enumerate() {
        if let Some(pair) = first_free_in(*byte) {
            let k = 4 * place as u32 + pair;
            return (k < present).then_some(k);
        }
    }
    None
}

/// How many blocks below `present` are free.
pub fn count_free(map: &[u8], present: u32) -> u32
    requires map { 144 ≤ length map.now }
    requires present { present ≤ 512 }
    ensures { result ≡ count_below (is_free_at map.now) present }
{
    let whole = present as usize / 4;
    let mut count = 0;
    for byte in &map[16..16 + whole] {
        count += count_free_in(*byte, 4);
    }
    if present % 4 != 0 {
        count += count_free_in(map[16 + whole], present % 4);
    }
    count
}

/// Writes a map of a group that has `present` blocks: the map itself is busy, the others are new, and the
/// pairs of the blocks that aren't there are 00. Bytes behind the map stay.
pub fn fresh(out: &mut [u8], present: u32, tn: u64)
    requires map { 144 ≤ length out.old }
    requires present { present ≤ 512 }
    ensures map { IsFresh out.old out.new present tn }
    ensures reads_back { HasHead out.new 255 144 tn }
{
    write_head(out, 255, 144, tn);
    out[16..144].fill(0);
    for k in 1..present {
        mark(out, k, State::New);
    }
}
