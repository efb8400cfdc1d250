ghost use Rattle.std.specs.Prelude.{◌≡◌, ◌+◌, ◌<◌, ◌≤◌, ◌^◌, length, IfSome, SomeIff};
ghost use Rattle.gds_block.specs.Block.{level_of, used_of};
ghost use Rattle.gds_block.specs.Fields.{u16_at};
ghost use Rattle.gds_edit.specs.Reading.{IsEditable, StandsAt};

use crate::record::RecordHead;
use gds_block::{u16_at, u32_at};

/// How long a block of a file may be.
const LONGEST: usize = 65024;

// The used count of a block, if it covers the head and lies within the bytes, which are no more than a block may have.
pub(crate) fn used_count(block: &[u8]) -> Option<usize>
    ensures { SomeIff result (IsEditable block.now) (used_of block.now) }
{
    if block.len() < 16 || block.len() > LONGEST {
        return None;
    }
    let used = u32_at(block, 4) as usize;
    if used < 16 || block.len() < used {
        return None;
    }
    Some(used)
}

// The level of a block.
pub(crate) fn level(block: &[u8]) -> u8
    requires { 16 ≤ length block.now }
    ensures { result ≡ level_of block.now }
{
    block[3]
}

// The head of the record at a place, if it is behind the block's head and the record ends within the used bytes.
pub(crate) fn record_head(block: &[u8], at: usize, used: usize) -> Option<RecordHead>
    requires { used ≤ length block.now }
    ensures read { SomeIff result (StandsAt block.now at used)
        (record { size = u16_at block.now at; count = u16_at block.now (at + 2) }) }
    ensures small { IfSome result (λ head. head.count < 2 ^ 16) }
{
    if at < 16 {
        return None;
    }
    let left = used.checked_sub(at)?;
    if left < 4 {
        return None;
    }
    let size = usize::from(u16_at(block, at));
    if size < 4 || left < size {
        return None;
    }
    let count = usize::from(u16_at(block, at + 2));
    Some(RecordHead { size, count })
}
