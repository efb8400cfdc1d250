//! A quick reading of blocks with which nothing is wrong, as they are the rule.
#![tactic(auto)]

ghost use Rattle.std.specs.Prelude.{◌≡◌, [], length, IfSome};
ghost use Rattle.std.specs.Bool.{OnTrue};
ghost use Rattle.gds_block.specs.Record.{bytes_left};
ghost use Rattle.gds_header.specs.Kinds.{IsWithinLimits};
ghost use Rattle.gds_law.specs.Visit.{visit_of};
ghost use Rattle.gds_law.specs.BlockReading.{reading_of};
ghost use Rattle.gds_law.specs.Block.{kinds_of_block, children_of};
ghost use Rattle.integ_quick.specs.Head.{IsCleanHead};

mod front;
mod key_so_far;
mod leaf;
mod subscripts;

use gds_block::{u16_at, u32_at, u64_at};
use gds_header::Header;
use gds_law::{Role, Visit};
use leaf::Leaf;
use m_key::is_name;

/// Whether a quick reading finds that this is a level-0 block of a global and nothing is wrong with it: no kind of
/// fault stands of it, and it has no children. Where it doesn't find so, the block is to be read in full.
pub fn is_clean_leaf(bytes: &[u8], header: &Header, visit: &Visit) -> bool
    requires limits { IsWithinLimits header.now }
    requires whole { length bytes.now ≡ header.now.block_size }
    ensures clean { OnTrue result
        (kinds_of_block (reading_of header.now (visit_of visit.now) bytes.now) bytes.now ≡ []) }
    ensures childless { OnTrue result (children_of header.now (visit_of visit.now) bytes.now ≡ []) }
{
    let Role::Global(name) = &visit.role else {
        return false;
    };
    let Some(records) = clean_records(bytes, header, visit.level) else {
        return false;
    };
    if !is_name(name.as_slice()) {
        return false;
    }
    let leaf = Leaf {
        header,
        name: name.as_slice(),
        low: &visit.low,
        high: &visit.high,
    };
    leaf.are_clean(records)
}

// The bytes of the block's records, where nothing is wrong with its head.
fn clean_records<'a>(bytes: &'a [u8], header: &Header, level: Option<u8>) -> Option<&'a [u8]>
    requires limits { IsWithinLimits header.now }
    requires whole { length bytes.now ≡ header.now.block_size }
    ensures head { IfSome result (λ _. IsCleanHead header.now level bytes.now) }
    ensures records { IfSome result (λ left. left.now ≡ bytes_left bytes.now 16) }
{
    let used = u32_at(bytes, 4) as usize;
    if u16_at(bytes, 0) == 1
        && bytes[2] == 0
        && bytes[3] == 0
        && level == Some(0)
        && u64_at(bytes, 8) < header.tn
        && 16 < used
        && used <= bytes.len()
    {
        Some(&bytes[..used][16..])
    } else {
        None
    }
}
