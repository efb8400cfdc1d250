ghost use Rattle.std.specs.Prelude.{◌≤◌, ℕ, List, IfSome, IsSomeAnd, length};
ghost use Rattle.std.specs.Range.Bound.{bound_map};
ghost use Rattle.gds_block.specs.Item.{Item};
ghost use Rattle.gds_search.specs.PackedBlock.{IsPackedBlock};
ghost use Rattle.m_key.specs.KeyEnd.{IsKey};
ghost use Rattle.gds_find.specs.Fork.{IsBoundKey, IsStart};

use crate::record::packed_at;
use gds_block::BlockView;
use gds_search::search;
use std::ops::Bound;

/// Where in a packed block the first record from a bound on begins, or its used count where all are before.
pub(crate) fn start_in(bytes: &[u8], from: Bound<&[u8]>) -> Option<usize>
    ensures { (height : ℕ) (es : List Item) → IsBoundKey (bound_map (λ key. key.now) from.entry)
        → IsPackedBlock bytes.now height es
        → IsSomeAnd result (IsStart es (bound_map (λ key. key.now) from.entry)) }
{
    match from {
        Bound::Included(key) => start_at(bytes, key),
        Bound::Excluded(key) => start_behind(bytes, key),
        Bound::Unbounded => Some(16),
    }
}

// Where the first record at or above a key begins.
fn start_at(bytes: &[u8], key: &[u8]) -> Option<usize>
    ensures { (height : ℕ) (es : List Item) → IsKey key.now → IsPackedBlock bytes.now height es
        → IsSomeAnd result (IsStart es (Bound.Included key.now)) }
{
    let view = BlockView::new(bytes)?;
    let place = search(&view, key).ok()?;
    Some(place.offset)
}

// Where the first record above a key begins.
fn start_behind(bytes: &[u8], key: &[u8]) -> Option<usize>
    ensures { (height : ℕ) (es : List Item) → IsKey key.now → IsPackedBlock bytes.now height es
        → IsSomeAnd result (IsStart es (Bound.Excluded key.now)) }
{
    let view = BlockView::new(bytes)?;
    let place = search(&view, key).ok()?;
    if !place.is_equal {
        return Some(place.offset);
    }
    let record = packed_at(bytes, place.offset)?;
    Some(place.offset + 4 + record.body.len())
}
