ghost use Rattle.std.specs.Prelude.{◌≡◌, ◌≤◌, ◌<◌, ◌+◌, ◌^◌, ◌++◌, ◌∷◌, [], ℕ, List, length, drop};
ghost use Rattle.std.specs.Prelude.{OnErr, IfSome, IfNone};
ghost use Rattle.gds_block.specs.Block.{used_of};
ghost use Rattle.gds_block.specs.Item.{Item};
ghost use Rattle.m_key.specs.KeyEnd.{shared};
ghost use Rattle.gds_pack.specs.Packable.{ArePackable};
ghost use Rattle.gds_pack.specs.Packed.{packed_size, key_behind};
ghost use Rattle.gds_search.specs.PackedBlock.{IsPackedBlock};
ghost use Rattle.gds_search.specs.Place.{IsPlaceFor};
ghost use Rattle.gds_edit.specs.Edited.{IsEdit};
ghost use Rattle.gds_edit.specs.Inserted.{IsRecordFor, IsHeadFor};

use crate::error::EditError;
use crate::reading::{record_head, used_count};
use crate::record::{NewRecord, RecordHead};
use crate::tail::push_tail;
use gds_search::Place;

/// Puts an entry with a key and a rest in at the place of the key.
///
/// Of a packed block that can have the entry the answer is `NoRoom` exactly where the entries don't fit.
pub fn insert(block: &mut [u8], place: &Place, key: &[u8], rest: &[u8]) -> Result<(), EditError>
    ensures inserted { (height : ℕ) (es a b : List Item) → IsPackedBlock block.old height es
        → IsPlaceFor es key.now place.now a b
        → ArePackable height (a ++ record { key = key.now; rest = rest.now } ∷ b)
        → IsEdit block.old block.new height (a ++ record { key = key.now; rest = rest.now } ∷ b) result }
    ensures kept { OnErr result (block.new ≡ block.old) }
{
    let Some(used) = used_count(block) else {
        return Err(EditError::Misplaced);
    };
    let Some(fresh) = new_record(place, key, rest) else {
        return Err(EditError::Misplaced);
    };
    if place.offset == used {
        return insert_last(block, used, fresh);
    }
    let Some(next) = record_head(block, place.offset, used) else {
        return Err(EditError::Misplaced);
    };
    let Some(more) = next.key_part(place.next_shared) else {
        return Err(EditError::Misplaced);
    };
    insert_before(block, used, place.offset, fresh, next, more)
}

// The record of an entry with a key and a rest at the place of the key, if the place fits a key of so many bytes. A key
// has at most 255 bytes.
fn new_record<'a>(place: &Place, key: &'a [u8], rest: &'a [u8]) -> Option<NewRecord<'a>>
    ensures some { IfSome result (λ r. (r.count ≡ place.now.shared) × (r.key.now ≡ drop place.now.shared key.now)
        × (r.rest.now ≡ rest.now) × (r.count ≤ 255) × (place.now.next_shared ≤ 255)) }
    ensures none { IfNone result (place.now.shared ≤ length key.now → place.now.next_shared ≤ length key.now
        → length key.now ≤ 255 → ⊥) }
{
    if key.len() > 255 || place.shared > key.len() || place.next_shared > key.len() {
        return None;
    }
    Some(NewRecord {
        count: place.shared,
        key: &key[place.shared..],
        rest,
    })
}

// Puts a record behind all others.
fn insert_last(block: &mut [u8], used: usize, fresh: NewRecord<'_>) -> Result<(), EditError>
    requires covered { 16 ≤ used }
    requires within { used ≤ length block.old }
    requires short { length block.old ≤ 65024 }
    requires count { fresh.count < 2 ^ 16 }
    ensures inserted { (height : ℕ) (a : List Item) (e : Item) → IsPackedBlock block.old height a
        → used ≡ used_of block.old → IsRecordFor (key_behind [] a) e fresh.entry → ArePackable height (a ++ e ∷ [])
        → IsEdit block.old block.new height (a ++ e ∷ []) result }
    ensures kept { OnErr result (block.new ≡ block.old) }
{
    let end = used.saturating_add(fresh.size());
    push_tail(block, used, end, used)?;
    fresh.put(block, used);
    Ok(())
}

// Puts a record before another, whose key shares so many more bytes with the new key than with the key before both.
fn insert_before(
    block: &mut [u8],
    used: usize,
    at: usize,
    fresh: NewRecord<'_>,
    next: RecordHead,
    more: usize,
) -> Result<(), EditError>
    requires behind_head { 16 ≤ at }
    requires next { at + next.size ≤ used }
    requires more { 4 + more ≤ next.size }
    requires within { used ≤ length block.old }
    requires short { length block.old ≤ 65024 }
    requires count { fresh.count < 2 ^ 16 }
    requires next_count { next.count + more < 2 ^ 16 }
    ensures inserted { (height : ℕ) (a b : List Item) (e n : Item) → IsPackedBlock block.old height (a ++ n ∷ b)
        → at ≡ packed_size a → used ≡ used_of block.old → IsRecordFor (key_behind [] a) e fresh.entry
        → IsHeadFor (key_behind [] a) n next → next.count + more ≡ shared e.key n.key
        → ArePackable height (a ++ e ∷ n ∷ b)
        → IsEdit block.old block.new height (a ++ e ∷ n ∷ b) result }
    ensures kept { OnErr result (block.new ≡ block.old) }
{
    let end = at.saturating_add(fresh.size());
    push_tail(block, at + 4 + more, end.saturating_add(4), used)?;
    fresh.put(block, at);
    let head = RecordHead {
        size: next.size - more,
        count: next.count + more,
    };
    head.put(block, end);
    Ok(())
}
