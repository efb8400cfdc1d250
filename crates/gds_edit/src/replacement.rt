ghost use Rattle.std.specs.Prelude.{◌≡◌, ◌≢◌, ◌≤◌, ◌+◌, ◌-◌, ◌++◌, ◌∷◌, ℕ, List, OnErr, IfSome, IfNone};
ghost use Rattle.gds_block.specs.Item.{Item};
ghost use Rattle.gds_pack.specs.Packable.{ArePackable};
ghost use Rattle.gds_search.specs.PackedBlock.{IsPackedBlock};
ghost use Rattle.gds_search.specs.Place.{IsPlaceFor};
ghost use Rattle.gds_edit.specs.Edited.{IsEdit};

use crate::error::EditError;
use crate::reading::{level, record_head, used_count};
use crate::record::RecordHead;
use crate::tail::push_tail;
use gds_block::{put_bytes, put_u16};
use gds_search::Place;

/// Gives the entry at a place another rest: in a leaf, where the entry has the key of the place, another value, and in
/// an index block another pointer.
///
/// Of a packed block the answer is `NoRoom` exactly where the entries don't fit.
pub fn replace(block: &mut [u8], place: &Place, rest: &[u8]) -> Result<(), EditError>
    ensures replaced { (height : ℕ) (key : List ℕ) (es a b : List Item) (e : Item) → IsPackedBlock block.old height es
        → IsPlaceFor es key place.now a (e ∷ b) → (height ≡ 0 → e.key ≡ key)
        → ArePackable height (a ++ record e { rest = rest.now } ∷ b)
        → IsEdit block.old block.new height (a ++ record e { rest = rest.now } ∷ b) result }
    ensures kept { OnErr result (block.new ≡ block.old) }
{
    let Some(used) = used_count(block) else {
        return Err(EditError::Misplaced);
    };
    let at = place.offset;
    let Some(head) = record_head(block, at, used) else {
        return Err(EditError::Misplaced);
    };
    let Some(key) = key_part(level(block), head, place.next_shared) else {
        return Err(EditError::Misplaced);
    };
    let start = at + 4 + key;
    let end = start.saturating_add(rest.len());
    push_tail(block, at + head.size, end, used)?;
    put_u16(block, at, (end - at) as u16);
    put_bytes(block, start, rest);
    Ok(())
}

// How many bytes of a record belong to its key: in a leaf those that the key has beside the ones left out, and in an
// index block all before the pointer.
fn key_part(level: u8, head: RecordHead, key: usize) -> Option<usize>
    requires { 4 ≤ head.size }
    ensures some { IfSome result (λ n. (4 + n ≤ head.size) × (level ≡ 0 → head.count + n ≡ key)
        × (level ≢ 0 → n + 8 ≡ head.size)) }
    ensures none { IfNone result ((level ≡ 0 → (head.count ≤ key) × (4 + (key - head.count) ≤ head.size))
        → (level ≢ 0 → 8 ≤ head.size) → ⊥) }
{
    if level == 0 {
        head.key_part(key)
    } else {
        head.size.checked_sub(8)
    }
}
