ghost use Rattle.std.specs.Prelude.{◌≡◌, ◌≤◌, ◌+◌, ◌-◌, ◌++◌, ◌∷◌, ℕ, List, length, IsOk, OnErr, IfSome, IfNone};
ghost use Rattle.gds_block.specs.Item.{Item};
ghost use Rattle.gds_pack.specs.Packable.{ArePackable};
ghost use Rattle.gds_search.specs.PackedBlock.{IsPackedBlock};
ghost use Rattle.gds_search.specs.Place.{IsPlaceFor};
ghost use Rattle.gds_edit.specs.Edited.{IsEdited};

use crate::error::Misplaced;
use crate::reading::{record_head, used_count};
use crate::record::RecordHead;
use crate::tail::move_tail;
use gds_search::Place;

/// Takes out the entry at a place, where a block may have the others.
pub fn remove(block: &mut [u8], place: &Place) -> Result<(), Misplaced>
    ensures removed { (height : ℕ) (key : List ℕ) (es a b : List Item) (e : Item) → IsPackedBlock block.old height es
        → IsPlaceFor es key place.now a (e ∷ b) → ArePackable height (a ++ b)
        → IsOk result × IsEdited block.old block.new height (a ++ b) }
    ensures kept { OnErr result (block.new ≡ block.old) }
{
    let Some(used) = used_count(block) else {
        return Err(Misplaced);
    };
    let at = place.offset;
    let Some(gone) = record_head(block, at, used) else {
        return Err(Misplaced);
    };
    let end = at + gone.size;
    if end == used {
        move_tail(block, used, at, used);
        return Ok(());
    }
    let Some(next) = record_head(block, end, used) else {
        return Err(Misplaced);
    };
    let Some(more) = taken_on(gone, next) else {
        return Err(Misplaced);
    };
    move_tail(block, end + 4, at + 4 + more, used);
    let head = RecordHead {
        size: next.size + more,
        count: next.count - more,
    };
    head.put(block, at);
    Ok(())
}

// How many bytes of its key a record takes on once the one before it is gone, which has them: those that it left out
// and that one didn't.
fn taken_on(gone: RecordHead, next: RecordHead) -> Option<usize>
    requires { 4 ≤ gone.size }
    ensures some { IfSome result (λ n. (n ≡ next.count - gone.count) × (4 + n ≤ gone.size)) }
    ensures none { IfNone result (4 + (next.count - gone.count) ≤ gone.size → ⊥) }
{
    let more = next.count.saturating_sub(gone.count);
    if more <= gone.size - 4 {
        Some(more)
    } else {
        None
    }
}
