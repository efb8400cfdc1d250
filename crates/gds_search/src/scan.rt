ghost use Rattle.std.specs.Prelude.{◌≡◌, ◌<◌, ◌↔◌, ℕ, List, length, IsTrue, IsOkAnd, IfOk};
ghost use Rattle.gds_block.specs.Item.{Item};
ghost use Rattle.m_key.specs.KeyEnd.{IsKey};
ghost use Rattle.gds_search.specs.PackedBlock.{IsPackedBlock};
ghost use Rattle.gds_search.specs.Place.{IsPlace, IsWithin};

use crate::place::{Place, above};
use gds_block::{BlockView, RecordView};
use m_key::shared_len;
use thiserror::Error;

/// A record ends within the key that is looked for, as none does in a packed block.
#[derive(Clone, Copy, Debug, PartialEq, Eq, Error)]
#[error("a record has no end of its key")]
pub struct Unreadable;

/// The place of a key in a packed block: where the first entry at or above the key stands. Of a block that isn't packed
/// the answer is any place or `Unreadable`.
pub fn search(block: &BlockView<'_>, key: &[u8]) -> Result<Place, Unreadable>
    ensures found { (height : ℕ) (es : List Item) → IsKey key.now → IsPackedBlock block.now height es
        → IsOkAnd result (IsPlace es key.now) }
    ensures within { IfOk result (IsWithin block.now key.now) }
{
    let level = block.level();
    let used = block.used();
    let mut shared = 0;
    for view in block.records() {
        let count = usize::from(view.count);
        if count > shared {
            continue;
        }
        let offset = view.offset as usize;
        if count < shared {
            return Ok(above(offset, shared, count));
        }
        if is_star(view, level) {
            return Ok(above(offset, shared, 0));
        }
        let rest = &key[shared..];
        let same = shared_len(view.body, rest);
        if same == rest.len() {
            return Ok(Place {
                offset,
                is_equal: true,
                shared,
                next_shared: key.len(),
            });
        }
        if same == view.body.len() {
            return Err(Unreadable);
        }
        if view.body[same] > rest[same] {
            return Ok(above(offset, shared, shared + same));
        }
        shared += same;
    }
    Ok(above(used as usize, shared, 0))
}

// Whether a record of a packed block of this level is the star: in an index block each other record has a byte of its
// key beside the pointer.
fn is_star(view: RecordView<'_>, level: u8) -> bool
    ensures { IsTrue result ↔ ((0 < level) × (length view.entry.body.now ≡ 4)) }
{
    level > 0 && view.body.len() == 4
}
