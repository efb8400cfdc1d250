ghost use Rattle.std.specs.Prelude.{◌≡◌, ◌<◌, ◌^◌, ◌↔◌, ℕ, All, List, length, IfSome, IsSomeAnd, IsTrue};
ghost use Rattle.gds_block.specs.Item.{Item};
ghost use Rattle.m_key.specs.KeyEnd.{IsKey};
ghost use Rattle.gds_search.specs.PackedBlock.{IsPackedBlock};
ghost use Rattle.gds_tree.specs.RightBlock.{IsDueLevel};
ghost use Rattle.gds_find.specs.Turn.{IsTurn, IsDueTurn, offset_of};

use gds_block::BlockView;
use gds_search::{Place, child_at, search};

/// What a block on the way of a key says.
#[derive(Clone, Copy, Debug)]
pub(crate) enum Turn {
    /// The way goes on from an index block of this level: by the record at this offset, to this block.
    Down { level: u8, offset: u32, block: u32 },
    /// The way ends in a level-0 block, where the key has this place.
    Here { offset: u32, place: Place },
}

impl Turn {
    /// Where in the block the record begins.
    pub(crate) fn offset(self) -> u32
        ensures { result ≡ offset_of self }
    {
        match self {
            Turn::Down { offset, .. } | Turn::Here { offset, .. } => offset,
        }
    }
}

/// What a block says of a key, if it is one of the level that may be due.
pub(crate) fn turn_in(bytes: &[u8], due: Option<u8>, key: &[u8]) -> Option<Turn>
    requires { length bytes.now < 2 ^ 32 }
    ensures turn { (height : ℕ) (es : List Item) → IsKey key.now → IsDueLevel due height
        → IsPackedBlock bytes.now height es → IsSomeAnd result (IsTurn height es key.now) }
    ensures due { IfSome result (IsDueTurn due) }
{
    let view = BlockView::new(bytes)?;
    let level = view.level();
    if !is_due(due, level) {
        return None;
    }
    let place = search(&view, key).ok()?;
    if level == 0 {
        return Some(Turn::Here {
            offset: place.offset as u32,
            place,
        });
    }
    let child = child_at(bytes, &place)?;
    if child.offset > bytes.len() {
        return None;
    }
    Some(Turn::Down {
        level,
        offset: child.offset as u32,
        block: child.block,
    })
}

/// Whether a block may have a level where this one is due: a root, of which none is, has one from 1 to 7.
pub(crate) fn is_due(due: Option<u8>, level: u8) -> bool
    ensures { IsTrue result ↔ IsDueLevel due level }
{
    match due {
        Some(due) => level == due,
        None => (1..=7).contains(&level),
    }
}

/// Does nothing: the items of a slice of bytes are bytes.
pub(crate) fn are_bytes(bytes: &[u8])
    ensures { All (λ b. b < 256) bytes.now }
{}
