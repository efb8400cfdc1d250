ghost use Rattle.std.specs.Prelude.{◌≡◌, ◌+◌, ◌<◌, ◌≤◌, ◌∷◌, ◌++◌, ◌↔◌, ℕ, [], List, IfSome, IsSomeAnd, IsTrue, length};
ghost use Rattle.std.specs.Prelude.{take};
ghost use Rattle.gds_block.specs.Block.{IsBlock};
ghost use Rattle.gds_block.specs.Item.{Item};
ghost use Rattle.gds_block.specs.Record.{Record, StandsIn};
ghost use Rattle.gds_pack.specs.Packed.{key_behind, packed_size};
ghost use Rattle.gds_search.specs.PackedBlock.{IsPackedBlock};
ghost use Rattle.m_key.specs.KeyEnd.{shared};

use gds_block::{BlockView, u16_at};
use gds_pack::Key;
use m_key::{end_within, join_key};

/// A record of a packed block: its key, what follows it, and where the record ends.
#[derive(Debug, Drop)]
pub struct FoundRecord<'a> {
    /// The whole key, empty for the star.
    pub key: Key,
    /// A value, or a pointer of 4 bytes.
    pub rest: &'a [u8],
    /// Where the next record begins, or the block's used bytes end.
    pub end: usize,
}

/// The key and the rest of the record at an offset of a packed block. The first bytes of its key, those that it shares
/// with the key before it, are taken from `front`. The star has the empty key.
///
/// `None` where no such record can be read.
pub fn record_at<'a>(block: &'a [u8], offset: usize, front: &[u8]) -> Option<FoundRecord<'a>>
    ensures { (height : ℕ) (es before behind : List Item) (own : Item) → IsPackedBlock block.now height es
        → es ≡ before ++ own ∷ behind → packed_size before ≡ offset
        → take (shared (key_behind [] before) own.key) front.now ≡ take (shared (key_behind [] before) own.key) own.key
        → IsSomeAnd result (λ r. (r.key.items ≡ own.key) × (r.rest.now ≡ own.rest)
        × (r.end ≡ packed_size (before ++ own ∷ []))) }
{
    let level = BlockView::new(block)?.level();
    let record = packed_at(block, offset)?;
    let end = offset + 4 + record.body.len();
    if is_star(level, record.body) {
        return Some(FoundRecord {
            key: Key::new(),
            rest: record.body,
            end,
        });
    }
    if front.len() < record.count {
        return None;
    }
    let front = &front[..record.count];
    let len = end_within(front, record.body, 255)?;
    let (part, rest) = record.body.split_at(len);
    Some(FoundRecord {
        key: join_key(front, part),
        rest,
        end,
    })
}

/// A record as it stands: how many bytes of its key it leaves out, and what stands behind that.
#[derive(Clone, Copy)]
pub(crate) struct PackedRecord<'a> {
    pub(crate) count: usize,
    pub(crate) body: &'a [u8],
}

/// The record that begins at an offset, if it ends within the bytes.
pub(crate) fn packed_at(block: &[u8], at: usize) -> Option<PackedRecord<'_>>
    ensures found { (r : Record) → IsBlock block.now → StandsIn block.now r → r.offset ≡ at
        → IsSomeAnd result (λ x. (x.count ≡ r.count) × (x.body.now ≡ r.body)) }
    ensures within { IfSome result (λ x. at + 4 + length x.body.now ≤ length block.now) }
{
    let left = block.len().checked_sub(at)?;
    if left < 4 {
        return None;
    }
    let size = usize::from(u16_at(block, at));
    if size < 4 || left < size {
        return None;
    }
    Some(PackedRecord {
        count: usize::from(u16_at(block, at + 2)),
        body: &block[at + 4..at + size],
    })
}

// Whether a record of a packed block of this level is the star: in an index block each other record has a byte of its
// key beside the pointer.
fn is_star(level: u8, body: &[u8]) -> bool
    ensures { IsTrue result ↔ ((0 < level) × (length body.now ≡ 4)) }
{
    level > 0 && body.len() == 4
}
