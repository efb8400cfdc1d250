ghost use Rattle.std.specs.Prelude.{ℕ, suc, ◌≡◌, ◌+◌, ◌≤◌, List, ◌∷◌, ◌++◌, length, true, false, Some, None};
ghost use Rattle.std.specs.Prelude.{IfSome, IsSomeAnd};
ghost use Rattle.gds_block.specs.Block.{IsBlock};
ghost use Rattle.gds_block.specs.Fields.{u32_at};
ghost use Rattle.gds_block.specs.Item.{Item};
ghost use Rattle.gds_block.specs.Record.{Record, StandsIn};
ghost use Rattle.m_key.specs.KeyEnd.{IsKey};
ghost use Rattle.gds_search.specs.PackedBlock.{IsPackedBlock};
ghost use Rattle.gds_search.specs.Place.{IsPlaceFor};
ghost use Rattle.gds_search.specs.Child.{IsChild};

use crate::place::Place;
use gds_block::{u16_at, u32_at};

/// A child of an index block.
#[derive(Clone, Copy, Debug, PartialEq, Eq)]
pub struct Child {
    /// Where the record that leads to it begins in the index block.
    pub offset: usize,
    /// The number of its block.
    pub block: u32,
}

/// The rest of the entry that has the key whose place this is: a value, or a pointer's bytes. `None` where no entry has
/// the key.
pub fn rest_at<'a>(block: &'a [u8], place: &Place) -> Option<&'a [u8]>
    ensures found { (height : ℕ) (es before behind : List Item) (own : Item) (key : List ℕ)
        → IsPackedBlock block.now height es → IsPlaceFor es key place.now before (own ∷ behind)
        → place.now.is_equal ≡ true → IsSomeAnd result (λ rest. rest.now ≡ own.rest) }
    ensures none { place.now.is_equal ≡ false → result ≡ None }
{
    if !place.is_equal {
        return None;
    }
    let body = body_at(block, place.offset)?;
    let key_part = place.next_shared.checked_sub(place.shared)?;
    if body.len() < key_part {
        return None;
    }
    Some(&body[key_part..])
}

/// The child of an index block to which the key leads whose place this is.
pub fn child_at(block: &[u8], place: &Place) -> Option<Child>
    ensures { (level : ℕ) (es before behind : List Item) (key : List ℕ) → IsKey key
        → IsPackedBlock block.now (suc level) es → IsPlaceFor es key place.now before behind
        → IsSomeAnd result (IsChild es key) }
{
    let body = body_at(block, place.offset)?;
    if place.is_equal {
        let next = place.offset + 4 + body.len();
        return child_of(next, body_at(block, next)?);
    }
    child_of(place.offset, body)
}

// The child to which a record leads that begins at an offset and has this body.
fn child_of(offset: usize, body: &[u8]) -> Option<Child>
    ensures { (front pointer : List ℕ) → body.now ≡ front ++ pointer → length pointer ≡ 4
        → result ≡ Some (record { offset = offset; block = u32_at pointer 0 }) }
{
    let start = body.len().checked_sub(4)?;
    Some(Child {
        offset,
        block: u32_at(body, start),
    })
}

// The body of the record that begins at an offset, if it ends within the bytes.
fn body_at(block: &[u8], at: usize) -> Option<&[u8]>
    ensures body { (r : Record) → IsBlock block.now → StandsIn block.now r → r.offset ≡ at
        → IsSomeAnd result (λ body. body.now ≡ r.body) }
    ensures within { IfSome result (λ body. at + 4 + length body.now ≤ length block.now) }
{
    let left = block.len().checked_sub(at)?;
    if left < 4 {
        return None;
    }
    let size = usize::from(u16_at(block, at));
    if size < 4 || left < size {
        return None;
    }
    Some(&block[at + 4..at + size])
}
