ghost use Rattle.std.specs.Prelude.{◌≡◌, ◌<◌, ◌↔◌, false, All, IfOk, IfSome, IsTrue, List, None, Some, length};
ghost use Rattle.std.specs.Bool.{OnFalse, OnTrue};
ghost use Rattle.gds_base.specs.Drafting.{Drafts, IsDraftFor, WithDraft};
ghost use Rattle.gds_base.specs.Ending.{EndsReading};
ghost use Rattle.gds_block.specs.Item.{Item};
ghost use Rattle.gds_header.specs.Fields.{block_of};
ghost use Rattle.gds_search.specs.PackedBlock.{IsPackedBlock};
ghost use Rattle.gds_units.specs.Reading.{OnlyRead};
ghost use Rattle.gds_units.specs.State.{image_of};
ghost use Rattle.m_key.specs.KeyEnd.{IsKey};
ghost use Rattle.gds_remove.specs.Alone.{HasAlone, TakesAlone, between};
ghost use Rattle.gds_remove.specs.Block.{WritesOne};
ghost use Rattle.gds_remove.specs.Cut.{CutsAt};
ghost use Rattle.gds_remove.specs.Killed.{OnlyWrites};
ghost use Rattle.gds_remove.specs.Range.{range_of};

use crate::range::KeyRange;
use gds_base::{Base, BaseError};
use gds_block::BlockView;
use gds_draft::Draft;
use gds_edit::{Place, remove};
use gds_find::record_at;
use gds_search::search;
use host_model::Host;
use m_key::end_within;
use std::alloc::Global;

/// Cuts a range of keys out of a leaf where its block stands, and answers whether it did so. It does where the range
/// begins at the key of an entry, no other entry is in it, and some are left. Else nothing has changed.
pub(crate) fn cut_in_place<H: Host>(
    alloc: Global,
    base: &mut Base<H>,
    draft: &mut Draft,
    n: u32,
    range: KeyRange<'_>,
) -> Result<bool, BaseError>
    requires { IsDraftFor base.old.header draft.old }
    ensures cut { IfOk result (λ done. OnTrue done (Drafts base.old draft.old draft.new
        (CutsAt n 0 (range_of range.entry) false))) }
    ensures kept { IfOk result (λ done. OnFalse done (draft.new ≡ draft.old)) }
    ensures drafts { OnlyWrites H.told H.moment H.failures H.left_since base.old base.new draft.old draft.new 1 }
    ensures ends { EndsReading (H.failures base.old.host) (H.failures base.new.host) (image_of base.old ≡ None) result }
{
    let Some(low) = range.low else {
        return Ok(false);
    };
    let Some(high) = range.high else {
        return Ok(false);
    };
    if n >= draft.header().total {
        return Ok(false);
    }
    let mut bytes = copy_block(alloc, base, draft, n)?;
    put_without(alloc, base, draft, n, &mut bytes, low, high)
}

// A copy of a block of the image with a draft.
fn copy_block<H: Host>(
    alloc: Global,
    base: &mut Base<H>,
    draft: &Draft,
    n: u32,
) -> Result<Vec<u8>, BaseError>
    requires draft { IsDraftFor base.old.header draft.now }
    requires there { n < draft.now.header.total }
    ensures bytes { IfOk result (λ v. WithDraft base.old draft.now (λ file. v.items ≡ block_of file n)) }
    ensures len { IfOk result (λ v. length v.items ≡ base.old.header.block_size) }
    ensures read { OnlyRead H.told H.moment H.failures H.left_since base.old base.new }
    ensures ends { EndsReading (H.failures base.old.host) (H.failures base.new.host) (image_of base.old ≡ None) result }
{
    Ok(Vec::from_slice(alloc, base.read(draft, n)?)?)
}

// Takes the entry that alone is in a range out of the bytes of a leaf, and gives its block these bytes in the draft.
fn put_without<H: Host>(
    alloc: Global,
    base: &Base<H>,
    draft: &mut Draft,
    n: u32,
    bytes: &mut [u8],
    low: &[u8],
    high: &[u8],
) -> Result<bool, BaseError>
    requires draft { IsDraftFor base.now.header draft.old }
    requires there { n < draft.old.header.total }
    requires size { length bytes.old ≡ base.now.header.block_size }
    ensures cut { IfOk result (λ done. OnTrue done (Drafts base.now draft.old draft.new (λ before after.
        bytes.old ≡ block_of before n
        → CutsAt n 0 (between low.now high.now) false before after))) }
    ensures kept { IfOk result (λ done. OnFalse done (draft.new ≡ draft.old)) }
    ensures one { WritesOne draft.old draft.new }
    ensures ends { EndsReading (H.failures base.now.host) (H.failures base.now.host) (image_of base.now ≡ None) result }
{
    are_bytes(bytes);
    if !take_alone(bytes, low, high) {
        return Ok(false);
    }
    base.put(alloc, draft, n, bytes)?;
    Ok(true)
}

// Does nothing: the items of a slice of bytes are bytes.
fn are_bytes(bytes: &[u8])
    ensures { All (λ b. b < 256) bytes.now }
{}

// Takes the entry that alone is in a range out of the bytes of a leaf, and answers whether it did so.
fn take_alone(bytes: &mut [u8], low: &[u8], high: &[u8]) -> bool
    ensures taken { OnTrue result (TakesAlone bytes.old bytes.new low.now high.now) }
{
    let Some(place) = place_alone(bytes, low, high) else {
        return false;
    };
    remove(bytes, &place).is_ok()
}

// The place of the entry that alone is in a range, if its key is the range's least and other entries are left.
fn place_alone(bytes: &[u8], low: &[u8], high: &[u8]) -> Option<Place>
    ensures { IfSome result (λ place. (es : List Item) → IsPackedBlock bytes.now 0 es
        → HasAlone es low.now high.now place) }
{
    if !is_whole(low) || !low.cmp(high).is_lt() {
        return None;
    }
    let view = BlockView::new(bytes)?;
    let Ok(place) = search(&view, low) else {
        return None;
    };
    if !place.is_equal {
        return None;
    }
    let own = record_at(bytes, place.offset, low)?;
    if own.end >= view.used() as usize {
        if place.offset <= 16 {
            return None;
        }
        return Some(place);
    }
    let next = record_at(bytes, own.end, low)?;
    if next.key.as_slice().cmp(high).is_lt() {
        return None;
    }
    Some(place)
}

/// Whether these bytes are a key.
pub(crate) fn is_whole(key: &[u8]) -> bool
    ensures { IsTrue result ↔ IsKey key.now }
{
    if key.len() > 255 {
        return false;
    }
    let Some(len) = end_within(&[], key, 255) else {
        return false;
    };
    len == key.len()
}
