ghost use Rattle.std.specs.Prelude.{◌≡◌, ◌<◌, All, IfOk, IfSome, List, None, suc, ℕ};
ghost use Rattle.gds_base.specs.Drafting.{IsDraftFor, WithDraft};
ghost use Rattle.gds_base.specs.Ending.{EndsReading};
ghost use Rattle.gds_block.specs.Item.{Item};
ghost use Rattle.gds_search.specs.PackedBlock.{IsPackedBlock};
ghost use Rattle.gds_units.specs.Reading.{OnlyRead};
ghost use Rattle.gds_units.specs.State.{image_of};
ghost use Rattle.gds_remove.specs.Range.{range_of};
ghost use Rattle.gds_remove.specs.Sole.{HasSole, IsSole};

use crate::in_place::is_whole;
use crate::range::{KeyRange, RangeLeft};
use gds_base::{Base, BaseError};
use gds_block::{BlockView, pointer_of};
use gds_draft::Draft;
use gds_find::record_at;
use gds_search::search;
use host_model::Host;

/// A child of an index block in whose bounds a whole range of keys lies.
#[derive(Clone, Copy, Debug)]
pub(crate) struct SoleChild {
    pub(crate) block: u32,
    /// Where the record of its entry begins.
    pub(crate) offset: u32,
}

/// The child of an index block in whose bounds the range lies, found where the block's records stand. `None` where
/// there is no such child, where an end of the range isn't known, or where it begins at the key of an entry.
pub(crate) fn sole_child<H: Host>(
    base: &mut Base<H>,
    draft: &Draft,
    n: u32,
    level: u8,
    range: KeyRange<'_>,
) -> Result<Option<SoleChild>, BaseError>
    requires draft { IsDraftFor base.old.header draft.now }
    requires index { 0 < level }
    ensures sole { IfOk result (λ found. IfSome found (λ sole.
        WithDraft base.old draft.now (IsSole n level (range_of range.entry) sole))) }
    ensures read { OnlyRead H.told H.moment H.failures H.left_since base.old base.new }
    ensures ends { EndsReading (H.failures base.old.host) (H.failures base.new.host) (image_of base.old ≡ None) result }
{
    if n >= draft.header().total {
        return Ok(None);
    }
    let bytes = base.read(draft, n)?;
    are_bytes(bytes);
    Ok(sole_in(bytes, range))
}

// The same in the bytes of the block.
fn sole_in(bytes: &[u8], range: KeyRange<'_>) -> Option<SoleChild>
    ensures { IfSome result (λ sole. (level : ℕ) (es : List Item) → IsPackedBlock bytes.now (suc level) es
        → HasSole es (range_of range.entry) sole) }
{
    let low = range.low?;
    if !is_whole(low) {
        return None;
    }
    let view = BlockView::new(bytes)?;
    let Ok(place) = search(&view, low) else {
        return None;
    };
    if place.is_equal {
        return None;
    }
    let record = record_at(bytes, place.offset, low)?;
    let left = RangeLeft {
        range,
        is_past: false,
    };
    if !left.ends_below(record.key.as_slice()) {
        return None;
    }
    let block = pointer_of(record.rest)?;
    let Ok(offset) = u32::try_from(place.offset) else {
        return None;
    };
    Some(SoleChild { block, offset })
}

// Does nothing: the items of a slice of bytes are bytes.
fn are_bytes(bytes: &[u8])
    ensures { All (λ b. b < 256) bytes.now }
{}
