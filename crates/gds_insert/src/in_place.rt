ghost use Rattle.std.specs.Prelude.{◌≡◌, ◌<◌, ◌++◌, ℕ, All, IfOk, List, OnErr, OnOk, None, length};
ghost use Rattle.std.specs.Bool.{OnFalse, OnTrue};
ghost use Rattle.gds_base.specs.Drafting.{Drafts, IsDraftFor, OnlyDrafts, WithDraft};
ghost use Rattle.gds_base.specs.Ending.{EndsReading};
ghost use Rattle.gds_block.specs.Item.{Item};
ghost use Rattle.gds_edit.specs.Edited.{IsEdit};
ghost use Rattle.gds_header.specs.Fields.{block_of};
ghost use Rattle.gds_pack.specs.Packable.{ArePackable};
ghost use Rattle.gds_search.specs.PackedBlock.{IsPackedBlock};
ghost use Rattle.gds_search.specs.Place.{IsPlaceFor};
ghost use Rattle.gds_units.specs.Reading.{OnlyRead};
ghost use Rattle.gds_units.specs.State.{image_of};
ghost use Rattle.gds_splice.specs.Writing.{HasMore};
ghost use Rattle.gds_insert.specs.Leaf.{with_item};
ghost use Rattle.gds_insert.specs.Setting.{IsNoLeaf, SetsLeaf};

use gds_base::{Base, BaseError};
use gds_draft::Draft;
use gds_edit::{EditError, Place, insert, replace};
use host_model::Host;
use std::alloc::Global;

// Sets an item in the block of a leaf, at the place of its key, and answers whether there was room for it. Where there
// was none nothing has changed.
pub(crate) fn set_in_place<H: Host>(
    alloc: Global,
    base: &mut Base<H>,
    draft: &mut Draft,
    leaf: u32,
    place: &Place,
    key: &[u8],
    rest: &[u8],
) -> Result<bool, BaseError>
    requires draft { IsDraftFor base.old.header draft.old }
    requires there { leaf < draft.old.header.total }
    ensures set { IfOk result (λ done. OnTrue done (Drafts base.old draft.old draft.new
        (SetsLeaf leaf place.now key.now rest.now))) }
    ensures full { IfOk result (λ done. OnFalse done (draft.new ≡ draft.old)) }
    ensures more { HasMore draft.old draft.new 1 }
    ensures drafts { OnlyDrafts H.told H.moment H.failures H.left_since base.old base.new draft.old draft.new 1 }
    ensures ends { EndsReading (H.failures base.old.host) (H.failures base.new.host)
        (WithDraft base.old draft.old (IsNoLeaf leaf place.now key.now rest.now)) result }
{
    let mut bytes = copy_block(alloc, base, draft, leaf)?;
    put_edited(alloc, base, draft, leaf, &mut bytes, place, key, rest)
}

// A copy of a block of the image with a draft.
fn copy_block<H: Host>(
    alloc: Global,
    base: &mut Base<H>,
    draft: &Draft,
    n: u32,
) -> Result<Vec<u8>, BaseError>
    requires draft { IsDraftFor base.old.header draft.now }
    requires there { n < draft.now.header.total }
    ensures bytes { IfOk result (λ v. WithDraft base.old draft.now (λ file. v.items ≡ block_of file n)) }
    ensures len { IfOk result (λ v. length v.items ≡ base.old.header.block_size) }
    ensures read { OnlyRead H.told H.moment H.failures H.left_since base.old base.new }
    ensures ends { EndsReading (H.failures base.old.host) (H.failures base.new.host)
        (image_of base.old ≡ None) result }
{
    Ok(Vec::from_slice(alloc, base.read(draft, n)?)?)
}

// Sets an item in the bytes of a leaf and gives its block these bytes in the draft, if there is room for it.
fn put_edited<H: Host>(
    alloc: Global,
    base: &Base<H>,
    draft: &mut Draft,
    leaf: u32,
    bytes: &mut [u8],
    place: &Place,
    key: &[u8],
    rest: &[u8],
) -> Result<bool, BaseError>
    requires draft { IsDraftFor base.now.header draft.old }
    requires there { leaf < draft.old.header.total }
    requires size { length bytes.old ≡ base.now.header.block_size }
    ensures set { IfOk result (λ done. OnTrue done (Drafts base.now draft.old draft.new (λ before after.
        bytes.old ≡ block_of before leaf → SetsLeaf leaf place.now key.now rest.now before after))) }
    ensures full { IfOk result (λ done. OnFalse done (draft.new ≡ draft.old)) }
    ensures more { HasMore draft.old draft.new 1 }
    ensures ends { EndsReading (H.failures base.now.host) (H.failures base.now.host)
        (WithDraft base.now draft.old (λ file. bytes.old ≡ block_of file leaf
        → IsNoLeaf leaf place.now key.now rest.now file)) result }
{
    are_bytes(bytes);
    let _drafted = draft.header();
    match edit(bytes, place, key, rest) {
        Ok(()) => {
            base.put(alloc, draft, leaf, bytes)?;
            Ok(true)
        }
        Err(EditError::NoRoom) => Ok(false),
        Err(EditError::Misplaced) => Err(BaseError::Changed {
            unit: leaf.saturating_add(1),
        }),
    }
}

// Sets an item at the place of its key in the bytes of a leaf: it is put in, or the one that has the key gets its rest.
fn edit(bytes: &mut [u8], place: &Place, key: &[u8], rest: &[u8]) -> Result<(), EditError>
    ensures { (front back : List Item) → IsPackedBlock bytes.old 0 (front ++ back)
        → IsPlaceFor (front ++ back) key.now place.now front back
        → ArePackable 0 (with_item place.now.is_equal front back (record { key = key.now; rest = rest.now }))
        → IsEdit bytes.old bytes.new 0
        (with_item place.now.is_equal front back (record { key = key.now; rest = rest.now })) result }
{
    if place.is_equal {
        replace(bytes, place, rest)
    } else {
        insert(bytes, place, key, rest)
    }
}

// Does nothing: the items of a slice of bytes are bytes.
fn are_bytes(bytes: &[u8])
    ensures { All (λ b. b < 256) bytes.now }
{}
