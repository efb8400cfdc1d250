ghost use Rattle.std.specs.Prelude.{◌≡◌, ◌+◌, ◌^◌, ◌<◌, ◌≤◌, IfOk, None, length};
ghost use Rattle.std.specs.Option.{ForSome};
ghost use Rattle.gds_base.specs.Drafting.{IsDraftFor};
ghost use Rattle.gds_base.specs.Faultless.{IsFaultless};
ghost use Rattle.gds_draft.specs.Drafted.{drafted};
ghost use Rattle.gds_file.specs.Room.{new_maps, room_of};
ghost use Rattle.gds_globals.specs.Ending.{EndsDrafting};
ghost use Rattle.gds_globals.specs.Ready.{IsNextHeader, LeadsToSet};
ghost use Rattle.gds_shape.specs.Depth.{IsDeep};
ghost use Rattle.gds_units.specs.Reading.{OnlyRead};
ghost use Rattle.gds_units.specs.State.{image_of};
ghost use Rattle.m_key.specs.Key.{key_bytes};
ghost use Rattle.m_key.specs.Reference.{node_of, place_of};

use crate::asking::short_key;
use crate::setting::set_in_draft;
use gds_base::{Base, BaseError};
use gds_draft::Draft;
use host_model::Host;
use m_key::Reference;
use std::alloc::Global;

/// No commit begins at this transaction number.
pub(crate) const LAST_NUMBER: u64 = 1 << 63;

/// Makes a SET ready: the draft with which a commit makes the image that of the map after the SET.
///
/// Nothing is changed yet. What can be said against a SET comes first, in this order: `KeyTooLong`, `ValueTooLong`,
/// `TnSpent` and `Full`. `TooDeep` comes only where the image is deep for the node.
pub fn draft_set<H: Host>(
    alloc: Global,
    base: &mut Base<H>,
    reference: &Reference,
    value: &[u8],
) -> Result<Draft, BaseError>
    ensures draft { IfOk result (λ draft. IsDraftFor base.new.header draft) }
    ensures header { IfOk result (λ draft. IsNextHeader base.old.header draft.header) }
    ensures few { IfOk result (λ draft.
        length draft.units ≤ 47 + new_maps base.old.header.total draft.header.total) }
    ensures used { IfOk result (λ draft. ForSome (image_of base.old) (λ _.
        room_of base.old.header ≤ room_of draft.header + 32)) }
    ensures faultless { IfOk result (λ draft. ForSome (image_of base.old) (λ image.
        IsFaultless (drafted draft image))) }
    ensures map { IfOk result (λ draft. ForSome (image_of base.old)
        (LeadsToSet draft (place_of reference.now) value.now)) }
    ensures read { OnlyRead H.told H.moment H.failures H.left_since base.old base.new }
    ensures ends { EndsDrafting base.old.header (length (key_bytes (node_of reference.now))) (length value.now)
        (image_of base.old ≡ None) (ForSome (image_of base.old) (λ image. IsDeep image (node_of reference.now)))
        (H.failures base.old.host) (H.failures base.new.host) result }
{
    let header = *base.header();
    let key = short_key(&header, reference)?;
    if value.len() > header.value_max as usize {
        return Err(BaseError::ValueTooLong);
    }
    if header.tn >= LAST_NUMBER {
        return Err(BaseError::TnSpent);
    }
    draft_with(alloc, base, reference, &key, value)
}

// The same for a key and a value that are short enough.
fn draft_with<H: Host>(
    alloc: Global,
    base: &mut Base<H>,
    reference: &Reference,
    key: &[u8],
    value: &[u8],
) -> Result<Draft, BaseError>
    requires key { key.now ≡ key_bytes (node_of reference.now) }
    requires short { length key.now ≤ base.old.header.key_max }
    requires small { length value.now ≤ base.old.header.value_max }
    requires unspent { base.old.header.tn < 2 ^ 63 }
    ensures draft { IfOk result (λ draft. IsDraftFor base.new.header draft) }
    ensures header { IfOk result (λ draft. IsNextHeader base.old.header draft.header) }
    ensures few { IfOk result (λ draft.
        length draft.units ≤ 47 + new_maps base.old.header.total draft.header.total) }
    ensures used { IfOk result (λ draft. ForSome (image_of base.old) (λ _.
        room_of base.old.header ≤ room_of draft.header + 32)) }
    ensures faultless { IfOk result (λ draft. ForSome (image_of base.old) (λ image.
        IsFaultless (drafted draft image))) }
    ensures map { IfOk result (λ draft. ForSome (image_of base.old)
        (LeadsToSet draft (place_of reference.now) value.now)) }
    ensures read { OnlyRead H.told H.moment H.failures H.left_since base.old base.new }
    ensures ends { EndsDrafting base.old.header (length (key_bytes (node_of reference.now))) (length value.now)
        (image_of base.old ≡ None) (ForSome (image_of base.old) (λ image. IsDeep image (node_of reference.now)))
        (H.failures base.old.host) (H.failures base.new.host) result }
{
    let mut draft = base.draft(alloc);
    base.hold_draft(&draft);
    let _limits = base.header();
    base.reserve32(alloc, &mut draft)?;
    base.hold_draft(&draft);
    set_in_draft(alloc, base, &mut draft, reference, key, value)?;
    base.hold_draft(&draft);
    draft.hold_bytes();
    Ok(draft)
}
