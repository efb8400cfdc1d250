ghost use Rattle.std.specs.Prelude.{◌≡◌, ◌+◌, ◌≤◌, None, OnErr, OnOk, length};
ghost use Rattle.std.specs.Option.{ForSome};
ghost use Rattle.host_model.specs.Failures.{NeverFell};
ghost use Rattle.host_model.specs.Told.{TellsOn};
ghost use Rattle.gds_file.specs.Room.{new_maps};
ghost use Rattle.gds_globals.specs.Ending.{EndsSetting, OnRefusal};
ghost use Rattle.gds_globals.specs.Ready.{DiffersInAtMost, IsAfterSet, IsHeaderAfter, UsesAtMost};
ghost use Rattle.gds_shape.specs.Depth.{IsDeep};
ghost use Rattle.gds_units.specs.Durable.{KeepsOrStores, KeptAllOrStored};
ghost use Rattle.gds_units.specs.Reading.{OnlyRead};
ghost use Rattle.gds_units.specs.State.{WhereTold, image_of};
ghost use Rattle.m_key.specs.Key.{key_bytes};
ghost use Rattle.m_key.specs.Reference.{node_of, place_of};

use crate::ready::draft_set;
use gds_base::{Base, BaseError};
use host_model::Host;
use m_key::Reference;
use std::alloc::Global;

/// SET: a node gets a value in the image. Nothing is durable before an epoch.
///
/// # Errors
///
/// The image stays. What can be said against a SET comes before all else, in this order: `KeyTooLong`, `ValueTooLong`,
/// `TnSpent` and `Full`. `TooDeep` comes only where the image is deep for the node. After one of these the base was
/// only read.
pub fn set<H: Host>(
    alloc: Global,
    base: &mut Base<H>,
    reference: &Reference,
    value: &[u8],
) -> Result<(), BaseError>
    ensures map { OnOk result (TellsOn (image_of base.old) (image_of base.new)
        (IsAfterSet (place_of reference.now) value.now)) }
    ensures header { OnOk result (IsHeaderAfter base.old.header base.new.header) }
    ensures differs { OnOk result (TellsOn (image_of base.old) (image_of base.new) (DiffersInAtMost 64)) }
    ensures used { OnOk result (TellsOn (image_of base.old) (image_of base.new) (UsesAtMost 32)) }
    ensures changed { OnOk result
        (base.new.changed ≤ base.old.changed + (48 + new_maps base.old.header.total base.new.header.total)) }
    ensures err { OnErr result ((image_of base.new ≡ image_of base.old) × (base.new.header ≡ base.old.header)) }
    ensures refused { OnRefusal result (OnlyRead H.told H.moment H.failures H.left_since base.old base.new) }
    ensures kept { OnOk result (WhereTold H.told base.old
        (λ c image. KeptAllOrStored H.moment H.left_since image c.said base.old.host base.new.host)) }
    ensures any_moment { WhereTold H.told base.old
        (λ c image. KeepsOrStores H.moment H.left_since image c.said base.old.host base.new.host) }
    ensures said { TellsOn (H.told base.old.host) (H.told base.new.host) (λ c d. d.said ≡ c.said) }
    ensures untold { H.told base.old.host ≡ None → H.told base.new.host ≡ None }
    ensures ends { EndsSetting base.old.header (length (key_bytes (node_of reference.now))) (length value.now)
        (image_of base.old ≡ None) (ForSome (image_of base.old) (λ image. IsDeep image (node_of reference.now)))
        (H.failures base.old.host) (H.failures base.new.host) base.old base.new result }
    ensures failures { NeverFell (H.failures base.old.host) (H.failures base.new.host) }
{
    let _limits = base.header();
    base.hold_told();
    let draft = draft_set(alloc, base, reference, value)?;
    base.hold_draft(&draft);
    base.commit(alloc, draft)
}
