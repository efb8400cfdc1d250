ghost use Rattle.std.specs.Prelude.{◌≡◌, Err, IfNone, IfOk, IfSome, None, OnErr, OnOk, length};
ghost use Rattle.std.specs.Option.{ForSome};
ghost use Rattle.host_model.specs.Failures.{NeverFell};
ghost use Rattle.host_model.specs.Told.{TellsOn};
ghost use Rattle.gds_base.specs.Drafting.{IsDraftFor};
ghost use Rattle.gds_base.specs.declared.error.BaseError.TheVariants.{TnSpent};
ghost use Rattle.gds_globals.specs.Ending.{OnRefusal};
ghost use Rattle.gds_globals.specs.Kill.{EndsDraftingKill, EndsKilling, IsAfterKill, IsNothingThere};
ghost use Rattle.gds_globals.specs.Kill.{IsSomethingThere};
ghost use Rattle.gds_globals.specs.Killing.{IsReadyKill};
ghost use Rattle.gds_units.specs.Durable.{KeepsOrStores, KeptAllOrStored};
ghost use Rattle.gds_units.specs.Reading.{OnlyRead};
ghost use Rattle.gds_units.specs.State.{WhereTold, image_of};
ghost use Rattle.m_key.specs.Key.{key_bytes};
ghost use Rattle.m_key.specs.Reference.{node_of, place_of};

use crate::asking::short_key;
use crate::ready::LAST_NUMBER;
use crate::taking::{kill_in_draft, root_within};
use gds_base::{Base, BaseError};
use gds_draft::Draft;
use host_model::Host;
use m_key::Reference;
use std::alloc::Global;

/// KILL: a node and its descendants lose their values in the image. Where none of them has one the base is only read,
/// and no transaction number is used. Nothing is durable before an epoch.
///
/// # Errors
///
/// The image stays. `KeyTooLong` comes before all else, and `TnSpent` only where there is something to take. After one
/// of these the base was only read.
pub fn kill<H: Host>(
    alloc: Global,
    base: &mut Base<H>,
    reference: &Reference,
) -> Result<(), BaseError>
    ensures map { OnOk result (TellsOn (image_of base.old) (image_of base.new)
        (IsAfterKill (place_of reference.now))) }
    ensures err { OnErr result ((image_of base.new ≡ image_of base.old) × (base.new.header ≡ base.old.header)) }
    ensures refused { OnRefusal result (OnlyRead H.told H.moment H.failures H.left_since base.old base.new) }
    ensures nothing { OnOk result (ForSome (image_of base.old) (λ image. IsNothingThere (node_of reference.now) image
        → OnlyRead H.told H.moment H.failures H.left_since base.old base.new)) }
    ensures spent { result ≡ Err TnSpent → ForSome (image_of base.old) (IsSomethingThere (node_of reference.now)) }
    ensures kept { OnOk result (WhereTold H.told base.old
        (λ c image. KeptAllOrStored H.moment H.left_since image c.said base.old.host base.new.host)) }
    ensures any_moment { WhereTold H.told base.old
        (λ c image. KeepsOrStores H.moment H.left_since image c.said base.old.host base.new.host) }
    ensures said { TellsOn (H.told base.old.host) (H.told base.new.host) (λ c d. d.said ≡ c.said) }
    ensures untold { H.told base.old.host ≡ None → H.told base.new.host ≡ None }
    ensures ends { EndsKilling base.old.header (length (key_bytes (node_of reference.now)))
        (image_of base.old ≡ None) (H.failures base.old.host) (H.failures base.new.host) base.old base.new result }
    ensures failures { NeverFell (H.failures base.old.host) (H.failures base.new.host) }
{
    let _limits = base.header();
    base.hold_told();
    let Some(draft) = draft_kill(alloc, base, reference)? else {
        return Ok(());
    };
    base.hold_draft(&draft);
    base.commit(alloc, draft)
}

/// Makes a KILL ready: the draft with which a commit makes the image that of the map after the KILL, or `None` where
/// neither the node nor a descendant has a value.
///
/// Nothing is changed yet. `KeyTooLong` comes before all else, and `TnSpent` only where there is something to take.
pub fn draft_kill<H: Host>(
    alloc: Global,
    base: &mut Base<H>,
    reference: &Reference,
) -> Result<Option<Draft>, BaseError>
    ensures draft { IfOk result (λ draft. IfSome draft (IsDraftFor base.new.header)) }
    ensures ready { IfOk result (λ draft. IfSome draft
        (IsReadyKill (image_of base.old) base.old.header (place_of reference.now))) }
    ensures nothing { IfOk result (λ draft. IfNone draft
        (ForSome (image_of base.old) (IsNothingThere (node_of reference.now)))) }
    ensures spent { result ≡ Err TnSpent → ForSome (image_of base.old) (IsSomethingThere (node_of reference.now)) }
    ensures read { OnlyRead H.told H.moment H.failures H.left_since base.old base.new }
    ensures ends { EndsDraftingKill base.old.header (length (key_bytes (node_of reference.now)))
        (image_of base.old ≡ None) (H.failures base.old.host) (H.failures base.new.host) result }
{
    let header = *base.header();
    let key = short_key(&header, reference)?;
    let mut draft = base.draft(alloc);
    base.hold_draft(&draft);
    let Some(root) = root_within(alloc, base, &draft, reference, &key)? else {
        return Ok(None);
    };
    if header.tn >= LAST_NUMBER {
        return Err(BaseError::TnSpent);
    }
    kill_in_draft(alloc, base, &mut draft, reference, root, &key)?;
    base.hold_draft(&draft);
    Ok(Some(draft))
}
