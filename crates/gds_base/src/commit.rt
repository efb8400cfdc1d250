ghost use Rattle.std.specs.Prelude.{◌≡◌, ◌≢◌, ◌↔◌, ◌+◌, ◌^◌, ◌<◌, ◌≤◌, Err, None, OnErr, OnOk, length};
ghost use Rattle.std.specs.Option.{ForSome};
ghost use Rattle.host_model.specs.Failures.{NeverFell};
ghost use Rattle.host_model.specs.Told.{TellsOn};
ghost use Rattle.gds_base.specs.Drafting.{IsDraftFor};
ghost use Rattle.gds_base.specs.Ending.{EndsCommit};
ghost use Rattle.gds_base.specs.Faultless.{IsFaultless};
ghost use Rattle.gds_base.specs.Room.{HasZeros};
ghost use Rattle.gds_draft.specs.Committed.{IsCommitted, next_header};
ghost use Rattle.gds_draft.specs.Drafted.{drafted};
ghost use Rattle.gds_draft.specs.Laws.{IsDraftOf};
ghost use Rattle.gds_header.specs.Fields.{place_of};
ghost use Rattle.gds_units.specs.Durable.{KeepsOrStores, KeptAllOrStored};
ghost use Rattle.gds_units.specs.Ending.{EndsWriting};
ghost use Rattle.gds_units.specs.State.{WhereTold, image_of};

use crate::plan::plan_of;
use crate::{Base, BaseError};
use gds_draft::Draft;
use gds_units::{UnitError, Units};
use host_model::Host;
use std::alloc::Global;

/// A commit makes a header's transaction number one more, up to this.
const LAST_NUMBER: u64 = 1 << 63;

impl<H: Host> Base<H> {
    /// Carries a draft out with which the image has no fault: the image becomes the one with the draft. The blocks of
    /// the draft get the header's transaction number, and the header gets the next one. Nothing is durable before an
    /// epoch.
    ///
    /// All memory is taken before anything changes. Where the draft's total is above the image's, the file grows
    /// first, which may store the image.
    ///
    /// # Errors
    ///
    /// The image stays. `TnSpent` comes exactly where the header has the last transaction number, and nothing is done
    /// then.
    pub fn commit(&mut self, alloc: Global, draft: Draft) -> Result<(), BaseError>
        requires draft { IsDraftFor self.old.header draft }
        requires faultless { ForSome (image_of self.old) (λ image. IsFaultless (drafted draft image)) }
        ensures header { OnOk result (self.new.header ≡ next_header draft.header) }
        ensures image { OnOk result (TellsOn (image_of self.old) (image_of self.new) (IsCommitted draft)) }
        ensures changed { self.new.changed ≤ self.old.changed + (length draft.units + 1) }
        ensures err { OnErr result ((image_of self.new ≡ image_of self.old) × (self.new.header ≡ self.old.header)) }
        ensures spent { (result ≡ Err BaseError.TnSpent) ↔ (2 ^ 63 ≤ self.old.header.tn) }
        ensures kept { OnOk result (WhereTold H.told self.old
            (λ c image. KeptAllOrStored H.moment H.left_since image c.said self.old.host self.new.host)) }
        ensures any_moment { WhereTold H.told self.old
            (λ c image. KeepsOrStores H.moment H.left_since image c.said self.old.host self.new.host) }
        ensures said { TellsOn (H.told self.old.host) (H.told self.new.host) (λ c d. d.said ≡ c.said) }
        ensures untold { H.told self.old.host ≡ None → H.told self.new.host ≡ None }
        ensures ends { EndsCommit (H.failures self.old.host) (H.failures self.new.host) self.old self.new
            (H.told self.old.host) result }
        ensures failures { NeverFell (H.failures self.old.host) (H.failures self.new.host) }
    {
        if self.units.header().tn >= LAST_NUMBER {
            return Err(BaseError::TnSpent);
        }
        self.hold_draft(&draft);
        draft.hold_bytes();
        commit_units(&mut self.units, alloc, draft)
    }
}

/// Carries a draft out: the image becomes the one with the draft, with the transaction numbers of a commit.
fn commit_units<H: Host>(units: &mut Units<H>, alloc: Global, draft: Draft) -> Result<(), BaseError>
    requires draft { IsDraftFor units.old.header draft }
    requires image { ForSome (image_of units.old) (λ image. IsDraftOf image draft) }
    requires number { draft.header.tn < 2 ^ 63 }
    ensures header { OnOk result (units.new.header ≡ next_header draft.header) }
    ensures image { OnOk result (TellsOn (image_of units.old) (image_of units.new) (IsCommitted draft)) }
    ensures changed { units.new.changed ≤ units.old.changed + (length draft.units + 1) }
    ensures err { OnErr result ((image_of units.new ≡ image_of units.old) × (units.new.header ≡ units.old.header)) }
    ensures none { image_of units.old ≡ None → image_of units.new ≡ None }
    ensures kept { OnOk result (WhereTold H.told units.old
        (λ c image. KeptAllOrStored H.moment H.left_since image c.said units.old.host units.new.host)) }
    ensures any_moment { WhereTold H.told units.old
        (λ c image. KeepsOrStores H.moment H.left_since image c.said units.old.host units.new.host) }
    ensures said { TellsOn (H.told units.old.host) (H.told units.new.host) (λ c d. d.said ≡ c.said) }
    ensures untold { H.told units.old.host ≡ None → H.told units.new.host ≡ None }
    ensures ends { EndsCommit (H.failures units.old.host) (H.failures units.new.host) units.old units.new
        (H.told units.old.host) result }
    ensures failures { NeverFell (H.failures units.old.host) (H.failures units.new.host) }
    ensures unspent { result ≢ Err BaseError.TnSpent }
{
    let total = draft.header().total;
    let _header = units.header();
    units.hold_told();
    let plan = plan_of(alloc, draft)?;
    make_room(units, total)?;
    units.commit(plan)?;
    let _next = units.header();
    units.hold_told();
    Ok(())
}

/// Makes the file longer by zeros up to a total of blocks, where that is above the image's.
fn make_room<H: Host>(units: &mut Units<H>, total: u32) -> Result<(), UnitError>
    requires limit { total ≤ 8388608 }
    ensures header { units.new.header ≡ units.old.header }
    ensures changed { units.new.changed ≤ units.old.changed }
    ensures image { image_of units.new ≡ image_of units.old }
    ensures zeros { OnOk result (ForSome units.new.file (HasZeros units.old.header total)) }
    ensures extent { OnOk result (place_of units.old.header total ≤ units.new.extent) }
    ensures kept { OnOk result (WhereTold H.told units.old
        (λ c image. KeptAllOrStored H.moment H.left_since image c.said units.old.host units.new.host)) }
    ensures any_moment { WhereTold H.told units.old
        (λ c image. KeepsOrStores H.moment H.left_since image c.said units.old.host units.new.host) }
    ensures said { TellsOn (H.told units.old.host) (H.told units.new.host) (λ c d. d.said ≡ c.said) }
    ensures untold { H.told units.old.host ≡ None → H.told units.new.host ≡ None }
    ensures ends { EndsWriting (H.failures units.old.host) (H.failures units.new.host) units.old units.new result }
    ensures failures { NeverFell (H.failures units.old.host) (H.failures units.new.host) }
{
    let has = units.header().total;
    if units.is_stopped() {
        return Err(UnitError::Stopped);
    }
    if total <= has {
        return Ok(());
    }
    units.grow(total)
}
