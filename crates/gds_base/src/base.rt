ghost use Rattle.std.specs.Prelude.{◌≡◌, ◌<◌, [], All, IfErr, IfOk, None, Some};
ghost use Rattle.std.specs.Option.{ForSome};
ghost use Rattle.host_model.specs.Moments.{EachLeft};
ghost use Rattle.gds_header.specs.Fields.{fields_of};
ghost use Rattle.gds_header.specs.Kinds.{IsWithinLimits};
ghost use Rattle.gds_base.specs.Drafting.{IsDraftFor};
ghost use Rattle.gds_base.specs.Faultless.{IsFaultless};
ghost use Rattle.gds_draft.specs.Laws.{IsDraftOf};
ghost use Rattle.gds_images.specs.Outcome.{IsWhole};
ghost use Rattle.gds_units.specs.Held.{IsRecoverable};
ghost use Rattle.gds_units.specs.State.{image_of};

use gds_draft::Draft;
use gds_header::Header;
use gds_units::Units;
use host_model::Host;
use std::alloc::Global;
use std::marker::Model;

/// An open database that has no fault, where its host tells what it holds.
///
/// Clauses see a `Base` as its units. Changes are made ready in drafts, and a commit makes the image that of the draft.
#[derive(Drop)]
pub struct Base<H: Host> {
    pub(crate) units: Units<H>,
    /// Room for one block.
    pub(crate) room: Vec<u8>,
}

impl<H: Host> Model for Base<H> {
    ghost use Rattle.gds_base.specs.Held.{IsBase};
    ghost use Rattle.gds_units.specs.State.{UnitsState};

    ghost Value = { UnitsState H };

    ghost view = { λ base. base.units };

    ghost invariant = { λ base. IsBase base.units base.room.items };
}

impl<H: Host> Base<H> {
    /// The base of an open database without any fault. Where memory runs out the units are handed back.
    pub fn adopt(alloc: Global, units: Units<H>) -> Result<Base<H>, Units<H>>
        requires faultless { ForSome (image_of units) IsFaultless }
        requires bytes { ForSome (image_of units) (All (λ b. b < 256)) }
        ensures base { IfOk result (λ base. base ≡ units) }
        ensures back { IfErr result (λ back. back ≡ units) }
    {
        match Vec::from_elem(alloc, 0, units.header().block_size as usize) {
            Ok(room) => Ok(Base { units, room }),
            Err(_) => Err(units),
        }
    }

    /// The units, as they are.
    pub fn into_units(self) -> Units<H>
        ensures units { result ≡ self }
        ensures faultless { ForSome (image_of self) IsFaultless }
        ensures bytes { ForSome (image_of self) (All (λ b. b < 256)) }
    {
        let Base { units, .. } = self;
        units
    }

    /// The header of the image, which has no fault and is made of bytes.
    ///
    /// With it comes what is always known of a base, as of its units: the next opening finds some database of each
    /// thing that a crash now may leave.
    pub fn header(&self) -> &Header
        ensures header { result.now ≡ self.now.header }
        ensures limits { IsWithinLimits self.now.header }
        ensures image { ForSome (image_of self.now) IsWhole }
        ensures fields { ForSome (image_of self.now) (λ image. fields_of image ≡ self.now.header) }
        ensures faultless { ForSome (image_of self.now) IsFaultless }
        ensures bytes { ForSome (image_of self.now) (All (λ b. b < 256)) }
        ensures found { ForSome (H.told self.now.host)
            (λ _. EachLeft H.moment H.left_since self.now.host IsRecoverable) }
    {
        self.units.header()
    }

    /// A draft that changes nothing yet.
    pub fn draft(&self, alloc: Global) -> Draft
        ensures header { result.header ≡ self.now.header }
        ensures none { result.units ≡ [] }
    {
        Draft::new(alloc, self.units.header())
    }

    /// Does nothing: what may be a draft of a database is one of its image.
    pub fn hold_draft(&self, draft: &Draft)
        requires { IsDraftFor self.now.header draft.now }
        ensures { ForSome (image_of self.now) (λ image. IsDraftOf image draft.now) }
    {
        let _header = self.units.header();
        let _drafted = draft.header();
    }

    /// Does nothing: the image is told exactly where the host tells. Where no unit waits, the file is what the host
    /// tells.
    pub fn hold_told(&self)
        ensures untold { H.told self.now.host ≡ None → image_of self.now ≡ None }
        ensures tells { image_of self.now ≡ None → H.told self.now.host ≡ None }
        ensures file { self.now.changed ≡ 0 → ForSome (H.told self.now.host) (λ c. self.now.file ≡ Some c.db) }
    {
        self.units.hold_told();
    }
}
