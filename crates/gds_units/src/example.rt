ghost use Rattle.std.specs.Prelude.{◌≡◌, ◌++◌, ◌<◌, ◌≤◌, ◌⊎◌, Some, OnOk};
ghost use Rattle.host_model.specs.Moments.{EachLeft, LeavesOnly};
ghost use Rattle.host_model.specs.Told.{TellsOn};
ghost use Rattle.gds_epoch.specs.Epoch.{database_of};
ghost use Rattle.gds_epoch.specs.WaitingView.{units_of};
ghost use Rattle.gds_header.specs.Fields.{place_of};
ghost use Rattle.gds_units.specs.Durable.{AsBefore, IsStored, Stores};
ghost use Rattle.gds_units.specs.Example.{IsOnTheWay, WhereFileTold};
ghost use Rattle.gds_units.specs.Plan.{IsPlan, header_after, image_after};
ghost use Rattle.gds_units.specs.State.{WhereTold, image_of};

use crate::error::{SayFailed, UnitError};
use crate::{Plan, Units};
use host_model::Host;
use thiserror::Error;

/// Why the example ended early.
#[derive(Clone, Copy, Debug, PartialEq, Eq, Error)]
pub enum ExampleError {
    /// A call on the units failed.
    #[error("the units could not be changed")]
    Units(UnitError),
    /// What was to be said could not be said.
    #[error("the output failed")]
    Said,
}

impl From<UnitError> for ExampleError {
    fn from(error: UnitError) -> ExampleError {
        ExampleError::Units(error)
    }
}

impl From<SayFailed> for ExampleError {
    fn from(_: SayFailed) -> ExampleError {
        ExampleError::Said
    }
}

/// The example to copy: a plan is carried out and made durable, the file is made longer, a second plan is carried out,
/// and then it is said that the first is done.
///
/// At any moment a crash leaves what the next opening would have found before the call, or the image at its entry, or
/// the image with the first plan, and some of `done` said in this last case alone. So who reads any of `done` can rely
/// on the first plan. After Ok it leaves the image with the first plan, and all of `done` said. The second plan isn't
/// durable before the next epoch.
pub fn change_and_tell<H: Host>(
    units: &mut Units<H>,
    first: Plan,
    total: u32,
    second: Plan,
    done: &[u8],
) -> Result<(), ExampleError>
    requires first { IsPlan units.old.header units.old.extent (units_of first.units.items) }
    requires more { (header_after units.old.header (units_of first.units.items)).total < total }
    requires limit { total ≤ 8388608 }
    requires second { let header = header_after units.old.header (units_of first.units.items) in
        IsPlan header (place_of header total) (units_of second.units.items) }
    ensures any_moment { WhereFileTold H.told units.old (λ c file.
        LeavesOnly H.moment H.left_since units.old.host units.new.host
        (IsOnTheWay H.moment H.left_since units.old.host c file
        (image_after units.old.header (units_of first.units.items) file) done.now)) }
    ensures stored { OnOk result (WhereFileTold H.told units.old (λ c file.
        EachLeft H.moment H.left_since units.new.host
        (Stores (image_after units.old.header (units_of first.units.items) file) (c.said ++ done.now)))) }
{
    make_durable(units, first)?;
    change_on(units, total, second)?;
    Ok(units.say(done)?)
}

/// Carries a plan out and makes it durable.
fn make_durable<H: Host>(units: &mut Units<H>, plan: Plan) -> Result<(), UnitError>
    requires { IsPlan units.old.header units.old.extent (units_of plan.units.items) }
    ensures header { OnOk result (units.new.header ≡ header_after units.old.header (units_of plan.units.items)) }
    ensures said { TellsOn (H.told units.old.host) (H.told units.new.host) (λ c d. d.said ≡ c.said) }
    ensures image { OnOk result (WhereFileTold H.told units.old (λ c file.
        image_of units.new ≡ Some (image_after units.old.header (units_of plan.units.items) file))) }
    ensures stored { OnOk result (WhereFileTold H.told units.old (λ c file.
        IsStored H.moment H.left_since (image_after units.old.header (units_of plan.units.items) file)
        c.said units.new.host)) }
    ensures any_moment { WhereFileTold H.told units.old (λ c file.
        LeavesOnly H.moment H.left_since units.old.host units.new.host (λ d.
        AsBefore H.moment H.left_since units.old.host d ⊎ Stores (database_of file) c.said d
        ⊎ Stores (image_after units.old.header (units_of plan.units.items) file) c.said d)) }
{
    units.commit(plan)?;
    units.epoch()
}

/// Makes the file longer and carries a plan out. Where the image is stored, a crash leaves it all the while.
fn change_on<H: Host>(units: &mut Units<H>, total: u32, plan: Plan) -> Result<(), UnitError>
    requires more { units.old.header.total < total }
    requires limit { total ≤ 8388608 }
    requires plan { IsPlan units.old.header (place_of units.old.header total) (units_of plan.units.items) }
    ensures said { TellsOn (H.told units.old.host) (H.told units.new.host) (λ c d. d.said ≡ c.said) }
    ensures any_moment { WhereTold H.told units.old (λ c image.
        IsStored H.moment H.left_since image c.said units.old.host
        → LeavesOnly H.moment H.left_since units.old.host units.new.host (Stores image c.said)) }
{
    units.grow(total)?;
    units.commit(plan)
}
