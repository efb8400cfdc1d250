ghost use Rattle.std.specs.Prelude.{◌≡◌, ◌^◌, ◌<◌, ◌≤◌, None, All, IfOk, length, map};
ghost use Rattle.gds_base.specs.Commit.{IsPlanOf, stamped};
ghost use Rattle.gds_epoch.specs.Waiting.{WaitingUnit};
ghost use Rattle.gds_epoch.specs.WaitingView.{unit_of, units_of};
ghost use Rattle.gds_header.specs.Fields.{fields_of, header_bytes};
ghost use Rattle.gds_header.specs.Kinds.{IsWithinLimits, unreadable};

use gds_block::put_u64;
use gds_draft::Draft;
use gds_epoch::UnitBytes;
use gds_header::{HEADER_LENGTH, Header};
use gds_units::Plan;
use std::alloc::{AllocError, Global};

/// The plan of a commit: the header with the next transaction number, and the draft's blocks with that of now.
pub(crate) fn plan_of(alloc: Global, draft: Draft) -> Result<Plan, AllocError>
    requires { draft.header.tn < 2 ^ 63 }
    ensures { IfOk result (λ plan. IsPlanOf draft (units_of plan.units.items)) }
{
    let header = *draft.header();
    let front = header_unit(
        alloc,
        &Header {
            tn: header.tn + 1,
            ..header
        },
    )?;
    let mut units = draft.into_units();
    stamp(&mut units, header.tn);
    units.insert(0, front)?;
    Ok(Plan { units })
}

/// The unit of a header.
fn header_unit(alloc: Global, header: &Header) -> Result<UnitBytes, AllocError>
    requires { IsWithinLimits header.now }
    ensures unit { IfOk result (λ unit. unit_of unit ≡ record { unit = 0; bytes = header_bytes header.now }) }
    ensures again { IfOk result (λ _. fields_of (header_bytes header.now) ≡ header.now) }
    ensures readable { IfOk result (λ _. unreadable (header_bytes header.now) ≡ None) }
{
    let mut bytes = Vec::from_elem(alloc, 0, HEADER_LENGTH)?;
    header.write(&mut bytes);
    Ok(UnitBytes { unit: 0, bytes })
}

/// Gives each unit a transaction number.
fn stamp(units: &mut Vec<UnitBytes>, tn: u64)
    requires { All (λ (w : WaitingUnit). 16 ≤ length w.bytes) (units_of units.old.items) }
    ensures { units_of units.new.items ≡ map (stamped tn) (units_of units.old.items) }
{
    for unit in units.iter_mut() {
        stamp_unit(unit, tn);
    }
}

/// Gives a unit a transaction number.
fn stamp_unit(unit: &mut UnitBytes, tn: u64)
    requires { 16 ≤ length unit.old.bytes.items }
    ensures { unit_of unit.new ≡ stamped tn (unit_of unit.old) }
{
    put_u64(&mut unit.bytes, 8, tn);
}
