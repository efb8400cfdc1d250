ghost use Rattle.std.specs.Prelude.{◌≡◌, ◌+◌, ◌≤◌, All, None, length, OnErr, OnOk};
ghost use Rattle.std.specs.Option.{ForSome};
ghost use Rattle.host_model.specs.Disk.{Changes, Settles};
ghost use Rattle.host_model.specs.Failures.{NeverFell, Rose};
ghost use Rattle.host_model.specs.Moments.{LeavesBy};
ghost use Rattle.host_model.specs.Told.{TellsOn};
ghost use Rattle.gds_epoch.specs.Waiting.{LiesWithin, TornUnits, patched, place_of};
ghost use Rattle.gds_epoch.specs.WaitingView.{units_of};

use crate::UnitBytes;
use host_model::{FileNo, Host, HostFailed};

/// How many bytes the header has, which is unit 0.
const HEADER_LENGTH: u64 = 8192;

/// Writes units into their places in the database file, and makes it stable.
///
/// At any moment a crash leaves what it could have left before, with torn writes of the units. After Ok it leaves the
/// whole units.
pub(crate) fn write_units<H: Host>(
    host: &mut H,
    units: &[UnitBytes],
    block_size: u32,
) -> Result<(), HostFailed>
    requires { ForSome (H.told host.old) (λ c. All (LiesWithin block_size (length c.db)) (units_of units.now)) }
    ensures any_moment { LeavesBy H.moment H.left_since
        (Changes FileNo.Db (TornUnits block_size (units_of units.now))) host.old host.new }
    ensures told { TellsOn (H.told host.old) (H.told host.new)
        (Changes FileNo.Db (TornUnits block_size (units_of units.now))) }
    ensures untold { H.told host.old ≡ None → H.told host.new ≡ None }
    ensures written { OnOk result (TellsOn (H.told host.old) (H.told host.new)
        (λ c d. d ≡ record c { db = patched block_size (units_of units.now) c.db })) }
    ensures settled { OnOk result (ForSome (H.told host.old) (λ c. Settles FileNo.Db
        (patched block_size (units_of units.now) c.db) (H.left_since host.new (H.moment host.new)))) }
    ensures clock { H.moment host.new ≤ H.moment host.old + (length units.now + 1) }
    ensures failures { NeverFell (H.failures host.old) (H.failures host.new) }
    ensures failed { OnErr result (Rose (H.failures host.old).write (H.failures host.new).write) }
{
    write_each(host, units, block_size)?;
    host.sync(FileNo::Db)
}

/// Writes units into their places in the database file.
fn write_each<H: Host>(host: &mut H, units: &[UnitBytes], block_size: u32) -> Result<(), HostFailed>
    requires { ForSome (H.told host.old) (λ c. All (LiesWithin block_size (length c.db)) (units_of units.now)) }
    ensures any_moment { LeavesBy H.moment H.left_since
        (Changes FileNo.Db (TornUnits block_size (units_of units.now))) host.old host.new }
    ensures told { TellsOn (H.told host.old) (H.told host.new)
        (Changes FileNo.Db (TornUnits block_size (units_of units.now))) }
    ensures untold { H.told host.old ≡ None → H.told host.new ≡ None }
    ensures written { OnOk result (TellsOn (H.told host.old) (H.told host.new)
        (λ c d. d ≡ record c { db = patched block_size (units_of units.now) c.db })) }
    ensures clock { H.moment host.new ≤ H.moment host.old + length units.now }
    ensures failures { NeverFell (H.failures host.old) (H.failures host.new) }
    ensures failed { OnErr result (Rose (H.failures host.old).write (H.failures host.new).write) }
{
    for unit in units {
        host.write_at(FileNo::Db, place_of(unit.unit, block_size), &unit.bytes)?;
    }
    Ok(())
}

/// Where a unit begins in a database file with blocks of this size.
pub fn place_of(unit: u32, block_size: u32) -> u64
    ensures { result ≡ place_of block_size unit }
{
    match unit.checked_sub(1) {
        None => 0,
        Some(block) => HEADER_LENGTH + u64::from(block) * u64::from(block_size),
    }
}
