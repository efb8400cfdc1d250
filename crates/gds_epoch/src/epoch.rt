ghost use Rattle.std.specs.Prelude.{◌≡◌, ◌+◌, ◌*◌, ◌^◌, ◌<◌, ◌≤◌, None, length, take, OnOk, OnErr};
ghost use Rattle.std.specs.Option.{ForSome};
ghost use Rattle.host_model.specs.Failures.{NeverFell, Rose};
ghost use Rattle.host_model.specs.Told.{TellsOn};
ghost use Rattle.host_model.specs.Moments.{EachLeft, HasCome};
ghost use Rattle.gds_images.specs.Outcome.{IsAtRest};
ghost use Rattle.gds_epoch.specs.State.{Rests};
ghost use Rattle.gds_epoch.specs.Epoch.{FindsEither, IsDone, IsReady, StaysPatched, database_of};
ghost use Rattle.gds_epoch.specs.Waiting.{patched};

use crate::Waiting;
use crate::units::write_units;
use gds_images::{Group, append_group, close_gate, open_gate};
use host_model::{Host, HostFailed};

/// Where gate 0 stands in the file of images.
const FIRST_GATE: u64 = 8;

/// Makes the units that wait durable: the database with them in their places becomes that of the new epoch.
///
/// `images` are old bytes of the database of the last epoch, which has `epoch_length` bytes, and which the database
/// file begins with. They have all that the waiting units go over within it. Gate 0 is closed.
///
/// A crash at any moment leaves files of which an opening finds the database of the last epoch or the new one, and
/// after Ok the new one alone. It takes no memory.
pub fn write_epoch<H: Host>(
    host: &mut H,
    images: &mut Group,
    waiting: &Waiting,
    block_size: u32,
    epoch_length: u64,
) -> Result<(), HostFailed>
    requires short { epoch_length < 2 ^ 63 }
    requires ready { ForSome (H.told host.old) (IsReady block_size epoch_length images.old waiting.now.units) }
    requires rest { ForSome (H.told host.old) (λ c.
        EachLeft H.moment H.left_since host.old (IsAtRest (take epoch_length c.db))) }
    ensures images { images.new ≡ images.old }
    ensures told { TellsOn (H.told host.old) (H.told host.new) (StaysPatched block_size waiting.now.units) }
    ensures untold { H.told host.old ≡ None → H.told host.new ≡ None }
    ensures done { OnOk result (TellsOn (H.told host.old) (H.told host.new) (IsDone block_size waiting.now.units)) }
    // At any moment of the call, and now, a crash leaves what either of the two databases is found of.
    ensures any_moment { ForSome (H.told host.old) (λ c.
        let either = FindsEither block_size epoch_length waiting.now.units c in
        HasCome H.moment H.left_since host.old host.new either either) }
    ensures rest { OnOk result (ForSome (H.told host.old) (λ c.
        EachLeft H.moment H.left_since host.new
        (Rests (database_of (patched block_size waiting.now.units c.db)) c))) }
    ensures clock { H.moment host.new ≤ H.moment host.old + (3 * length waiting.now.units + 8) }
    ensures failures { NeverFell (H.failures host.old) (H.failures host.new) }
    ensures failed { OnErr result (Rose (H.failures host.old).write (H.failures host.new).write) }
{
    append_group(host, FIRST_GATE, images, epoch_length)?;
    open_gate(host, FIRST_GATE)?;
    write_units(host, waiting.as_slice(), block_size)?;
    close_gate(host)
}
