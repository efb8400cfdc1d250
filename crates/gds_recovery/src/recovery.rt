ghost use Rattle.std.specs.Prelude.{◌≡◌, None, IfErr, IfOk, IsErrOf, OnOk};
ghost use Rattle.std.specs.Option.{ForSome};
ghost use Rattle.host_model.specs.Failures.{NeverFell};
ghost use Rattle.host_model.specs.Moments.{EachLeft};
ghost use Rattle.host_model.specs.Told.{TellsOn};
ghost use Rattle.gds_header.specs.Kinds.{IsWithinLimits};
ghost use Rattle.gds_recovery.specs.Errors.{HasCause};
ghost use Rattle.gds_recovery.specs.Found.{FindsSame, HasNothingToDo, IsOpened, IsUnwritten, LeavesSinceBarrier};
ghost use Rattle.gds_recovery.specs.Steps.{StaysFound};

use crate::closing::return_to_epoch;
use crate::error::RecoveryError;
use crate::reading::db_length;
use crate::trimming::trim;
use gds_header::Header;
use gds_images::open_chain;
use host_model::{Host, barrier};
use std::alloc::Global;

/// Makes the database file what an opening finds, whatever a stop has left of both files: both are synced, images
/// behind an open gate are laid back, the file is cut to the epoch's length, the gate closed, and the file trimmed to
/// the length that its header says. Stopped anywhere and begun again, it finds the same file.
///
/// Where nothing has to be changed, nothing is written, cut or synced but for the two syncs at the start.
///
/// # Errors
///
/// `BadImages` says where the chain of images is bad, and nothing is written then. `Unsound` says that the header of
/// the recovered file can't be read. `Memory` comes before anything is written. After `WriteFault` the files want to be
/// opened again.
pub fn recover<H: Host>(alloc: Global, host: &mut H) -> Result<Header, RecoveryError>
    // What the file is then.
    ensures opened { IfOk result (λ header. ForSome (H.told host.old) (λ c.
        ForSome (H.told host.new) (IsOpened c header))) }
    ensures limits { IfOk result IsWithinLimits }
    ensures stable { OnOk result (ForSome (H.told host.new)
        (λ now. EachLeft H.moment H.left_since host.new (λ d. d ≡ now))) }

    // However it ends, the next opening finds the same, at each moment. Files of which none is found stay as they are.
    ensures same { TellsOn (H.told host.old) (H.told host.new) FindsSame }
    ensures any_moment { ForSome (H.told host.old) (λ c. LeavesSinceBarrier H.moment H.left_since
        (IsErrOf result RecoveryError.WriteFault) host.old host.new (FindsSame c)) }

    // Where memory runs out, or there is nothing to do, nothing is written.
    ensures memory { IsErrOf result RecoveryError.Memory
        → IsUnwritten H.told H.moment H.left_since host.old host.new }
    ensures nothing_to_do { ForSome (H.told host.old) (λ c. HasNothingToDo c
        → IsUnwritten H.told H.moment H.left_since host.old host.new) }

    ensures cause { IfErr result (HasCause (H.told host.old) (H.failures host.old) (H.failures host.new)) }
    ensures failures { NeverFell (H.failures host.old) (H.failures host.new) }
    ensures untold { H.told host.old ≡ None → H.told host.new ≡ None }
{
    barrier(host)?;
    recover_stable(alloc, host)
}

/// The same of two stable files.
fn recover_stable<H: Host>(alloc: Global, host: &mut H) -> Result<Header, RecoveryError>
    requires { ForSome (H.told host.old) (λ c. EachLeft H.moment H.left_since host.old (λ d. d ≡ c)) }
    ensures opened { IfOk result (λ header. ForSome (H.told host.old) (λ c.
        ForSome (H.told host.new) (IsOpened c header))) }
    ensures limits { IfOk result IsWithinLimits }
    ensures stable { OnOk result (ForSome (H.told host.new)
        (λ now. EachLeft H.moment H.left_since host.new (λ d. d ≡ now))) }
    ensures stays { StaysFound H.told H.moment H.failures H.left_since host.old host.new }
    ensures memory { IsErrOf result RecoveryError.Memory
        → IsUnwritten H.told H.moment H.left_since host.old host.new }
    ensures nothing_to_do { ForSome (H.told host.old) (λ c. HasNothingToDo c
        → IsUnwritten H.told H.moment H.left_since host.old host.new) }
    ensures cause { IfErr result (HasCause (H.told host.old) (H.failures host.old) (H.failures host.new)) }
{
    let length = db_length(host)?;
    let chain = open_chain(alloc, host, length)?;
    let length = return_to_epoch(host, &chain, length)?;
    match trim(host, length)? {
        Some(header) => Ok(header),
        None => Err(RecoveryError::Unsound { faults: 1 }),
    }
}
