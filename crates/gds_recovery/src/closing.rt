ghost use Rattle.std.specs.Prelude.{◌≡◌, ◌≢◌, ◌≤◌, Some, Ok, All, length, take, IfErr, IfOk, OnOk};
ghost use Rattle.std.specs.Option.{ForSome};
ghost use Rattle.host_model.specs.Disk.{Changes, Cut, Settles};
ghost use Rattle.host_model.specs.Files.{with_file};
ghost use Rattle.host_model.specs.Moments.{EachLeft};
ghost use Rattle.gds_images.specs.Chain.{CanBeLaid, chain_of, first_gate};
ghost use Rattle.gds_recovery.specs.Errors.{HasCause, error_of};
ghost use Rattle.gds_recovery.specs.Steps.{IsAtEpoch, IsReachable, StaysFound, WasChangedBy};

use crate::error::Trouble;
use crate::laying::lay_images;
use gds_images::{Chain, close_gate};
use host_model::{FileNo, Host};

/// Where gate 0 stands, which is the next gate where it is closed.
const FIRST_GATE: u64 = 8;

/// Makes the database file that of the epoch, and closes the gate where it is open. Answers how long the file is then.
pub(crate) fn return_to_epoch<H: Host>(
    host: &mut H,
    chain: &Chain,
    db_length: u64,
) -> Result<u64, Trouble>
    requires chain { ForSome (H.told host.old) (λ c. chain_of c.images (length c.db) ≡ Ok chain.now) }
    requires db_length { ForSome (H.told host.old) (λ c. db_length ≡ length c.db) }
    requires lies { CanBeLaid db_length chain.now }
    requires stable { ForSome (H.told host.old) (λ c. EachLeft H.moment H.left_since host.old (λ d. d ≡ c)) }
    ensures stays { StaysFound H.told H.moment H.failures H.left_since host.old host.new }
    ensures at_epoch { OnOk result (ForSome (H.told host.old) (λ c.
        ForSome (H.told host.new) (IsAtEpoch chain.now c))) }
    ensures closed { chain.now.next_gate ≡ first_gate → host.new ≡ host.old }
    ensures db_length { IfOk result (λ n. ForSome (H.told host.new) (λ c. n ≡ length c.db)) }
    ensures stable { OnOk result (ForSome (H.told host.new)
        (λ c. EachLeft H.moment H.left_since host.new (λ d. d ≡ c))) }
    ensures cause { IfErr result (λ trouble. HasCause (H.told host.old) (H.failures host.old) (H.failures host.new)
        (error_of trouble)) }
{
    if chain.next_gate == FIRST_GATE {
        return Ok(db_length);
    }
    lay_back(host, chain)?;
    Ok(chain.epoch_length)
}

/// Lays the images behind an open gate back, cuts the database file to the epoch's length, and closes the gate.
fn lay_back<H: Host>(host: &mut H, chain: &Chain) -> Result<(), Trouble>
    requires chain { ForSome (H.told host.old) (λ c. chain_of c.images (length c.db) ≡ Ok chain.now) }
    requires open { chain.now.next_gate ≢ first_gate }
    requires reachable { All IsReachable chain.now.images }
    requires stable { ForSome (H.told host.old) (λ c. EachLeft H.moment H.left_since host.old (λ d. d ≡ c)) }
    ensures stays { StaysFound H.told H.moment H.failures H.left_since host.old host.new }
    ensures at_epoch { OnOk result (ForSome (H.told host.old) (λ c.
        ForSome (H.told host.new) (IsAtEpoch chain.now c))) }
    ensures stable { OnOk result (ForSome (H.told host.new)
        (λ c. EachLeft H.moment H.left_since host.new (λ d. d ≡ c))) }
    ensures cause { IfErr result (λ trouble. HasCause (H.told host.old) (H.failures host.old) (H.failures host.new)
        (error_of trouble)) }
{
    lay_images(host, &chain.images)?;
    cut_to(host, chain.epoch_length)?;
    close_gate(host)?;
    Ok(())
}

/// Cuts the database file and makes it stable.
pub(crate) fn cut_to<H: Host>(host: &mut H, len: u64) -> Result<(), Trouble>
    requires { ForSome (H.told host.old) (λ c. len ≤ length c.db) }
    ensures changed { WasChangedBy H.told H.moment H.failures H.left_since
        (Changes FileNo.Db (Cut len)) host.old host.new }
    ensures is_cut { OnOk result (ForSome (H.told host.old) (λ c.
        H.told host.new ≡ Some (with_file FileNo.Db (take len c.db) c))) }
    ensures settled { OnOk result (ForSome (H.told host.old) (λ c.
        Settles FileNo.Db (take len c.db) (H.left_since host.new (H.moment host.new)))) }
    ensures cause { IfErr result (λ trouble. HasCause (H.told host.old) (H.failures host.old) (H.failures host.new)
        (error_of trouble)) }
{
    host.cut(FileNo::Db, len)?;
    host.sync(FileNo::Db)?;
    Ok(())
}
