ghost use Rattle.std.specs.Prelude.{◌≡◌, ◌+◌, ◌≤◌, length, take, drop, IfErr, IfOk, OnOk};
ghost use Rattle.std.specs.Option.{ForSome};
ghost use Rattle.host_model.specs.Files.{file_of};
ghost use Rattle.host_model.specs.Frames.{ChangedNothing, WasRead};
ghost use Rattle.host_model.specs.Moments.{LeavesTheSame};
ghost use Rattle.gds_recovery.specs.Errors.{HasCause, error_of};

use crate::error::Trouble;
use host_model::{FileNo, Host};

/// The length of the database file.
pub(crate) fn db_length<H: Host>(host: &mut H) -> Result<u64, Trouble>
    ensures length { IfOk result (λ n. ForSome (H.told host.old) (λ c. n ≡ length c.db)) }
    ensures read { WasRead H.told H.failures host.old host.new }
    ensures crash { LeavesTheSame H.moment H.left_since host.old host.new }
    ensures cause { IfErr result (λ trouble. HasCause (H.told host.old) (H.failures host.old) (H.failures host.new)
        (error_of trouble)) }
{
    match host.len(FileNo::Db) {
        Ok(length) => Ok(length),
        Err(_) => Err(Trouble::Read),
    }
}

/// Fills `out` with what a file has from `at` on.
pub(crate) fn read_whole<H: Host>(
    host: &mut H,
    file: FileNo,
    at: u64,
    out: &mut [u8],
) -> Result<(), Trouble>
    requires { ForSome (H.told host.old) (λ c. at + length out.old ≤ length (file_of c file)) }
    ensures bytes { OnOk result (ForSome (H.told host.old)
        (λ c. out.new ≡ take (length out.old) (drop at (file_of c file)))) }
    ensures kept { ChangedNothing H.told H.moment H.failures H.left_since host.old host.new }
    ensures cause { IfErr result (λ trouble. HasCause (H.told host.old) (H.failures host.old) (H.failures host.new)
        (error_of trouble)) }
{
    let Ok(count) = host.read(file, at, out) else {
        return Err(Trouble::Read);
    };
    if count < out.len() {
        return Err(Trouble::Changed);
    }
    Ok(())
}
