ghost use Rattle.std.specs.Prelude.{◌≡◌, ◌≤◌, ◌+◌, ◌⊎◌, None, Some, length, OnErr, OnOk};
ghost use Rattle.std.specs.Option.{ForSome};
ghost use Rattle.host_model.specs.Disk.{Changes, Settles, Torn, Writes, written};
ghost use Rattle.host_model.specs.Failures.{NeverFell, Rose, counted};
ghost use Rattle.host_model.specs.Files.{file_of, saying};
ghost use Rattle.host_model.specs.Moments.{EachLeft, LeavesBy, LeavesOnly, LeavesTheSame};
ghost use Rattle.host_model.specs.Order.{IsStoredInOrder, with_front};
ghost use Rattle.host_model.specs.Told.{TellsOn};

use crate::{FileNo, Host, HostFailed};

/// Makes both files stable.
///
/// After Ok a crash leaves exactly what the host holds. However it ends, no crash leaves anything that it couldn't
/// leave before.
pub fn barrier<H: Host>(host: &mut H) -> Result<(), HostFailed>
    ensures stable { OnOk result (ForSome (H.told host.old)
        (λ now. EachLeft H.moment H.left_since host.new (λ c. c ≡ now))) }
    ensures told { H.told host.new ≡ H.told host.old }
    ensures same { LeavesTheSame H.moment H.left_since host.old host.new }
    // Both syncs were called, or it ended before.
    ensures clock { OnOk result (H.moment host.new ≡ counted (counted (H.moment host.old))) }
    ensures calls { H.moment host.new ≤ counted (counted (H.moment host.old)) }
    ensures failures { NeverFell (H.failures host.old) (H.failures host.new) }
    ensures failed { OnErr result (Rose (H.failures host.old).write (H.failures host.new).write) }
{
    host.sync(FileNo::Images)?;
    host.sync(FileNo::Db)
}

/// Writes into a file and makes it stable.
///
/// At any moment a crash leaves what it could have left before, with a torn write. After Ok it leaves the whole write.
pub fn store<H: Host>(host: &mut H, file: FileNo, at: u64, bytes: &[u8]) -> Result<(), HostFailed>
    requires { ForSome (H.told host.old) (λ now. at ≤ length (file_of now file)) }
    ensures any_moment { LeavesBy H.moment H.left_since (Changes file (Torn at (length bytes.now))) host.old host.new }
    ensures told { TellsOn (H.told host.old) (H.told host.new) (Changes file (Writes at bytes.now result)) }
    ensures untold { H.told host.old ≡ None → H.told host.new ≡ None }
    ensures settled { OnOk result (ForSome (H.told host.old) (λ now. Settles file
        (written at bytes.now (file_of now file)) (H.left_since host.new (H.moment host.new)))) }
    ensures calls { H.moment host.new ≤ H.moment host.old + 2 }
    ensures failures { NeverFell (H.failures host.old) (H.failures host.new) }
    ensures failed { OnErr result (Rose (H.failures host.old).write (H.failures host.new).write) }
{
    host.write_at(file, at, bytes)?;
    host.sync(file)
}

/// Stores `first` at the front of the file of images, then `second` at the front of the database file, and then says
/// `done`.
///
/// At any moment a crash leaves a torn first write and nothing else; or the whole of it and a torn second one; or the
/// whole of both, and some of `done` said. So who reads any of `done` can rely on both, and who finds any of `second`
/// on `first`. After Ok a crash leaves all of it.
pub fn store_and_tell<H: Host>(
    host: &mut H,
    first: &[u8],
    second: &[u8],
    done: &[u8],
) -> Result<(), HostFailed>
    requires { ForSome (H.told host.old) (λ now. EachLeft H.moment H.left_since host.old (λ c. c ≡ now)) }
    ensures any_moment { ForSome (H.told host.old) (λ now. LeavesOnly H.moment H.left_since host.old host.new
        (IsStoredInOrder now first.now second.now done.now)) }
    ensures told { OnOk result (ForSome (H.told host.old) (λ now.
        H.told host.new ≡ Some (saying (with_front FileNo.Db second.now (with_front FileNo.Images first.now now))
        done.now))) }
    ensures stable { OnOk result (ForSome (H.told host.old) (λ now. EachLeft H.moment H.left_since host.new (λ c.
        c ≡ saying (with_front FileNo.Db second.now (with_front FileNo.Images first.now now)) done.now))) }
    ensures calls { H.moment host.new ≤ H.moment host.old + 5 }
    ensures failures { NeverFell (H.failures host.old) (H.failures host.new) }
    ensures failed { OnErr result (Rose (H.failures host.old).write (H.failures host.new).write
        ⊎ Rose (H.failures host.old).say (H.failures host.new).say) }
{
    store(host, FileNo::Images, 0, first)?;
    store(host, FileNo::Db, 0, second)?;
    host.say(done)
}
