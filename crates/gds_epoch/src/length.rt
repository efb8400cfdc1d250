ghost use Rattle.std.specs.Prelude.{◌≡◌, ◌<◌, ◌≤◌, ℕ, List, None, length, take, replicate, OnOk, OnErr};
ghost use Rattle.std.specs.Option.{ForSome};
ghost use Rattle.host_model.specs.Failures.{NeverFell, Rose};
ghost use Rattle.host_model.specs.Files.{Contents};
ghost use Rattle.host_model.specs.Told.{TellsOn};
ghost use Rattle.host_model.specs.Moments.{EachLeft, HasCome};
ghost use Rattle.gds_epoch.specs.State.{Rests};
ghost use Rattle.gds_epoch.specs.Length.{KeepsFront, with_zeros};

use host_model::{FileNo, Host, HostFailed};

/// Writes zeros into the database file, from a place in it or its end up to another place. `zeros` is a buffer of
/// them, of which each write takes what it can.
///
/// What is before the place stays. A database at rest that ends there or before is so at every moment of the call, and
/// after it. Nothing is made stable.
pub fn grow_file<H: Host>(host: &mut H, zeros: &[u8], from: u64, to: u64) -> Result<(), HostFailed>
    requires some { 0 < length zeros.now }
    requires zeros { zeros.now ≡ replicate (length zeros.now) 0 }
    requires fits { ForSome (H.told host.old) (λ c. from ≤ length c.db) }
    ensures told { TellsOn (H.told host.old) (H.told host.new) (KeepsFront from) }
    ensures untold { H.told host.old ≡ None → H.told host.new ≡ None }
    ensures grown { OnOk result (TellsOn (H.told host.old) (H.told host.new) (λ c d. d ≡ with_zeros from to c)) }
    ensures any_moment { (image : List ℕ) (before : Contents) → length image ≤ from
        → EachLeft H.moment H.left_since host.old (Rests image before)
        → HasCome H.moment H.left_since host.old host.new (Rests image before) (Rests image before) }
    ensures failures { NeverFell (H.failures host.old) (H.failures host.new) }
    ensures failed { OnErr result (Rose (H.failures host.old).write (H.failures host.new).write) }
{
    let mut at = from;
    while at < to {
        let count = (to - at).min(zeros.len() as u64);
        host.write_at(FileNo::Db, at, &zeros[..count as usize])?;
        at += count;
    }
    Ok(())
}

/// Cuts the database file to a length.
///
/// What is before stays. A database at rest that ends there or before is so at every moment of the call, and after it.
/// Nothing is made stable.
pub fn shorten_file<H: Host>(host: &mut H, len: u64) -> Result<(), HostFailed>
    requires fits { ForSome (H.told host.old) (λ c. len ≤ length c.db) }
    ensures told { TellsOn (H.told host.old) (H.told host.new) (KeepsFront len) }
    ensures untold { H.told host.old ≡ None → H.told host.new ≡ None }
    ensures shortened { OnOk result (TellsOn (H.told host.old) (H.told host.new)
        (λ c d. d ≡ record c { db = take len c.db })) }
    ensures any_moment { (image : List ℕ) (before : Contents) → length image ≤ len
        → EachLeft H.moment H.left_since host.old (Rests image before)
        → HasCome H.moment H.left_since host.old host.new (Rests image before) (Rests image before) }
    ensures failures { NeverFell (H.failures host.old) (H.failures host.new) }
    ensures failed { OnErr result (Rose (H.failures host.old).write (H.failures host.new).write) }
{
    host.cut(FileNo::Db, len)
}
