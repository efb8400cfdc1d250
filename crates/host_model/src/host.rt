ghost use Rattle.std.specs.Prelude.{◌≡◌, ◌≤◌, ℕ, Option, None, Some, length, IfOk, OnOk, OnErr, IfSome};
ghost use Rattle.std.specs.Option.{ForSome};
ghost use Rattle.host_model.specs.Failures.{Failures, Rose};
ghost use Rattle.host_model.specs.Told.{TellsOn};
ghost use Rattle.host_model.specs.Files.{AreBytes, Contents, Reads, Says, file_of};
ghost use Rattle.host_model.specs.Disk.{Changes, Cut, Cuts, Follows, SaysSome, Settles, Torn, Writes, during};
ghost use Rattle.host_model.specs.Frames.{ChangedNothing, WasCalled};

use thiserror::Error;

/// One of the two files of a database.
#[derive(Clone, Copy, Debug, PartialEq, Eq)]
pub enum FileNo {
    /// The file of blocks.
    Db,
    /// The file of before images, beside it.
    Images,
}

/// A call of the device failed. Which count of failures rose tells of what kind it was.
#[derive(Clone, Copy, Debug, PartialEq, Eq, Error)]
#[error("the device failed")]
pub struct HostFailed;

/// Two files and a place to say things.
///
/// A host may tell what it holds, as one in memory does, and then goes on telling; one that doesn't never does.
/// What the clauses say of bytes holds of a host that tells; of another, as real files are, they say how many
/// bytes came at most.
///
/// A crash may come at any moment. What it may have left is told by its history, `left_since`: both files and
/// what was said, of one moment together.
pub trait Host: Drop {
    /// What both files hold and what was said so far, where the host tells it.
    ghost told: { Self → Option Contents };

    /// The number of calls so far. It stands still at the greatest number of 64 bits.
    ghost moment: { Self → ℕ };

    /// How often calls have failed, by their kind.
    ghost failures: { Self → Failures };

    /// What a crash at that moment or at one since might have left.
    ghost left_since: { Self → ℕ → Contents → Type 0 };

    /// The length of a file in bytes. A missing file has none.
    fn len(&mut self, file: FileNo) -> Result<u64, HostFailed>
        ensures length { IfOk result (λ n. IfSome (told self.old) (λ c. n ≡ length (file_of c file))) }
        // What is told are bytes.
        ensures bytes { IfSome (told self.old) AreBytes }
        ensures kept { ChangedNothing told moment failures left_since self.old self.new }
        ensures failed { OnErr result (Rose (failures self.old).read (failures self.new).read) };

    /// Reads into the front of `out` what the file has from `at` on, and answers how many bytes that
    /// were: fewer than `out` takes only where the file ends, and 0 at its end or past it.
    fn read(&mut self, file: FileNo, at: u64, out: &mut [u8]) -> Result<usize, HostFailed>
        ensures count { IfOk result (λ n. n ≤ length out.old) }
        ensures bytes { IfOk result
            (λ n. IfSome (told self.old) (λ c. Reads (file_of c file) at out.old out.new n)) }
        ensures kept { ChangedNothing told moment failures left_since self.old self.new }
        ensures failed { OnErr result (Rose (failures self.old).read (failures self.new).read) };

    /// Writes over what the file has from `at` on, and past its end. Until a sync that succeeds, a crash may leave
    /// any bytes in that range. Where the call fails, they may be any now too.
    fn write_at(&mut self, file: FileNo, at: u64, bytes: &[u8]) -> Result<(), HostFailed>
        requires { ForSome (told self.old) (λ c. at ≤ length (file_of c file)) }
        ensures told { TellsOn (told self.old) (told self.new) (Changes file (Writes at bytes.now result)) }
        ensures untold { told self.old ≡ None → told self.new ≡ None }
        ensures crash { Follows (Changes file (Torn at (length bytes.now)))
            (left_since self.old (moment self.old)) (left_since self.new (moment self.new)) }
        ensures called { WasCalled moment failures left_since self.old self.new
            (left_since self.new (moment self.new)) }
        ensures failed { OnErr result (Rose (failures self.old).write (failures self.new).write) };

    /// Cuts the file to its first `len` bytes. Until a sync that succeeds, a crash may leave it longer, with any bytes
    /// from there on.
    fn cut(&mut self, file: FileNo, len: u64) -> Result<(), HostFailed>
        requires { ForSome (told self.old) (λ c. len ≤ length (file_of c file)) }
        ensures told { TellsOn (told self.old) (told self.new) (Changes file (Cuts len result)) }
        ensures untold { told self.old ≡ None → told self.new ≡ None }
        ensures crash { Follows (Changes file (Cut len))
            (left_since self.old (moment self.old)) (left_since self.new (moment self.new)) }
        ensures called { WasCalled moment failures left_since self.old self.new
            (left_since self.new (moment self.new)) }
        ensures failed { OnErr result (Rose (failures self.old).write (failures self.new).write) };

    /// After it a crash leaves of this file what a read gives. Where it fails nothing is known to be stable.
    fn sync(&mut self, file: FileNo) -> Result<(), HostFailed>
        ensures settled { OnOk result (IfSome (told self.old) (λ c.
            Settles file (file_of c file) (left_since self.new (moment self.new)))) }
        ensures kept { ChangedNothing told moment failures left_since self.old self.new }
        ensures failed { OnErr result (Rose (failures self.old).write (failures self.new).write) };

    /// Says the bytes, or where it fails some of the first.
    fn say(&mut self, bytes: &[u8]) -> Result<(), HostFailed>
        ensures said { TellsOn (told self.old) (told self.new) (Says bytes.now result) }
        ensures untold { told self.old ≡ None → told self.new ≡ None }
        ensures crash { Follows (SaysSome bytes.now)
            (left_since self.old (moment self.old)) (left_since self.new (moment self.new)) }
        ensures called { WasCalled moment failures left_since self.old self.new
            (during (SaysSome bytes.now) (left_since self.old (moment self.old))) }
        ensures failed { OnErr result (Rose (failures self.old).say (failures self.new).say) };

    /// The moments since a later one are among those since an earlier.
    ghost longer: { (host : Self) (t u : ℕ) (c : Contents) → t ≤ u → left_since host u c → left_since host t c };

    /// What a read gives now is one of the things that a crash now may leave.
    ghost now_left: { (host : Self) (c : Contents) → told host ≡ Some c → left_since host (moment host) c };

    /// A crash leaves all that was said.
    ghost said_stays: { (host : Self) (now c : Contents) → told host ≡ Some now
        → left_since host (moment host) c → c.said ≡ now.said };
}
