ghost use Rattle.std.specs.Prelude.{◌≡◌, ◌<◌, ◌≤◌, ℕ, Option, None, List, length, All, IfOk, IfSome, OnOk, IsErrOf};
ghost use Rattle.std.specs.Option.{ForSome};
ghost use Rattle.host_model.specs.Failures.{Rose};
ghost use Rattle.host_model.specs.Units.{IsUnit, unit_bytes};

use crate::HostFailed;
use thiserror::Error;

/// Why a unit could not be had.
#[derive(Clone, Copy, Debug, PartialEq, Eq, Error)]
pub enum UnitTrouble {
    /// Memory ran out.
    #[error("memory ran out")]
    Memory,
    /// The source failed.
    #[error("the source failed")]
    Failed,
    /// The file isn't as it was: unit 0 is its header, and unit n + 1 is block n.
    #[error("unit {unit} has changed")]
    Changed {
        /// The unit that was asked for.
        unit: u32,
    },
}

impl From<HostFailed> for UnitTrouble {
    ghost use Rattle.host_model.specs.declared.units.UnitTrouble.TheVariants.{Failed};

    ghost from_gives = { λ _ trouble. trouble ≡ Failed };

    fn from(_: HostFailed) -> UnitTrouble {
        UnitTrouble::Failed
    }
}

/// The units of a database file, which may be a file as it stands or the image that an open database has of it.
/// Unit 0 is the header of 8,192 bytes, and unit n + 1 is block n, of as many bytes as the header says.
pub trait UnitSource {
    /// The bytes of the database file, where the source tells them. Then it goes on telling the same.
    ghost image: { Self → Option (List ℕ) };

    /// How often the source has failed. It stands still at the greatest number of 64 bits.
    ghost failures: { Self → ℕ };

    /// The first was only read, and is now the second. What else that leaves as it was is the source's to say.
    ghost was_read: { Self → Self → Type 0 };

    /// The length of the database file in bytes.
    fn length(&mut self) -> Result<u64, UnitTrouble>
        ensures length { IfOk result (λ n. IfSome (image self.old) (λ file. n ≡ length file)) }
        // What is told are bytes.
        ensures bytes { IfSome (image self.old) (λ file. All (λ b. b < 256) file) }
        ensures image { image self.new ≡ image self.old }
        ensures read { was_read self.old self.new }
        ensures failures { failures self.old ≤ failures self.new }
        ensures failed { IsErrOf result UnitTrouble.Failed → Rose (failures self.old) (failures self.new) }
        ensures changed { (unit : ℕ) → IsErrOf result (UnitTrouble.Changed unit) → image self.old ≡ None };

    /// Fills `out` with a unit, which lies within the file and has as many bytes as `out` takes.
    fn unit(&mut self, unit: u32, out: &mut [u8]) -> Result<(), UnitTrouble>
        requires { ForSome (image self.old) (λ file. IsUnit file unit (length out.old)) }
        ensures bytes { OnOk result (IfSome (image self.old) (λ file. out.new ≡ unit_bytes file unit)) }
        ensures len { length out.new ≡ length out.old }
        ensures image { image self.new ≡ image self.old }
        ensures read { was_read self.old self.new }
        ensures failures { failures self.old ≤ failures self.new }
        ensures failed { IsErrOf result UnitTrouble.Failed → Rose (failures self.old) (failures self.new) }
        ensures changed { (unit : ℕ) → IsErrOf result (UnitTrouble.Changed unit) → image self.old ≡ None };

    /// Where nothing was read, the source was only read.
    ghost not_read: { (source : Self) → was_read source source };

    /// So was one that was read, and then read on.
    ghost read_on: { (a b c : Self) → was_read a b → was_read b c → was_read a c };
}
