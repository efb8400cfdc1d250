ghost use Rattle.std.specs.Prelude.{◌≡◌, ◌<◌, ◌≤◌, ℕ, Option, List, length, IfOk, OnErr};
ghost use Rattle.host_model.specs.Failures.{Rose};
ghost use Rattle.host_model.specs.Told.{TellsOn};
ghost use Rattle.host_model.specs.Files.{Gives};

use thiserror::Error;

/// A source could not give its next bytes.
#[derive(Clone, Copy, Debug, PartialEq, Eq, Error)]
#[error("the input failed")]
pub struct SourceFailed;

/// Input that comes in pieces.
pub trait Source: Drop {
    /// The bytes that are left, where the source tells them.
    ghost left: { Self → Option (List ℕ) };

    /// How often the source has failed.
    ghost failures: { Self → ℕ };

    /// Puts the next bytes at the front of `out`, and answers how many they are; 0 says that none are left.
    fn take(&mut self, out: &mut [u8]) -> Result<usize, SourceFailed>
        requires { 0 < length out.old }
        ensures count { IfOk result (λ n. n ≤ length out.old) }
        ensures given { IfOk result (λ n. TellsOn (left self.old) (left self.new) (Gives out.new n)) }
        ensures kept { OnErr result (left self.new ≡ left self.old) }
        ensures failures { failures self.old ≤ failures self.new }
        ensures failed { OnErr result (Rose (failures self.old) (failures self.new)) };
}
