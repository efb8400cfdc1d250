ghost use Rattle.std.specs.Prelude.{◌≡◌};

use gds_header::HEADER_LENGTH;
use host_model::{UnitSource, UnitTrouble};

/// The units of a file in memory, which tells nothing and fails from some read on.
#[derive(Drop)]
pub(crate) struct Units {
    pub(crate) file: Vec<u8>,
    /// How many reads are left before they fail.
    pub(crate) reads: u64,
    pub(crate) failures: u64,
}

impl UnitSource for Units {
    ghost use Rattle.std.specs.Prelude.{None};

    ghost image = { λ _. None };

    ghost failures = { λ units. units.failures };

    // Nothing is said of what a read leaves.
    ghost was_read = { λ _ _. Unit {0} };

    ghost not_read = { λ _. tt };

    ghost read_on = { λ _ _ _ _ _. tt };

    fn length(&mut self) -> Result<u64, UnitTrouble> {
        Ok(self.file.len() as u64)
    }

    fn unit(&mut self, unit: u32, out: &mut [u8]) -> Result<(), UnitTrouble> {
        let Some(left) = self.reads.checked_sub(1) else {
            self.failures = self.failures.saturating_add(1);
            return Err(UnitTrouble::Failed);
        };
        self.reads = left;
        let place = match (unit as usize).checked_sub(1) {
            None => 0,
            Some(block) => HEADER_LENGTH.saturating_add(block.saturating_mul(out.len())),
        };
        match self.file.get(place..place.saturating_add(out.len())) {
            Some(bytes) => {
                out.copy_from_slice(bytes);
                Ok(())
            }
            None => Err(UnitTrouble::Changed { unit }),
        }
    }
}
