ghost use Rattle.std.specs.Prelude.{◌≡◌, ◌<◌, ◌≤◌, All, IfOk, IfSome, IsErrOf, None, OnOk, Some, length};
ghost use Rattle.std.specs.Option.{ForSome};
ghost use Rattle.host_model.specs.Failures.{Rose};
ghost use Rattle.host_model.specs.Units.{IsUnit, unit_bytes};
ghost use Rattle.gds_units.specs.Reading.{OnlyRead};
ghost use Rattle.gds_units.specs.State.{image_of};
ghost use Rattle.gds_units.specs.Laws.{OnlyRead-refl, OnlyRead-then};

use super::Units;
use host_model::{FileNo, Host, UnitSource, UnitTrouble};

/// The image as a source of units: it is the database with all changes in it.
impl<H: Host> UnitSource for Units<H> {
    ghost image = { λ units. image_of units };

    ghost failures = { λ units. (H.failures units.host).read };

    ghost was_read = { λ old new. OnlyRead H.told H.moment H.failures H.left_since old new };

    ghost not_read = { OnlyRead-refl H.told H.moment H.failures H.left_since };

    ghost read_on = { OnlyRead-then H.told H.moment H.failures H.left_since };

    fn length(&mut self) -> Result<u64, UnitTrouble> {
        self.waiting.hold_bytes();
        // The length of the file doesn't matter, but the host says with it that what it tells are bytes.
        self.host.len(FileNo::Db)?;
        Ok(self.header.file_length())
    }

    fn unit(&mut self, unit: u32, out: &mut [u8]) -> Result<(), UnitTrouble> {
        self.hold_told();
        Ok(Units::unit(self, unit, out)?)
    }
}

impl<H: Host> Units<H> {
    /// Does nothing: the image is told exactly where the host tells. Where no unit waits, the file is what the host
    /// tells.
    pub fn hold_told(&self)
        ensures untold { H.told self.now.host ≡ None → image_of self.now ≡ None }
        ensures tells { image_of self.now ≡ None → H.told self.now.host ≡ None }
        ensures file { self.now.changed ≡ 0 → ForSome (H.told self.now.host) (λ c. self.now.file ≡ Some c.db) }
    {
        let _host = &self.host;
    }
}
