ghost use Rattle.std.specs.Prelude.{◌≡◌, ◌*◌, ◌+◌, ◌<◌, ◌≤◌, All, IfOk, IfSome, IsErrOf, None, OnErr, OnOk, length};
ghost use Rattle.std.specs.Option.{ForSome};
ghost use Rattle.host_model.specs.Failures.{NeverFell, Rose};
ghost use Rattle.host_model.specs.Files.{Says};
ghost use Rattle.host_model.specs.Told.{TellsOn};
ghost use Rattle.host_model.specs.Units.{IsUnit, unit_bytes};
ghost use Rattle.gds_base.specs.Ending.{EndsWriting};
ghost use Rattle.gds_header.specs.Fields.{file_length_of};
ghost use Rattle.gds_units.specs.Durable.{IsStored, Keeps, KeepsOrStores, KeepsSaying};
ghost use Rattle.gds_units.specs.Laws.{OnlyRead-refl, OnlyRead-then};
ghost use Rattle.gds_units.specs.Reading.{OnlyRead};
ghost use Rattle.gds_units.specs.State.{WhereTold, image_of};

use crate::{Base, BaseError};
use gds_units::SayFailed;
use host_model::{Host, UnitSource, UnitTrouble};

impl<H: Host> Base<H> {
    /// Makes the image durable: after Ok each crash leaves files of which the next opening finds it. It takes no
    /// memory.
    ///
    /// A crash on the way leaves what was found before, or the image.
    pub fn epoch(&mut self) -> Result<(), BaseError>
        ensures same { self.new ≡ record self.old {
          host = self.new.host;
          epoch = self.new.epoch;
          changed = self.new.changed;
          stopped = self.new.stopped;
        } }
        ensures ok { OnOk result ((self.new.changed ≡ 0) × (self.new.epoch ≡ file_length_of self.old.header)) }
        ensures err { OnErr result ((self.new.changed ≡ self.old.changed) × (self.new.epoch ≡ self.old.epoch)) }
        ensures stored { OnOk result (WhereTold H.told self.old
            (λ c image. IsStored H.moment H.left_since image c.said self.new.host)) }
        ensures any_moment { WhereTold H.told self.old
            (λ c image. KeepsOrStores H.moment H.left_since image c.said self.old.host self.new.host) }
        ensures said { TellsOn (H.told self.old.host) (H.told self.new.host) (λ c d. d.said ≡ c.said) }
        ensures untold { H.told self.old.host ≡ None → H.told self.new.host ≡ None }
        ensures ends { EndsWriting (H.failures self.old.host) (H.failures self.new.host) self.old self.new result }
        ensures calls { H.moment self.new.host ≤ H.moment self.old.host + (3 * self.old.changed + 8) }
        ensures failures { NeverFell (H.failures self.old.host) (H.failures self.new.host) }
    {
        Ok(self.units.epoch()?)
    }

    /// Cuts the file to the length of the image, which an epoch made durable. It takes no memory.
    pub fn shorten(&mut self) -> Result<(), BaseError>
        requires { self.old.changed ≡ 0 }
        ensures same { self.new ≡ record self.old {
          host = self.new.host;
          file = self.new.file;
          extent = self.new.extent;
          stopped = self.new.stopped;
        } }
        ensures image { image_of self.new ≡ image_of self.old }
        ensures file { OnOk result (self.new.file ≡ image_of self.old) }
        ensures extent { OnOk result (self.new.extent ≡ file_length_of self.old.header) }
        ensures any_moment { WhereTold H.told self.old
            (λ c image. Keeps H.moment H.left_since self.old.host self.new.host) }
        ensures said { TellsOn (H.told self.old.host) (H.told self.new.host) (λ c d. d.said ≡ c.said) }
        ensures untold { H.told self.old.host ≡ None → H.told self.new.host ≡ None }
        ensures ends { EndsWriting (H.failures self.old.host) (H.failures self.new.host) self.old self.new result }
        ensures failures { NeverFell (H.failures self.old.host) (H.failures self.new.host) }
    {
        Ok(self.units.shorten()?)
    }

    /// Says the bytes, or where that fails some of the first.
    pub fn say(&mut self, bytes: &[u8]) -> Result<(), SayFailed>
        ensures same { self.new ≡ record self.old { host = self.new.host } }
        ensures said { TellsOn (H.told self.old.host) (H.told self.new.host) (Says bytes.now result) }
        ensures untold { H.told self.old.host ≡ None → H.told self.new.host ≡ None }
        ensures any_moment { ForSome (H.told self.old.host)
            (λ _. KeepsSaying H.moment H.left_since bytes.now self.old.host self.new.host) }
        ensures failed { OnErr result (Rose (H.failures self.old.host).say (H.failures self.new.host).say) }
        ensures failures { NeverFell (H.failures self.old.host) (H.failures self.new.host) }
    {
        self.units.say(bytes)
    }

    /// How many units changed since the last epoch.
    pub fn changed(&self) -> u32
        ensures { result ≡ self.now.changed }
    {
        self.units.changed()
    }

    /// Whether a write has failed, so that nothing is written any more.
    pub fn is_stopped(&self) -> bool
        ensures { result ≡ self.now.stopped }
    {
        self.units.is_stopped()
    }
}

/// The image as a source of units.
impl<H: Host> UnitSource for Base<H> {
    ghost image = { λ base. image_of base };

    ghost failures = { λ base. (H.failures base.host).read };

    ghost was_read = { λ old new. OnlyRead H.told H.moment H.failures H.left_since old new };

    ghost not_read = { OnlyRead-refl H.told H.moment H.failures H.left_since };

    ghost read_on = { OnlyRead-then H.told H.moment H.failures H.left_since };

    fn length(&mut self) -> Result<u64, UnitTrouble> {
        self.units.length()
    }

    fn unit(&mut self, unit: u32, out: &mut [u8]) -> Result<(), UnitTrouble> {
        UnitSource::unit(&mut self.units, unit, out)
    }
}
