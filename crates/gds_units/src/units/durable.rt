ghost use Rattle.std.specs.Prelude.{◌≡◌, ◌*◌, ◌+◌, ◌-◌, ◌^◌, ◌<◌, ◌≤◌, false, None, length, replicate, take, OnErr};
ghost use Rattle.std.specs.Prelude.{OnOk};
ghost use Rattle.std.specs.Option.{ForSome};
ghost use Rattle.host_model.specs.Disk.{written};
ghost use Rattle.host_model.specs.Failures.{NeverFell, Rose};
ghost use Rattle.host_model.specs.Files.{Says};
ghost use Rattle.host_model.specs.Told.{TellsOn};
ghost use Rattle.gds_header.specs.Fields.{file_length_of, place_of};
ghost use Rattle.gds_header.specs.Kinds.{IsWithinLimits};
ghost use Rattle.gds_units.specs.Durable.{IsStored, Keeps, KeepsOrStores, KeepsSaying, KeptAllOrStored};
ghost use Rattle.gds_units.specs.Ending.{EndsWriting};
ghost use Rattle.gds_units.specs.State.{WhereTold, image_of};

use super::Units;
use crate::error::{SayFailed, UnitError};
use gds_epoch::{grow_file, shorten_file, write_epoch};
use gds_header::{HEADER_LENGTH, Header};
use host_model::Host;

impl<H: Host> Units<H> {
    /// Makes the image durable: after Ok each crash leaves files of which the next opening finds it. It takes no
    /// memory.
    ///
    /// A crash on the way leaves what was found before, or the image.
    pub fn epoch(&mut self) -> Result<(), UnitError>
        ensures same { self.new ≡ record self.old {
          host = self.new.host;
          epoch = self.new.epoch;
          changed = self.new.changed;
          stopped = self.new.stopped;
        } }
        ensures ok { OnOk result ((self.new.changed ≡ 0) × (self.new.epoch ≡ file_length_of self.old.header)) }
        ensures err { OnErr result ((self.new.changed ≡ self.old.changed) × (self.new.epoch ≡ self.old.epoch)) }
        ensures stored { OnOk result (WhereTold H.told self.old
            (λ c image. IsStored H.moment H.left_since image c.said self.new.host)) }
        ensures any_moment { WhereTold H.told self.old
            (λ c image. KeepsOrStores H.moment H.left_since image c.said self.old.host self.new.host) }
        ensures said { TellsOn (H.told self.old.host) (H.told self.new.host) (λ c d. d.said ≡ c.said) }
        ensures untold { H.told self.old.host ≡ None → H.told self.new.host ≡ None }
        ensures ends { EndsWriting (H.failures self.old.host) (H.failures self.new.host) self.old self.new result }
        ensures calls { H.moment self.new.host ≤ H.moment self.old.host + (3 * self.old.changed + 8) }
        ensures failures { NeverFell (H.failures self.old.host) (H.failures self.new.host) }
    {
        if self.is_stopped {
            return Err(UnitError::Stopped);
        }
        if self.waiting.is_empty() {
            return Ok(());
        }
        let block_size = self.header.block_size;
        match write_epoch(
            &mut self.host,
            &mut self.before,
            &self.waiting,
            block_size,
            self.epoch_length,
        ) {
            Ok(()) => {
                self.waiting.clear();
                self.before.clear();
                self.epoch_length = self.header.file_length();
                Ok(())
            }
            Err(_) => {
                self.is_stopped = true;
                Err(UnitError::WriteFault)
            }
        }
    }

    /// Makes the file longer by blocks of zeros, up to a total of blocks that is above the header's. The image stays;
    /// blocks that the file already has behind it become zero too. It takes no memory.
    ///
    /// Where the database of the last epoch is longer than the image, an epoch comes first.
    pub fn grow(&mut self, total: u32) -> Result<(), UnitError>
        requires more { self.old.header.total < total }
        requires limit { total ≤ 8388608 }
        ensures header { self.new.header ≡ self.old.header }
        ensures changed { self.new.changed ≤ self.old.changed }
        ensures image { image_of self.new ≡ image_of self.old }
        ensures file { OnOk result (TellsOn self.old.file self.new.file (λ old new.
            let from = file_length_of self.old.header in
            new ≡ written from (replicate (place_of self.old.header total - from) 0) old)) }
        ensures extent { OnOk result (self.new.extent ≡ place_of self.old.header total) }
        ensures kept { OnOk result (WhereTold H.told self.old
            (λ c image. KeptAllOrStored H.moment H.left_since image c.said self.old.host self.new.host)) }
        ensures any_moment { WhereTold H.told self.old
            (λ c image. KeepsOrStores H.moment H.left_since image c.said self.old.host self.new.host) }
        ensures said { TellsOn (H.told self.old.host) (H.told self.new.host) (λ c d. d.said ≡ c.said) }
        ensures untold { H.told self.old.host ≡ None → H.told self.new.host ≡ None }
        ensures ends { EndsWriting (H.failures self.old.host) (H.failures self.new.host) self.old self.new result }
        ensures failures { NeverFell (H.failures self.old.host) (H.failures self.new.host) }
    {
        if self.header.file_length() < self.epoch_length {
            self.epoch()?;
        }
        self.grow_behind(total)
    }

    /// The same, where the database of the last epoch is no longer than the image.
    fn grow_behind(&mut self, total: u32) -> Result<(), UnitError>
        requires more { self.old.header.total < total }
        requires limit { total ≤ 8388608 }
        requires epoch { self.old.epoch ≤ file_length_of self.old.header }
        ensures header { self.new.header ≡ self.old.header }
        ensures changed { self.new.changed ≡ self.old.changed }
        ensures image { image_of self.new ≡ image_of self.old }
        ensures file { OnOk result (TellsOn self.old.file self.new.file (λ old new.
            let from = file_length_of self.old.header in
            new ≡ written from (replicate (place_of self.old.header total - from) 0) old)) }
        ensures extent { OnOk result (self.new.extent ≡ place_of self.old.header total) }
        ensures any_moment { WhereTold H.told self.old
            (λ c image. Keeps H.moment H.left_since self.old.host self.new.host) }
        ensures said { TellsOn (H.told self.old.host) (H.told self.new.host) (λ c d. d.said ≡ c.said) }
        ensures untold { H.told self.old.host ≡ None → H.told self.new.host ≡ None }
        ensures ends { EndsWriting (H.failures self.old.host) (H.failures self.new.host) self.old self.new result }
        ensures failures { NeverFell (H.failures self.old.host) (H.failures self.new.host) }
    {
        if self.is_stopped {
            return Err(UnitError::Stopped);
        }
        let from = self.header.file_length();
        let to = length_with(&self.header, total);
        match grow_file(&mut self.host, self.zeros.as_slice(), from, to) {
            Ok(()) => {
                self.extent = to;
                Ok(())
            }
            Err(_) => {
                self.extent = from;
                self.is_stopped = true;
                Err(UnitError::WriteFault)
            }
        }
    }

    /// Cuts the file to the length of the image, which an epoch made durable. It takes no memory.
    pub fn shorten(&mut self) -> Result<(), UnitError>
        requires { self.old.changed ≡ 0 }
        ensures same { self.new ≡ record self.old {
          host = self.new.host;
          file = self.new.file;
          extent = self.new.extent;
          stopped = self.new.stopped;
        } }
        ensures image { image_of self.new ≡ image_of self.old }
        ensures file { OnOk result (self.new.file ≡ image_of self.old) }
        ensures extent { OnOk result (self.new.extent ≡ file_length_of self.old.header) }
        ensures any_moment { WhereTold H.told self.old
            (λ c image. Keeps H.moment H.left_since self.old.host self.new.host) }
        ensures said { TellsOn (H.told self.old.host) (H.told self.new.host) (λ c d. d.said ≡ c.said) }
        ensures untold { H.told self.old.host ≡ None → H.told self.new.host ≡ None }
        ensures ends { EndsWriting (H.failures self.old.host) (H.failures self.new.host) self.old self.new result }
        ensures failures { NeverFell (H.failures self.old.host) (H.failures self.new.host) }
    {
        if self.is_stopped {
            return Err(UnitError::Stopped);
        }
        self.extent = self.header.file_length();
        match shorten_file(&mut self.host, self.extent) {
            Ok(()) => Ok(()),
            Err(_) => {
                self.is_stopped = true;
                Err(UnitError::WriteFault)
            }
        }
    }

    /// Says the bytes, or where that fails some of the first.
    pub fn say(&mut self, bytes: &[u8]) -> Result<(), SayFailed>
        ensures same { self.new ≡ record self.old { host = self.new.host } }
        ensures said { TellsOn (H.told self.old.host) (H.told self.new.host) (Says bytes.now result) }
        ensures untold { H.told self.old.host ≡ None → H.told self.new.host ≡ None }
        ensures any_moment { ForSome (H.told self.old.host)
            (λ _. KeepsSaying H.moment H.left_since bytes.now self.old.host self.new.host) }
        ensures failed { OnErr result (Rose (H.failures self.old.host).say (H.failures self.new.host).say) }
        ensures failures { NeverFell (H.failures self.old.host) (H.failures self.new.host) }
    {
        Ok(self.host.say(bytes)?)
    }
}

/// How many bytes a file with this header has where it has so many blocks.
fn length_with(header: &Header, total: u32) -> u64
    requires limits { IsWithinLimits header.now }
    requires limit { total ≤ 8388608 }
    ensures length { result ≡ place_of header.now total }
    ensures short { result < 2 ^ 63 }
{
    HEADER_LENGTH as u64 + u64::from(total) * u64::from(header.block_size)
}
