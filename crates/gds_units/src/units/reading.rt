ghost use Rattle.std.specs.Prelude.{◌≡◌, ◌≢◌, ◌+◌, ◌≤◌, Err, IfSome, OnErr, OnOk, drop, length, take};
ghost use Rattle.std.specs.Option.{ForSome};
ghost use Rattle.host_model.specs.Frames.{WasRead};
ghost use Rattle.host_model.specs.Moments.{LeavesTheSame};
ghost use Rattle.host_model.specs.Units.{IsUnit, unit_bytes};
ghost use Rattle.gds_epoch.specs.Waiting.{place_of};
ghost use Rattle.gds_units.specs.Ending.{EndsReading};
ghost use Rattle.gds_units.specs.Reading.{OnlyRead};
ghost use Rattle.gds_units.specs.State.{image_of};

use super::Units;
use crate::error::UnitError;
use gds_epoch::place_of;
use host_model::{FileNo, Host};

impl<H: Host> Units<H> {
    /// Fills `out` with a unit of the image, which has as many bytes as `out` takes. One that changed since the last
    /// epoch is had from memory.
    pub fn unit(&mut self, unit: u32, out: &mut [u8]) -> Result<(), UnitError>
        requires { ForSome (image_of self.old) (λ image. IsUnit image unit (length out.old)) }
        ensures bytes { OnOk result (ForSome (image_of self.old) (λ image. out.new ≡ unit_bytes image unit)) }
        ensures len { length out.new ≡ length out.old }
        ensures read { OnlyRead H.told H.moment H.failures H.left_since self.old self.new }
        ensures cause { EndsReading
            (H.told self.old.host) (H.failures self.old.host) (H.failures self.new.host) result }
        ensures calls { H.moment self.new.host ≤ H.moment self.old.host + 1 }
    {
        match self.waiting.find(unit) {
            Some(bytes) => copy_unit(bytes, unit, out),
            None => read_unit(&mut self.host, self.header.block_size, unit, out),
        }
    }

    /// Lends the bytes of a unit that changed since the last epoch, which are in memory. `None` says nothing of the
    /// unit: where it is one of the image, `unit` copies its bytes.
    pub fn lend(&self, unit: u32) -> Option<&[u8]>
        ensures { IfSome result (λ bytes. ForSome (image_of self.now) (λ image. bytes.now ≡ unit_bytes image unit)) }
    {
        self.waiting.find(unit)
    }
}

/// Copies the bytes of a unit that waits.
fn copy_unit(bytes: &[u8], unit: u32, out: &mut [u8]) -> Result<(), UnitError>
    ensures same { OnOk result (out.new ≡ bytes.now) }
    ensures len { length out.new ≡ length out.old }
    ensures err { OnErr result ((length bytes.now ≢ length out.old) × (result ≡ Err (UnitError.Changed unit))) }
{
    if bytes.len() != out.len() {
        return Err(UnitError::Changed { unit });
    }
    out.copy_from_slice(bytes);
    Ok(())
}

/// Fills `out` with the bytes that the database file has in the place of a unit.
pub(crate) fn read_unit<H: Host>(
    host: &mut H,
    block_size: u32,
    unit: u32,
    out: &mut [u8],
) -> Result<(), UnitError>
    requires { ForSome (H.told host.old) (λ c. place_of block_size unit + length out.old ≤ length c.db) }
    ensures bytes { OnOk result (ForSome (H.told host.old)
        (λ c. out.new ≡ take (length out.new) (drop (place_of block_size unit) c.db))) }
    ensures len { length out.new ≡ length out.old }
    ensures read { WasRead H.told H.failures host.old host.new }
    ensures crash { LeavesTheSame H.moment H.left_since host.old host.new }
    ensures cause { EndsReading (H.told host.old) (H.failures host.old) (H.failures host.new) result }
    ensures calls { H.moment host.new ≤ H.moment host.old + 1 }
{
    let at = place_of(unit, block_size);
    let Ok(count) = host.read(FileNo::Db, at, out) else {
        return Err(UnitError::ReadFault);
    };
    if count < out.len() {
        return Err(UnitError::Changed { unit });
    }
    Ok(())
}
