ghost use Rattle.std.specs.Prelude.{◌≡◌, ◌<◌, ◌≤◌, ◌^◌, length, All, IfOk, IfSome, OnOk, IsErrOf, None, option_map};
ghost use Rattle.std.specs.Option.{ForSome, SomeIff};
ghost use Rattle.host_model.specs.Failures.{Rose};
ghost use Rattle.host_model.specs.Frames.{WasRead};
ghost use Rattle.host_model.specs.Units.{IsUnit, unit_bytes};
ghost use Rattle.host_model.proofs.FrameLemmas.{WasRead-refl, WasRead-then};
ghost use Rattle.integ.specs.RawFile.{database_of, place};

use host_model::{FileNo, Host, UnitSource, UnitTrouble};
use std::marker::Model;

/// How many bytes the header has, which is unit 0.
const HEADER_LENGTH: u64 = 8192;

/// The units of the database file of a host, as the file stands: each is read when it is asked for. Clauses see it as
/// the host.
#[derive(Drop)]
pub struct RawFile<H: Host> {
    host: H,
}

impl<H: Host> Model for RawFile<H> {
    ghost Value = { H };

    ghost view = { λ file. file.host };
}

impl<H: Host> RawFile<H> {
    /// The units of this host's database file. Nothing is read yet.
    pub fn new(host: H) -> RawFile<H>
        ensures { result ≡ host }
    {
        RawFile { host }
    }

    /// The host, which was only read.
    pub fn into_host(self) -> H
        ensures { result ≡ self }
    {
        let RawFile { host } = self;
        host
    }
}

impl<H: Host> UnitSource for RawFile<H> {
    ghost image = { λ file. database_of (H.told file) };

    ghost failures = { λ file. (H.failures file).read };

    ghost was_read = { λ old new. WasRead H.told H.failures old new };

    ghost not_read = { WasRead-refl H.told H.failures };

    ghost read_on = { WasRead-then H.told H.failures };

    fn length(&mut self) -> Result<u64, UnitTrouble> {
        Ok(self.host.len(FileNo::Db)?)
    }

    fn unit(&mut self, unit: u32, out: &mut [u8]) -> Result<(), UnitTrouble> {
        let Some(at) = place_of(unit, out.len()) else {
            // No file is so long. One that tells what it holds is as long as it says.
            self.length()?;
            return Err(UnitTrouble::Changed { unit });
        };
        let count = self.host.read(FileNo::Db, at, out)?;
        if count < out.len() {
            return Err(UnitTrouble::Changed { unit });
        }
        Ok(())
    }
}

/// Where the unit begins in a file whose blocks have so many bytes, or none where that is past each file's end.
fn place_of(unit: u32, block_size: usize) -> Option<u64>
    ensures { SomeIff result (place unit block_size < 2 ^ 64) (place unit block_size) }
{
    match unit.checked_sub(1) {
        None => Some(0),
        Some(block) => u64::from(block)
            .checked_mul(block_size as u64)?
            .checked_add(HEADER_LENGTH),
    }
}
