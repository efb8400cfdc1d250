ghost use Rattle.std.specs.Prelude.{◌≡◌, ◌+◌, ◌^◌, ◌<◌, ◌≤◌, length, replicate, IfOk, OnErr, OnOk};
ghost use Rattle.std.specs.Option.{ForSome};
ghost use Rattle.host_model.specs.Frames.{WasRead};
ghost use Rattle.host_model.specs.Moments.{LeavesTheSame};
ghost use Rattle.gds_units.specs.Ending.{EndsReading};
ghost use Rattle.gds_units.specs.Keeping.{AddsImage};

use crate::error::UnitError;
use gds_images::Group;
use host_model::{FileNo, Host};
use std::alloc::{AllocError, Global};
use std::marker::Model;

/// How many zeros are written by one call at most, and how many bytes of a unit are read: no block is longer.
const ROOM: usize = 65_536;

/// Zeros for the blocks by which a file grows.
#[derive(Debug, Drop)]
pub(crate) struct Zeros {
    bytes: Vec<u8>,
}

impl Model for Zeros {
    ghost use Rattle.std.specs.Prelude.{◌≡◌, ℕ, ◌<◌, length, replicate};

    ghost Value = { ℕ };

    ghost view = { λ zeros. length zeros.bytes.items };

    ghost invariant = { λ zeros. (0 < length zeros.bytes.items)
        × (zeros.bytes.items ≡ replicate (length zeros.bytes.items) 0) };
}

impl Zeros {
    /// Takes the memory.
    pub(crate) fn new(alloc: Global) -> Result<Zeros, AllocError> {
        Zeros::with_len(alloc, ROOM)
    }

    fn with_len(alloc: Global, len: usize) -> Result<Zeros, AllocError>
        requires { 0 < len }
    {
        Ok(Zeros {
            bytes: vec![in alloc; 0; len]?,
        })
    }

    /// The zeros.
    pub(crate) fn as_slice(&self) -> &[u8]
        ensures some { 0 < length result.now }
        ensures zeros { result.now ≡ replicate (length result.now) 0 }
    {
        &self.bytes
    }
}

/// Room for the old bytes of a unit.
#[derive(Debug, Drop)]
pub(crate) struct Scratch {
    bytes: Vec<u8>,
}

impl Model for Scratch {
    ghost use Rattle.std.specs.Prelude.{ℕ, ◌≤◌, length};

    ghost Value = { ℕ };

    ghost view = { λ scratch. length scratch.bytes.items };

    ghost invariant = { λ scratch. 65536 ≤ length scratch.bytes.items };
}

impl Scratch {
    /// Takes the memory.
    pub(crate) fn new(alloc: Global) -> Result<Scratch, AllocError> {
        Scratch::with_len(alloc, ROOM)
    }

    fn with_len(alloc: Global, len: usize) -> Result<Scratch, AllocError>
        requires { 65536 ≤ len }
    {
        Ok(Scratch {
            bytes: vec![in alloc; 0; len]?,
        })
    }

    /// Reads the bytes of a unit, so many from a place of the database file on, and keeps them as an image.
    pub(crate) fn keep_unit<H: Host>(
        &mut self,
        host: &mut H,
        images: &mut Group,
        unit: u32,
        at: u64,
        len: usize,
    ) -> Result<(), UnitError>
        requires fits { len ≤ 65536 }
        requires within { ForSome (H.told host.old) (λ c. at + len ≤ length c.db) }
        ensures added { OnOk result (AddsImage (H.told host.old) at len images.old images.new) }
        ensures err { OnErr result (images.new ≡ images.old) }
        ensures read { WasRead H.told H.failures host.old host.new }
        ensures crash { LeavesTheSame H.moment H.left_since host.old host.new }
        ensures cause { EndsReading (H.told host.old) (H.failures host.old) (H.failures host.new) result }
    {
        keep_bytes(host, images, unit, at, &mut self.bytes[..len])
    }
}

/// The same, into room that has as many bytes as the unit.
fn keep_bytes<H: Host>(
    host: &mut H,
    images: &mut Group,
    unit: u32,
    at: u64,
    room: &mut [u8],
) -> Result<(), UnitError>
    requires short { length room.old < 2 ^ 32 }
    requires within { ForSome (H.told host.old) (λ c. at + length room.old ≤ length c.db) }
    ensures added { OnOk result (AddsImage (H.told host.old) at (length room.old) images.old images.new) }
    ensures err { OnErr result (images.new ≡ images.old) }
    ensures read { WasRead H.told H.failures host.old host.new }
    ensures crash { LeavesTheSame H.moment H.left_since host.old host.new }
    ensures cause { EndsReading (H.told host.old) (H.failures host.old) (H.failures host.new) result }
    ensures len { length room.new ≡ length room.old }
{
    let Ok(count) = host.read(FileNo::Db, at, room) else {
        return Err(UnitError::ReadFault);
    };
    if count < room.len() {
        return Err(UnitError::Changed { unit });
    }
    let Ok(()) = images.push(at, room) else {
        return Err(UnitError::Memory);
    };
    Ok(())
}
