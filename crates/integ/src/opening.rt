//! The opening of a file: its header, and what follows where it can be read.
ghost use Rattle.std.specs.Prelude.{◌≡◌, ◌<◌, ◌≤◌, ℕ, None, length, All, IfOk, OnErr, IsErrOf};
ghost use Rattle.std.specs.Option.{ForSome};
ghost use Rattle.host_model.specs.Failures.{Rose};
ghost use Rattle.gds_header.specs.Kinds.{IsWithinLimits};
ghost use Rattle.integ.specs.Integ.{IsOpen, IsToldInPart, IsToldWhole, Opens};
ghost use Rattle.integ_walk.specs.Walk.{HasCause};

use crate::header::{read_header, tell_header};
use crate::maps::map_faults;
use gds_header::{HEADER_LENGTH, Header, HeaderKind};
use gds_law::FaultSink;
use host_model::{UnitSource, UnitTrouble};
use integ_block::IntegError;
use integ_walk::walk;
use std::alloc::Global;

/// A file's length, and its header or the kind that ends its reading.
#[derive(Clone, Copy)]
pub(crate) struct Opened {
    pub(crate) size: u64,
    pub(crate) header: Result<Header, HeaderKind>,
}

/// Reads the header of a file into the bytes.
pub(crate) fn open<U: UnitSource>(units: &mut U, bytes: &mut [u8]) -> Result<Opened, UnitTrouble>
    requires { length bytes.old ≡ 8192 }
    ensures opens { IfOk result (λ opened. ForSome (U.image units.old) (λ file. Opens file bytes.new opened.header)) }
    ensures size { IfOk result (λ opened. ForSome (U.image units.old) (λ file. opened.size ≡ length file)) }
    ensures limits { IfOk result (λ opened. IfOk opened.header IsWithinLimits) }
    ensures are_bytes { ForSome (U.image units.old) (All (λ b. b < 256)) }
    ensures image { U.image units.new ≡ U.image units.old }
    ensures source { U.was_read units.old units.new }
    ensures failures { U.failures units.old ≤ U.failures units.new }
    ensures failed { IsErrOf result UnitTrouble.Failed → Rose (U.failures units.old) (U.failures units.new) }
    ensures changed { (unit : ℕ) → IsErrOf result (UnitTrouble.Changed unit) → U.image units.old ≡ None }
{
    let size = units.length()?;
    if size < HEADER_LENGTH as u64 {
        return Ok(Opened {
            size,
            header: Err(HeaderKind::ShortHeader),
        });
    }
    units.unit(0, bytes)?;
    Ok(Opened {
        size,
        header: read_header(bytes, size),
    })
}

/// Tells all faults of a file whose header can be read: first the header's own.
pub(crate) fn tell_open<U: UnitSource, F: FaultSink>(
    alloc: Global,
    units: &mut U,
    header: &Header,
    bytes: &[u8],
    size: u64,
    sink: &mut F,
) -> Result<u64, IntegError>
    requires bytes { length bytes.now ≡ 8192 }
    requires limits { IsWithinLimits header.now }
    requires opens { ForSome (U.image units.old) (λ file. IsOpen file bytes.now header.now) }
    requires size { ForSome (U.image units.old) (λ file. size ≡ length file) }
    ensures told { ForSome (U.image units.old) (λ file.
        IfOk result (IsToldWhole file (F.listed sink.old) (F.listed sink.new))) }
    ensures refused { ForSome (U.image units.old) (λ file.
        OnErr result (IsToldInPart file (F.listed sink.old) (F.listed sink.new))) }
    ensures source { U.was_read units.old units.new }
    ensures cause { HasCause U.image U.failures F.failures units.old units.new sink.old sink.new result }
{
    let of_header = tell_header(header, bytes, size, sink)?;
    let seen = walk(alloc, units, header, sink)?;
    let of_maps = map_faults(alloc, units, header, seen.used.as_slice(), sink)?;
    Ok(of_header + seen.faults + of_maps)
}
