//! The header of a file: whether it can be read, and the faults behind which the reading goes on.
ghost use Rattle.std.specs.Prelude.{◌≡◌, ◌≤◌, ℕ, List, Some, None, length, map, take, ◌||◌, not, ◌==◌, IfOk, IfErr};
ghost use Rattle.std.specs.Prelude.{OnOk};
ghost use Rattle.std.specs.List.{list_any};
ghost use Rattle.gds_header.specs.Fields.{fields_of, file_length_of};
ghost use Rattle.gds_header.specs.Kinds.{IsWithinLimits, ending_kind, groups_past, has_free};
ghost use Rattle.gds_law.specs.Maps.{fault_of};
ghost use Rattle.gds_law.specs.Sink.{WasTold};
ghost use Rattle.integ.specs.Header.{any_set, is_bad_number, is_marked, open_kinds};

use crate::group::GROUP;
use crate::telling::tell_standing;
use gds_header::{Header, HeaderKind};
use gds_law::{FaultKind, FaultSink, SinkTrouble};

/// The greatest transaction number.
const TN_MAX: u64 = 1 << 63;

/// How many groups a master map has room for.
const GROUPS: u32 = 2048;

/// The header of a file of this size that begins with these bytes, or the kind that ends its reading.
pub(crate) fn read_header(bytes: &[u8], size: u64) -> Result<Header, HeaderKind>
    requires { length bytes.now ≡ 8192 }
    ensures fields { IfOk result (λ header. header ≡ fields_of bytes.now) }
    ensures limits { IfOk result IsWithinLimits }
    ensures goes_on { OnOk result ((file : List ℕ) → take 8192 file ≡ bytes.now → length file ≡ size
        → ending_kind file ≡ None) }
    ensures ends { IfErr result (λ kind.
        (file : List ℕ) → take 8192 file ≡ bytes.now → length file ≡ size → ending_kind file ≡ Some kind) }
{
    let header = Header::read(bytes)?;
    if size < header.file_length() {
        return Err(HeaderKind::ShortFile);
    }
    Ok(header)
}

/// Tells the kinds that stand of a header and don't end the reading: of a file of this size that begins with these
/// bytes.
pub(crate) fn tell_header<F: FaultSink>(
    header: &Header,
    bytes: &[u8],
    size: u64,
    sink: &mut F,
) -> Result<u64, SinkTrouble>
    requires bytes { length bytes.now ≡ 8192 }
    requires limits { IsWithinLimits header.now }
    ensures told { WasTold F.listed F.failures sink.old sink.new
        (map (fault_of 0) (open_kinds header.now bytes.now size)) result SinkTrouble.Failed }
    ensures count { IfOk result (λ count. count ≡ length (open_kinds header.now bytes.now size)) }
    ensures few { IfOk result (λ count. count ≤ 3) }
{
    let kinds = [
        (FaultKind::LongFile, header.file_length() < size),
        (FaultKind::ReservedByte, is_marked(header, bytes)),
        (FaultKind::BadTransactionNumber, is_bad_number(header.tn)),
    ];
    tell_standing(0, &kinds, sink)
}

/// Whether a header may not have this transaction number.
fn is_bad_number(tn: u64) -> bool
    ensures { result ≡ is_bad_number tn }
{
    tn == 0 || tn > TN_MAX
}

/// Whether a byte or a bit of the master map that must be 0 isn't.
fn is_marked(header: &Header, bytes: &[u8]) -> bool
    requires bytes { length bytes.now ≡ 8192 }
    requires limits { IsWithinLimits header.now }
    ensures { result ≡ is_marked header.now bytes.now }
{
    any_set(&bytes[36..40])
        || any_set(&bytes[48..4096])
        || any_set(&bytes[4352..8192])
        || has_free_past(header)
}

/// Whether the master map says that a group past the last has a free block.
fn has_free_past(header: &Header) -> bool
    requires { IsWithinLimits header.now }
    ensures { result ≡ list_any (has_free header.now) (groups_past header.now) }
{
    ((header.total + GROUP - 1) / GROUP..GROUPS).any(|group| header.group_has_free(group))
}

/// Whether one of the bytes isn't 0.
fn any_set(bytes: &[u8]) -> bool
    ensures { result ≡ any_set bytes.now }
{
    bytes.iter().any(|byte| *byte != 0)
}
