ghost use Rattle.std.specs.Prelude.{◌≡◌, ◌≢◌, ℕ, List, [], length, take, not, ◌||◌, ◌==◌, IfOk, IfErr, IfSome, IfNone};
ghost use Rattle.std.specs.Prelude.{None};
ghost use Rattle.std.specs.Option.{ForSome};
ghost use Rattle.std.specs.List.{list_all, list_any};
ghost use Rattle.gds_header.specs.Fields.{fields_of};
ghost use Rattle.gds_header.specs.Kinds.{IsWithinLimits, header_faults, holds, has_free, groups_past, reserved_bytes};
ghost use Rattle.gds_cli.specs.Trouble.{WasReadFor, IsChange};
ghost use Rattle.gds_cli.specs.SoundHeader.{IsHeaderOf, are_zeros, is_clear, is_faultless};

use super::trouble::Trouble;
use gds_header::{HEADER_LENGTH, Header};
use host_model::{FileNo, Host};

/// The greatest transaction number.
const TN_MAX: u64 = 1 << 63;

/// How many groups a master map has room for, of 512 blocks each.
const GROUPS: u32 = 2048;

const GROUP: u32 = 512;

/// The header of the database file, where it has no fault.
pub(crate) fn sound_header<H: Host>(host: &mut H) -> Result<Option<Header>, Trouble>
    ensures some { IfOk result (λ o. IfSome o (λ h. ForSome (H.told host.old) (λ c. IsHeaderOf h c.db))) }
    ensures limits { IfOk result (λ o. IfSome o IsWithinLimits) }
    ensures none { IfOk result (λ o. IfNone o (ForSome (H.told host.old) (λ c. header_faults c.db ≢ []))) }
    ensures host { WasReadFor H.told H.failures host.old host.new result }
    ensures changed { IfErr result (λ t. IsChange t → H.told host.old ≡ None) }
{
    let length = host.len(FileNo::Db)?;
    if length < HEADER_LENGTH as u64 {
        return Ok(None);
    }
    let mut bytes = [0u8; HEADER_LENGTH];
    if host.read(FileNo::Db, 0, &mut bytes)? < HEADER_LENGTH {
        return Err(Trouble::Changed { unit: 0 });
    }
    Ok(sound(&bytes, length))
}

/// The header that stands in these bytes at the front of a file, where the file's header has no fault.
fn sound(bytes: &[u8], size: u64) -> Option<Header>
    requires { length bytes.now ≡ 8192 }
    ensures some { IfSome result (λ h. (d : List ℕ) → take 8192 d ≡ bytes.now → length d ≡ size → IsHeaderOf h d) }
    ensures limits { IfSome result IsWithinLimits }
    ensures none { IfNone result ((d : List ℕ) → take 8192 d ≡ bytes.now → length d ≡ size → header_faults d ≢ []) }
{
    match Header::read(bytes) {
        Ok(header) if is_faultless(&header, bytes, size) => Some(header),
        Ok(_) => None,
        Err(_) => None,
    }
}

/// Whether a header has no fault that could be read past, in a file of this length.
fn is_faultless(header: &Header, bytes: &[u8], size: u64) -> bool
    requires bytes { length bytes.now ≡ 8192 }
    requires limits { IsWithinLimits header.now }
    ensures { result ≡ is_faultless header.now bytes.now size }
{
    header.file_length() == size && is_clear(header, bytes) && header.tn >= 1 && header.tn <= TN_MAX
}

/// Whether the bytes and the bits of the master map that must be 0 are.
fn is_clear(header: &Header, bytes: &[u8]) -> bool
    requires size { length bytes.now ≡ 8192 }
    requires limits { IsWithinLimits header.now }
    ensures { result ≡ is_clear header.now bytes.now }
{
    are_zeros(&bytes[36..40])
        && are_zeros(&bytes[48..4096])
        && are_zeros(&bytes[4352..8192])
        && !has_free_past(header)
}

/// Whether the master map says that a group past the last has a free block.
fn has_free_past(header: &Header) -> bool
    requires { IsWithinLimits header.now }
    ensures { result ≡ list_any (has_free header.now) (groups_past header.now) }
{
    ((header.total + GROUP - 1) / GROUP..GROUPS).any(|group| header.group_has_free(group))
}

fn are_zeros(bytes: &[u8]) -> bool
    ensures { result ≡ are_zeros bytes.now }
{
    bytes.iter().all(|b| *b == 0)
}
