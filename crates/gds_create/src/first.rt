//! Which blocks of a new database are free at first, as its header and its maps say it.
ghost use Rattle.std.specs.Prelude.{◌≡◌, ◌+◌, ◌*◌, ◌<◌, ◌≤◌};
ghost use Rattle.gds_bitmap.specs.State.{code_of};
ghost use Rattle.gds_header.specs.Kinds.{IsWithinLimits};
ghost use Rattle.gds_new.specs.NewDatabase.{bit_of, byte_of_bits, byte_of_states, first_master, first_state};
ghost use Rattle.gds_new.specs.NewDatabase.{group_starts_free, new_header, pairs_bytes, starts_free};

use gds_header::Header;

/// Blocks come in groups of so many, the first of each group its local bitmap.
pub(crate) const GROUP: u32 = 512;

/// The header of a new database with the numbers of this one: all blocks but the maps and two more are free, and the
/// first transaction is the next.
pub(crate) fn new_header(header: &Header) -> Header
    requires { IsWithinLimits header.now }
    ensures new { result ≡ new_header header.now }
    ensures limits { IsWithinLimits result }
{
    Header {
        free: header.total - header.total.div_ceil(GROUP) - 2,
        tn: 1,
        master: first_master(header),
        ..*header
    }
}

/// The master map of a new database.
fn first_master(header: &Header) -> [u8; 256]
    ensures { result ≡ first_master header.now }
{
    let mut master = [0; 256];
    for i in 0..256 {
        master[i] = master_byte(header, 8 * i as u32);
    }
    master
}

/// The byte of eight groups, the first in its lowest bit.
fn master_byte(header: &Header, group: u32) -> u8
    requires { group < 2048 }
    ensures { result ≡ byte_of_bits (λ j. group_starts_free header.now (group + j)) }
{
    let low = bit(header, group)
        + 2 * bit(header, group + 1)
        + 4 * bit(header, group + 2)
        + 8 * bit(header, group + 3);
    low + 16 * bit(header, group + 4)
        + 32 * bit(header, group + 5)
        + 64 * bit(header, group + 6)
        + 128 * bit(header, group + 7)
}

/// 1 where the group has a free block at first.
fn bit(header: &Header, group: u32) -> u8
    requires { group < 2055 }
    ensures bit { result ≡ bit_of (group_starts_free header.now group) }
    ensures low { result ≤ 1 }
{
    if group_starts_free(header, group) {
        1
    } else {
        0
    }
}

fn group_starts_free(header: &Header, group: u32) -> bool
    requires { group < 2055 }
    ensures { result ≡ group_starts_free header.now group }
{
    let first = if group == 0 { 3 } else { GROUP * group + 1 };
    first < header.total
}

/// The pairs of a group in its map, as they are at first.
pub(crate) fn first_pairs(header: &Header, group: u32) -> [u8; 128]
    requires { group < 2048 }
    ensures { result ≡ pairs_bytes header.now group }
{
    let mut pairs = [0; 128];
    for i in 0..128 {
        pairs[i] = pairs_byte(header, GROUP * group + 4 * i as u32);
    }
    pairs
}

/// The byte of four blocks, the first in its lowest bits.
fn pairs_byte(header: &Header, block: u32) -> u8
    requires { block < 1048576 }
    ensures { result ≡ byte_of_states (λ j. first_state header.now (block + j)) }
{
    pair(header, block)
        + 4 * pair(header, block + 1)
        + 16 * pair(header, block + 2)
        + 64 * pair(header, block + 3)
}

/// The pair of a block at first.
fn pair(header: &Header, block: u32) -> u8
    ensures pair { result ≡ code_of (first_state header.now block) }
    ensures low { result ≤ 1 }
{
    if starts_free(header, block) { 1 } else { 0 }
}

fn starts_free(header: &Header, block: u32) -> bool
    ensures { result ≡ starts_free header.now block }
{
    2 < block && block < header.total && block % GROUP != 0
}
