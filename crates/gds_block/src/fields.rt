ghost use Rattle.std.specs.Prelude.{◌≡◌, ◌+◌, ◌≤◌, length, SomeIff};
ghost use Rattle.gds_block.specs.Fields.{u16_at, u32_at, u64_at, u16_bytes, u32_bytes, u64_bytes, with_bytes};

/// The number in the two bytes from a place on, the lowest byte first.
#[tactic(auto, unfolding(crate::specs::Fields::u16_at))]
pub fn u16_at(bytes: &[u8], at: usize) -> u16
    requires { at + 2 ≤ length bytes.now }
    ensures { result ≡ u16_at bytes.now at }
{
    u16::from_le_bytes([bytes[at], bytes[at + 1]])
}

/// The number in the four bytes from a place on, the lowest byte first.
#[tactic(auto, unfolding(crate::specs::Fields::u32_at))]
pub fn u32_at(bytes: &[u8], at: usize) -> u32
    requires { at + 4 ≤ length bytes.now }
    ensures { result ≡ u32_at bytes.now at }
{
    u32::from_le_bytes([bytes[at], bytes[at + 1], bytes[at + 2], bytes[at + 3]])
}

/// The number in the eight bytes from a place on, the lowest byte first.
#[tactic(auto, unfolding(crate::specs::Fields::u64_at))]
pub fn u64_at(bytes: &[u8], at: usize) -> u64
    requires { at + 8 ≤ length bytes.now }
    ensures { result ≡ u64_at bytes.now at }
{
    let mut number = [0; 8];
    number.copy_from_slice(&bytes[at..at + 8]);
    u64::from_le_bytes(number)
}

/// The block number that a record's rest is, if the rest has exactly 4 bytes.
pub fn pointer_of(rest: &[u8]) -> Option<u32>
    ensures { SomeIff result (length rest.now ≡ 4) (u32_at rest.now 0) }
{
    if rest.len() == 4 {
        Some(u32_at(rest, 0))
    } else {
        None
    }
}

/// Puts bytes in place of those from a place on. The others stay.
pub fn put_bytes(out: &mut [u8], at: usize, bytes: &[u8])
    requires { at + length bytes.now ≤ length out.old }
    ensures { out.new ≡ with_bytes out.old at bytes.now }
{
    out[at..at + bytes.len()].copy_from_slice(bytes);
}

/// Puts a number in place of the two bytes from a place on, its lowest byte first. The others stay.
#[tactic(auto, unfolding(crate::specs::Fields::u16_bytes))]
pub fn put_u16(out: &mut [u8], at: usize, number: u16)
    requires { at + 2 ≤ length out.old }
    ensures { out.new ≡ with_bytes out.old at (u16_bytes number) }
{
    put_bytes(out, at, &number.to_le_bytes());
}

/// Puts a number in place of the four bytes from a place on, its lowest byte first. The others stay.
#[tactic(auto, unfolding(crate::specs::Fields::u32_bytes))]
pub fn put_u32(out: &mut [u8], at: usize, number: u32)
    requires { at + 4 ≤ length out.old }
    ensures { out.new ≡ with_bytes out.old at (u32_bytes number) }
{
    put_bytes(out, at, &number.to_le_bytes());
}

/// Puts a number in place of the eight bytes from a place on, its lowest byte first. The others stay.
#[tactic(auto, unfolding(crate::specs::Fields::u64_bytes))]
pub fn put_u64(out: &mut [u8], at: usize, number: u64)
    requires { at + 8 ≤ length out.old }
    ensures { out.new ≡ with_bytes out.old at (u64_bytes number) }
{
    put_bytes(out, at, &number.to_le_bytes());
}
