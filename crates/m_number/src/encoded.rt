ghost use Rattle.std.specs.Prelude.{◌≡◌, ◌↔◌, ℕ, ◌<◌, ◌&&◌, length, IsTrue, nat_lt, slice_index};
ghost use Rattle.std.specs.List.{list_all};
ghost use Rattle.m_number.specs.Numeral.{Numeral, IsNumeral};
ghost use Rattle.m_number.specs.Bytes.{bytes_of};
ghost use Rattle.m_number.specs.Packed.{signed_byte, is_pair, have_ends, are_pairs, is_nonzero};

use crate::bytes::signed;

/// Whether a number has these bytes. They are read once, and no number is made of them.
pub fn is_encoded(bytes: &[u8]) -> bool
    ensures { IsTrue result ↔ ((n : Numeral) × IsNumeral n × (bytes_of n ≡ bytes.now)) }
{
    let Some((first, rest)) = bytes.split_first() else {
        return false;
    };
    if *first == 0x80 {
        return rest.is_empty();
    }
    if *first > 0x80 {
        return is_nonzero(false, *first, rest);
    }
    let Some((last, packed)) = rest.split_last() else {
        return false;
    };
    *last == 0xFF && is_nonzero(true, 0xFF - *first, packed)
}

/// Whether the first byte that a number has without its sign, and these bytes of digits, are those of a number that
/// isn't zero.
fn is_nonzero(negative: bool, first: u8, packed: &[u8]) -> bool
    ensures { result ≡ is_nonzero negative first packed.now }
{
    0x93 < first && first < 0xEE && are_pairs(negative, packed)
}

/// Whether these are the bytes of the digits of a number that isn't zero.
fn are_pairs(negative: bool, packed: &[u8]) -> bool
    ensures { result ≡ are_pairs negative packed.now }
{
    have_ends(negative, packed) && all_pairs(negative, packed)
}

fn all_pairs(negative: bool, packed: &[u8]) -> bool
    ensures { result ≡ list_all (λ b. is_pair (signed_byte negative b)) packed.now }
{
    packed.iter().all(|b| is_pair(signed(negative, *b)))
}

/// Whether these are 1 to 9 bytes of which the first doesn't begin with the digit 0 and the last isn't 00.
fn have_ends(negative: bool, packed: &[u8]) -> bool
    ensures { result ≡ have_ends negative packed.now }
{
    0 < packed.len()
        && packed.len() <= 9
        && 16 < signed(negative, packed[0])
        && 1 < signed(negative, packed[packed.len() - 1])
}

/// Whether a byte of a positive number has two decimal digits.
fn is_pair(byte: u8) -> bool
    ensures { result ≡ is_pair byte }
{
    0 < byte && (byte - 1) / 16 < 10 && (byte - 1) % 16 < 10
}
