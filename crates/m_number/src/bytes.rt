ghost use Rattle.std.specs.Prelude.{◌≡◌, ◌+◌, ◌<◌, ◌≤◌, ℕ, ◌∷◌, ◌++◌, length, map, All, negsuc, pos, ◌≤ℤ◌};
ghost use Rattle.std.specs.Prelude.{IfSome, IfNone, IsSomeAnd};
ghost use Rattle.std.specs.List.{flat_map};
ghost use Rattle.arrayvec.specs.ArrayVec.{array_vec_len};
ghost use Rattle.m_number.specs.Numeral.{Numeral, IsNumeral};
ghost use Rattle.m_number.specs.Bytes.{bytes_of, first_byte, pairs_of};
ghost use Rattle.m_number.specs.Packed.{signed_byte, pair_of, unfilled};
ghost use Rattle.m_number.specs.Number.{numeral_of};

use crate::{Digits, Number};
use arrayvec::ArrayVec;

/// The bytes of a number as a subscript in a key, 1 to 11 of them.
#[tactic(auto, unfolding(crate::specs::Bytes::bytes_of))]
pub fn encode(number: &Number) -> ArrayVec<u8, 12>
    ensures { result.items ≡ bytes_of (numeral_of number.now) }
{
    let mut bytes = ArrayVec::new();
    let digits = number.digits.as_slice();
    if digits.is_empty() {
        bytes.push(0x80);
    } else {
        push_size(&mut bytes, number.negative, digits, number.exponent);
        if number.negative {
            bytes.push(0xFF);
        }
    }
    bytes
}

/// Appends a number that isn't zero, without the end of a negative one.
fn push_size(bytes: &mut ArrayVec<u8, 12>, negative: bool, digits: &[u8], exponent: i8)
    requires empty { array_vec_len bytes.old ≡ 0 }
    requires decimal { All (λ d. d < 10) digits.now }
    requires count { length digits.now ≤ 18 }
    requires least { negsuc 42 ≤ℤ exponent }
    requires greatest { exponent ≤ℤ pos 46 }
    ensures { bytes.new.items ≡ map (signed_byte negative) (first_byte exponent ∷ pairs_of digits.now) }
{
    bytes.push(signed(negative, (0xBF + i16::from(exponent)) as u8));
    push_pairs(bytes, negative, digits);
}

fn push_pairs(bytes: &mut ArrayVec<u8, 12>, negative: bool, digits: &[u8])
    requires room { array_vec_len bytes.old ≤ 1 }
    requires decimal { All (λ d. d < 10) digits.now }
    requires count { length digits.now ≤ 18 }
    ensures { bytes.new.items ≡ bytes.old.items ++ map (signed_byte negative) (pairs_of digits.now) }
{
    let pairs = digits.len() / 2;
    for i in 0..pairs {
        bytes.push(signed(negative, 16 * digits[2 * i] + digits[2 * i + 1] + 1));
    }
    if 2 * pairs < digits.len() {
        bytes.push(signed(negative, 16 * digits[2 * pairs] + 1));
    }
}

/// A byte of a positive number, as it stands in one of this sign, and back.
pub(crate) fn signed(negative: bool, byte: u8) -> u8
    ensures { result ≡ signed_byte negative byte }
{
    if negative { 0xFF - byte } else { byte }
}

/// The number that has these bytes, where there is one.
pub fn decode(bytes: &[u8]) -> Option<Number>
    ensures some { IfSome result (λ n. bytes_of (numeral_of n) ≡ bytes.now) }
    ensures none { IfNone result ((n : Numeral) → IsNumeral n → bytes_of n ≡ bytes.now → ⊥) }
{
    let number = candidate(bytes)?;
    if encode(&number).as_slice() == bytes {
        Some(number)
    } else {
        None
    }
}

/// The number that has these bytes, if one has them.
fn candidate(bytes: &[u8]) -> Option<Number>
    ensures { (n : Numeral) → IsNumeral n → bytes_of n ≡ bytes.now → IsSomeAnd result (λ r. numeral_of r ≡ n) }
{
    let (first, rest) = bytes.split_first()?;
    if *first == 0x80 {
        return Number::new(false, Digits::new(), 0);
    }
    if *first > 0x80 {
        return nonzero(false, *first, rest);
    }
    let (_, packed) = rest.split_last()?;
    nonzero(true, 0xFF - *first, packed)
}

/// The number with the first byte that it would have without its sign, and these bytes of digits.
fn nonzero(negative: bool, first: u8, packed: &[u8]) -> Option<Number>
    requires { 128 ≤ first }
    ensures { (n : Numeral) → IsNumeral n → n.negative ≡ negative → 0 < length n.digits → first ≡ first_byte n.exponent
        → packed.now ≡ map (signed_byte negative) (pairs_of n.digits) → IsSomeAnd result (λ r. numeral_of r ≡ n) }
{
    if packed.len() > 9 {
        return None;
    }
    Number::new(
        negative,
        unpacked(negative, packed),
        (first - 0x80) as i8 - 0x3F,
    )
}

/// The digits of these bytes.
fn unpacked(negative: bool, packed: &[u8]) -> Digits
    requires { length packed.now ≤ 9 }
    ensures { result ≡ unfilled (flat_map (pair_of negative) packed.now) }
{
    let mut digits = Digits::new();
    for byte in packed {
        digits.push_pair(signed(negative, *byte).saturating_sub(1));
    }
    digits.drop_filling();
    digits
}
