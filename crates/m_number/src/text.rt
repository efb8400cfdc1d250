ghost use Rattle.std.specs.Prelude.{◌≡◌, ◌+◌, ◌-◌, ◌<◌, ◌≤◌, ◌≢◌, ◌==◌, ℕ, pos, negsuc, ◌≤ℤ◌, List, ◌++◌, length, All};
ghost use Rattle.std.specs.Prelude.{map, not, replicate, IfSome, IfNone, IsSomeAnd, slice_index};
ghost use Rattle.std.specs.List.{prefix_len, suffix_len};
ghost use Rattle.arrayvec.specs.ArrayVec.{array_vec_len};
ghost use Rattle.m_number.specs.Numeral.{Numeral, IsNumeral};
ghost use Rattle.m_number.specs.Text.{text_of, size_text, large_text, codes_of};
ghost use Rattle.m_number.specs.Number.{numeral_of};

use crate::{Digits, Number};
use arrayvec::ArrayVec;

/// No text of a number is longer.
const LONGEST: usize = 62;

/// The number that the text spells, where it is a canonical text.
pub fn parse_canonical(text: &[u8]) -> Option<Number>
    ensures some { IfSome result (λ n. text_of (numeral_of n) ≡ text.now) }
    ensures none { IfNone result ((n : Numeral) → IsNumeral n → text_of n ≡ text.now → ⊥) }
{
    if text.len() > LONGEST {
        return None;
    }
    let number = candidate(text)?;
    if print(&number).as_slice() == text {
        Some(number)
    } else {
        None
    }
}

/// The one canonical text of a number, at most 62 bytes.
#[tactic(auto, unfolding(crate::specs::Text::text_of))]
pub fn print(number: &Number) -> ArrayVec<u8, 64>
    ensures { result.items ≡ text_of (numeral_of number.now) }
{
    let mut text = ArrayVec::new();
    if number.negative {
        text.push(b'-');
    }
    push_size(&mut text, number.digits.as_slice(), number.exponent);
    text
}

/// Appends a number without its sign.
fn push_size(text: &mut ArrayVec<u8, 64>, digits: &[u8], exponent: i8)
    requires decimal { All (λ d. d < 10) digits.now }
    requires count { length digits.now ≤ 18 }
    requires least { negsuc 42 ≤ℤ exponent }
    requires greatest { exponent ≤ℤ pos 46 }
    requires room { array_vec_len text.old ≤ 1 }
    ensures { text.new.items ≡ text.old.items ++ size_text digits.now exponent }
{
    if digits.is_empty() {
        text.push(b'0');
    } else if exponent < 0 {
        text.push(b'.');
        push_zeros(text, (-1 - exponent) as usize);
        push_digits(text, digits);
    } else {
        push_large(text, digits, exponent as usize + 1);
    }
}

/// Appends a number of 1 or more, so many digits of which are whole.
fn push_large(text: &mut ArrayVec<u8, 64>, digits: &[u8], whole: usize)
    requires decimal { All (λ d. d < 10) digits.now }
    requires count { length digits.now ≤ 18 }
    requires whole { whole ≤ 47 }
    requires room { array_vec_len text.old ≤ 1 }
    ensures { text.new.items ≡ text.old.items ++ large_text digits.now whole }
{
    if digits.len() <= whole {
        push_digits(text, digits);
        push_zeros(text, whole - digits.len());
    } else {
        push_digits(text, &digits[..whole]);
        text.push(b'.');
        push_digits(text, &digits[whole..]);
    }
}

fn push_digits(text: &mut ArrayVec<u8, 64>, digits: &[u8])
    requires decimal { All (λ d. d < 10) digits.now }
    requires room { array_vec_len text.old + length digits.now ≤ 64 }
    ensures { text.new.items ≡ text.old.items ++ codes_of digits.now }
{
    for digit in digits {
        text.push(b'0' + *digit);
    }
}

fn push_zeros(text: &mut ArrayVec<u8, 64>, count: usize)
    requires { array_vec_len text.old + count ≤ 64 }
    ensures { text.new.items ≡ text.old.items ++ replicate count 48 }
{
    for _i in 0..count {
        text.push(b'0');
    }
}

/// The number that the text spells, if it spells one.
fn candidate(text: &[u8]) -> Option<Number>
    requires { length text.now ≤ LONGEST }
    ensures { (n : Numeral) → IsNumeral n → text_of n ≡ text.now → IsSomeAnd result (λ r. numeral_of r ≡ n) }
{
    match text.strip_prefix(b"-") {
        Some(size) => candidate_of_size(true, size),
        None => candidate_of_size(false, text),
    }
}

/// The same of a text behind its sign.
fn candidate_of_size(negative: bool, size: &[u8]) -> Option<Number>
    requires { length size.now ≤ LONGEST }
    ensures { (n : Numeral) → IsNumeral n → n.negative ≡ negative → size_text n.digits n.exponent ≡ size.now
        → IsSomeAnd result (λ r. numeral_of r ≡ n) }
{
    match size.strip_prefix(b".") {
        Some(fraction) => {
            let zeros = zeros_len(fraction);
            number_of(negative, &[], &fraction[zeros..], -1 - zeros as i8)
        }
        None => candidate_of_large(negative, size),
    }
}

/// The same of a text that doesn't begin with a point.
fn candidate_of_large(negative: bool, size: &[u8]) -> Option<Number>
    requires { length size.now ≤ LONGEST }
    ensures { (n : Numeral) → IsNumeral n → n.negative ≡ negative → size_text n.digits n.exponent ≡ size.now
        → slice_index size.now 0 ≢ 46 → IsSomeAnd result (λ r. numeral_of r ≡ n) }
{
    let whole = whole_len(size);
    let exponent = whole.saturating_sub(1) as i8;
    if whole < size.len() {
        number_of(negative, &size[..whole], &size[whole + 1..], exponent)
    } else {
        number_of(
            negative,
            &size[..size.len() - end_zeros_len(size)],
            &[],
            exponent,
        )
    }
}

/// How many bytes stand before the point.
fn whole_len(text: &[u8]) -> usize
    ensures value { result ≡ prefix_len (λ c. not (c == 46)) text.now }
    ensures bound { result ≤ length text.now }
{
    text.iter().take_while(|c| **c != b'.').count()
}

/// How many zeros the text begins with.
fn zeros_len(text: &[u8]) -> usize
    ensures value { result ≡ prefix_len (λ c. c == 48) text.now }
    ensures bound { result ≤ length text.now }
{
    text.iter().take_while(|c| **c == b'0').count()
}

/// How many zeros the text ends with.
fn end_zeros_len(text: &[u8]) -> usize
    ensures value { result ≡ suffix_len (λ c. c == 48) text.now }
    ensures bound { result ≤ length text.now }
{
    text.iter().rev().take_while(|c| **c == b'0').count()
}

/// The number with the digits of both parts.
fn number_of(negative: bool, front: &[u8], back: &[u8], exponent: i8) -> Option<Number>
    ensures { (n : Numeral) → IsNumeral n → n.negative ≡ negative → codes_of n.digits ≡ front.now ++ back.now
        → n.exponent ≡ exponent → IsSomeAnd result (λ r. numeral_of r ≡ n) }
{
    if front.len() > 18 || back.len() > 18 - front.len() {
        return None;
    }
    let mut digits = Digits::new();
    digits.push_codes(front);
    digits.push_codes(back);
    Number::new(negative, digits, exponent)
}
