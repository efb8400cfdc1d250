ghost use Rattle.std.specs.Prelude.{◌≡◌, ◌↔◌, IfSome, IfNone, IsTrue};
ghost use Rattle.m_number.specs.Numeral.{Numeral, IsNumeral};

use crate::digits::Digits;
use std::alloc::AllocError;

/// A canonical number, d.ddd times ten to the exponent with the digits d.
///
/// The first digit and the last aren't 0. Zero has no digits, isn't negative and has exponent 0.
#[derive(Debug, PartialEq, Eq, Drop)]
pub struct Number {
    /// Whether the number is below zero.
    pub negative: bool,
    /// The significant digits.
    pub digits: Digits,
    /// The decimal exponent of the first digit, from -43 to 46.
    pub exponent: i8,
    pub ghost is_numeral: { IsNumeral (record { negative = negative; digits = digits; exponent = exponent }) },
}

impl Clone for Number {
    ghost use Rattle.std.specs.Prelude.{◌≡◌, ⊤};
    ghost use Rattle.m_number.specs.Number.{numeral_of};

    ghost is_clone = { λ number copy. numeral_of copy ≡ numeral_of number };

    ghost is_infallible = { λ _. ⊤ };

    fn clone(&self) -> Result<Self, AllocError> {
        Ok(Number {
            negative: self.negative,
            digits: self.digits.copied(),
            exponent: self.exponent,
        })
    }
}

impl Number {
    ghost use Rattle.m_number.specs.Number.{numeral_of};

    /// The number of these parts, where there is one.
    pub(crate) fn new(negative: bool, digits: Digits, exponent: i8) -> Option<Number>
        ensures some { IfSome result (λ n.
            numeral_of n ≡ record { negative = negative; digits = digits; exponent = exponent }) }
        ensures none { IfNone result
            (IsNumeral (record { negative = negative; digits = digits; exponent = exponent }) → ⊥) }
    {
        if is_number(negative, digits.as_slice(), exponent) {
            Some(Number {
                negative,
                digits,
                exponent,
            })
        } else {
            None
        }
    }
}

fn is_number(negative: bool, digits: &[u8], exponent: i8) -> bool
    ensures { IsTrue result ↔ IsNumeral (record { negative = negative; digits = digits.now; exponent = exponent }) }
{
    if digits.is_empty() {
        return !negative && exponent == 0;
    }
    digits.len() <= 18
        && digits[0] != 0
        && digits[digits.len() - 1] != 0
        && -43 <= exponent
        && exponent <= 46
        && digits.iter().all(|d| *d < 10)
}
