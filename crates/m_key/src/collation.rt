ghost use Rattle.std.specs.Prelude.{◌≡◌};
ghost use Rattle.std.specs.Ordering.{on};
ghost use Rattle.std.specs.Cmp.Lexicographic.{slice_cmp};
ghost use Rattle.m_number.specs.Order.{number_cmp, side_of, size_cmp};
ghost use Rattle.m_number.specs.Number.{numeral_of};
ghost use Rattle.m_key.specs.Collation.{subscript_cmp, reference_cmp};
ghost use Rattle.m_key.specs.Reference.{node_subscript_of, node_of};

use crate::{Reference, Subscript};
use m_number::Number;
use std::cmp::Ordering;

/// The order of M's collation: names by bytes, a node before its descendants, numbers by value before
/// strings by bytes.
pub fn compare(a: &Reference, b: &Reference) -> Ordering
    ensures { result ≡ reference_cmp (node_of a.now) (node_of b.now) }
{
    let names = a.name.bytes().cmp(b.name.bytes());
    if names.is_ne() {
        return names;
    }
    compare_all(a.subscripts.as_slice(), b.subscripts.as_slice())
}

fn compare_all(a: &[Subscript], b: &[Subscript]) -> Ordering
    ensures { result ≡ slice_cmp (on node_subscript_of subscript_cmp) a.now b.now }
{
    for i in 0..a.len().min(b.len()) {
        let order = compare_subscripts(&a[i], &b[i]);
        if order.is_ne() {
            return order;
        }
    }
    a.len().cmp(&b.len())
}

fn compare_subscripts(a: &Subscript, b: &Subscript) -> Ordering
    ensures { result ≡ subscript_cmp (node_subscript_of a.now) (node_subscript_of b.now) }
{
    match (a, b) {
        (Subscript::Num(a), Subscript::Num(b)) => compare_numbers(a, b),
        (Subscript::Num(_), Subscript::Text(_)) => Ordering::Less,
        (Subscript::Text(_), Subscript::Num(_)) => Ordering::Greater,
        (Subscript::Text(a), Subscript::Text(b)) => a.bytes().cmp(b.bytes()),
    }
}

fn compare_numbers(a: &Number, b: &Number) -> Ordering
    ensures { result ≡ number_cmp (numeral_of a.now) (numeral_of b.now) }
{
    let sides = side(a).cmp(&side(b));
    if sides.is_ne() {
        sides
    } else if a.negative {
        compare_sizes(b, a)
    } else {
        compare_sizes(a, b)
    }
}

/// 0, 1 or 2 for a number below zero, zero, or above it.
fn side(number: &Number) -> u8
    ensures { result ≡ side_of (numeral_of number.now) }
{
    if number.digits.as_slice().is_empty() {
        1
    } else if number.negative {
        0
    } else {
        2
    }
}

fn compare_sizes(a: &Number, b: &Number) -> Ordering
    ensures { result ≡ size_cmp (numeral_of a.now) (numeral_of b.now) }
{
    let exponents = a.exponent.cmp(&b.exponent);
    if exponents.is_ne() {
        return exponents;
    }
    a.digits.as_slice().cmp(b.digits.as_slice())
}
