ghost use Rattle.std.specs.Prelude.{◌≡◌, ◌≤◌, ◌<◌, ◌∷◌, length, slice_index, All, None, false};
ghost use Rattle.std.specs.Bool.{OnTrue};
ghost use Rattle.gds_law.specs.Key.{subscript_fault};
ghost use Rattle.integ_quick.specs.Subscripts.{AreSubscripts, IsStart, begins_number};

use m_key::{is_escaped_text, split_at_zero};
use m_number::is_encoded;

/// Whether these are right subscripts, each ended by a 0, and one more 0.
pub(crate) fn are_subscripts(bytes: &[u8]) -> bool
    ensures { OnTrue result (AreSubscripts bytes.now) }
{
    let mut rest = bytes;
    while let Some((part, more)) = split_at_zero(rest) {
        if part.is_empty() {
            return more.is_empty();
        }
        if !is_right(part) {
            return false;
        }
        rest = more;
    }
    false
}

// Whether nothing is wrong with a subscript.
fn is_right(part: &[u8]) -> bool
    requires { 0 < length part.now }
    ensures { OnTrue result (subscript_fault part.now ≡ None) }
{
    if part[0] == 0xFF {
        is_right_text(&part[1..])
    } else {
        is_encoded(part)
    }
}

// Whether nothing is wrong with a string that has these bytes.
fn is_right_text(bytes: &[u8]) -> bool
    ensures { OnTrue result (subscript_fault (255 ∷ bytes.now) ≡ None) }
{
    if bytes.is_empty() {
        return false;
    }
    is_word(bytes) || is_escaped_text(bytes)
}

// Whether these bytes need no escape, and no number's text begins with the first of them.
fn is_word(bytes: &[u8]) -> bool
    requires { 0 < length bytes.now }
    ensures plain { OnTrue result (All (λ b. 1 < b) bytes.now) }
    ensures no_number { OnTrue result (begins_number (slice_index bytes.now 0) ≡ false) }
{
    !begins_number(bytes[0]) && bytes.iter().all(|b| *b > 1)
}

// Whether a number's text can begin with this byte.
fn begins_number(byte: u8) -> bool
    ensures { result ≡ begins_number byte }
{
    byte == b'-' || byte == b'.' || byte.is_ascii_digit()
}

/// The place behind the last 0, or the front where there is none.
pub(crate) fn last_start(bytes: &[u8]) -> usize
    ensures within { result ≤ length bytes.now }
    ensures start { IsStart bytes.now result }
{
    let mut start = bytes.len();
    while start > 0 && bytes[start - 1] != 0 {
        start -= 1;
    }
    start
}
