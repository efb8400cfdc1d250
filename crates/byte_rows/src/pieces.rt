//! Pieces: how a command writes bytes.

use crate::trouble::Trouble;
use crate::words::decimal;

/// What stands before and behind the first such byte, or the text and nothing.
fn split_at_byte(text: &[u8], byte: u8) -> (&[u8], &[u8]) {
    match text.iter().position(|b| *b == byte) {
        Some(at) => (
            text.get(..at).unwrap_or(&[]),
            text.get(at.saturating_add(1)..).unwrap_or(&[]),
        ),
        None => (text, &[]),
    }
}

/// Adds the bytes of a piece: text in quotes, or pairs of hexadecimal digits; and `*` and how often, at need.
pub(crate) fn add_piece(bytes: &mut Vec<u8>, piece: &[u8]) -> Result<(), Trouble> {
    match piece.split_first() {
        Some((quote, rest)) if *quote == b'\'' || *quote == b'"' => {
            let (text, behind) = split_at_byte(rest, *quote);
            let (_, times) = split_at_byte(behind, b'*');
            add_text(bytes, text, times_of(times)?)
        }
        _ => {
            let (digits, times) = split_at_byte(piece, b'*');
            add_hex(bytes, digits, times_of(times)?)
        }
    }
}

/// How often a piece stands.
fn times_of(digits: &[u8]) -> Result<u64, Trouble> {
    if digits.is_empty() {
        return Ok(1);
    }
    decimal(digits).ok_or(Trouble::Words)
}

fn add_text(bytes: &mut Vec<u8>, text: &[u8], times: u64) -> Result<(), Trouble> {
    for _ in 0..times {
        bytes.extend_from_slice(text)?;
    }
    Ok(())
}

fn add_hex(bytes: &mut Vec<u8>, digits: &[u8], times: u64) -> Result<(), Trouble> {
    for _ in 0..times {
        add_pairs(bytes, digits)?;
    }
    Ok(())
}

fn add_pairs(bytes: &mut Vec<u8>, digits: &[u8]) -> Result<(), Trouble> {
    for pair in digits.chunks(2) {
        let byte = pair_value(pair)?;
        bytes.push(byte).map_err(|_| Trouble::Memory)?;
    }
    Ok(())
}

fn pair_value(pair: &[u8]) -> Result<u8, Trouble> {
    match pair {
        [high, low] => Ok(digit_value(*high)? << 4 | digit_value(*low)?),
        _ => Err(Trouble::Words),
    }
}

fn digit_value(digit: u8) -> Result<u8, Trouble> {
    match digit {
        b'0'..=b'9' => Ok(digit - b'0'),
        b'A'..=b'F' => Ok(digit - b'A' + 10),
        _ => Err(Trouble::Words),
    }
}
