//! How answers are written.

use crate::trouble::Trouble;
use std::alloc::Global;

/// Adds a text.
pub(crate) fn add(answer: &mut Vec<u8>, text: &[u8]) -> Result<(), Trouble> {
    Ok(answer.extend_from_slice(text)?)
}

/// Adds a decimal number.
pub(crate) fn add_number(alloc: Global, answer: &mut Vec<u8>, number: u64) -> Result<(), Trouble> {
    let digits = format!(in alloc; "{number}")?;
    add(answer, digits.as_bytes())
}

/// Adds a word, a space and a number.
pub(crate) fn add_word_number(
    alloc: Global,
    answer: &mut Vec<u8>,
    word: &[u8],
    number: u64,
) -> Result<(), Trouble> {
    add(answer, word)?;
    add(answer, b" ")?;
    add_number(alloc, answer, number)
}

/// A text as an answer.
pub(crate) fn text(alloc: Global, text: &[u8]) -> Result<Vec<u8>, Trouble> {
    Ok(text.to_vec(alloc)?)
}

/// A number as an answer.
pub(crate) fn number(alloc: Global, number: u64) -> Result<Vec<u8>, Trouble> {
    let mut answer = Vec::new(alloc);
    add_number(alloc, &mut answer, number)?;
    Ok(answer)
}

const DIGITS: [u8; 16] = *b"0123456789ABCDEF";

/// A byte as two hexadecimal digits.
fn add_byte(answer: &mut Vec<u8>, byte: u8) -> Result<(), Trouble> {
    let pair = [
        DIGITS[usize::from(byte >> 4)],
        DIGITS[usize::from(byte & 15)],
    ];
    add(answer, &pair)
}

/// Bytes as hexadecimal digits, a space behind each four bytes.
pub(crate) fn hex(alloc: Global, bytes: &[u8]) -> Result<Vec<u8>, Trouble> {
    let mut answer = Vec::new(alloc);
    for group in bytes.chunks(4) {
        if !answer.is_empty() {
            add(&mut answer, b" ")?;
        }
        add_bytes(&mut answer, group)?;
    }
    Ok(answer)
}

fn add_bytes(answer: &mut Vec<u8>, bytes: &[u8]) -> Result<(), Trouble> {
    for byte in bytes {
        add_byte(answer, *byte)?;
    }
    Ok(())
}

/// What a byte of a text in pieces is.
#[derive(Clone, Copy, PartialEq, Eq)]
enum Piece {
    Nothing,
    Text,
    Hex,
}

fn piece_of(byte: u8) -> Piece {
    if (b' '..=b'~').contains(&byte) && byte != b'\'' {
        Piece::Text
    } else {
        Piece::Hex
    }
}

/// Bytes as the pieces by which a command writes them: text in quotes, and hexadecimal digits. No bytes are `''`.
pub(crate) fn pieces(alloc: Global, bytes: &[u8]) -> Result<Vec<u8>, Trouble> {
    let mut answer = Vec::new(alloc);
    let mut last = Piece::Nothing;
    for byte in bytes {
        let piece = piece_of(*byte);
        add(&mut answer, between(last, piece))?;
        add_in_piece(&mut answer, piece, *byte)?;
        last = piece;
    }
    add(&mut answer, behind(last))?;
    Ok(answer)
}

/// What stands between two bytes.
fn between(last: Piece, piece: Piece) -> &'static [u8] {
    match (last, piece) {
        (Piece::Nothing, Piece::Text) => b"'",
        (Piece::Text, Piece::Hex) => b"' ",
        (Piece::Hex, Piece::Text) => b" '",
        _ => b"",
    }
}

/// What stands behind the last byte.
fn behind(last: Piece) -> &'static [u8] {
    match last {
        Piece::Nothing => b"''",
        Piece::Text => b"'",
        Piece::Hex => b"",
    }
}

fn add_in_piece(answer: &mut Vec<u8>, piece: Piece, byte: u8) -> Result<(), Trouble> {
    match piece {
        Piece::Hex => add_byte(answer, byte),
        _ => add(answer, &[byte]),
    }
}

/// How many lines a text ends.
pub(crate) fn line_count(text: &[u8]) -> u64 {
    text.iter().filter(|byte| **byte == b'\n').count() as u64
}
