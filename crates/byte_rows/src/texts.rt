//! How answers are written.

use crate::trouble::Trouble;
use std::alloc::Global;

/// Adds a text.
pub(crate) fn add(answer: &mut Vec<u8>, text: &[u8]) -> Result<(), Trouble> {
    Ok(answer.extend_from_slice(text)?)
}

/// Adds a decimal number.
pub(crate) fn add_number(alloc: Global, answer: &mut Vec<u8>, number: u64) -> Result<(), Trouble> {
    let digits = format!(in alloc; "{number}")?;
    add(answer, digits.as_bytes())
}

/// Adds a word, a space and a number. A space stands before a word that isn't the first of its line.
pub(crate) fn add_named(
    alloc: Global,
    answer: &mut Vec<u8>,
    word: &[u8],
    number: u64,
) -> Result<(), Trouble> {
    add_word(answer, word)?;
    add(answer, b" ")?;
    add_number(alloc, answer, number)
}

/// Adds a word, with a space before it where it isn't the first of its line.
pub(crate) fn add_word(answer: &mut Vec<u8>, word: &[u8]) -> Result<(), Trouble> {
    if answer.last().is_some_and(|last| *last != b'\n') {
        add(answer, b" ")?;
    }
    add(answer, word)
}

/// Begins another line, where there is one already.
pub(crate) fn begin_line(answer: &mut Vec<u8>) -> Result<(), Trouble> {
    if answer.is_empty() {
        return Ok(());
    }
    add(answer, b"\n")
}

/// A text as an answer.
pub(crate) fn text(alloc: Global, text: &[u8]) -> Result<Vec<u8>, Trouble> {
    Ok(text.to_vec(alloc)?)
}

/// A number as an answer.
pub(crate) fn number(alloc: Global, number: u64) -> Result<Vec<u8>, Trouble> {
    let mut answer = Vec::new(alloc);
    add_number(alloc, &mut answer, number)?;
    Ok(answer)
}

/// A number as an answer, or `none`.
pub(crate) fn number_or_none(alloc: Global, found: Option<u64>) -> Result<Vec<u8>, Trouble> {
    match found {
        Some(found) => number(alloc, found),
        None => text(alloc, b"none"),
    }
}

/// `yes` or `no`.
pub(crate) fn yes_or_no(is: bool) -> &'static [u8] {
    if is { b"yes" } else { b"no" }
}

/// `yes` or `no` as an answer.
pub(crate) fn whether(alloc: Global, is: bool) -> Result<Vec<u8>, Trouble> {
    text(alloc, yes_or_no(is))
}

const DIGITS: [u8; 16] = *b"0123456789ABCDEF";

/// A byte as two hexadecimal digits.
fn add_byte(answer: &mut Vec<u8>, byte: u8) -> Result<(), Trouble> {
    let pair = [
        DIGITS[usize::from(byte >> 4)],
        DIGITS[usize::from(byte & 15)],
    ];
    add(answer, &pair)
}

/// Bytes as hexadecimal digits, a space behind each four bytes. Equal groups that follow one another stand once, with
/// `*` and their number.
pub(crate) fn hex(alloc: Global, bytes: &[u8]) -> Result<Vec<u8>, Trouble> {
    let mut answer = Vec::new(alloc);
    let mut last: &[u8] = &[];
    let mut times: u64 = 0;
    for group in bytes.chunks(4) {
        if group == last {
            times = times.saturating_add(1);
        } else {
            add_times(alloc, &mut answer, times)?;
            add_group(&mut answer, group)?;
            last = group;
            times = 1;
        }
    }
    add_times(alloc, &mut answer, times)?;
    Ok(answer)
}

fn add_times(alloc: Global, answer: &mut Vec<u8>, times: u64) -> Result<(), Trouble> {
    if times < 2 {
        return Ok(());
    }
    add(answer, b"*")?;
    add_number(alloc, answer, times)
}

fn add_group(answer: &mut Vec<u8>, group: &[u8]) -> Result<(), Trouble> {
    if !answer.is_empty() {
        add(answer, b" ")?;
    }
    add_bytes(answer, group)
}

fn add_bytes(answer: &mut Vec<u8>, bytes: &[u8]) -> Result<(), Trouble> {
    for byte in bytes {
        add_byte(answer, *byte)?;
    }
    Ok(())
}

/// What a byte of a text in pieces is.
#[derive(Clone, Copy, PartialEq, Eq)]
enum Piece {
    Nothing,
    Text,
    Hex,
}

fn piece_of(byte: u8) -> Piece {
    if (b' '..=b'~').contains(&byte) && byte != b'\'' {
        Piece::Text
    } else {
        Piece::Hex
    }
}

/// Adds bytes as the pieces by which a command writes them: text in quotes, and hexadecimal digits. No bytes are `''`.
pub(crate) fn add_pieces(answer: &mut Vec<u8>, bytes: &[u8]) -> Result<(), Trouble> {
    let mut last = Piece::Nothing;
    for byte in bytes {
        let piece = piece_of(*byte);
        add(answer, between(last, piece))?;
        add_in_piece(answer, piece, *byte)?;
        last = piece;
    }
    add(answer, behind(last))
}

/// Bytes as an answer in pieces.
pub(crate) fn pieces(alloc: Global, bytes: &[u8]) -> Result<Vec<u8>, Trouble> {
    let mut answer = Vec::new(alloc);
    add_pieces(&mut answer, bytes)?;
    Ok(answer)
}

/// What stands between two bytes.
fn between(last: Piece, piece: Piece) -> &'static [u8] {
    match (last, piece) {
        (Piece::Nothing, Piece::Text) => b"'",
        (Piece::Text, Piece::Hex) => b"' ",
        (Piece::Hex, Piece::Text) => b" '",
        _ => b"",
    }
}

/// What stands behind the last byte.
fn behind(last: Piece) -> &'static [u8] {
    match last {
        Piece::Nothing => b"''",
        Piece::Text => b"'",
        Piece::Hex => b"",
    }
}

fn add_in_piece(answer: &mut Vec<u8>, piece: Piece, byte: u8) -> Result<(), Trouble> {
    match piece {
        Piece::Hex => add_byte(answer, byte),
        _ => add(answer, &[byte]),
    }
}
