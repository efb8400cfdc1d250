ghost use Rattle.std.specs.Prelude.{◌≡◌, ◌+◌, ◌≤◌, ◌<◌, length, IfOk, IfSome, IfNone, [], ◌∷◌, Bool, false, option_map};
ghost use Rattle.std.specs.Char.{is_ascii_digit};
ghost use Rattle.std.specs.List.{prefix_len};
ghost use Rattle.m_text.specs.Grammar.{code_value};
ghost use Rattle.m_text.specs.Front.{Appends, quoted_at, code_at, codes_at, behind_word, piece_at, string_at};

use memchr::memchr;
use std::alloc::AllocError;

/// Takes the string at the front of the text: appends its bytes, and answers the text behind it.
pub(crate) fn read_string<'a>(
    text: &'a [u8],
    out: &mut Vec<u8>,
) -> Result<Option<&'a [u8]>, AllocError>
    ensures { IfOk result (λ o. Appends out.old.items out.new.items (option_map (λ r. r.now) o) (string_at text.now)) }
{
    let mut rest = text;
    while let Some(after) = read_piece(rest, out)? {
        let Some(more) = after.strip_prefix(b"_") else {
            return Ok(Some(after));
        };
        rest = more;
    }
    Ok(None)
}

fn read_piece<'a>(text: &'a [u8], out: &mut Vec<u8>) -> Result<Option<&'a [u8]>, AllocError>
    ensures { IfOk result (λ o. Appends out.old.items out.new.items (option_map (λ r. r.now) o) (piece_at text.now)) }
{
    if let Some(inside) = text.strip_prefix(b"\"") {
        return read_quoted(inside, out);
    }
    match behind_word(text) {
        Some(codes) => read_codes(codes, out),
        None => Ok(None),
    }
}

/// Takes the bytes in quotes, behind the first quote.
fn read_quoted<'a>(text: &'a [u8], out: &mut Vec<u8>) -> Result<Option<&'a [u8]>, AllocError>
    ensures { IfOk result (λ o.
        Appends out.old.items out.new.items (option_map (λ r. r.now) o) (quoted_at false text.now)) }
{
    let mut rest = text;
    while let Some(at) = memchr(b'"', rest) {
        let (front, back) = rest.split_at(at);
        out.extend_from_slice(front)?;
        let after = &back[1..];
        let Some(more) = after.strip_prefix(b"\"") else {
            return Ok(Some(after));
        };
        out.push(b'"')?;
        rest = more;
    }
    Ok(None)
}

/// The text behind one of the words before codes and '('.
fn behind_word(text: &[u8]) -> Option<&[u8]>
    ensures { option_map (λ r. r.now) result ≡ behind_word text.now }
{
    if let Some(rest) = text.strip_prefix(b"$C(") {
        return Some(rest);
    }
    if let Some(rest) = text.strip_prefix(b"$CHAR(") {
        return Some(rest);
    }
    if let Some(rest) = text.strip_prefix(b"$ZCH(") {
        return Some(rest);
    }
    text.strip_prefix(b"$ZCHAR(")
}

/// Takes the codes and the ')' behind them.
fn read_codes<'a>(text: &'a [u8], out: &mut Vec<u8>) -> Result<Option<&'a [u8]>, AllocError>
    ensures { IfOk result (λ o. Appends out.old.items out.new.items (option_map (λ r. r.now) o) (codes_at text.now)) }
{
    let mut rest = text;
    while let Some((code, after)) = read_code(rest) {
        out.push(code)?;
        let Some(more) = after.strip_prefix(b",") else {
            return Ok(after.strip_prefix(b")"));
        };
        rest = more;
    }
    Ok(None)
}

/// The code at the front of the text, and the text behind it.
fn read_code(text: &[u8]) -> Option<(u8, &[u8])>
    ensures { option_map (λ found. (found.0 ∷ [], found.1.now)) result ≡ code_at text.now }
{
    let count = digits_len(text);
    if count == 0 {
        return None;
    }
    if count > 3 {
        return None;
    }
    let (digits, rest) = text.split_at(count);
    let mut value = 0u16;
    for digit in digits {
        value = 10 * value + u16::from(*digit - b'0');
    }
    if value > 255 {
        return None;
    }
    Some((value as u8, rest))
}

fn digits_len(text: &[u8]) -> usize
    ensures { result ≡ prefix_len is_ascii_digit text.now }
{
    text.iter().take_while(|b| b.is_ascii_digit()).count()
}
