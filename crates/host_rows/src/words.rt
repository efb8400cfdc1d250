use crate::trouble::Trouble;
use std::alloc::Global;

/// The words of a command that aren't read yet.
#[derive(Clone, Copy)]
pub(crate) struct Words<'a>(pub(crate) &'a [u8]);

impl<'a> Words<'a> {
    /// The next word, which is empty where there is none. A space within quotes ends no word.
    pub(crate) fn word(&mut self) -> &'a [u8] {
        let end = word_end(self.0);
        let word = self.0.get(..end).unwrap_or(&[]);
        self.0 = self.0.get(end.saturating_add(1)..).unwrap_or(&[]);
        word
    }

    /// The next word as a decimal number.
    pub(crate) fn number(&mut self) -> Result<u64, Trouble> {
        decimal(self.word()).ok_or(Trouble::Words)
    }

    /// The same as a place or a length in memory.
    pub(crate) fn size(&mut self) -> Result<usize, Trouble> {
        Ok(self.number()? as usize)
    }

    /// The same of 32 bits.
    pub(crate) fn small(&mut self) -> Result<u32, Trouble> {
        u32::try_from(self.number()?).map_err(|_| Trouble::Words)
    }

    /// All words left, each a piece of bytes, one behind another.
    pub(crate) fn bytes(&mut self, alloc: Global) -> Result<Vec<u8>, Trouble> {
        let mut bytes = Vec::new(alloc);
        for _ in 0..self.0.len() {
            let word = self.word();
            if !word.is_empty() {
                add_piece(&mut bytes, word)?;
            }
        }
        Ok(bytes)
    }

    /// All words left, each a number.
    pub(crate) fn numbers(&mut self, alloc: Global) -> Result<Vec<u64>, Trouble> {
        let mut numbers = Vec::new(alloc);
        for _ in 0..self.0.len() {
            if !self.0.is_empty() {
                let number = self.number()?;
                push(&mut numbers, number)?;
            }
        }
        Ok(numbers)
    }

    pub(crate) fn is_empty(&self) -> bool {
        self.0.is_empty()
    }
}

fn push(numbers: &mut Vec<u64>, number: u64) -> Result<(), Trouble> {
    numbers.push(number).map_err(|_| Trouble::Memory)
}

/// Where the first word ends.
fn word_end(text: &[u8]) -> usize {
    let mut quote = 0;
    for (at, byte) in text.iter().enumerate() {
        if *byte == b' ' && quote == 0 {
            return at;
        }
        quote = quote_after(quote, *byte);
    }
    text.len()
}

/// Which quote is open behind a byte, 0 for none.
fn quote_after(quote: u8, byte: u8) -> u8 {
    if quote == byte {
        0
    } else if quote == 0 && (byte == b'\'' || byte == b'"') {
        byte
    } else {
        quote
    }
}

/// The number that these digits write.
pub(crate) fn decimal(digits: &[u8]) -> Option<u64> {
    let mut number: u64 = 0;
    for digit in digits {
        if !digit.is_ascii_digit() {
            return None;
        }
        number = number
            .checked_mul(10)?
            .checked_add(u64::from(*digit - b'0'))?;
    }
    if digits.is_empty() {
        None
    } else {
        Some(number)
    }
}

/// The place of a byte.
fn find(text: &[u8], byte: u8) -> Option<usize> {
    text.iter().position(|b| *b == byte)
}

/// What stands before and behind the first such byte, or the text and nothing.
pub(crate) fn split_at_byte(text: &[u8], byte: u8) -> (&[u8], &[u8]) {
    match find(text, byte) {
        Some(at) => (
            text.get(..at).unwrap_or(&[]),
            text.get(at.saturating_add(1)..).unwrap_or(&[]),
        ),
        None => (text, &[]),
    }
}

/// Adds the bytes of a piece: text in quotes, or pairs of hexadecimal digits; and `*` and how often, at need.
pub(crate) fn add_piece(bytes: &mut Vec<u8>, piece: &[u8]) -> Result<(), Trouble> {
    match piece.split_first() {
        Some((quote, rest)) if *quote == b'\'' || *quote == b'"' => {
            let (text, behind) = split_at_byte(rest, *quote);
            let (_, times) = split_at_byte(behind, b'*');
            add_text(bytes, text, times_of(times)?)
        }
        _ => {
            let (digits, times) = split_at_byte(piece, b'*');
            add_hex(bytes, digits, times_of(times)?)
        }
    }
}

/// How often a piece stands.
fn times_of(digits: &[u8]) -> Result<u64, Trouble> {
    if digits.is_empty() {
        return Ok(1);
    }
    decimal(digits).ok_or(Trouble::Words)
}

fn add_text(bytes: &mut Vec<u8>, text: &[u8], times: u64) -> Result<(), Trouble> {
    for _ in 0..times {
        bytes.extend_from_slice(text)?;
    }
    Ok(())
}

fn add_hex(bytes: &mut Vec<u8>, digits: &[u8], times: u64) -> Result<(), Trouble> {
    for _ in 0..times {
        add_pairs(bytes, digits)?;
    }
    Ok(())
}

fn add_pairs(bytes: &mut Vec<u8>, digits: &[u8]) -> Result<(), Trouble> {
    for pair in digits.chunks(2) {
        let byte = pair_value(pair)?;
        bytes.push(byte).map_err(|_| Trouble::Memory)?;
    }
    Ok(())
}

fn pair_value(pair: &[u8]) -> Result<u8, Trouble> {
    match pair {
        [high, low] => Ok(digit_value(*high)? << 4 | digit_value(*low)?),
        _ => Err(Trouble::Words),
    }
}

fn digit_value(digit: u8) -> Result<u8, Trouble> {
    match digit {
        b'0'..=b'9' => Ok(digit - b'0'),
        b'A'..=b'F' => Ok(digit - b'A' + 10),
        _ => Err(Trouble::Words),
    }
}
