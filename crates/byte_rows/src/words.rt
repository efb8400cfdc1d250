//! The words of a command.

use crate::pieces::add_piece;
use crate::trouble::Trouble;
use std::alloc::Global;

/// The words of a command that aren't read yet.
#[derive(Clone, Copy)]
pub(crate) struct Words<'a>(pub(crate) &'a [u8]);

impl<'a> Words<'a> {
    /// The next word, which is empty where there is none. A space within quotes ends no word.
    pub(crate) fn word(&mut self) -> &'a [u8] {
        let end = word_end(self.0);
        let word = self.0.get(..end).unwrap_or(&[]);
        self.0 = self.0.get(end.saturating_add(1)..).unwrap_or(&[]);
        word
    }

    /// The next word as a decimal number.
    pub(crate) fn number(&mut self) -> Result<u64, Trouble> {
        decimal(self.word()).ok_or(Trouble::Words)
    }

    /// The same as a place or a length in memory.
    pub(crate) fn size(&mut self) -> Result<usize, Trouble> {
        Ok(self.number()? as usize)
    }

    /// The same of 32 bits.
    pub(crate) fn small(&mut self) -> Result<u32, Trouble> {
        u32::try_from(self.number()?).map_err(|_| Trouble::Words)
    }

    /// The same of 16 bits.
    pub(crate) fn short(&mut self) -> Result<u16, Trouble> {
        u16::try_from(self.number()?).map_err(|_| Trouble::Words)
    }

    /// The same of 8 bits.
    pub(crate) fn byte(&mut self) -> Result<u8, Trouble> {
        u8::try_from(self.number()?).map_err(|_| Trouble::Words)
    }

    /// The next word, which is `yes` or `no`.
    pub(crate) fn yes(&mut self) -> Result<bool, Trouble> {
        match self.word() {
            b"yes" => Ok(true),
            b"no" => Ok(false),
            _ => Err(Trouble::Words),
        }
    }

    /// The words up to one that begins with a small letter, or all that are left, each a piece of bytes, one behind
    /// another. The word that ends them is read too.
    pub(crate) fn bytes(&mut self, alloc: Global) -> Result<Vec<u8>, Trouble> {
        let mut bytes = Vec::new(alloc);
        for _ in 0..self.0.len() {
            let word = self.word();
            if word.first().is_some_and(|first| first.is_ascii_lowercase()) {
                break;
            }
            add_piece(&mut bytes, word)?;
        }
        Ok(bytes)
    }

    /// The next word as a piece of bytes.
    pub(crate) fn piece(&mut self, alloc: Global) -> Result<Vec<u8>, Trouble> {
        let mut bytes = Vec::new(alloc);
        add_piece(&mut bytes, self.word())?;
        Ok(bytes)
    }

    pub(crate) fn is_empty(&self) -> bool {
        self.0.is_empty()
    }
}

/// Where the first word ends.
fn word_end(text: &[u8]) -> usize {
    let mut quote = 0;
    for (at, byte) in text.iter().enumerate() {
        if *byte == b' ' && quote == 0 {
            return at;
        }
        quote = quote_after(quote, *byte);
    }
    text.len()
}

/// Which quote is open behind a byte, 0 for none.
fn quote_after(quote: u8, byte: u8) -> u8 {
    if quote == byte {
        0
    } else if quote == 0 && (byte == b'\'' || byte == b'"') {
        byte
    } else {
        quote
    }
}

/// The number that these digits write.
pub(crate) fn decimal(digits: &[u8]) -> Option<u64> {
    let mut number: u64 = 0;
    for digit in digits {
        if !digit.is_ascii_digit() {
            return None;
        }
        number = number
            .checked_mul(10)?
            .checked_add(u64::from(*digit - b'0'))?;
    }
    if digits.is_empty() {
        None
    } else {
        Some(number)
    }
}
