ghost use Rattle.std.specs.Prelude.{◌≡◌, ◌≤◌, ◌+◌, ◌++◌, [], length, take};

use std::marker::Model;

const MOST: usize = 255;

/// The bytes of the last key that was read, 255 at most, of which each record changes the end.
#[derive(Drop)]
pub(crate) struct KeySoFar {
    bytes: [u8; MOST],
    len: usize,
}

impl Model for KeySoFar {
    ghost use Rattle.std.specs.Prelude.{ℕ, List, ◌≤◌, ◌≡◌, length, take};

    ghost Value = { List ℕ };

    ghost view = { λ key. take key.len key.bytes };

    ghost invariant = { λ key. (key.len ≤ 255) × (length key.bytes ≡ 255) };
}

impl KeySoFar {
    /// No bytes, as there are before the first record.
    pub(crate) fn new() -> KeySoFar
        ensures { result ≡ [] }
    {
        KeySoFar {
            bytes: [0; MOST],
            len: 0,
        }
    }

    pub(crate) fn as_slice(&self) -> &[u8]
        ensures value { result.now ≡ self.now }
        ensures short { length result.now ≤ 255 }
    {
        &self.bytes[..self.len]
    }

    /// Keeps the first `count` bytes, and puts these behind them.
    pub(crate) fn replace_end(&mut self, count: usize, end: &[u8])
        requires within { count ≤ length self.old }
        requires room { count + length end.now ≤ 255 }
        ensures { self.new ≡ take count self.old ++ end.now }
    {
        let len = count + end.len();
        self.bytes[count..len].copy_from_slice(end);
        self.len = len;
    }
}
