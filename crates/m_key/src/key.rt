ghost use Rattle.std.specs.Prelude.{◌≡◌, ◌+◌, ◌-◌, ◌^◌, ◌<◌, ◌≤◌};
ghost use Rattle.arrayvec.specs.ArrayVec.{array_vec_len};

use crate::{Reference, Subscript};
use arrayvec::ArrayVec;
use m_number::encode;
use thiserror::Error;

/// The bytes of a key, in whose order references stand in files.
pub type Key = ArrayVec<u8, 255>;

/// The bytes of strings from here on stand for themselves.
const FIRST_PLAIN: u8 = 2;

/// A key has too many bytes.
#[derive(Clone, Copy, Debug, PartialEq, Eq, Error)]
#[error("the key has {len} bytes")]
pub struct KeyTooLong {
    /// How many bytes the key has, or the greatest number of 64 bits where they are more.
    pub len: u64,
}

/// A key in the making: as much of it as fits, and the number of all bytes so far.
#[derive(Drop)]
pub(crate) struct Written {
    pub(crate) front: Key,
    pub(crate) len: u64,
    ghost fits: { array_vec_len front ≤ 255 },
    ghost counted: { len < 2 ^ 64 },
}

impl Written {
    ghost use Rattle.std.specs.Prelude.{◌++◌, ◌∷◌, [], length, map, take, min, flat_map};
    ghost use Rattle.m_key.specs.Key.{escaped, subscript_bytes, ended, key_bytes};
    ghost use Rattle.m_key.specs.Reference.{node_subscript_of, node_of};
    ghost use Rattle.m_key.specs.Written.{Appends};

    /// The key of a reference.
    pub(crate) fn of(reference: &Reference) -> Written
        ensures front { result.front.items ≡ take 255 (key_bytes (node_of reference.now)) }
        ensures len { result.len ≡ min (length (key_bytes (node_of reference.now))) (2 ^ 64 - 1) }
    {
        let mut written = Written {
            front: ArrayVec::new(),
            len: 0,
        };
        written.put_all(reference.name.bytes());
        written.put(0);
        written.put_subscripts(reference.subscripts.as_slice());
        written.put(0);
        written
    }

    fn put_subscripts(&mut self, subscripts: &[Subscript])
        ensures { Appends self.old self.new (flat_map ended (map node_subscript_of subscripts.now)) }
    {
        for subscript in subscripts {
            self.put_subscript(subscript);
            self.put(0);
        }
    }

    fn put_subscript(&mut self, subscript: &Subscript)
        ensures { Appends self.old self.new (subscript_bytes (node_subscript_of subscript.now)) }
    {
        match subscript {
            Subscript::Num(number) => self.put_all(encode(number).as_slice()),
            Subscript::Text(text) => {
                self.put(0xFF);
                self.put_text(text.bytes());
            }
        }
    }

    fn put_text(&mut self, text: &[u8])
        ensures { Appends self.old self.new (flat_map escaped text.now) }
    {
        for byte in text {
            self.put_escaped(*byte);
        }
    }

    fn put_escaped(&mut self, byte: u8)
        ensures { Appends self.old self.new (escaped byte) }
    {
        if byte < FIRST_PLAIN {
            self.put(1);
            self.put(byte + 1);
        } else {
            self.put(byte);
        }
    }

    fn put_all(&mut self, bytes: &[u8])
        ensures { Appends self.old self.new bytes.now }
    {
        for byte in bytes {
            self.put(*byte);
        }
    }

    fn put(&mut self, byte: u8)
        ensures { Appends self.old self.new (byte ∷ []) }
    {
        self.len = self.len.saturating_add(1);
        if !self.front.is_full() {
            self.front.push(byte);
        }
    }
}
