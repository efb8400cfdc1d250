ghost use Rattle.std.specs.Prelude.{◌≡◌, ◌-◌, ◌^◌, length, min};

use m_key::{Key, shared_len};

/// A key and what follows it in its record. The last entry of an index block is the star, whose key is empty.
#[derive(Debug, PartialEq, Eq, Drop)]
pub struct Entry {
    /// The key, of which the last two bytes are its first two neighbouring zero bytes.
    pub key: Key,
    /// A value, or in an index block a pointer of 4 bytes.
    pub rest: Vec<u8>,
}

impl Entry {
    ghost use Rattle.gds_pack.specs.Entry.{item};
    ghost use Rattle.gds_pack.specs.Packed.{record_size};

    // The size of its record behind a key, at most 2^64 - 1.
    pub(crate) fn record_size(&self, previous: &[u8]) -> u64
        ensures { result ≡ min (record_size previous.now (item self.now)) (2 ^ 64 - 1) }
    {
        let key = self.key.len() - shared_len(previous, self.key.as_slice());
        (4 + key as u64).saturating_add(self.rest.len() as u64)
    }
}
