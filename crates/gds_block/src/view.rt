ghost use Rattle.std.specs.Prelude.{◌≡◌, ◌<◌, ◌^◌, List, All, length, SomeIff};
ghost use Rattle.gds_block.specs.Block.{version_of, reserved_of, level_of, used_of, tn_of, IsBlock};
ghost use Rattle.gds_block.specs.Record.{Record, records_of, AreRecordsOf, StandsIn};

use crate::fields::{u16_at, u32_at, u64_at};
use crate::records::Records;
use std::marker::Model;

/// A block, borrowed from its bytes and seen as the list of them. Its used count covers the head and
/// lies within the bytes; nothing else is asked of them.
#[derive(Drop)]
pub struct BlockView<'a> {
    bytes: &'a [u8],
}

impl<'a> Model for BlockView<'a> {
    ghost use Rattle.std.specs.Prelude.{ℕ, List};
    ghost use Rattle.gds_block.specs.Block.{IsBlock};

    ghost Value = { List ℕ };

    ghost view = { λ block. block.bytes.now };

    ghost invariant = { λ block. IsBlock block.bytes.now };
}

impl<'a> BlockView<'a> {
    /// A view of these bytes, if they have a head whose used count is from 16 to their length.
    pub fn new(bytes: &'a [u8]) -> Option<BlockView<'a>>
        ensures { SomeIff result (IsBlock bytes.now) bytes.now }
    {
        if bytes.len() < 16 {
            return None;
        }
        let used = u32_at(bytes, 4) as usize;
        if used < 16 || bytes.len() < used {
            return None;
        }
        Some(BlockView { bytes })
    }

    /// The version, which is 1 in a sound block.
    pub fn version(&self) -> u16
        ensures { result ≡ version_of self.now }
    {
        u16_at(self.bytes, 0)
    }

    /// The reserved byte, which is 0 in a sound block.
    pub fn reserved(&self) -> u8
        ensures { result ≡ reserved_of self.now }
    {
        self.bytes[2]
    }

    /// The level: 0 for a block of values, 255 for a local bitmap.
    pub fn level(&self) -> u8
        ensures { result ≡ level_of self.now }
    {
        self.bytes[3]
    }

    /// How many bytes are used, the head's 16 among them.
    pub fn used(&self) -> u32
        ensures value { result ≡ used_of self.now }
        ensures within { IsBlock self.now }
    {
        u32_at(self.bytes, 4)
    }

    /// The number of the transaction that wrote the block.
    pub fn tn(&self) -> u64
        ensures { result ≡ tn_of self.now }
    {
        u64_at(self.bytes, 8)
    }

    /// The records from offset 16 on, up to the first that isn't well-sized or to the used count.
    pub fn records(&self) -> Records<'a>
        ensures listed { result ≡ records_of self.now }
        // Nothing well-sized stands behind the last of them, and no other list is such.
        ensures longest { AreRecordsOf self.now result }
        ensures only { (others : List Record) → AreRecordsOf self.now others → others ≡ result }
        ensures placed { All (StandsIn self.now) result }
        ensures few { length result < 2 ^ 32 }
    {
        let used = u32_at(self.bytes, 4) as usize;
        Records::new(self.level(), 16, &self.bytes[16..used])
    }
}
