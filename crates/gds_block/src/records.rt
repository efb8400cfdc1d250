ghost use Rattle.std.specs.Prelude.{◌≡◌, ◌+◌, ◌^◌, ◌<◌, length, SomeIff, IsTrue};
ghost use Rattle.std.specs.Iterator.{YieldsFirstBy, item_count};
ghost use Rattle.gds_block.specs.Record.{size_of, least_size, is_well_sized, records_from};

use crate::fields::u16_at;
use std::marker::Model;

/// A record, borrowed from its block.
#[derive(Clone, Copy, Debug)]
pub struct RecordView<'a> {
    /// Where the record begins in its block.
    pub offset: u32,
    /// The compression count: how many leading bytes the record leaves out, since the key before it has them.
    pub count: u16,
    /// The bytes behind size and count: the rest of the key, and then a pointer or a value.
    pub body: &'a [u8],
}

impl<'a> RecordView<'a> {
    /// Where the record ends in its block.
    pub fn end(self) -> u32
        requires { self.offset + 4 + length self.body.now < 2 ^ 32 }
        ensures { result ≡ self.entry.offset + 4 + length self.entry.body.now }
    {
        self.offset + 4 + self.body.len() as u32
    }
}

/// The records of a block, in order, seen as the list of those that are left.
#[derive(Drop)]
pub struct Records<'a> {
    level: u8,
    // Where `left` begins in the block.
    offset: u32,
    // The bytes up to the used count.
    left: &'a [u8],
}

impl<'a> Model for Records<'a> {
    ghost use Rattle.std.specs.Prelude.{List, ◌+◌, ◌<◌, ◌^◌, length};
    ghost use Rattle.gds_block.specs.Record.{Record, records_from};

    ghost Value = { List Record };

    ghost view = { λ it. records_from it.level it.offset it.left.now };

    ghost invariant = { λ it. it.offset + length it.left.now < 2 ^ 32 };
}

impl<'a> Records<'a> {
    pub(crate) fn new(level: u8, offset: u32, left: &'a [u8]) -> Records<'a>
        requires { offset + length left.now < 2 ^ 32 }
        ensures { result ≡ records_from level offset left.now }
    {
        Records {
            level,
            offset,
            left,
        }
    }
}

impl<'a> Iterator for Records<'a> {
    type Item = RecordView<'a>;

    ghost use Rattle.gds_block.specs.View.{record_of};

    ghost next_gives = { YieldsFirstBy record_of (λ left. left) };

    ghost remaining = { item_count (λ left. left) };

    fn next(&mut self) -> Option<RecordView<'a>> {
        let size = size_of_first(self.left, self.level)?;
        let offset = self.offset;
        let count = u16_at(self.left, 2);
        let (record, left) = self.left.split_at(size);
        self.offset += size as u32;
        self.left = left;
        Some(RecordView {
            offset,
            count,
            body: &record[4..],
        })
    }
}

// The size of the record at the front of the bytes left, if one stands there that is well-sized.
fn size_of_first(left: &[u8], level: u8) -> Option<usize>
    ensures { SomeIff result (IsTrue (is_well_sized level left.now)) (size_of left.now) }
{
    if left.len() < 4 {
        return None;
    }
    let size = u16_at(left, 0);
    if size < least_size(level) || left.len() < size as usize {
        return None;
    }
    Some(size as usize)
}

/// The least size of a record of a block of this level: its head of 4 bytes, and a body of 1 byte at level 0 and of
/// 4 bytes above it.
pub fn least_size(level: u8) -> u16
    ensures { result ≡ least_size level }
{
    if level == 0 { 5 } else { 8 }
}
