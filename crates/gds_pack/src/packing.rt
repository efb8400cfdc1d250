ghost use Rattle.std.specs.Prelude.{◌≡◌, ◌+◌, ◌-◌, ◌^◌, ◌≤◌, ◌++◌, [], length, min, take, replicate, Some};
ghost use Rattle.gds_block.specs.Block.{IsBlock, used_of};
ghost use Rattle.gds_block.specs.Record.{records_of};
ghost use Rattle.gds_pack.specs.Packable.{ArePackable};
ghost use Rattle.gds_pack.specs.Packed.{packed_size, record_size, record_bytes, records_bytes, block_bytes};
ghost use Rattle.gds_pack.specs.Packed.{packed_records};
ghost use Rattle.gds_pack.specs.Entry.{item, items};
ghost use Rattle.gds_pack.specs.Unpacked.{entries_of};

use crate::entry::Entry;
use gds_block::{put_bytes, put_u16, write_head};
use m_key::shared_len;

/// How many bytes of a block are used where it has these entries: the head's 16 and the sizes of the
/// records. It stays at 2^64 - 1 where there are more.
pub fn packed_size(list: &[Entry]) -> u64
    ensures { result ≡ min (packed_size (items list.now)) (2 ^ 64 - 1) }
{
    let mut size: u64 = 16;
    let mut previous: &[u8] = &[];
    for entry in list {
        size = size.saturating_add(entry.record_size(previous));
        previous = entry.key.as_slice();
    }
    size
}

/// Writes the block with these entries: a head of version 1 with this level and transaction number, the
/// records, and zeros up to the end of `out`.
pub fn pack(list: &[Entry], level: u8, tn: u64, out: &mut [u8])
    requires fits { packed_size (items list.now) ≤ length out.old }
    requires room { length out.old ≤ 65024 }
    requires packable { ArePackable level (items list.now) }

    ensures written { out.new ≡ block_bytes (items list.now) level tn (length out.old) }
    // Reading the block gives the entries again.
    ensures is_block { IsBlock out.new }
    ensures used { used_of out.new ≡ packed_size (items list.now) }
    ensures reads_back { entries_of out.new ≡ Some (items list.now) }
    // Each record's count is the number of leading bytes that its key shares with the key before it.
    ensures records { records_of out.new ≡ packed_records 16 [] (items list.now) }
{
    let end = write_records(list, out);
    write_head(out, level, end as u32, tn);
    clear(&mut out[end..]);
}

fn clear(bytes: &mut [u8])
    ensures { bytes.new ≡ replicate (length bytes.old) 0 }
{
    bytes.fill(0);
}

// Writes the records from offset 16 on, and answers where they end.
fn write_records(list: &[Entry], out: &mut [u8]) -> usize
    requires fits { packed_size (items list.now) ≤ length out.old }
    requires room { length out.old ≤ 65024 }
    ensures end { result ≡ packed_size (items list.now) }
    ensures written { take result out.new ≡ take 16 out.old ++ records_bytes [] (items list.now) }
{
    let mut end = 16;
    let mut previous: &[u8] = &[];
    for entry in list {
        end = write_record(previous, entry, end, out);
        previous = entry.key.as_slice();
    }
    end
}

// Writes the record of an entry behind a key, at an offset, and answers where it ends.
#[tactic(auto, unfolding(crate::specs::Packed::record_bytes))]
fn write_record(previous: &[u8], entry: &Entry, at: usize, out: &mut [u8]) -> usize
    requires fits { at + record_size previous.now (item entry.now) ≤ length out.old }
    requires room { length out.old ≤ 65024 }
    ensures end { result ≡ at + record_size previous.now (item entry.now) }
    ensures written { take result out.new ≡ take at out.old ++ record_bytes previous.now (item entry.now) }
{
    let count = shared_len(previous, entry.key.as_slice());
    let key = &entry.key.as_slice()[count..];
    let rest = entry.rest.as_slice();
    let size = 4 + key.len() + rest.len();
    put_u16(out, at, size as u16);
    put_u16(out, at + 2, count as u16);
    put_bytes(out, at + 4, key);
    put_bytes(out, at + 4 + key.len(), rest);
    at + size
}
