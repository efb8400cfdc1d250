ghost use Rattle.std.specs.Prelude.{◌≡◌, ◌≢◌, None, ◌+◌, ◌≤◌, [], length, option_map, IfOk, IfNone, IfSome};
ghost use Rattle.arrayvec.specs.ArrayVec.{array_vec_len};
ghost use Rattle.gds_block.specs.Block.{level_of};
ghost use Rattle.gds_block.specs.View.{record_of};
ghost use Rattle.m_key.specs.KeyEnd.{HasOpenFronts};
ghost use Rattle.gds_pack.specs.Packed.{key_behind};
ghost use Rattle.gds_pack.specs.Entry.{item, items};
ghost use Rattle.gds_pack.specs.Unpacked.{entries_of, is_count, leaf_item, index_item, star_item, IsKeyPart};

use crate::entry::Entry;
use gds_block::{BlockView, RecordView};
use m_key::{Key, end_within, join_key};
use std::alloc::{AllocError, Global};

/// The entries of a block, or `None` where its records don't reach its used count, or one of them has no lawful count
/// or no end of its key within 255 bytes. Of a level-0 block any rest can be read. Of an index block the last record
/// is the star, of size 8 and count 0, and each other rest has 4 bytes, or the answer is `None`.
pub fn unpack(alloc: Global, block: &BlockView<'_>) -> Result<Option<Vec<Entry>>, AllocError>
    ensures { IfOk result (λ found. option_map (λ v. items v.items) found ≡ entries_of block.now) }
{
    if block.level() == 0 {
        unpack_leaf(alloc, block)
    } else {
        unpack_index(alloc, block)
    }
}

fn unpack_leaf(alloc: Global, block: &BlockView<'_>) -> Result<Option<Vec<Entry>>, AllocError>
    requires { level_of block.now ≡ 0 }
    ensures { IfOk result (λ found. option_map (λ v. items v.items) found ≡ entries_of block.now) }
{
    let used = block.used();
    let mut entries = Vec::new(alloc);
    let mut end = 16;
    for view in block.records() {
        let Some(entry) = read_keyed(alloc, last_key(entries.as_slice()), view)? else {
            return Ok(None);
        };
        entries.push(entry)?;
        end = view.end();
    }
    Ok(if end == used { Some(entries) } else { None })
}

fn unpack_index(alloc: Global, block: &BlockView<'_>) -> Result<Option<Vec<Entry>>, AllocError>
    requires { level_of block.now ≢ 0 }
    ensures { IfOk result (λ found. option_map (λ v. items v.items) found ≡ entries_of block.now) }
{
    let used = block.used();
    let mut entries = Vec::new(alloc);
    let mut records = block.records();
    let Some(mut last) = records.next() else {
        return Ok(None);
    };
    for view in records {
        let Some(entry) = read_pointer(alloc, last_key(entries.as_slice()), last)? else {
            return Ok(None);
        };
        entries.push(entry)?;
        last = view;
    }
    if last.end() != used {
        return Ok(None);
    }
    let Some(star) = read_star(alloc, last)? else {
        return Ok(None);
    };
    entries.push(star)?;
    Ok(Some(entries))
}

// The key before an entry that is to follow these.
fn last_key(entries: &[Entry]) -> &[u8]
    ensures { result.now ≡ key_behind [] (items entries.now) }
{
    match entries.last() {
        Some(entry) => entry.key.as_slice(),
        None => &[],
    }
}

// The entry of the star, if the record is one.
fn read_star(alloc: Global, view: RecordView<'_>) -> Result<Option<Entry>, AllocError>
    ensures { IfOk result (λ found. option_map item found ≡ star_item (record_of view.entry)) }
{
    if view.body.len() != 4 || view.count != 0 {
        return Ok(None);
    }
    let rest = Vec::from_slice(alloc, view.body)?;
    Ok(Some(Entry {
        key: Key::new(),
        rest,
    }))
}

// The entry of a record that has a key and a pointer, if it can be read behind the key before it.
fn read_pointer(
    alloc: Global,
    previous: &[u8],
    view: RecordView<'_>,
) -> Result<Option<Entry>, AllocError>
    requires { HasOpenFronts previous.now }
    ensures { IfOk result (λ found. option_map item found ≡ index_item previous.now (record_of view.entry)) }
{
    let Some(entry) = read_keyed(alloc, previous, view)? else {
        return Ok(None);
    };
    Ok(if entry.rest.len() == 4 {
        Some(entry)
    } else {
        None
    })
}

// The entry of a record that has a key, if it can be read behind the key before it.
fn read_keyed(
    alloc: Global,
    previous: &[u8],
    view: RecordView<'_>,
) -> Result<Option<Entry>, AllocError>
    requires { HasOpenFronts previous.now }
    ensures { IfOk result (λ found. option_map item found ≡ leaf_item previous.now (record_of view.entry)) }
{
    let Some(len) = key_part(previous, view) else {
        return Ok(None);
    };
    let (end, rest) = view.body.split_at(len);
    let rest = Vec::from_slice(alloc, rest)?;
    Ok(Some(Entry {
        key: join_key(&previous[..view.count as usize], end),
        rest,
    }))
}

// How many bytes of the body belong to the key, if the record can be read.
fn key_part(previous: &[u8], view: RecordView<'_>) -> Option<usize>
    requires { HasOpenFronts previous.now }
    ensures none { IfNone result (leaf_item previous.now (record_of view.entry) ≡ None) }
    ensures some { IfSome result (IsKeyPart previous.now (record_of view.entry)) }
{
    let count = view.count as usize;
    if !is_count(previous, count) {
        return None;
    }
    end_within(&previous[..count], view.body, 255)
}

fn is_count(previous: &[u8], count: usize) -> bool
    ensures { result ≡ is_count previous.now count }
{
    count < previous.len() || count == 0
}
