ghost use Rattle.std.specs.Prelude.{◌≡◌, ◌↔◌, [], IsTrue, length};
ghost use Rattle.gds_pack.specs.Entry.{items};
ghost use Rattle.gds_pack.specs.Packable.{AreIndex, AreLeaves, ArePackable};
ghost use Rattle.m_key.specs.Key.{Below};
ghost use Rattle.m_key.specs.KeyEnd.{IsKey};

use gds_pack::Entry;
use m_key::end_within;

/// Whether a block of a level may have these entries: their keys are whole and rise, and above level 0 each rest is a
/// pointer, and the last entry and no other has no key.
pub fn is_packable(level: u8, entries: &[Entry]) -> bool
    ensures { IsTrue result ↔ ArePackable level (items entries.now) }
{
    if level == 0 {
        return are_leaves(entries);
    }
    are_index(entries)
}

fn are_leaves(entries: &[Entry]) -> bool
    ensures { IsTrue result ↔ AreLeaves [] (items entries.now) }
{
    let mut previous: &[u8] = &[];
    for entry in entries {
        if !is_next(previous, entry.key.as_slice()) {
            return false;
        }
        previous = entry.key.as_slice();
    }
    true
}

fn are_index(entries: &[Entry]) -> bool
    ensures { IsTrue result ↔ AreIndex [] (items entries.now) }
{
    let mut previous: &[u8] = &[];
    for (i, entry) in entries.iter().enumerate() {
        if entry.rest.len() != 4 {
            return false;
        }
        if i + 1 == entries.len() {
            return entry.key.is_empty();
        }
        if !is_next(previous, entry.key.as_slice()) {
            return false;
        }
        previous = entry.key.as_slice();
    }
    false
}

/// Whether a key is whole and above the one before it.
fn is_next(previous: &[u8], key: &[u8]) -> bool
    ensures { IsTrue result ↔ (IsKey key.now × Below previous.now key.now) }
{
    previous.cmp(key).is_lt() && is_whole(key)
}

/// Whether these bytes are a key.
fn is_whole(key: &[u8]) -> bool
    ensures { IsTrue result ↔ IsKey key.now }
{
    if key.len() > 255 {
        return false;
    }
    let Some(len) = end_within(&[], key, 255) else {
        return false;
    };
    len == key.len()
}
