//! Where the entries of a full block are cut.
ghost use Rattle.std.specs.Prelude.{◌≡◌, ◌≤◌, ◌∷◌, [], IfNone, IfSome, length};
ghost use Rattle.gds_pack.specs.Entry.{items};
ghost use Rattle.gds_splice.specs.Parts.{FitInRuns, FitInThree};

use crate::sizes::{cut, place_at, record_size};
use arrayvec::ArrayVec;
use gds_pack::{Entry, packed_size};

/// Where the entries that came last stand among the others of a block.
#[derive(Clone, Copy, Debug, PartialEq, Eq)]
pub enum Growth {
    /// Behind all others, as where keys come in rising order.
    AtEnd,
    /// Before some of the others.
    Inside,
}

impl Growth {
    /// Of so many entries, of which the record of the first begins at an offset.
    pub fn at(entries: &[Entry], offset: u32, count: usize) -> Growth {
        match place_at(entries, offset) {
            Some(at) if entries.len() - at == count => Growth::AtEnd,
            _ => Growth::Inside,
        }
    }
}

/// The lengths of all runs but the last into which entries go, up to three, that fit a block of `limit` bytes each.
///
/// Where two suffice, both get half of the bytes, so that each has room for the next entries. Where the entries grow at
/// their end, all but the last run get as many as fit: nothing more comes into them.
pub(crate) fn cut_for(entries: &[Entry], limit: u32, growth: Growth) -> Option<ArrayVec<usize, 2>>
    requires { 16 ≤ limit }
    ensures some { IfSome result (λ lengths. FitInRuns limit lengths.items (items entries.now)) }
    ensures none { IfNone result (FitInThree limit (items entries.now) → ⊥) }
{
    if growth == Growth::AtEnd {
        return cut(entries, limit);
    }
    let Some(front) = half(entries, limit) else {
        return cut(entries, limit);
    };
    let mut lengths = ArrayVec::new();
    lengths.push(front);
    Some(lengths)
}

// How many entries at the front have half of the bytes, if they and the others fit a block each.
fn half(entries: &[Entry], limit: u32) -> Option<usize>
    ensures { IfSome result (λ n. FitInRuns limit (n ∷ []) (items entries.now)) }
{
    let limit = u64::from(limit);
    let whole = packed_size(entries);
    let at = front_with(entries, whole / 2);
    if at == 0 || at == entries.len() || whole <= limit {
        return None;
    }
    if packed_size(&entries[..at]) > limit || packed_size(&entries[at..]) > limit {
        return None;
    }
    Some(at)
}

// How many entries at the front have so many bytes in a block, or all of them.
fn front_with(entries: &[Entry], bytes: u64) -> usize
    ensures { result ≤ length entries.now }
{
    let mut size: u64 = 16;
    let mut previous: &[u8] = &[];
    for (i, entry) in entries.iter().enumerate() {
        if size >= bytes {
            return i;
        }
        size = size.saturating_add(record_size(previous, entry));
        previous = entry.key.as_slice();
    }
    entries.len()
}
