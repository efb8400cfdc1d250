ghost use Rattle.std.specs.Prelude.{◌≡◌, ◌+◌, ◌<◌, ◌≤◌, length, take};
ghost use Rattle.std.specs.List.{flat_map};
ghost use Rattle.gds_pack.specs.Cut.{AreFullRuns, CanBeCut, runs};
ghost use Rattle.gds_pack.specs.Packed.{packed_size};
ghost use Rattle.gds_pack.specs.Entry.{items};

use crate::entry::Entry;
use arrayvec::ArrayVec;

/// The places where a list is cut into runs that each fit in a block of `limit` bytes, of which each but
/// the last has as many entries as fit. There are one to three runs, and no place where there is one.
pub fn cut_to_fit(list: &[Entry], limit: u32) -> ArrayVec<usize, 2>
    requires { CanBeCut 3 limit (items list.now) }

    // Each run fits, and each but the last wouldn't with the entry behind it.
    ensures full { AreFullRuns limit (runs result.items (items list.now)) }
    ensures joined { flat_map (λ run. run) (runs result.items (items list.now)) ≡ items list.now }
{
    let mut places = ArrayVec::new();
    let first = fitting(list, limit);
    if first < list.len() {
        places.push(first);
        let second = first + fitting(&list[first..], limit);
        if second < list.len() {
            places.push(second);
        }
    }
    places
}

// How many entries at the front fit together in a block of so many bytes.
fn fitting(list: &[Entry], limit: u32) -> usize
    requires { 16 ≤ limit }
    ensures within { result ≤ length list.now }
    ensures fits { packed_size (items (take result list.now)) ≤ limit }
    ensures most { result < length list.now → limit < packed_size (items (take (result + 1) list.now)) }
{
    let mut size: u64 = 16;
    let mut previous: &[u8] = &[];
    for (i, entry) in list.iter().enumerate() {
        size = size.saturating_add(entry.record_size(previous));
        if size > u64::from(limit) {
            return i;
        }
        previous = entry.key.as_slice();
    }
    list.len()
}
