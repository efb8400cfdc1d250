//! The groups of a file: which has a free block, and how many blocks it has.
ghost use Rattle.std.specs.Prelude.{◌≡◌, ◌+◌, ◌*◌, ◌^◌, ◌<◌, ◌≤◌, ℕ, All, IfNone, IfSome, length};
ghost use Rattle.std.specs.Prelude.{if◌then◌else◌, slice_index};
ghost use Rattle.gds_bitmap.specs.Bitmap.{IsFirstFree, Marks, NoneFree};
ghost use Rattle.gds_bitmap.specs.State.{is_free};
ghost use Rattle.gds_header.specs.Kinds.{IsWithinLimits};
ghost use Rattle.gds_base.specs.Spaces.{HasFreeBelow, IsFirstGroup, NoGroup, present_in};

use gds_bitmap::{State, first_free, mark};
use gds_header::Header;

/// The first group that the master map says has a free block, if it is one of the file's.
pub(crate) fn first_group(header: &Header) -> Option<u32>
    requires { IsWithinLimits header.now }
    ensures found { IfSome result (IsFirstGroup header.now) }
    ensures none { IfNone result (NoGroup header.now) }
{
    let place = first_marked(&header.master)?;
    let group = 8 * place as u32 + header.master[place].trailing_zeros();
    (group < header.total.div_ceil(512)).then_some(group)
}

// The first byte that isn't 0.
fn first_marked(bytes: &[u8]) -> Option<usize>
    ensures within { IfSome result (λ i. i < length bytes.now) }
    ensures found { IfSome result (λ i. 0 < slice_index bytes.now i) }
    ensures first { IfSome result (λ i. (k : ℕ) → k < i → slice_index bytes.now k ≡ 0) }
    ensures none { IfNone result (All (λ b. b ≡ 0) bytes.now) }
{
    bytes.iter().position(|byte| *byte != 0)
}

/// How many blocks a group has.
pub(crate) fn present_in(header: &Header, group: u32) -> u32
    requires { 512 * group < header.now.total }
    ensures { result ≡ present_in header.now group }
{
    (header.total - 512 * group).min(512)
}

/// How many blocks are free once one in this state is, if a header can say so many.
pub(crate) fn free_with(header: &Header, state: State) -> Option<u32>
    ensures some { IfSome result (λ n. n ≡ header.now.free + (if is_free state then 0 else 1)) }
    ensures none { IfNone result (2 ^ 32 ≤ header.now.free + 1) }
{
    match state {
        State::New | State::Recycled => Some(header.free),
        State::Busy | State::Illegal => header.free.checked_add(1),
    }
}

/// Gives a place of a map another state, and answers whether one of the places that are present is free then.
pub(crate) fn mark_in(map: &mut [u8], place: u32, state: State, present: u32) -> bool
    requires map { 144 ≤ length map.old }
    requires place { place < 512 }
    requires present { present ≤ 512 }
    ensures marks { Marks map.old map.new place state }
    ensures left { HasFreeBelow map.new present result }
{
    mark(map, place, state);
    first_free(map, present).is_some()
}
