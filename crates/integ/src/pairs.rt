//! The pairs of a local bitmap: four of a byte at once, and one alone.
ghost use Rattle.std.specs.Prelude.{◌≡◌, ◌<◌, ◌↔◌, ℕ, IsTrue};
ghost use Rattle.std.specs.Option.{option_to_list};
ghost use Rattle.gds_bitmap.specs.State.{state_from};
ghost use Rattle.integ.specs.GroupMap.{AreRight, kinds_of_pair};

use gds_bitmap::State;
use gds_law::FaultKind;

/// The low bits of a byte's pairs. That of a free block is set.
const LOW_BITS: u8 = 0x55;

/// Whether nothing is wrong with the four pairs of a byte. Their blocks are present, and the bits of `used` say which
/// of them are in use.
pub(crate) fn are_right(byte: u8, used: u8) -> bool
    requires { used < 16 }
    ensures { IsTrue result ↔ AreRight byte used }
{
    let twos = (used | used << 2) & 0x33;
    let in_use = (twos | twos << 1) & LOW_BITS;
    let low = byte & LOW_BITS;
    let high = byte >> 1 & LOW_BITS;
    low == LOW_BITS & !in_use && high & !low == 0
}

/// What is wrong with the pair of a block, if anything is.
pub(crate) fn pair_fault(state: State, is_present: bool, is_used: bool) -> Option<FaultKind>
    ensures { (pair : ℕ) → state ≡ state_from pair → option_to_list result ≡ kinds_of_pair is_present is_used pair }
{
    if is_present {
        match state {
            State::Illegal => Some(FaultKind::IllegalPair),
            State::Busy => (!is_used).then_some(FaultKind::UnusedMarkedBusy),
            State::New | State::Recycled => is_used.then_some(FaultKind::UsedMarkedFree),
        }
    } else {
        match state {
            State::Busy => None,
            _ => Some(FaultKind::PairPastTotal),
        }
    }
}
