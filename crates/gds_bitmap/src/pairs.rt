//! The four pairs of one byte.
ghost use Rattle.std.specs.Prelude.{◌≡◌, ◌≢◌, ◌<◌, ◌≤◌, ℕ, IfSome, IfNone};
ghost use Rattle.gds_bitmap.specs.Pairs.{pair_in, is_free_in, count_below, IsFirstFreeIn, NoneFreeIn};

pub(crate) fn pair_in(byte: u8, place: u32) -> u8
    requires { place < 4 }
    ensures { result ≡ pair_in byte place }
{
    (byte >> (2 * place)) & 3
}

pub(crate) fn with_pair(byte: u8, place: u32, pair: u8) -> u8
    requires placed { place < 4 }
    requires in_range { pair < 4 }
    ensures set { pair_in result place ≡ pair }
    ensures others { (j : ℕ) → j < 4 → j ≢ place → pair_in result j ≡ pair_in byte j }
{
    let shift = 2 * place;
    (byte & !(3 << shift)) | (pair << shift)
}

// A pair is free where its low bit is set.
pub(crate) fn count_free_in(byte: u8, pairs: u32) -> u32
    requires { pairs ≤ 4 }
    ensures { result ≡ count_below (is_free_in byte) pairs }
{
    let low_bits = 0x55u32 >> (8 - 2 * pairs);
    (u32::from(byte) & low_bits).count_ones()
}

pub(crate) fn first_free_in(byte: u8) -> Option<u32>
    ensures found { IfSome result (IsFirstFreeIn byte) }
    ensures none { IfNone result (NoneFreeIn byte 4) }
{
    let free = byte & 0x55;
    if free == 0 {
        return None;
    }
    Some(free.trailing_zeros() / 2)
}
