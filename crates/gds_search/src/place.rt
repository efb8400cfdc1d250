ghost use Rattle.std.specs.Prelude.{◌≡◌, false};
ghost use Rattle.gds_search.specs.declared.place.Place.{Place};

/// Where in a packed block the first entry at or above a key stands.
#[derive(Clone, Copy, Debug, PartialEq, Eq)]
pub struct Place {
    /// Where the entry's record begins in the block, or the used count where all entries are below the key.
    pub offset: usize,
    /// Whether the entry has exactly the key.
    pub is_equal: bool,
    /// How many leading bytes the key shares with that of the entry before, 0 where there is none.
    pub shared: usize,
    /// How many it shares with that of the entry itself, 0 where there is none or it is the star.
    pub next_shared: usize,
}

// The place of a key that no entry has.
pub(crate) fn above(offset: usize, shared: usize, next_shared: usize) -> Place
    ensures { result ≡ record { offset = offset; is_equal = false; shared = shared; next_shared = next_shared } }
{
    Place {
        offset,
        is_equal: false,
        shared,
        next_shared,
    }
}
