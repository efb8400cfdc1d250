ghost use Rattle.std.specs.Prelude.{◌≡◌, [], false};

use arrayvec::ArrayVec;
use gds_search::Place;

/// A block on the way of a key, and where in it the record begins that leads on. In a level-0 block that is the first
/// record at or above the key, or the used count where the block has none.
#[derive(Clone, Copy, Debug, Default, PartialEq, Eq)]
pub struct Step {
    pub block: u32,
    pub offset: u32,
}

/// The way from a root down to the level-0 block in whose bounds a key lies.
#[derive(Debug, Drop)]
pub struct Trail {
    /// The blocks on the way, the root first.
    pub steps: ArrayVec<Step, 16>,
    /// Whether the record at the last step has the key.
    pub found: bool,
    /// The key's place in the level-0 block, for an edit there.
    pub place: Place,
}

impl Trail {
    /// No way.
    pub fn new() -> Trail
        ensures steps { result.steps.items ≡ [] }
        ensures found { result.found ≡ false }
    {
        Trail {
            steps: ArrayVec::new(),
            found: false,
            place: Place {
                offset: 0,
                is_equal: false,
                shared: 0,
                next_shared: 0,
            },
        }
    }
}
