ghost use Rattle.std.specs.Prelude.{◌≡◌, [], ◌∷◌, ◌++◌, OnOk, OnErr};

use std::alloc::{AllocError, Global};
use std::marker::Model;

/// Where the bytes of an image belong, and where they stand.
#[derive(Clone, Copy, Debug, PartialEq, Eq)]
pub struct Place {
    /// Where they belong in the database file.
    pub at: u64,
    /// How many they are, 1 at least.
    pub len: u32,
    /// Where they stand in the file of images.
    pub from: u64,
}

/// The places of images, in the order in which they stand in the file.
#[derive(Debug, Drop)]
pub struct Places {
    places: Vec<Place>,
}

impl Model for Places {
    ghost use Rattle.std.specs.Prelude.{List};
    ghost use Rattle.gds_images.specs.declared.chain.Place.{Place};

    ghost Value = { List Place };

    ghost view = { λ places. places.places.items };
}

impl Places {
    /// No images.
    pub fn new(alloc: Global) -> Places
        ensures { result ≡ [] }
    {
        Places {
            places: Vec::new(alloc),
        }
    }

    /// One image more, behind the others.
    pub(crate) fn push(&mut self, place: Place) -> Result<(), AllocError>
        ensures ok { OnOk result (self.new ≡ self.old ++ place ∷ []) }
        ensures err { OnErr result (self.new ≡ self.old) }
    {
        self.places.push(place)?;
        Ok(())
    }

    /// The images in their order.
    pub fn as_slice(&self) -> &[Place]
        ensures { result.now ≡ self.now }
    {
        self.places.as_slice()
    }
}

/// A file of images, from its label to the first closed gate.
#[derive(Debug, Drop)]
pub struct Chain {
    /// The length of the database at the epoch that the images lead back to, 0 where gate 0 is closed.
    pub epoch_length: u64,
    /// The images of all groups.
    pub images: Places,
    /// Where the first closed gate stands, 8 where it is gate 0.
    pub next_gate: u64,
}
