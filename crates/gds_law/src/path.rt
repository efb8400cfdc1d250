ghost use Rattle.std.specs.Prelude.{◌≡◌, ◌<◌, ◌≤◌, [], ◌∷◌, ◌++◌, length};

use arrayvec::ArrayVec;
use std::marker::Model;

/// How many records a path has at most: 15 lead to a block, and one of its own may follow.
pub const LONGEST_PATH: usize = 16;

/// The records that lead to a block, from the directory's root on: each by its block and its offset there.
#[derive(Debug, PartialEq, Eq, Drop)]
pub struct Path {
    steps: ArrayVec<(u32, u32), 16>,
}

impl Model for Path {
    ghost use Rattle.std.specs.Prelude.{ℕ, List};

    ghost Value = { List (ℕ × ℕ) };

    ghost view = { λ path. path.steps.items };

    ghost inverse = { λ steps. record { steps = record { items = steps } } };
}

impl Path {
    /// The path to the directory's root.
    pub fn new() -> Self
        ensures { result ≡ [] }
    {
        Path {
            steps: ArrayVec::new(),
        }
    }

    /// Block and offset of each record.
    pub fn as_slice(&self) -> &[(u32, u32)]
        ensures steps { result.now ≡ self.now }
        ensures count { length result.now ≤ 16 }
    {
        self.steps.as_slice()
    }

    /// Goes on by one record.
    pub fn push(&mut self, block: u32, offset: u32)
        requires { length self.old < 16 }
        ensures { self.new ≡ self.old ++ (block, offset) ∷ [] }
    {
        self.steps.push((block, offset));
    }

    /// The same path. Nothing is allocated.
    pub fn copied(&self) -> Self
        ensures { result ≡ self.now }
    {
        let mut steps = ArrayVec::new();
        for step in self.steps.as_slice() {
            steps.push(*step);
        }
        Path { steps }
    }
}
