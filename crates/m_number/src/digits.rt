ghost use Rattle.std.specs.Prelude.{◌≡◌, ◌+◌, ◌-◌, ◌/◌, ◌%◌, ◌≤◌, [], ◌∷◌, ◌++◌, length, map};
ghost use Rattle.m_number.specs.Packed.{unfilled};

use arrayvec::ArrayVec;
use std::alloc::AllocError;
use std::marker::Model;

/// Up to 18 decimal digits, the first one first.
#[derive(Debug, PartialEq, Eq, Drop)]
pub struct Digits {
    items: ArrayVec<u8, 18>,
}

impl Model for Digits {
    ghost use Rattle.std.specs.Prelude.{ℕ, List};

    ghost Value = { List ℕ };

    ghost view = { λ d. d.items.items };

    ghost inverse = { λ digits. record { items = record { items = digits } } };
}

impl Clone for Digits {
    ghost use Rattle.std.specs.Prelude.{◌≡◌, ⊤};

    ghost is_clone = { λ digits copy. copy ≡ digits };

    ghost is_infallible = { λ _. ⊤ };

    fn clone(&self) -> Result<Self, AllocError> {
        Ok(self.copied())
    }
}

impl Digits {
    /// No digits, as zero has.
    pub(crate) fn new() -> Self
        ensures { result ≡ [] }
    {
        Digits {
            items: ArrayVec::new(),
        }
    }

    /// The digits, each as a number.
    pub fn as_slice(&self) -> &[u8]
        ensures items { result.now ≡ self.now }
        ensures count { length result.now ≤ 18 }
    {
        self.items.as_slice()
    }

    /// The same digits. Nothing is allocated.
    pub(crate) fn copied(&self) -> Self
        ensures { result ≡ self.now }
    {
        let mut items = ArrayVec::new();
        for digit in self.items.as_slice() {
            items.push(*digit);
        }
        Digits { items }
    }

    /// Appends what each byte gives. There must be room.
    pub(crate) fn push_codes(&mut self, codes: &[u8])
        requires { length self.old + length codes.now ≤ 18 }
        ensures { self.new ≡ self.old ++ map (λ c. c - 48) codes.now }
    {
        for code in codes {
            self.items.push(code.saturating_sub(b'0'));
        }
    }

    /// Appends the two digits that are packed in a byte. There must be room.
    pub(crate) fn push_pair(&mut self, pair: u8)
        requires { length self.old + 2 ≤ 18 }
        ensures { self.new ≡ self.old ++ pair / 16 ∷ pair % 16 ∷ [] }
    {
        self.items.push(pair / 16);
        self.items.push(pair % 16);
    }

    /// Takes away a 0 at the end, if there is one.
    pub(crate) fn drop_filling(&mut self)
        ensures { self.new ≡ unfilled self.old }
    {
        let len = self.items.len();
        if len > 0 && self.items.as_slice()[len - 1] == 0 {
            self.items.truncate(len - 1);
        }
    }
}
