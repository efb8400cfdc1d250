ghost use Rattle.std.specs.Prelude.{◌≡◌, ◌≤◌, ◌<◌, ◌+◌, ◌⊎◌, ◌==◌, ℕ, List, [], ◌∷◌, ◌++◌, true, false, not, length};
ghost use Rattle.std.specs.Prelude.{drop, count_by, option_map};
ghost use Rattle.std.specs.Bool.{OnTrue};
ghost use Rattle.gds_block.specs.Record.{records_of};
ghost use Rattle.m_key.specs.Node.{is_name};
ghost use Rattle.gds_law.specs.BlockReading.{BlockReading};
ghost use Rattle.gds_law.specs.Record.{is_above_bound, is_below_bound};
ghost use Rattle.gds_law.specs.Block.{kinds_from};
ghost use Rattle.integ_quick.specs.Subscripts.{IsKeyOf};
ghost use Rattle.integ_quick.specs.Record.{EndsIn, Follows};
ghost use Rattle.integ_quick.specs.Leaf.{Reads};

use crate::front::Front;
use crate::key_so_far::KeySoFar;
use crate::subscripts::{are_subscripts, last_start};
use gds_header::Header;
use m_key::{Key, end_within};

// A key of no more bytes has 31 subscripts at most.
const FEW: usize = 66;

/// What is due at a level-0 block of a global.
#[derive(Clone, Copy)]
pub(crate) struct Leaf<'a> {
    pub(crate) header: &'a Header,
    pub(crate) name: &'a [u8],
    pub(crate) low: &'a Option<Key>,
    pub(crate) high: &'a Option<Key>,
}

impl Leaf<'_> {
    /// Whether these bytes of the block are records with which nothing is wrong.
    pub(crate) fn are_clean(&self, left: &[u8]) -> bool
        requires key_max { self.now.header.now.key_max ≤ 255 }
        requires name { is_name self.now.name.now ≡ true }
        ensures { OnTrue result ((b : BlockReading) (bytes : List ℕ) → Reads self.now b bytes left.now
            → kinds_from b bytes 16 [] (records_of bytes) ≡ []) }
    {
        let Some(first) = Front::of(left) else {
            return false;
        };
        let mut key = KeySoFar::new();
        if !self.takes_first(&mut key, first) {
            return false;
        }
        let mut rest = first.rest;
        while let Some(front) = Front::of(rest) {
            if !self.takes_next(&mut key, front) {
                return false;
            }
            rest = front.rest;
        }
        rest.is_empty() && self.is_below_high(key.as_slice())
    }

    // Whether nothing is wrong with the first record, whose key then takes the place of none.
    fn takes_first(&self, key: &mut KeySoFar, front: Front<'_>) -> bool
        requires key_max { self.now.header.now.key_max ≤ 255 }
        requires name { is_name self.now.name.now ≡ true }
        requires none { key.old ≡ [] }
        ensures follows { OnTrue result
            (Follows self.now.header.now self.now.name.now [] front.entry.count front.entry.body.now key.new) }
        ensures count { OnTrue result (front.entry.count ≡ 0) }
        ensures not_below { OnTrue result
            (is_below_bound 0 (option_map (λ low. low.items) self.now.low.now) key.new ≡ false) }
    {
        if front.count > 0 || !self.takes_end(key, front) || !has_name(key.as_slice(), self.name) {
            return false;
        }
        if !are_subscripts(&key.as_slice()[self.name.len() + 1..]) || !has_few(key.as_slice()) {
            return false;
        }
        !self.is_below_low(key.as_slice())
    }

    // Whether nothing is wrong with a further record, whose key then takes the place of the one before.
    fn takes_next(&self, key: &mut KeySoFar, front: Front<'_>) -> bool
        requires key_max { self.now.header.now.key_max ≤ 255 }
        requires name { is_name self.now.name.now ≡ true }
        requires some { 1 ≤ length front.body.now }
        requires right { IsKeyOf self.now.name.now key.old }
        ensures follows { OnTrue result
            (Follows self.now.header.now self.now.name.now key.old front.entry.count front.entry.body.now key.new) }
        ensures count { OnTrue result (front.entry.count < length key.old) }
    {
        let count = front.count;
        let before = key.as_slice();
        if count <= self.name.len() || before.len() <= count || front.body[0] <= before[count] {
            return false;
        }
        let behind_name = self.name.len() + 1;
        let start = behind_name + last_start(&before[behind_name..count]);
        if !self.takes_end(key, front) || !are_subscripts(&key.as_slice()[start..]) {
            return false;
        }
        has_few(key.as_slice())
    }

    // Whether the key ends in the record's body and neither the key nor what follows is too long. The key then takes
    // the place of the one before.
    fn takes_end(&self, key: &mut KeySoFar, front: Front<'_>) -> bool
        requires key_max { self.now.header.now.key_max ≤ 255 }
        requires count { front.count ≤ length key.old }
        ensures { OnTrue result
            (EndsIn self.now.header.now key.old front.entry.count front.entry.body.now key.new) }
    {
        let shared = &key.as_slice()[..front.count];
        let Some(end) = end_within(shared, front.body, self.header.key_max as usize) else {
            return false;
        };
        let (changed, value) = front.body.split_at(end);
        if value.len() > self.header.value_max as usize {
            return false;
        }
        key.replace_end(front.count, changed);
        true
    }

    fn is_below_low(&self, key: &[u8]) -> bool
        ensures { is_below_bound 0 (option_map (λ low. low.items) self.now.low.now) key.now ≡ result }
    {
        match self.low {
            Some(low) => key.cmp(low.as_slice()).is_lt(),
            None => false,
        }
    }

    fn is_below_high(&self, key: &[u8]) -> bool
        ensures { is_above_bound (option_map (λ high. high.items) self.now.high.now) key.now ≡ not result }
    {
        match self.high {
            Some(high) => key.cmp(high.as_slice()).is_lt(),
            None => true,
        }
    }
}

// Whether the key begins with this name and a 0.
fn has_name(key: &[u8], name: &[u8]) -> bool
    ensures whole { OnTrue result (key.now ≡ name.now ++ 0 ∷ drop (length name.now + 1) key.now) }
    ensures longer { OnTrue result (length name.now < length key.now) }
{
    if key.len() <= name.len() || key[name.len()] != 0 {
        return false;
    }
    &key[..name.len()] == name
}

// Whether a key has so few bytes or so few zeros that it has at most 31 subscripts.
fn has_few(key: &[u8]) -> bool
    ensures { OnTrue result ((length key.now ≤ FEW) ⊎ (count_by (λ b. b == 0) key.now ≤ 33)) }
{
    key.len() <= FEW || key.iter().filter(|b| **b == 0).count() <= 33
}
