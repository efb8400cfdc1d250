ghost use Rattle.std.specs.Prelude.{◌≡◌, ◌+◌, ◌<◌, ◌≤◌, ◌==◌, [], All, filter, length, nat_le, IfErr, IfOk, OnOk};
ghost use Rattle.std.specs.Prelude.{vec_len};
ghost use Rattle.std.specs.Option.{option_copied};
ghost use Rattle.gds_epoch.specs.Waiting.{HasBytes, IsRising, waiting_bytes, with_plan, with_unit};
ghost use Rattle.std.specs.List.{insert};
ghost use Rattle.std.specs.Vec.{vec_capacity};
ghost use Rattle.gds_epoch.specs.WaitingView.{IsAt, IsGapFor, room_of, units_of};

use std::alloc::{AllocError, Global};
use std::marker::Model;

/// A unit of the database file, and the bytes that it is to have.
#[derive(Debug, Drop)]
pub struct UnitBytes {
    /// The number of the unit: 0 is the header, and n + 1 is block n.
    pub unit: u32,
    /// Its bytes: 8,192 of the header, or as many as a block has.
    pub bytes: Vec<u8>,
}

/// The units that have changed since the last epoch, in memory. No unit waits twice.
#[derive(Debug, Drop)]
pub struct Waiting {
    units: Vec<UnitBytes>,
}

impl Model for Waiting {
    ghost use Rattle.gds_epoch.specs.Waiting.{WaitingUnits};

    ghost Value = { WaitingUnits };

    ghost use Rattle.gds_epoch.specs.WaitingView.{units_of, room_of};
    ghost use Rattle.gds_epoch.specs.Waiting.{IsRising};

    ghost view = { λ waiting. record { units = units_of waiting.units.items; room = room_of waiting.units } };

    ghost invariant = { λ waiting. IsRising (units_of waiting.units.items) };
}

impl Waiting {
    /// No units. It takes no memory.
    pub fn new(alloc: Global) -> Waiting
        ensures { result.units ≡ [] }
    {
        Waiting {
            units: Vec::new(alloc),
        }
    }

    /// How many units wait.
    pub fn len(&self) -> usize
        ensures len { result ≡ length self.now.units }
        ensures rising { IsRising self.now.units }
    {
        self.units.len()
    }

    /// Whether no unit waits.
    pub fn is_empty(&self) -> bool
        ensures { result ≡ (length self.now.units == 0) }
    {
        self.units.is_empty()
    }

    /// The bytes of a unit, if it waits.
    pub fn find(&self, unit: u32) -> Option<&[u8]>
        ensures bytes { option_copied result ≡ waiting_bytes self.now.units unit }
        ensures rising { IsRising self.now.units }
    {
        match self.search(unit) {
            Ok(at) => Some(&self.units[at].bytes),
            Err(_) => None,
        }
    }

    /// Takes the memory with which so many units more can be put. Each unit's own bytes come with it.
    pub fn reserve(&mut self, more: usize) -> Result<(), AllocError>
        ensures same { self.new.units ≡ self.old.units }
        ensures room { OnOk result (more ≤ self.new.room) }
        ensures kept { self.old.room ≤ self.new.room }
    {
        self.units.reserve(more)
    }

    /// Puts a unit in its place, or in place of the one with its number. It takes no memory.
    pub fn put_reserved(&mut self, new: UnitBytes)
        requires { 0 < self.old.room }
        ensures put { self.new.units
            ≡ with_unit self.old.units (record { unit = new.unit; bytes = new.bytes.items }) }
        ensures room { self.old.room ≤ self.new.room + 1 }
    {
        match self.search(new.unit) {
            Ok(at) => self.units[at] = new,
            Err(at) => insert_reserved(&mut self.units, at, new),
        }
    }

    /// Puts the units of a plan, one after another. It takes no memory.
    pub fn put_all_reserved(&mut self, plan: Vec<UnitBytes>)
        requires { vec_len plan ≤ self.old.room }
        ensures put { self.new.units ≡ with_plan self.old.units (units_of plan.items) }
        ensures room { self.old.room ≤ self.new.room + vec_len plan }
    {
        for unit in plan {
            self.put_reserved(unit);
        }
    }

    /// Lets the units above this number go, as where a file ends with it. Their places stay reserved.
    pub fn drop_above(&mut self, last: u32)
        ensures dropped { self.new.units ≡ filter (λ waiting. nat_le waiting.unit last) self.old.units }
        ensures rising { IsRising self.new.units }
        ensures room { self.old.room ≤ self.new.room }
    {
        let kept = self.units.partition_point(|waiting| waiting.unit <= last);
        self.units.truncate(kept);
    }

    /// The units themselves, in the order of their numbers.
    pub fn into_units(self) -> Vec<UnitBytes>
        ensures units { units_of result.items ≡ self.units }
        ensures rising { IsRising self.units }
    {
        self.units
    }

    /// Lets all units go. Their places stay reserved.
    pub fn clear(&mut self)
        ensures empty { self.new.units ≡ [] }
        ensures room { self.old.room ≤ self.new.room }
    {
        self.units.clear();
    }

    /// The units in the order of their numbers.
    pub(crate) fn as_slice(&self) -> &[UnitBytes]
        ensures units { units_of result.now ≡ self.now.units }
        ensures len { length result.now ≡ length self.now.units }
    {
        self.units.as_slice()
    }

    /// Does nothing: what the units are to have are bytes.
    pub fn hold_bytes(&self)
        ensures { All HasBytes self.now.units }
    {
        have_bytes(self.units.as_slice());
    }

    /// Where the unit is, or where it would go.
    fn search(&self, unit: u32) -> Result<usize, usize>
        ensures found { IfOk result (IsAt self.now.units unit) }
        ensures absent { IfErr result (IsGapFor self.now.units unit) }
    {
        self.units
            .binary_search_by_key(&unit, |waiting| waiting.unit)
    }
}

/// Inserts a unit where there is room.
fn insert_reserved(units: &mut Vec<UnitBytes>, at: usize, new: UnitBytes)
    requires within { at ≤ vec_len units.old }
    requires room { vec_len units.old < vec_capacity units.old }
    ensures items { units.new.items ≡ insert units.old.items at new }
    ensures room { room_of units.old ≤ room_of units.new + 1 }
{
    let inserted = units.insert(at, new);
    prove!(inserted.is_ok());
}

/// Does nothing: what the units are to have are bytes.
fn have_bytes(units: &[UnitBytes])
    ensures { All HasBytes (units_of units.now) }
{
    for unit in units {
        are_bytes(&unit.bytes);
    }
}

/// Does nothing: each item of a slice of bytes is below 256.
fn are_bytes(bytes: &[u8])
    ensures { All (λ b. b < 256) bytes.now }
{}
