ghost use Rattle.std.specs.Prelude.{◌≡◌, ◌+◌, ◌-◌, ◌<◌, ◌≤◌, ℕ, List, [], ◌∷◌, ◌++◌, length, take, drop, min, IfOk};
ghost use Rattle.std.specs.Prelude.{IfSome};
ghost use Rattle.std.specs.Prelude.{◌^◌, ◌↔◌, IsTrue, MatchOption};
ghost use Rattle.gds_images.specs.declared.chain.Place.{Place};
ghost use Rattle.gds_images.specs.Reading.{IsGate, IsImage, IsStart};

use crate::Place;
use gds_block::{u32_at, u64_at};

/// How each file of images begins.
const LABEL: [u8; 8] = *b"GDSBIMG1";

/// How many bytes stand before the images of group 0: the label, gate 0, the length of the group and that of the
/// epoch's database.
pub(crate) const START_LENGTH: usize = 25;

/// How many stand before those of a later group: its gate and its length.
pub(crate) const GATE_LENGTH: usize = 9;

/// How many stand before the bytes of an image: where they belong, and how many they are.
pub(crate) const HEAD_LENGTH: usize = 12;

/// The first bad field of a file of images, by where it begins.
#[derive(Clone, Copy, Debug)]
pub(crate) struct BadField {
    pub at: u64,
}

/// What stands behind the open gate 0.
#[derive(Clone, Copy, Debug)]
pub(crate) struct Start {
    pub epoch_length: u64,
    /// How many bytes group 0 has.
    pub size: u64,
}

/// What the bytes at the front of a file of images say, beside a database of this length. There is none where gate 0 is
/// closed.
pub(crate) fn start_of(front: &[u8], db_length: u64) -> Result<Option<Start>, BadField>
    ensures start { (file : List ℕ) → front.now ≡ take 25 file → IsStart file db_length result }
    ensures within { IfOk result (λ o. IfSome o (λ start. (25 ≤ length front.now) × (start.epoch_length ≤ db_length))) }
{
    if !front.starts_with(&LABEL) {
        return Err(BadField { at: 0 });
    }
    if front.len() <= 8 {
        return Err(BadField { at: 8 });
    }
    if front[8] == 0 {
        return Ok(None);
    }
    if front.len() < 17 {
        return Err(BadField { at: 9 });
    }
    if front.len() < START_LENGTH {
        return Err(BadField { at: 17 });
    }
    let epoch_length = u64_at(front, 17);
    if db_length < epoch_length {
        return Err(BadField { at: 17 });
    }
    Ok(Some(Start {
        epoch_length,
        size: u64_at(front, 9),
    }))
}

/// What the bytes from a gate on say: how many bytes the group behind it has, or none where it is closed.
pub(crate) fn gate_of(front: &[u8], gate: u64) -> Result<Option<u64>, BadField>
    requires some { 0 < gate }
    requires small { gate + length front.now < 2 ^ 64 }
    ensures gate { (file : List ℕ) (epoch : ℕ) (images : List Place) → gate ≤ length file
        → front.now ≡ take 9 (drop gate file) → IsGate file epoch images gate result }
    ensures within { IfOk result (λ o. MatchOption o (0 < length front.now) (λ _. 9 ≤ length front.now)) }
{
    if front.is_empty() {
        return Err(BadField { at: gate });
    }
    if front[0] == 0 {
        return Ok(None);
    }
    if front.len() < GATE_LENGTH {
        return Err(BadField { at: gate + 1 });
    }
    Ok(Some(u64_at(front, 1)))
}

/// What each image has to keep to: how long the file of images is, and how long the database was at the epoch.
#[derive(Clone, Copy, Debug)]
pub(crate) struct Limits {
    pub file_length: u64,
    pub epoch_length: u64,
}

/// The image that begins with these bytes, which stand at a place where so many bytes of a group are left.
pub(crate) fn image_of(front: &[u8], at: u64, left: u64, limits: Limits) -> Result<Place, BadField>
    requires { at + length front.now ≤ limits.file_length }
    ensures image { (file : List ℕ) → length file ≡ limits.file_length → front.now ≡ take 12 (drop at file)
        → IsImage file limits.epoch_length at left result }
    ensures within { IfOk result (λ place. (0 < place.len) × (place.at + place.len ≤ limits.epoch_length)
        × (place.from ≡ at + 12) × (at + (12 + place.len) ≤ limits.file_length) × (12 + place.len ≤ left)) }
{
    if front.len() < 8 {
        return Err(BadField { at });
    }
    if left < 12 {
        return Err(BadField { at });
    }
    if front.len() < HEAD_LENGTH {
        return Err(BadField { at: at + 8 });
    }
    let len = u32_at(front, 8);
    let size = u64::from(len);
    if left < 12 + size {
        return Err(BadField { at });
    }
    let belongs = u64_at(front, 0);
    if len == 0 {
        return Err(BadField { at: at + 8 });
    }
    if !fits(belongs, size, limits.epoch_length) {
        return Err(BadField { at: at + 8 });
    }
    let from = at + 12;
    if !fits(from, size, limits.file_length) {
        return Err(BadField { at: from });
    }
    Ok(Place {
        at: belongs,
        len,
        from,
    })
}

/// Whether so many bytes from a place on end within a file of this length.
fn fits(at: u64, size: u64, file_length: u64) -> bool
    ensures { IsTrue result ↔ (at + size ≤ file_length) }
{
    size <= file_length && at <= file_length - size
}
