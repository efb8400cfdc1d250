ghost use Rattle.std.specs.Prelude.{◌≡◌, ◌+◌, ◌-◌, ◌<◌, ◌≤◌, ℕ, List, [], length, take, drop, min, All, None, IfOk};
ghost use Rattle.std.specs.Prelude.{IfErr};
ghost use Rattle.std.specs.Prelude.{IsErrOf, MatchOption, Some, Ok, Err};
ghost use Rattle.std.specs.Option.{ForSome};
ghost use Rattle.host_model.specs.Failures.{Rose};
ghost use Rattle.host_model.specs.Frames.{WasRead};
ghost use Rattle.host_model.specs.Moments.{LeavesTheSame};
ghost use Rattle.gds_images.specs.declared.chain.Place.{Place};
ghost use Rattle.gds_images.specs.Chain.{CanBeLaid, LiesBefore, chain_of};
ghost use Rattle.gds_images.specs.Reading.{IsCause, IsGate, OnlyRead, read_gate, read_on};

use super::chain::{Chain, Places};
use super::error::ImagesError;
use super::fields::{GATE_LENGTH, HEAD_LENGTH, Limits, START_LENGTH, gate_of, image_of, start_of};
use host_model::{FileNo, Host};
use std::alloc::Global;

/// Reads the chain of images, from the label to the first closed gate, beside a database file of `db_length` bytes.
/// The bytes of the images aren't read, only that they are there.
///
/// `BadImages` says where the first bad field begins. `Changed` comes where a read gives fewer bytes than the file has
/// by its length.
pub fn open_chain<H: Host>(
    alloc: Global,
    host: &mut H,
    db_length: u64,
) -> Result<Chain, ImagesError>
    ensures chain { IfOk result (λ chain. ForSome (H.told host.old) (λ c. chain_of c.images db_length ≡ Ok chain)) }
    ensures lies { IfOk result (CanBeLaid db_length) }
    ensures bad { (at : ℕ) → IsErrOf result (ImagesError.BadImages at)
        → ForSome (H.told host.old) (λ c. chain_of c.images db_length ≡ Err at) }
    ensures changed { (unit : ℕ) → IsErrOf result (ImagesError.Changed unit) → H.told host.old ≡ None }
    ensures failed { IsErrOf result ImagesError.ReadFault
        → Rose (H.failures host.old).read (H.failures host.new).read }

    // The host was only read, and crashes find no difference.
    ensures read { WasRead H.told H.failures host.old host.new }
    ensures crash { LeavesTheSame H.moment H.left_since host.old host.new }
{
    read_chain(alloc, host, db_length)
}

/// The same, with one word for what each error means.
fn read_chain<H: Host>(alloc: Global, host: &mut H, db_length: u64) -> Result<Chain, ImagesError>
    ensures chain { IfOk result (λ chain. ForSome (H.told host.old) (λ c. chain_of c.images db_length ≡ Ok chain)) }
    ensures lies { IfOk result (CanBeLaid db_length) }
    ensures cause { IfErr result (λ e. IsCause e (H.told host.old) (H.failures host.old) (H.failures host.new)
        (λ c at. chain_of c.images db_length ≡ Err at)) }
    ensures host { OnlyRead H.told H.moment H.failures H.left_since host.old host.new }
{
    let file_length = host.len(FileNo::Images)?;
    let mut front = [0; START_LENGTH];
    let count = read_front(host, file_length, 0, &mut front)?;
    let places = Places::new(alloc);
    let Some(start) = start_of(&front[..count], db_length)? else {
        return Ok(Chain {
            epoch_length: 0,
            images: places,
            next_gate: 8,
        });
    };
    let limits = Limits {
        file_length,
        epoch_length: start.epoch_length,
    };
    read_groups(host, limits, places, start.size)
}

/// Reads the groups, of which the first has so many bytes.
fn read_groups<H: Host>(
    host: &mut H,
    limits: Limits,
    mut places: Places,
    first: u64,
) -> Result<Chain, ImagesError>
    requires told { ForSome (H.told host.old) (λ c. limits.file_length ≡ length c.images) }
    requires within { 25 ≤ limits.file_length }
    requires none { places ≡ [] }
    ensures chain { IfOk result (λ chain. ForSome (H.told host.old) (λ c.
        read_on c.images limits.epoch_length [] 25 first ≡ Ok chain)) }
    ensures lies { IfOk result (CanBeLaid limits.epoch_length) }
    ensures cause { IfErr result (λ e. IsCause e (H.told host.old) (H.failures host.old) (H.failures host.new)
        (λ c at. read_on c.images limits.epoch_length [] 25 first ≡ Err at)) }
    ensures host { OnlyRead H.told H.moment H.failures H.left_since host.old host.new }
{
    let mut gate = read_images(host, limits, 25, first, &mut places)?;
    while let Some(size) = read_gate(host, limits.file_length, gate)? {
        gate = read_images(host, limits, gate + GATE_LENGTH as u64, size, &mut places)?;
    }
    Ok(Chain {
        epoch_length: limits.epoch_length,
        images: places,
        next_gate: gate,
    })
}

/// Reads the images that fill so many bytes from a place on, and answers where they end.
fn read_images<H: Host>(
    host: &mut H,
    limits: Limits,
    from: u64,
    size: u64,
    places: &mut Places,
) -> Result<u64, ImagesError>
    requires told { ForSome (H.told host.old) (λ c. limits.file_length ≡ length c.images) }
    requires some { 0 < from }
    requires within { from ≤ limits.file_length }
    requires lie { All (LiesBefore from limits.epoch_length) places.old }
    ensures end { IfOk result (λ end. (end ≡ from + size) × (end ≤ limits.file_length)) }
    ensures lie { IfOk result (λ end. All (LiesBefore end limits.epoch_length) places.new) }
    ensures images { IfOk result (λ end. ForSome (H.told host.old) (λ c.
        read_on c.images limits.epoch_length places.old from size
        ≡ read_gate c.images limits.epoch_length places.new end)) }
    ensures cause { IfErr result (λ e. IsCause e (H.told host.old) (H.failures host.old) (H.failures host.new)
        (λ c at. read_on c.images limits.epoch_length places.old from size ≡ Err at)) }
    ensures host { OnlyRead H.told H.moment H.failures H.left_since host.old host.new }
{
    let mut at = from;
    let mut left = size;
    while left > 0 {
        let mut front = [0; HEAD_LENGTH];
        let count = read_front(host, limits.file_length, at, &mut front)?;
        let place = image_of(&front[..count], at, left, limits)?;
        places.push(place)?;
        let taken = 12 + u64::from(place.len);
        at += taken;
        left -= taken;
    }
    Ok(at)
}

/// Reads a gate: how many bytes the group behind it has, or none where it is closed.
fn read_gate<H: Host>(host: &mut H, file_length: u64, gate: u64) -> Result<Option<u64>, ImagesError>
    requires told { ForSome (H.told host.old) (λ c. file_length ≡ length c.images) }
    requires some { 0 < gate }
    requires within { gate ≤ file_length }
    ensures gate { IfOk result (λ o. ForSome (H.told host.old) (λ c. (epoch : ℕ) (images : List Place)
        → IsGate c.images epoch images gate (Ok o))) }
    ensures within { IfOk result (λ o. MatchOption o (gate < file_length) (λ _. gate + 9 ≤ file_length)) }
    ensures cause { IfErr result (λ e. IsCause e (H.told host.old) (H.failures host.old) (H.failures host.new)
        (λ c at. (epoch : ℕ) (images : List Place) → read_gate c.images epoch images gate ≡ Err at)) }
    ensures host { OnlyRead H.told H.moment H.failures H.left_since host.old host.new }
{
    let mut front = [0; GATE_LENGTH];
    let count = read_front(host, file_length, gate, &mut front)?;
    Ok(gate_of(&front[..count], gate)?)
}

/// Reads what the file of images, which has so many bytes, has from a place on into the front of `out`, and answers how
/// many bytes that are.
fn read_front<H: Host>(
    host: &mut H,
    file_length: u64,
    at: u64,
    out: &mut [u8],
) -> Result<usize, ImagesError>
    requires { ForSome (H.told host.old) (λ c. file_length ≡ length c.images) }
    ensures count { IfOk result (λ n. n ≡ min (length out.old) (file_length - at)) }
    ensures bytes { IfOk result (λ n. ForSome (H.told host.old) (λ c.
        take n out.new ≡ take (length out.old) (drop at c.images))) }
    ensures cause { IfErr result (λ e. IsCause e (H.told host.old) (H.failures host.old) (H.failures host.new)
        (λ _ _. ⊥)) }
    ensures host { OnlyRead H.told H.moment H.failures H.left_since host.old host.new }
{
    let count = host.read(FileNo::Images, at, out)?;
    let left = file_length.saturating_sub(at);
    if count as u64 != left.min(out.len() as u64) {
        return Err(ImagesError::Changed { unit: 0 });
    }
    Ok(count)
}
