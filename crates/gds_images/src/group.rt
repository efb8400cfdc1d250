ghost use Rattle.std.specs.Prelude.{◌≡◌, ℕ, ◌+◌, ◌-◌, ◌^◌, ◌<◌, ◌≤◌, ◌==◌, List, [], ◌∷◌, ◌++◌, length, take, drop};
ghost use Rattle.std.specs.Prelude.{vec_len, IfOk, OnOk};
ghost use Rattle.std.specs.Prelude.{None, OnErr};
ghost use Rattle.std.specs.Option.{ForSome};
ghost use Rattle.host_model.specs.Disk.{Changes, Settles, Torn, Writes, written};
ghost use Rattle.host_model.specs.Failures.{NeverFell, Rose};
ghost use Rattle.host_model.specs.Moments.{LeavesBy};
ghost use Rattle.host_model.specs.Told.{TellsOn};
ghost use Rattle.gds_images.specs.Chain.{first_gate};
ghost use Rattle.gds_images.specs.Group.{BeginsWith, front_bytes, front_room, gate_behind, group_bytes, image_bytes};
ghost use Rattle.gds_images.specs.Group.{images_bytes, images_in};

use super::fields::HEAD_LENGTH;
use gds_block::{put_bytes, put_u32, put_u64, u32_at};
use host_model::{FileNo, Host, HostFailed, store};
use std::alloc::{AllocError, Global};
use std::marker::Model;

/// How many bytes stand at most between a gate and the images behind it: the length of the group, and behind gate 0
/// that of the epoch's database.
const FRONT_ROOM: usize = 16;

/// How many bytes the buffer of a group has at most, so that each place in a file of images is a number.
const MAX_BUFFER: usize = 1 << 62;

/// Images of one group in memory, as they stand in the file: old bytes of the database file and where they belong.
///
/// They are kept in one buffer with room for the front of the group and for the closed gate behind it, so that a group
/// is written by one call of the device and takes no memory then.
#[derive(Debug, Drop)]
pub struct Group {
    bytes: Vec<u8>,
    count: usize,
}

impl Model for Group {
    ghost use Rattle.std.specs.Prelude.{List, drop};
    ghost use Rattle.gds_images.specs.Group.{Image, IsBuffer, front_room, images_in};

    ghost Value = { List Image };

    ghost view = { λ group. images_in group.count (drop front_room group.bytes.items) };

    ghost invariant = { λ group. IsBuffer group.count group.bytes.items };
}

impl Group {
    /// No images, in a buffer of their own.
    pub fn new(alloc: Global) -> Result<Group, AllocError>
        ensures { IfOk result (λ group. group ≡ []) }
    {
        Ok(Group {
            bytes: Vec::from_slice(alloc, &[0; FRONT_ROOM + 1])?,
            count: 0,
        })
    }

    /// How many images there are.
    pub fn count(&self) -> usize
        ensures { result ≡ length self.now }
    {
        self.count
    }

    /// Whether there is none.
    pub fn is_empty(&self) -> bool
        ensures { result ≡ (length self.now == 0) }
    {
        self.count == 0
    }

    /// One image more: these bytes of the database file, from a place on.
    ///
    /// A group of 2^62 bytes is refused as want of memory.
    pub fn push(&mut self, at: u64, bytes: &[u8]) -> Result<(), AllocError>
        requires { length bytes.now < 2 ^ 32 }
        ensures ok { OnOk result (self.new ≡ self.old ++ (record { at = at; bytes = bytes.now }) ∷ []) }
        ensures err { OnErr result (self.new ≡ self.old) }
    {
        if self.bytes.len() + HEAD_LENGTH + bytes.len() > MAX_BUFFER {
            return Err(AllocError);
        }
        push_image(&mut self.bytes, at, bytes)?;
        self.count += 1;
        Ok(())
    }

    /// Keeps the first images, so many of them, and lets the others go. Their memory stays.
    pub fn truncate(&mut self, count: usize)
        ensures { self.new ≡ take count self.old }
    {
        if count < self.count {
            cut_images(&mut self.bytes, count);
            self.count = count;
        }
    }

    /// Lets all images go. Their memory stays.
    pub fn clear(&mut self)
        ensures { self.new ≡ [] }
    {
        self.truncate(0);
    }
}

/// Keeps the first images of a buffer, so many of them, with the closed gate behind them.
fn cut_images(buffer: &mut Vec<u8>, count: usize)
    requires { BeginsWith (images_in count (drop front_room buffer.old.items)) (drop front_room buffer.old.items) }
    ensures { buffer.new.items ≡ take front_room buffer.old.items
        ++ images_bytes (images_in count (drop front_room buffer.old.items)) ++ 0 ∷ [] }
{
    let end = FRONT_ROOM + images_length(&buffer[FRONT_ROOM..], count);
    buffer[end] = 0;
    buffer.truncate(end + 1);
}

/// How many bytes the first images have that stand here one behind the other, so many of them.
fn images_length(bytes: &[u8], count: usize) -> usize
    requires { BeginsWith (images_in count bytes.now) bytes.now }
    ensures { result ≡ length (images_bytes (images_in count bytes.now)) }
{
    let mut rest = bytes;
    for _ in 0..count {
        let len = u32_at(rest, 8) as usize;
        rest = &rest[HEAD_LENGTH + len..];
    }
    bytes.len() - rest.len()
}

/// Puts an image before the byte at the end.
fn push_image(buffer: &mut Vec<u8>, at: u64, bytes: &[u8]) -> Result<(), AllocError>
    requires some { 0 < vec_len buffer.old }
    requires short { length bytes.now < 2 ^ 32 }
    ensures ok { OnOk result ((front : List ℕ) → buffer.old.items ≡ front ++ 0 ∷ []
        → buffer.new.items ≡ front ++ image_bytes (record { at = at; bytes = bytes.now }) ++ 0 ∷ []) }
    ensures err { OnErr result (buffer.new.items ≡ buffer.old.items) }
{
    let end = buffer.len();
    buffer.resize(end + HEAD_LENGTH + bytes.len(), 0)?;
    put_image(&mut buffer[end - 1..], at, bytes);
    Ok(())
}

/// Puts an image at the front. What is behind it stays.
fn put_image(out: &mut [u8], at: u64, bytes: &[u8])
    requires fits { 12 + length bytes.now ≤ length out.old }
    requires short { length bytes.now < 2 ^ 32 }
    ensures { out.new ≡ image_bytes (record { at = at; bytes = bytes.now }) ++ drop (12 + length bytes.now) out.old }
{
    put_u64(out, 0, at);
    put_u32(out, 8, bytes.len() as u32);
    put_bytes(out, HEAD_LENGTH, bytes);
}

/// Where gate 0 stands in a file of images, right behind its label.
const FIRST_GATE: u64 = 8;

/// Writes a group behind the closed gate, with the next gate closed, and makes it stable. Answers where the next gate
/// stands.
///
/// `epoch_length` is how long the database was at the last epoch, which isn't how long its file is now. It is written
/// behind gate 0 alone. The images don't count until the gate is opened. It takes no memory.
pub fn append_group<H: Host>(
    host: &mut H,
    gate: u64,
    images: &mut Group,
    epoch_length: u64,
) -> Result<u64, HostFailed>
    requires small { gate < 2 ^ 62 }
    requires gate { ForSome (H.told host.old) (λ c. gate < length c.images) }
    ensures images { images.new ≡ images.old }
    ensures ends { gate_behind gate images.old < 2 ^ 63 }
    ensures next { IfOk result (λ next. next ≡ gate_behind gate images.old) }

    // At any moment a crash leaves what it could have left before, with the write torn. After Ok it leaves the group.
    ensures any_moment { LeavesBy H.moment H.left_since
        (Changes FileNo.Images (Torn (gate + 1) (length (group_bytes gate epoch_length images.old))))
        host.old host.new }
    ensures told { TellsOn (H.told host.old) (H.told host.new)
        (Changes FileNo.Images (Writes (gate + 1) (group_bytes gate epoch_length images.old) result)) }
    ensures untold { H.told host.old ≡ None → H.told host.new ≡ None }
    ensures settled { OnOk result (ForSome (H.told host.old) (λ c. Settles FileNo.Images
        (written (gate + 1) (group_bytes gate epoch_length images.old) c.images)
        (H.left_since host.new (H.moment host.new)))) }
    ensures calls { H.moment host.new ≤ H.moment host.old + 2 }
    ensures failures { NeverFell (H.failures host.old) (H.failures host.new) }
    ensures failed { OnErr result (Rose (H.failures host.old).write (H.failures host.new).write) }
{
    let start = put_front(&mut images.bytes, gate, epoch_length);
    let group = &images.bytes[start..];
    store(host, FileNo::Images, gate + 1, group)?;
    Ok(gate + group.len() as u64)
}

/// Opens a gate, and makes that stable. From then on the images of the group behind it are laid back.
pub fn open_gate<H: Host>(host: &mut H, gate: u64) -> Result<(), HostFailed>
    requires { ForSome (H.told host.old) (λ c. gate < length c.images) }
    ensures any_moment { LeavesBy H.moment H.left_since (Changes FileNo.Images (Torn gate 1)) host.old host.new }
    ensures told { TellsOn (H.told host.old) (H.told host.new) (Changes FileNo.Images (Writes gate (1 ∷ []) result)) }
    ensures untold { H.told host.old ≡ None → H.told host.new ≡ None }
    ensures settled { OnOk result (ForSome (H.told host.old) (λ c. Settles FileNo.Images
        (written gate (1 ∷ []) c.images) (H.left_since host.new (H.moment host.new)))) }
    ensures calls { H.moment host.new ≤ H.moment host.old + 2 }
    ensures failures { NeverFell (H.failures host.old) (H.failures host.new) }
    ensures failed { OnErr result (Rose (H.failures host.old).write (H.failures host.new).write) }
{
    store(host, FileNo::Images, gate, &[1])
}

/// Closes gate 0, and makes that stable. From then on no image counts.
pub fn close_gate<H: Host>(host: &mut H) -> Result<(), HostFailed>
    requires { ForSome (H.told host.old) (λ c. first_gate < length c.images) }
    ensures any_moment { LeavesBy H.moment H.left_since (Changes FileNo.Images (Torn first_gate 1)) host.old host.new }
    ensures told { TellsOn (H.told host.old) (H.told host.new)
        (Changes FileNo.Images (Writes first_gate (0 ∷ []) result)) }
    ensures untold { H.told host.old ≡ None → H.told host.new ≡ None }
    ensures settled { OnOk result (ForSome (H.told host.old) (λ c. Settles FileNo.Images
        (written first_gate (0 ∷ []) c.images) (H.left_since host.new (H.moment host.new)))) }
    ensures calls { H.moment host.new ≤ H.moment host.old + 2 }
    ensures failures { NeverFell (H.failures host.old) (H.failures host.new) }
    ensures failed { OnErr result (Rose (H.failures host.old).write (H.failures host.new).write) }
{
    store(host, FileNo::Images, FIRST_GATE, &[0])
}

/// Puts the front of a group into the room before its images: their length, and behind gate 0 that of the epoch's
/// database. Answers where in the buffer it begins.
fn put_front(buffer: &mut Vec<u8>, gate: u64, epoch_length: u64) -> usize
    requires { 17 ≤ length buffer.old.items }
    ensures front { drop result buffer.new.items
        ≡ front_bytes gate epoch_length (length buffer.old.items - 17) ++ drop 16 buffer.old.items }
    ensures kept { drop 16 buffer.new.items ≡ drop 16 buffer.old.items }
    ensures start { result ≤ 16 }
    ensures len { length buffer.new.items ≡ length buffer.old.items }
{
    let size = (buffer.len() - FRONT_ROOM - 1) as u64;
    if gate == FIRST_GATE {
        put_u64(buffer, 0, size);
        put_u64(buffer, 8, epoch_length);
        return 0;
    }
    put_u64(buffer, 8, size);
    8
}
