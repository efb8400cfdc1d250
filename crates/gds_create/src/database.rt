//! The database file, written from behind its label to the end, and then the label.
ghost use Rattle.std.specs.Prelude.{◌≡◌, ◌+◌, ◌*◌, ◌<◌, ◌≤◌, ◌++◌, [], Some, OnErr, OnOk, length, drop};
ghost use Rattle.std.specs.Option.{ForSome};
ghost use Rattle.host_model.specs.Disk.{Changes, Settles};
ghost use Rattle.host_model.specs.Failures.{Rose};
ghost use Rattle.host_model.specs.Files.{with_file};
ghost use Rattle.host_model.specs.Moments.{EachLeft, LeavesOnly};
ghost use Rattle.gds_header.specs.Fields.{header_bytes, zeros};
ghost use Rattle.gds_header.specs.Kinds.{IsWithinLimits};
ghost use Rattle.gds_new.specs.NewDatabase.{new_database, new_header};
ghost use Rattle.gds_recovery.specs.Steps.{WasChangedBy};
ghost use Rattle.gds_create.specs.Blocks.{new_blocks};
ghost use Rattle.gds_create.specs.Making.{AnyBytes, IsBeingMade, KeepsFirst};

use crate::blocks::fill_blocks;
use crate::first::new_header;
use gds_header::{HEADER_LENGTH, Header};
use host_model::{FileNo, Host, HostFailed, store};

const LABEL: [u8; 8] = *b"GDSPROF1";

/// Makes an empty file the new database: zeros in the label's place, all that stands behind it, and the label, each
/// made stable before the next is written. `room` holds `batch` blocks.
pub(crate) fn make_database<H: Host>(
    host: &mut H,
    header: &Header,
    batch: u32,
    room: &mut [u8],
) -> Result<(), HostFailed>
    requires limits { IsWithinLimits header.now }
    requires some { 0 < batch }
    requires room { length room.old ≡ batch * header.now.block_size }
    requires empty { ForSome (H.told host.old) (λ c. c.db ≡ []) }
    ensures changed { WasChangedBy H.told H.moment H.failures H.left_since
        (Changes FileNo.Db AnyBytes) host.old host.new }
    ensures any_moment { ForSome (H.told host.old) (λ before. EachLeft H.moment H.left_since host.old (λ c. c ≡ before)
        → LeavesOnly H.moment H.left_since host.old host.new (IsBeingMade header.now before)) }
    ensures written { OnOk result (ForSome (H.told host.old) (λ c.
        H.told host.new ≡ Some (with_file FileNo.Db (new_database header.now) c))) }
    ensures settled { OnOk result (ForSome (H.told host.old) (λ _.
        Settles FileNo.Db (new_database header.now) (H.left_since host.new (H.moment host.new)))) }
    ensures failed { OnErr result (Rose (H.failures host.old).write (H.failures host.new).write) }
{
    store(host, FileNo::Db, 0, &[0; LABEL.len()])?;
    write_rest(host, header, batch, room)?;
    store(host, FileNo::Db, 0, &LABEL)
}

/// Writes all that stands behind the label, and makes it stable.
fn write_rest<H: Host>(
    host: &mut H,
    header: &Header,
    batch: u32,
    room: &mut [u8],
) -> Result<(), HostFailed>
    requires limits { IsWithinLimits header.now }
    requires some { 0 < batch }
    requires room { length room.old ≡ batch * header.now.block_size }
    requires begun { ForSome (H.told host.old) (λ c. length c.db ≡ 8) }
    ensures changed { WasChangedBy H.told H.moment H.failures H.left_since
        (Changes FileNo.Db (KeepsFirst 8)) host.old host.new }
    ensures written { OnOk result (ForSome (H.told host.old) (λ c.
        H.told host.new ≡ Some (with_file FileNo.Db (c.db ++ drop 8 (new_database header.now)) c))) }
    ensures settled { OnOk result (ForSome (H.told host.old) (λ c. Settles FileNo.Db
        (c.db ++ drop 8 (new_database header.now)) (H.left_since host.new (H.moment host.new)))) }
    ensures failed { OnErr result (Rose (H.failures host.old).write (H.failures host.new).write) }
{
    write_header(host, header)?;
    write_blocks(host, header, batch, room)?;
    host.sync(FileNo::Db)
}

/// Writes the header behind the label.
fn write_header<H: Host>(host: &mut H, header: &Header) -> Result<(), HostFailed>
    requires limits { IsWithinLimits header.now }
    requires begun { ForSome (H.told host.old) (λ c. length c.db ≡ 8) }
    ensures changed { WasChangedBy H.told H.moment H.failures H.left_since
        (Changes FileNo.Db (KeepsFirst 8)) host.old host.new }
    ensures written { OnOk result (ForSome (H.told host.old) (λ c. H.told host.new
        ≡ Some (with_file FileNo.Db (c.db ++ drop 8 (header_bytes (new_header header.now))) c))) }
    ensures failed { OnErr result (Rose (H.failures host.old).write (H.failures host.new).write) }
{
    let mut bytes = [0; HEADER_LENGTH];
    new_header(header).write(&mut bytes);
    append(host, LABEL.len() as u64, &bytes[LABEL.len()..])
}

/// Writes the blocks behind the header, `batch` of them at a time.
fn write_blocks<H: Host>(
    host: &mut H,
    header: &Header,
    batch: u32,
    room: &mut [u8],
) -> Result<(), HostFailed>
    requires limits { IsWithinLimits header.now }
    requires some { 0 < batch }
    requires room { length room.old ≡ batch * header.now.block_size }
    requires begun { ForSome (H.told host.old) (λ c. length c.db ≡ 8192) }
    ensures changed { WasChangedBy H.told H.moment H.failures H.left_since
        (Changes FileNo.Db (KeepsFirst 8)) host.old host.new }
    ensures written { OnOk result (ForSome (H.told host.old) (λ c. H.told host.new
        ≡ Some (with_file FileNo.Db (c.db ++ new_blocks header.now 0 header.now.total) c))) }
    ensures failed { OnErr result (Rose (H.failures host.old).write (H.failures host.new).write) }
{
    let mut next = 0;
    while next < header.total {
        let count = batch.min(header.total - next);
        let size = count as usize * header.block_size as usize;
        write_batch(host, header, next, count, &mut room[..size])?;
        next += count;
    }
    Ok(())
}

/// Writes neighbouring blocks at the end of the file. They fill `room`.
fn write_batch<H: Host>(
    host: &mut H,
    header: &Header,
    first: u32,
    count: u32,
    room: &mut [u8],
) -> Result<(), HostFailed>
    requires limits { IsWithinLimits header.now }
    requires within { first + count ≤ header.now.total }
    requires room { length room.old ≡ count * header.now.block_size }
    requires end { ForSome (H.told host.old) (λ c. length c.db ≡ 8192 + first * header.now.block_size) }
    ensures changed { WasChangedBy H.told H.moment H.failures H.left_since
        (Changes FileNo.Db (KeepsFirst 8)) host.old host.new }
    ensures written { OnOk result (ForSome (H.told host.old) (λ c. H.told host.new
        ≡ Some (with_file FileNo.Db (c.db ++ new_blocks header.now first count) c))) }
    ensures failed { OnErr result (Rose (H.failures host.old).write (H.failures host.new).write) }
{
    fill_blocks(header, first, count, room);
    let end = HEADER_LENGTH as u64 + u64::from(first) * u64::from(header.block_size);
    append(host, end, room)
}

/// Writes at the end of the file, behind the label's place.
fn append<H: Host>(host: &mut H, end: u64, bytes: &[u8]) -> Result<(), HostFailed>
    requires behind { 8 ≤ end }
    requires end { ForSome (H.told host.old) (λ c. length c.db ≡ end) }
    ensures changed { WasChangedBy H.told H.moment H.failures H.left_since
        (Changes FileNo.Db (KeepsFirst 8)) host.old host.new }
    ensures written { OnOk result (ForSome (H.told host.old) (λ c.
        H.told host.new ≡ Some (with_file FileNo.Db (c.db ++ bytes.now) c))) }
    ensures failed { OnErr result (Rose (H.failures host.old).write (H.failures host.new).write) }
{
    host.write_at(FileNo::Db, end, bytes)
}
