ghost use Rattle.std.specs.Prelude.{◌≡◌, ◌≢◌, ◌*◌, ◌<◌, None, IfErr, IfOk, OnErr, OnOk, false, length, true};
ghost use Rattle.std.specs.Option.{ForSome};
ghost use Rattle.host_model.specs.Failures.{NeverFell, Rose};
ghost use Rattle.host_model.specs.Files.{Contents};
ghost use Rattle.host_model.specs.Moments.{EachLeft, HasCome};
ghost use Rattle.host_model.specs.Told.{TellsOn};
ghost use Rattle.gds_header.specs.Kinds.{IsWithinLimits};
ghost use Rattle.gds_new.specs.NewDatabase.{new_header};
ghost use Rattle.gds_recovery.specs.Found.{IsUnwritten};
ghost use Rattle.gds_create.specs.Errors.{HasCause};
ghost use Rattle.gds_create.specs.Newborn.{HasBytes, IsEmpty, IsMade, IsNewborn};

use crate::database::make_database;
use crate::error::CreateError;
use crate::first::new_header;
use crate::images::make_images;
use gds_header::Header;
use host_model::{FileNo, Host, HostFailed};
use std::alloc::Global;

/// How many bytes of blocks are written at once, at most.
const PIECE: u32 = 65_536;

/// Makes the two files of a new database with the numbers of a header, of which it takes all but the count of free
/// blocks, the transaction number and the master map. Answers the header that the database has.
///
/// Both files are empty. A crash at any moment leaves files that an opening refuses or of which it finds the whole new
/// database, and after Ok the new database alone.
///
/// # Errors
///
/// `NotEmpty` says that a file has bytes. It, `ReadFault` and `Memory` come before anything is written.
pub fn create_files<H: Host>(
    alloc: Global,
    host: &mut H,
    header: &Header,
) -> Result<Header, CreateError>
    requires { IsWithinLimits header.now }
    ensures header { IfOk result (λ made. made ≡ new_header header.now) }
    ensures limits { IfOk result IsWithinLimits }

    // After Ok the files were empty and are the new database, and a crash leaves exactly what the host holds.
    ensures made { OnOk result (TellsOn (H.told host.old) (H.told host.new) (IsMade header.now)) }
    ensures stable { OnOk result (ForSome (H.told host.new)
        (λ now. EachLeft H.moment H.left_since host.new (λ c. c ≡ now))) }

    // However it ends, at each moment.
    ensures any_moment { ForSome (H.told host.old) (λ before. EachLeft H.moment H.left_since host.old IsEmpty
        → HasCome H.moment H.left_since host.old host.new (IsNewborn header.now before) (IsNewborn header.now before)) }
    ensures told { TellsOn (H.told host.old) (H.told host.new) (λ before now. now.said ≡ before.said) }
    ensures untold { H.told host.old ≡ None → H.told host.new ≡ None }

    // But for `WriteFault`, nothing is written where it ends early.
    ensures unwritten { IfErr result (λ e. e ≢ CreateError.WriteFault
        → IsUnwritten H.told H.moment H.left_since host.old host.new) }
    ensures cause { IfErr result (HasCause (H.told host.old) (H.failures host.old) (H.failures host.new)) }
    ensures failures { NeverFell (H.failures host.old) (H.failures host.new) }
{
    if !are_empty(host)? {
        return Err(CreateError::NotEmpty);
    }
    let batch = PIECE / header.block_size;
    let mut room = vec![in alloc; 0; batch as usize * header.block_size as usize]?;
    make_files(host, header, batch, &mut room)?;
    Ok(new_header(header))
}

/// Whether both files are empty.
fn are_empty<H: Host>(host: &mut H) -> Result<bool, CreateError>
    ensures yes { IfOk result (λ empty. empty ≡ true → ForSome (H.told host.old) IsEmpty) }
    ensures no { IfOk result (λ empty. empty ≡ false → ForSome (H.told host.old) HasBytes) }
    ensures unwritten { IsUnwritten H.told H.moment H.left_since host.old host.new }
    ensures failed { IfErr result (λ e. e ≡ CreateError.ReadFault) }
    ensures rose { OnErr result (Rose (H.failures host.old).read (H.failures host.new).read) }
    ensures failures { NeverFell (H.failures host.old) (H.failures host.new) }
{
    let Ok(db) = host.len(FileNo::Db) else {
        return Err(CreateError::ReadFault);
    };
    let Ok(images) = host.len(FileNo::Images) else {
        return Err(CreateError::ReadFault);
    };
    Ok(db == 0 && images == 0)
}

/// Makes both files, which are empty.
fn make_files<H: Host>(
    host: &mut H,
    header: &Header,
    batch: u32,
    room: &mut [u8],
) -> Result<(), HostFailed>
    requires limits { IsWithinLimits header.now }
    requires some { 0 < batch }
    requires room { length room.old ≡ batch * header.now.block_size }
    requires empty { ForSome (H.told host.old) IsEmpty }
    ensures made { OnOk result (TellsOn (H.told host.old) (H.told host.new) (IsMade header.now)) }
    ensures stable { OnOk result (ForSome (H.told host.new)
        (λ now. EachLeft H.moment H.left_since host.new (λ c. c ≡ now))) }
    ensures any_moment { ForSome (H.told host.old) (λ before. EachLeft H.moment H.left_since host.old IsEmpty
        → HasCome H.moment H.left_since host.old host.new (IsNewborn header.now before) (IsNewborn header.now before)) }
    ensures told { TellsOn (H.told host.old) (H.told host.new) (λ before now. now.said ≡ before.said) }
    ensures untold { H.told host.old ≡ None → H.told host.new ≡ None }
    ensures failures { NeverFell (H.failures host.old) (H.failures host.new) }
    ensures failed { OnErr result (Rose (H.failures host.old).write (H.failures host.new).write) }
{
    make_images(host)?;
    make_database(host, header, batch, room)
}
