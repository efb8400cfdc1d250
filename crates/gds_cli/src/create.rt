ghost use Rattle.std.specs.Prelude.{◌≡◌};
ghost use Rattle.host_model.specs.Frames.{WasUsed};
ghost use Rattle.std.specs.Option.{ForSome};
ghost use Rattle.gds_header.specs.Kinds.{IsWithinLimits};
ghost use Rattle.gds_cli.specs.Status.{HasCause};
ghost use Rattle.gds_cli.specs.Create.{CreateEnds, IsCreateStatus};
ghost use Rattle.gds_cli.specs.Answer.{LeavesCreated, header_with};

use crate::saying::say;
use crate::status::Status;
use gds_create::{CreateError, create_files};
use gds_header::Header;
use host_model::Host;
use std::alloc::Global;

/// Makes the two files of a new database with the numbers of a header, and says how many blocks it has. Where a file
/// has bytes it says so and leaves both. The text takes its memory before anything is written.
pub(crate) fn create<H: Host>(alloc: Global, host: &mut H, header: &Header) -> Status
    requires { IsWithinLimits header.now }
    ensures host { WasUsed H.told H.failures host.old host.new (CreateEnds header.now result) }
    ensures crash { ForSome (H.told host.old)
        (LeavesCreated H.moment H.left_since header.now.total result host.old host.new) }
    ensures status { IsCreateStatus result }
    ensures cause { HasCause result (H.failures host.old) (H.failures host.new) }
{
    let Ok(text) = format!(in alloc; "CREATED {}\n", header.total) else {
        return Status::Memory;
    };
    match create_files(alloc, host, header) {
        Ok(_) => say(host, text.as_str(), Status::Done),
        Err(CreateError::NotEmpty) => say(host, "NOTEMPTY\n", Status::NotEmpty),
        Err(CreateError::Memory) => Status::Memory,
        Err(CreateError::ReadFault) => Status::ReadFault,
        Err(CreateError::WriteFault) => Status::WriteFault,
    }
}

/// A header with these numbers, which are all that a new database takes of it.
pub(crate) fn header_with(
    block_size: u32,
    key_max: u32,
    value_max: u32,
    total: u32,
    extension: u32,
    limit: u32,
) -> Header
    ensures { result ≡ header_with block_size key_max value_max total extension limit }
{
    Header {
        block_size,
        total,
        free: 0,
        extension,
        limit,
        key_max,
        value_max,
        tn: 0,
        master: [0; 256],
    }
}
