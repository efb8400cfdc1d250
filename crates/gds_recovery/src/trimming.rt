ghost use Rattle.std.specs.Prelude.{◌≡◌, ◌<◌, ◌≤◌, length, take, IfErr, IfOk, IfSome, IfNone, OnOk, Some, None};
ghost use Rattle.std.specs.Option.{ForSome};
ghost use Rattle.host_model.specs.Frames.{WasRead};
ghost use Rattle.host_model.specs.Moments.{EachLeft, LeavesTheSame};
ghost use Rattle.gds_header.specs.Kinds.{IsWithinLimits};
ghost use Rattle.gds_images.specs.Outcome.{IsClosed};
ghost use Rattle.gds_images.specs.Recovered.{recovered};
ghost use Rattle.gds_recovery.specs.Errors.{HasCause, error_of};
ghost use Rattle.gds_recovery.specs.Found.{EndsReading, IsOpened, IsUnreadable, IsUnwritten};
ghost use Rattle.gds_recovery.specs.Steps.{EachFile, IsReadable, StaysFound};

use crate::closing::cut_to;
use crate::error::Trouble;
use crate::reading::read_whole;
use gds_header::{HEADER_LENGTH, Header};
use host_model::{FileNo, Host};

/// Cuts the database file to the length that its header says, where it is longer. Answers the header, or none where a
/// fault ends its reading.
pub(crate) fn trim<H: Host>(host: &mut H, db_length: u64) -> Result<Option<Header>, Trouble>
    requires closed { ForSome (H.told host.old) (λ c. IsClosed c.images) }
    requires db_length { ForSome (H.told host.old) (λ c. db_length ≡ length c.db) }
    requires stable { ForSome (H.told host.old) (λ c. EachLeft H.moment H.left_since host.old (λ d. d ≡ c)) }
    ensures stays { StaysFound H.told H.moment H.failures H.left_since host.old host.new }
    ensures opened { IfOk result (λ found. IfSome found (λ header. ForSome (H.told host.old) (λ c.
        ForSome (H.told host.new) (IsOpened c header)))) }
    ensures limits { IfOk result (λ found. IfSome found IsWithinLimits) }
    ensures unsound { IfOk result (λ found. IfNone found (ForSome (H.told host.old) EndsReading)) }
    ensures nothing_to_do { ForSome (H.told host.old) (λ c. recovered c.db c.images ≡ Some c.db
        → IsUnwritten H.told H.moment H.left_since host.old host.new) }
    ensures stable { OnOk result (ForSome (H.told host.new)
        (λ c. EachLeft H.moment H.left_since host.new (λ d. d ≡ c))) }
    ensures cause { IfErr result (λ trouble. HasCause (H.told host.old) (H.failures host.old) (H.failures host.new)
        (error_of trouble)) }
{
    match read_header(host, db_length)? {
        Some(header) => {
            trim_to(host, &header, db_length)?;
            Ok(Some(header))
        }
        None => Ok(None),
    }
}

/// Cuts the database file to the length that its header says, where it is longer.
fn trim_to<H: Host>(host: &mut H, header: &Header, db_length: u64) -> Result<(), Trouble>
    requires closed { ForSome (H.told host.old) (λ c. IsClosed c.images) }
    requires readable { ForSome (H.told host.old) (λ c. IsReadable header.now c.db) }
    requires db_length { ForSome (H.told host.old) (λ c. db_length ≡ length c.db) }
    requires stable { ForSome (H.told host.old) (λ c. EachLeft H.moment H.left_since host.old (λ d. d ≡ c)) }
    ensures stays { StaysFound H.told H.moment H.failures H.left_since host.old host.new }
    ensures opened { OnOk result (ForSome (H.told host.old) (λ c.
        ForSome (H.told host.new) (IsOpened c header.now))) }
    ensures nothing_to_do { ForSome (H.told host.old) (λ c. recovered c.db c.images ≡ Some c.db
        → host.new ≡ host.old) }
    ensures stable { OnOk result (ForSome (H.told host.new)
        (λ c. EachLeft H.moment H.left_since host.new (λ d. d ≡ c))) }
    ensures cause { IfErr result (λ trouble. HasCause (H.told host.old) (H.failures host.old) (H.failures host.new)
        (error_of trouble)) }
{
    let length = header.file_length();
    if length < db_length {
        cut_to(host, length)?;
    }
    Ok(())
}

/// The header of the database file, or none where a fault ends its reading.
fn read_header<H: Host>(host: &mut H, db_length: u64) -> Result<Option<Header>, Trouble>
    requires { ForSome (H.told host.old) (λ c. db_length ≡ length c.db) }
    ensures some { IfOk result (λ found. IfSome found (λ header. ForSome (H.told host.old)
        (λ c. IsReadable header c.db))) }
    ensures limits { IfOk result (λ found. IfSome found IsWithinLimits) }
    ensures none { IfOk result (λ found. IfNone found (ForSome (H.told host.old) (λ c. IsUnreadable c.db))) }
    ensures read { WasRead H.told H.failures host.old host.new }
    ensures crash { LeavesTheSame H.moment H.left_since host.old host.new }
    ensures cause { IfErr result (λ trouble. HasCause (H.told host.old) (H.failures host.old) (H.failures host.new)
        (error_of trouble)) }
{
    if db_length < HEADER_LENGTH as u64 {
        return Ok(None);
    }
    let mut bytes = [0u8; HEADER_LENGTH];
    read_whole(host, FileNo::Db, 0, &mut bytes)?;
    Ok(header_of(&bytes, db_length))
}

/// The header of a file of this length that begins with these bytes, or none where a fault ends its reading.
fn header_of(bytes: &[u8], file_length: u64) -> Option<Header>
    requires { length bytes.now ≡ 8192 }
    ensures some { IfSome result (λ header. EachFile bytes.now file_length (IsReadable header)) }
    ensures limits { IfSome result IsWithinLimits }
    ensures none { IfNone result (EachFile bytes.now file_length IsUnreadable) }
{
    match Header::read(bytes) {
        Ok(header) => {
            if header.file_length() <= file_length {
                Some(header)
            } else {
                None
            }
        }
        Err(_) => None,
    }
}
