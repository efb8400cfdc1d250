ghost use Rattle.std.specs.Prelude.{◌≡◌, ◌+◌, ◌<◌, ◌≤◌, ◌^◌, [], ◌∷◌, Some, All, length, take, drop, IfErr, OnOk};
ghost use Rattle.std.specs.Option.{ForSome};
ghost use Rattle.host_model.specs.Disk.{Changes, Torn, written};
ghost use Rattle.host_model.specs.Files.{with_file};
ghost use Rattle.gds_images.specs.Chain.{bytes_of};
ghost use Rattle.gds_images.specs.Recovered.{laid};
ghost use Rattle.gds_recovery.specs.Errors.{HasCause, error_of};
ghost use Rattle.gds_recovery.specs.Steps.{IsReachable, IsWithin, LaysOver, WasChangedBy};

use crate::error::Trouble;
use crate::reading::read_whole;
use gds_images::{Place, Places};
use host_model::{FileNo, Host};

/// How many bytes of an image are copied at a time: an image that this program wrote is no longer than a block, which
/// has at most 65,024.
const PIECE: usize = 65_536;

/// Lays images over the database file, from the last to the first, so that the first of two stands.
pub(crate) fn lay_images<H: Host>(host: &mut H, images: &Places) -> Result<(), Trouble>
    requires reachable { All IsReachable images.now }
    requires within { ForSome (H.told host.old) (λ c. All (IsWithin c) images.now) }
    ensures changed { WasChangedBy H.told H.moment H.failures H.left_since
        (Changes FileNo.Db (LaysOver images.now)) host.old host.new }
    ensures laid { OnOk result (ForSome (H.told host.old) (λ c.
        H.told host.new ≡ Some (with_file FileNo.Db (laid c.images images.now c.db) c))) }
    ensures cause { IfErr result (λ trouble. HasCause (H.told host.old) (H.failures host.old) (H.failures host.new)
        (error_of trouble)) }
{
    let mut buffer = [0u8; PIECE];
    lay_through(host, images.as_slice(), &mut buffer)
}

/// The same, through this buffer.
fn lay_through<H: Host>(host: &mut H, places: &[Place], buffer: &mut [u8]) -> Result<(), Trouble>
    requires buffer { 0 < length buffer.old }
    requires reachable { All IsReachable places.now }
    requires within { ForSome (H.told host.old) (λ c. All (IsWithin c) places.now) }
    ensures changed { WasChangedBy H.told H.moment H.failures H.left_since
        (Changes FileNo.Db (LaysOver places.now)) host.old host.new }
    ensures laid { OnOk result (ForSome (H.told host.old) (λ c.
        H.told host.new ≡ Some (with_file FileNo.Db (laid c.images places.now c.db) c))) }
    ensures cause { IfErr result (λ trouble. HasCause (H.told host.old) (H.failures host.old) (H.failures host.new)
        (error_of trouble)) }
{
    for i in (0..places.len()).rev() {
        lay_image(host, &places[i], buffer)?;
    }
    Ok(())
}

/// Lays an image over the database file, piece by piece.
fn lay_image<H: Host>(host: &mut H, place: &Place, buffer: &mut [u8]) -> Result<(), Trouble>
    requires buffer { 0 < length buffer.old }
    requires reachable { IsReachable place.now }
    requires within { ForSome (H.told host.old) (λ c. IsWithin c place.now) }
    ensures changed { WasChangedBy H.told H.moment H.failures H.left_since
        (Changes FileNo.Db (LaysOver (place.now ∷ []))) host.old host.new }
    ensures laid { OnOk result (ForSome (H.told host.old) (λ c. H.told host.new
        ≡ Some (with_file FileNo.Db (written place.now.at (bytes_of c.images place.now) c.db) c))) }
    ensures cause { IfErr result (λ trouble. HasCause (H.told host.old) (H.failures host.old) (H.failures host.new)
        (error_of trouble)) }
{
    let mut done: u32 = 0;
    while done < place.len {
        let size = buffer.len().min((place.len - done) as usize);
        let (from, at) = (place.from + u64::from(done), place.at + u64::from(done));
        lay_piece(host, from, at, &mut buffer[..size])?;
        done += size as u32;
    }
    Ok(())
}

/// Copies bytes from the file of images to the database file.
fn lay_piece<H: Host>(host: &mut H, from: u64, at: u64, piece: &mut [u8]) -> Result<(), Trouble>
    requires images { ForSome (H.told host.old) (λ c. from + length piece.old ≤ length c.images) }
    requires db { ForSome (H.told host.old) (λ c. at ≤ length c.db) }
    ensures changed { WasChangedBy H.told H.moment H.failures H.left_since
        (Changes FileNo.Db (Torn at (length piece.old))) host.old host.new }
    ensures laid { OnOk result (ForSome (H.told host.old) (λ c. H.told host.new
        ≡ Some (with_file FileNo.Db (written at (take (length piece.old) (drop from c.images)) c.db) c))) }
    ensures cause { IfErr result (λ trouble. HasCause (H.told host.old) (H.failures host.old) (H.failures host.new)
        (error_of trouble)) }
{
    read_whole(host, FileNo::Images, from, piece)?;
    host.write_at(FileNo::Db, at, piece)?;
    Ok(())
}
