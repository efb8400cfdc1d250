mod committing;
mod creating;
mod durable;
mod opening;
mod reading;
mod sourcing;

ghost use Rattle.std.specs.Prelude.{◌≡◌, ◌≤◌, length};
ghost use Rattle.std.specs.Option.{ForSome};
ghost use Rattle.host_model.specs.Moments.{EachLeft};
ghost use Rattle.gds_header.specs.Fields.{fields_of, file_length_of};
ghost use Rattle.gds_header.specs.Kinds.{IsWithinLimits};
ghost use Rattle.gds_images.specs.Outcome.{IsWhole};
ghost use Rattle.gds_units.specs.Held.{IsRecoverable};
ghost use Rattle.gds_units.specs.State.{image_of};

use crate::buffer::{Scratch, Zeros};
use gds_epoch::Waiting;
use gds_header::Header;
use gds_images::Group;
use host_model::Host;
use std::marker::Model;

/// The units of an open database: unit 0 is its header, and unit n + 1 is block n.
///
/// Clauses see a `Units` as its host, the database file with all changes in it where the host tells it, the header, how
/// many bytes the last epoch's database has and how many the file has for sure, the number of units that changed since
/// the last epoch, and whether a write has failed. The image, which is the database with all changes, is what the file
/// begins with, as long as its header says.
#[derive(Drop)]
pub struct Units<H: Host> {
    host: H,
    header: Header,
    /// The units that changed since the last epoch.
    waiting: Waiting,
    /// What the last epoch's database has in their places.
    before: Group,
    /// How many bytes the last epoch's database has.
    epoch_length: u64,
    /// How many bytes the file has for sure.
    extent: u64,
    is_stopped: bool,
    zeros: Zeros,
    scratch: Scratch,
}

impl<H: Host> Model for Units<H> {
    ghost use Rattle.std.specs.Prelude.{length};
    ghost use Rattle.gds_units.specs.Held.{AreUnits};
    ghost use Rattle.gds_units.specs.State.{UnitsState, file_with};

    ghost Value = { UnitsState H };

    ghost view = { λ units. record {
      host = units.host;
      file = file_with units.header.block_size units.waiting.units (H.told units.host);
      header = units.header;
      epoch = units.epoch_length;
      extent = units.extent;
      changed = length units.waiting.units;
      stopped = units.is_stopped;
    } };

    ghost invariant = { λ units. AreUnits H.told H.moment H.left_since units.host units.header units.waiting.units
        units.before units.epoch_length units.extent units.is_stopped };
}

impl<H: Host> Units<H> {
    /// The header of the image.
    ///
    /// With it comes what is always known of open units: the image is a whole database with this header, and the next
    /// opening finds some database of each thing that a crash now may leave.
    pub fn header(&self) -> &Header
        ensures header { result.now ≡ self.now.header }
        ensures limits { IsWithinLimits self.now.header }
        ensures image { ForSome (image_of self.now) (λ image. IsWhole image) }
        ensures fields { ForSome (image_of self.now) (λ image. fields_of image ≡ self.now.header) }
        ensures extent { file_length_of self.now.header ≤ self.now.extent }
        ensures found { ForSome (H.told self.now.host)
            (λ _. EachLeft H.moment H.left_since self.now.host IsRecoverable) }
    {
        &self.header
    }

    /// How many units changed since the last epoch.
    pub fn changed(&self) -> u32
        ensures { result ≡ self.now.changed }
    {
        self.waiting.len() as u32
    }

    /// Whether a write has failed, so that nothing is written any more.
    pub fn is_stopped(&self) -> bool
        ensures { result ≡ self.now.stopped }
    {
        self.is_stopped
    }

    /// The host. What changed since the last epoch is given up.
    pub fn into_host(self) -> H
        ensures { result ≡ self.host }
    {
        let Units { host, .. } = self;
        host
    }
}
