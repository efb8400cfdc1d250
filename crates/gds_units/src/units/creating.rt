ghost use Rattle.std.specs.Prelude.{◌≡◌, ◌≢◌, None, Some, IfErr, IfOk};
ghost use Rattle.std.specs.Option.{ForSome};
ghost use Rattle.host_model.specs.Failures.{NeverFell};
ghost use Rattle.host_model.specs.Moments.{EachLeft, HasCome};
ghost use Rattle.host_model.specs.Told.{TellsOn};
ghost use Rattle.gds_header.specs.Kinds.{IsWithinLimits};
ghost use Rattle.gds_new.specs.NewDatabase.{new_database, new_header};
ghost use Rattle.gds_create.specs.Newborn.{IsEmpty, IsMade, IsNewborn};
ghost use Rattle.gds_recovery.specs.Found.{IsUnwritten};
ghost use Rattle.gds_units.specs.Creating.{HasCreatingCause};
ghost use Rattle.gds_units.specs.Opening.{AreFresh, IsStable, host_after};
ghost use Rattle.gds_units.specs.State.{image_of};

use super::Units;
use super::opening::Room;
use crate::error::{Returned, UnitError};
use gds_create::create_files;
use gds_header::Header;
use host_model::Host;
use std::alloc::Global;

impl<H: Host> Units<H> {
    /// Makes a new database in two empty files, with the numbers of a header, of which it takes all but the count of
    /// free blocks, the transaction number and the master map.
    ///
    /// A stop on the way, or an error, leaves files that an opening refuses or of which it finds the whole new
    /// database.
    ///
    /// # Errors
    ///
    /// `NotEmpty` says that a file has bytes. It, `ReadFault` and `Memory` come before anything is written. The host is
    /// handed back.
    pub fn create(alloc: Global, host: H, header: &Header) -> Result<Units<H>, Returned<H>>
        requires { IsWithinLimits header.now }

        // What is made.
        ensures fresh { IfOk result AreFresh }
        ensures header { IfOk result (λ units. units.header ≡ new_header header.now) }
        ensures image { IfOk result (λ units. ForSome (H.told host) (λ _.
            image_of units ≡ Some (new_database header.now))) }
        ensures made { IfOk result (λ units. TellsOn (H.told host) (H.told units.host) (IsMade header.now)) }
        ensures stable { IfOk result (λ units. IsStable H.told H.moment H.left_since units.host) }

        // However it ends, at each moment.
        ensures any_moment { ForSome (H.told host) (λ before. EachLeft H.moment H.left_since host IsEmpty
            → HasCome H.moment H.left_since host (host_after result)
            (IsNewborn header.now before) (IsNewborn header.now before)) }
        ensures said { TellsOn (H.told host) (H.told (host_after result)) (λ before now. now.said ≡ before.said) }
        ensures untold { H.told host ≡ None → H.told (host_after result) ≡ None }

        // But for `WriteFault`, nothing is written where it fails.
        ensures unwritten { IfErr result (λ returned. returned.error ≢ UnitError.WriteFault
            → IsUnwritten H.told H.moment H.left_since host returned.host) }
        ensures cause { IfErr result (λ returned. HasCreatingCause
            (H.told host) (H.failures host) (H.failures returned.host) returned.error) }
        ensures failures { NeverFell (H.failures host) (H.failures (host_after result)) }
    {
        let Ok(room) = Room::new(alloc) else {
            return Err(Returned {
                host,
                error: UnitError::Memory,
            });
        };
        let mut host = host;
        match create_files(alloc, &mut host, header) {
            Ok(header) => Ok(Units::fresh(alloc, host, header, room)),
            Err(error) => Err(Returned {
                host,
                error: UnitError::from(error),
            }),
        }
    }
}
