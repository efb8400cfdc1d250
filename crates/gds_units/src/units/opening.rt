ghost use Rattle.std.specs.Prelude.{◌≡◌, [], None, Some, IfErr, IfOk};
ghost use Rattle.std.specs.Option.{ForSome};
ghost use Rattle.host_model.specs.Failures.{NeverFell};
ghost use Rattle.host_model.specs.Told.{TellsOn};
ghost use Rattle.gds_header.specs.Kinds.{IsWithinLimits};
ghost use Rattle.gds_images.specs.Recovered.{recovered};
ghost use Rattle.gds_recovery.specs.Found.{FindsSame, HasNothingToDo, IsUnwritten};
ghost use Rattle.gds_units.specs.Opening.{AreFresh, HasOpeningCause, HoldsWhole, IsStable, KeepsOpening, host_after};
ghost use Rattle.gds_units.specs.State.{image_of};

use super::Units;
use crate::buffer::{Scratch, Zeros};
use crate::error::{Returned, UnitError};
use gds_epoch::Waiting;
use gds_header::Header;
use gds_images::Group;
use gds_recovery::recover;
use host_model::Host;
use std::alloc::{AllocError, Global};

/// The memory that open units have from the start on.
#[derive(Drop)]
pub(crate) struct Room {
    before: Group,
    zeros: Zeros,
    scratch: Scratch,
}

impl Room {
    /// Takes the memory.
    pub(crate) fn new(alloc: Global) -> Result<Room, AllocError>
        ensures { IfOk result (λ room. room.before ≡ []) }
    {
        Ok(Room {
            before: Group::new(alloc)?,
            zeros: Zeros::new(alloc)?,
            scratch: Scratch::new(alloc)?,
        })
    }
}

impl<H: Host> Units<H> {
    /// Opens a database: whatever a stop has left of its two files, they become what an opening finds of them.
    ///
    /// A stop on the way, or an error, leaves files of which the next opening finds the same. Where no file has to be
    /// changed, nothing is written.
    ///
    /// # Errors
    ///
    /// `Memory` comes before anything is written. `BadImages` says where the file of images is damaged, and `Unsound`
    /// that a fault ends the reading of the recovered database's header. After `WriteFault` the files want to be opened
    /// again. The host is handed back.
    pub fn open(alloc: Global, host: H) -> Result<Units<H>, Returned<H>>
        // What is opened.
        ensures fresh { IfOk result AreFresh }
        ensures image { IfOk result (λ units. ForSome (H.told host) (λ c.
            image_of units ≡ recovered c.db c.images)) }
        ensures stable { IfOk result (λ units. IsStable H.told H.moment H.left_since units.host) }

        // However it ends, the next opening finds the same, at each moment.
        ensures same { TellsOn (H.told host) (H.told (host_after result)) FindsSame }
        ensures any_moment { ForSome (H.told host) (KeepsOpening H.moment H.left_since host result) }

        // Where memory runs out, or there is nothing to do, nothing is written.
        ensures memory { IfErr result (λ returned. returned.error ≡ UnitError.Memory
            → IsUnwritten H.told H.moment H.left_since host returned.host) }
        ensures nothing_to_do { ForSome (H.told host) (λ c. HasNothingToDo c
            → IsUnwritten H.told H.moment H.left_since host (host_after result)) }

        ensures cause { IfErr result (λ returned. HasOpeningCause
            (H.told host) (H.failures host) (H.failures returned.host) returned.error) }
        ensures failures { NeverFell (H.failures host) (H.failures (host_after result)) }
        ensures untold { H.told host ≡ None → H.told (host_after result) ≡ None }
    {
        let Ok(room) = Room::new(alloc) else {
            return Err(Returned {
                host,
                error: UnitError::Memory,
            });
        };
        let mut host = host;
        match recover(alloc, &mut host) {
            Ok(header) => Ok(Units::fresh(alloc, host, header, room)),
            Err(error) => Err(Returned {
                host,
                error: UnitError::from(error),
            }),
        }
    }

    /// The units of a whole database that is stable.
    pub(crate) fn fresh(alloc: Global, host: H, header: Header, room: Room) -> Units<H>
        requires limits { IsWithinLimits header }
        requires whole { ForSome (H.told host) (HoldsWhole header) }
        requires stable { IsStable H.told H.moment H.left_since host }
        requires room { room.before ≡ [] }
        ensures fresh { AreFresh result }
        ensures host { result.host ≡ host }
        ensures header { result.header ≡ header }
        ensures image { ForSome (H.told host) (λ now. image_of result ≡ Some now.db) }
    {
        let length = header.file_length();
        let Room {
            before,
            zeros,
            scratch,
        } = room;
        Units {
            host,
            header,
            waiting: Waiting::new(alloc),
            before,
            epoch_length: length,
            extent: length,
            is_stopped: false,
            zeros,
            scratch,
        }
    }
}
