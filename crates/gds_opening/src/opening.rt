ghost use Rattle.std.specs.Prelude.{◌≡◌, [], None, IfErr, IfOk, IsSome};
ghost use Rattle.std.specs.Option.{ForSome};
ghost use Rattle.host_model.specs.Failures.{NeverFell};
ghost use Rattle.host_model.specs.Told.{TellsOn};
ghost use Rattle.gds_images.specs.Recovered.{recovered};
ghost use Rattle.gds_law.specs.Faults.{AreFaults};
ghost use Rattle.gds_recovery.specs.Found.{FindsSame, HasNothingToDo, IsUnwritten};
ghost use Rattle.gds_sound.specs.Sound.{HasOneMap};
ghost use Rattle.gds_units.specs.Opening.{AreFresh, IsStable, KeepsOpening, host_after};
ghost use Rattle.gds_units.specs.State.{image_of};
ghost use Rattle.gds_units.specs.declared.error.UnitError.TheVariants.{Memory};
ghost use Rattle.gds_opening.specs.Opening.{HasCause, IsUnwrittenOrStable};

use crate::integrity::without_faults;
use gds_base::Base;
use gds_units::{Returned, Units};
use host_model::Host;
use std::alloc::Global;

/// Opens a database and finds it without faults: whatever a stop has left of its two files, they become what an opening
/// finds of them, and INTEG finds nothing wrong with the image.
///
/// A stop on the way, or an error, leaves files of which the next opening finds the same. Where no file has to be
/// changed, nothing is written.
///
/// # Errors
///
/// `Unsound` says how many faults the recovered database has, which is one where a fault ends the reading of its
/// header. `Memory` comes before anything is written, or once both files are what is recovered of them. `BadImages`
/// says where the file of images is damaged. After `WriteFault` the files want to be opened again. The host is handed
/// back.
pub fn open<H: Host>(alloc: Global, host: H) -> Result<Base<H>, Returned<H>>
    // What is opened.
    ensures fresh { IfOk result AreFresh }
    ensures image { IfOk result (λ base. ForSome (H.told host) (λ c. image_of base ≡ recovered c.db c.images)) }
    ensures there { IfOk result (λ base. ForSome (H.told host) (λ _. IsSome (image_of base))) }
    ensures no_fault { IfOk result (λ base. ForSome (image_of base) (λ image. AreFaults image [])) }
    ensures one_map { IfOk result (λ base. ForSome (image_of base) HasOneMap) }
    ensures stable { IfOk result (λ base. IsStable H.told H.moment H.left_since base.host) }

    // However it ends, the next opening finds the same, at each moment.
    ensures same { TellsOn (H.told host) (H.told (host_after result)) FindsSame }
    ensures any_moment { ForSome (H.told host) (KeepsOpening H.moment H.left_since host result) }

    // Where there is nothing to do, nothing is written; where memory runs out, nothing or all that is due.
    ensures nothing_to_do { ForSome (H.told host) (λ c. HasNothingToDo c
        → IsUnwritten H.told H.moment H.left_since host (host_after result)) }
    ensures memory { IfErr result (λ returned. returned.error ≡ Memory
        → IsUnwrittenOrStable H.told H.moment H.left_since host returned.host) }

    ensures cause { IfErr result (λ returned. HasCause
        (H.told host) (H.failures host) (H.failures returned.host) returned.error) }
    ensures failures { NeverFell (H.failures host) (H.failures (host_after result)) }
    ensures untold { H.told host ≡ None → H.told (host_after result) ≡ None }
{
    let units = Units::open(alloc, host)?;
    units.hold_told();
    without_faults(alloc, units)
}
