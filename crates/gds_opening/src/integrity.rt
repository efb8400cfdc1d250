ghost use Rattle.std.specs.Prelude.{◌≡◌, ◌<◌, [], All, Ok, IfErr, IfOk};
ghost use Rattle.std.specs.Option.{ForSome};
ghost use Rattle.host_model.specs.Frames.{WasRead};
ghost use Rattle.host_model.specs.Moments.{LeavesTheSame};
ghost use Rattle.gds_law.specs.Faults.{AreFaults};
ghost use Rattle.gds_sound.specs.Sound.{HasOneMap};
ghost use Rattle.gds_units.specs.Opening.{host_after};
ghost use Rattle.gds_units.specs.Reading.{OnlyRead};
ghost use Rattle.gds_units.specs.State.{image_of};
ghost use Rattle.gds_opening.specs.Opening.{HasFaults, HasReadingCause};

use gds_base::Base;
use gds_units::{Returned, UnitError, Units};
use host_model::{Host, UnitSource, UnitTrouble};
use integ::{CountSink, integ};
use integ_block::IntegError;
use std::alloc::Global;

/// The base of open units in which INTEG finds no fault.
pub(crate) fn without_faults<H: Host>(
    alloc: Global,
    units: Units<H>,
) -> Result<Base<H>, Returned<H>>
    ensures base { IfOk result (λ base. base ≡ record units { host = base.host }) }
    ensures no_fault { IfOk result (λ base. ForSome (image_of units) (λ image. AreFaults image [])) }
    ensures one_map { IfOk result (λ base. ForSome (image_of units) HasOneMap) }
    ensures read { WasRead H.told H.failures units.host (host_after result) }
    ensures crash { LeavesTheSame H.moment H.left_since units.host (host_after result) }
    ensures cause { IfErr result (λ returned. HasReadingCause
        (image_of units) (H.failures units.host) (H.failures returned.host) returned.error) }
{
    let mut units = units;
    match count_faults(alloc, &mut units) {
        Ok(0) => adopt(alloc, units),
        Ok(faults) => Err(hand_back(units, UnitError::Unsound { faults })),
        Err(error) => Err(hand_back(units, error)),
    }
}

/// The base of units without any fault, whose image is made of bytes.
fn adopt<H: Host>(alloc: Global, units: Units<H>) -> Result<Base<H>, Returned<H>>
    requires no_fault { ForSome (image_of units) (λ image. AreFaults image []) }
    requires bytes { ForSome (image_of units) (All (λ b. b < 256)) }
    ensures base { IfOk result (λ base. base ≡ units) }
    ensures err { IfErr result (λ returned. returned ≡ record { host = units.host; error = UnitError.Memory }) }
{
    match Base::adopt(alloc, units) {
        Ok(base) => Ok(base),
        Err(units) => Err(hand_back(units, UnitError::Memory)),
    }
}

/// The host of units, with the error for which it is handed back.
fn hand_back<H: Host>(units: Units<H>, error: UnitError) -> Returned<H>
    ensures { result ≡ record { host = units.host; error = error } }
{
    Returned {
        host: units.into_host(),
        error,
    }
}

/// How many faults INTEG finds in the image, which is made of bytes.
fn count_faults<H: Host>(alloc: Global, units: &mut Units<H>) -> Result<u64, UnitError>
    ensures count { IfOk result (λ n. ForSome (image_of units.old) (HasFaults n)) }
    ensures one_map { result ≡ Ok 0 → ForSome (image_of units.old) HasOneMap }
    ensures bytes { ForSome (image_of units.old) (All (λ b. b < 256)) }
    ensures read { OnlyRead H.told H.moment H.failures H.left_since units.old units.new }
    ensures cause { IfErr result (λ error. HasReadingCause
        (image_of units.old) (H.failures units.old.host) (H.failures units.new.host) error) }
{
    hold_bytes(units)?;
    match integ(alloc, units, &mut CountSink::new()) {
        Ok(faults) => Ok(faults),
        // A sink that counts never fails.
        Err(IntegError::Memory | IntegError::SayFault) => Err(UnitError::Memory),
        Err(IntegError::ReadFault) => Err(UnitError::ReadFault),
        Err(IntegError::Changed { unit }) => Err(UnitError::Changed { unit }),
    }
}

/// That what is told of the image are bytes, as its host says with a file's length.
fn hold_bytes<H: Host>(units: &mut Units<H>) -> Result<(), UnitError>
    ensures bytes { ForSome (image_of units.old) (All (λ b. b < 256)) }
    ensures read { OnlyRead H.told H.moment H.failures H.left_since units.old units.new }
    ensures cause { IfErr result (λ error. HasReadingCause
        (image_of units.old) (H.failures units.old.host) (H.failures units.new.host) error) }
{
    match units.length() {
        Ok(_) => Ok(()),
        Err(UnitTrouble::Memory) => Err(UnitError::Memory),
        Err(UnitTrouble::Failed) => Err(UnitError::ReadFault),
        Err(UnitTrouble::Changed { unit }) => Err(UnitError::Changed { unit }),
    }
}
