ghost use Rattle.std.specs.Prelude.{◌≡◌, ◌+◌, ◌^◌, ◌<◌, ◌≤◌, All, Err, None, OnErr, OnOk, length};
ghost use Rattle.std.specs.Option.{ForSome};
ghost use Rattle.host_model.specs.Failures.{NeverFell};
ghost use Rattle.host_model.specs.Frames.{WasRead};
ghost use Rattle.host_model.specs.Moments.{LeavesTheSame};
ghost use Rattle.host_model.specs.Told.{TellsOn};
ghost use Rattle.gds_header.specs.Kinds.{unreadable};
ghost use Rattle.gds_epoch.specs.Epoch.{IsKept};
ghost use Rattle.gds_epoch.specs.WaitingView.{unit_of, units_of};
ghost use Rattle.gds_units.specs.Durable.{KeepsOrStores, KeptAllOrStored};
ghost use Rattle.gds_units.specs.Ending.{EndsCommit, EndsReading};
ghost use Rattle.gds_units.specs.Keeping.{AddsTo, AreKept, AreOld, HasSize};
ghost use Rattle.gds_units.specs.Plan.{IsCarriedOut, IsPlan, header_after};
ghost use Rattle.gds_units.specs.State.{WhereTold};

use super::Units;
use crate::Plan;
use crate::buffer::Scratch;
use crate::error::UnitError;
use gds_epoch::{UnitBytes, Waiting, place_of};
use gds_header::Header;
use gds_images::Group;
use host_model::Host;

impl<H: Host> Units<H> {
    /// The image becomes the image with the plan's units. Nothing is durable before an epoch.
    ///
    /// All memory is taken before anything changes, and the old bytes of the plan's units are read before.
    pub fn commit(&mut self, plan: Plan) -> Result<(), UnitError>
        requires { IsPlan self.old.header self.old.extent (units_of plan.units.items) }
        ensures same { self.new ≡ record self.old {
          host = self.new.host;
          file = self.new.file;
          header = self.new.header;
          changed = self.new.changed;
          stopped = self.new.stopped;
        } }
        ensures header { OnOk result (self.new.header ≡ header_after self.old.header (units_of plan.units.items)) }
        ensures file { OnOk result (TellsOn self.old.file self.new.file
            (IsCarriedOut self.old.header (units_of plan.units.items))) }
        ensures changed { OnOk result (self.new.changed ≤ self.old.changed + length plan.units.items) }
        ensures err { OnErr result (self.new ≡ record self.old {
          host = self.new.host;
          stopped = self.new.stopped;
        }) }
        ensures kept { OnOk result (WhereTold H.told self.old
            (λ c image. KeptAllOrStored H.moment H.left_since image c.said self.old.host self.new.host)) }
        ensures any_moment { WhereTold H.told self.old
            (λ c image. KeepsOrStores H.moment H.left_since image c.said self.old.host self.new.host) }
        ensures said { TellsOn (H.told self.old.host) (H.told self.new.host) (λ c d. d.said ≡ c.said) }
        ensures untold { H.told self.old.host ≡ None → H.told self.new.host ≡ None }
        ensures ends { EndsCommit (H.failures self.old.host) (H.failures self.new.host) self.old self.new
            (H.told self.old.host) result }
        ensures failures { NeverFell (H.failures self.old.host) (H.failures self.new.host) }
    {
        if self.is_stopped {
            return Err(UnitError::Stopped);
        }
        let header = header_of(&plan.units, self.header);
        let Ok(()) = self.waiting.reserve(plan.units.len()) else {
            return Err(UnitError::Memory);
        };
        keep_plan(
            &mut self.host,
            &mut self.before,
            &mut self.scratch,
            &self.waiting,
            &plan.units,
            self.header.block_size,
            self.epoch_length,
        )?;
        self.waiting.drop_above(header.total);
        self.waiting.put_all_reserved(plan.units);
        self.header = header;
        Ok(())
    }
}

/// The header once a plan is carried out: the one in the plan, or the one of now.
fn header_of(plan: &[UnitBytes], header: Header) -> Header
    requires sizes { All (λ w. w.unit ≡ 0 → length w.bytes ≡ 8192) (units_of plan.now) }
    requires readable { All (λ w. w.unit ≡ 0 → unreadable w.bytes ≡ None) (units_of plan.now) }
    ensures { result ≡ header_after header (units_of plan.now) }
{
    for unit in plan {
        if unit.unit == 0 {
            match Header::read(&unit.bytes) {
                Ok(read) => return read,
                Err(_) => unreachable!(),
            }
        }
    }
    header
}

/// Keeps the old bytes of the plan's units as far as the last epoch's database has them. Those of units that wait are
/// kept already. Where that fails, the images are those of before.
fn keep_plan<H: Host>(
    host: &mut H,
    images: &mut Group,
    scratch: &mut Scratch,
    waiting: &Waiting,
    plan: &[UnitBytes],
    block_size: u32,
    epoch_length: u64,
) -> Result<(), UnitError>
    requires kept { AreKept block_size epoch_length images.old waiting.now.units }
    requires sizes { All (HasSize block_size) (units_of plan.now) }
    requires old { ForSome (H.told host.old) (AreOld epoch_length images.old) }
    ensures old { ForSome (H.told host.old) (AreOld epoch_length images.new) }
    ensures added { AddsTo images.old images.new }
    ensures kept { OnOk result (All (IsKept block_size epoch_length images.new) (units_of plan.now)) }
    ensures err { OnErr result (images.new ≡ images.old) }
    ensures read { WasRead H.told H.failures host.old host.new }
    ensures crash { LeavesTheSame H.moment H.left_since host.old host.new }
    ensures cause { EndsReading (H.told host.old) (H.failures host.old) (H.failures host.new) result }
{
    let count = images.count();
    let kept = keep_each(
        host,
        images,
        scratch,
        waiting,
        plan,
        block_size,
        epoch_length,
    );
    if kept.is_err() {
        images.truncate(count);
    }
    kept
}

/// The same, but for the images where it fails: some more may be there.
fn keep_each<H: Host>(
    host: &mut H,
    images: &mut Group,
    scratch: &mut Scratch,
    waiting: &Waiting,
    plan: &[UnitBytes],
    block_size: u32,
    epoch_length: u64,
) -> Result<(), UnitError>
    requires kept { AreKept block_size epoch_length images.old waiting.now.units }
    requires sizes { All (HasSize block_size) (units_of plan.now) }
    requires old { ForSome (H.told host.old) (AreOld epoch_length images.old) }
    ensures old { ForSome (H.told host.old) (AreOld epoch_length images.new) }
    ensures added { AddsTo images.old images.new }
    ensures kept { OnOk result (All (IsKept block_size epoch_length images.new) (units_of plan.now)) }
    ensures read { WasRead H.told H.failures host.old host.new }
    ensures crash { LeavesTheSame H.moment H.left_since host.old host.new }
    ensures cause { EndsReading (H.told host.old) (H.failures host.old) (H.failures host.new) result }
{
    for unit in plan {
        keep_one(
            host,
            images,
            scratch,
            waiting,
            unit,
            block_size,
            epoch_length,
        )?;
    }
    Ok(())
}

/// Keeps the old bytes of one unit, unless they are kept already or the last epoch's database ends before it.
fn keep_one<H: Host>(
    host: &mut H,
    images: &mut Group,
    scratch: &mut Scratch,
    waiting: &Waiting,
    unit: &UnitBytes,
    block_size: u32,
    epoch_length: u64,
) -> Result<(), UnitError>
    requires kept { AreKept block_size epoch_length images.old waiting.now.units }
    requires size { HasSize block_size (unit_of unit.now) }
    requires old { ForSome (H.told host.old) (AreOld epoch_length images.old) }
    ensures old { ForSome (H.told host.old) (AreOld epoch_length images.new) }
    ensures added { AddsTo images.old images.new }
    ensures kept { OnOk result (IsKept block_size epoch_length images.new (unit_of unit.now)) }
    ensures read { WasRead H.told H.failures host.old host.new }
    ensures crash { LeavesTheSame H.moment H.left_since host.old host.new }
    ensures cause { EndsReading (H.told host.old) (H.failures host.old) (H.failures host.new) result }
{
    let at = place_of(unit.unit, block_size);
    if at >= epoch_length {
        return Ok(());
    }
    if waiting.find(unit.unit).is_some() {
        return Ok(());
    }
    scratch.keep_unit(host, images, unit.unit, at, unit.bytes.len())
}
