ghost use Rattle.std.specs.Prelude.{◌≡◌, [], Some, OnErr, OnOk};
ghost use Rattle.std.specs.Option.{ForSome};
ghost use Rattle.host_model.specs.Disk.{Changes, Settles};
ghost use Rattle.host_model.specs.Failures.{Rose};
ghost use Rattle.host_model.specs.Files.{with_file};
ghost use Rattle.gds_recovery.specs.Steps.{WasChangedBy};
ghost use Rattle.gds_create.specs.Making.{AnyBytes};
ghost use Rattle.gds_create.specs.Newborn.{closed_images};

use host_model::{FileNo, Host, HostFailed, store};

const LABEL: [u8; 8] = *b"GDSBIMG1";

/// The label and gate 0.
const LENGTH: usize = LABEL.len() + 1;

/// Makes an empty file of images one with a closed gate: zeros first, and then the label over them, so that the gate's
/// byte is there before the label is.
pub(crate) fn make_images<H: Host>(host: &mut H) -> Result<(), HostFailed>
    requires { ForSome (H.told host.old) (λ c. c.images ≡ []) }
    ensures changed { WasChangedBy H.told H.moment H.failures H.left_since
        (Changes FileNo.Images AnyBytes) host.old host.new }
    ensures written { OnOk result (ForSome (H.told host.old) (λ c.
        H.told host.new ≡ Some (with_file FileNo.Images closed_images c))) }
    ensures settled { OnOk result (ForSome (H.told host.old) (λ _.
        Settles FileNo.Images closed_images (H.left_since host.new (H.moment host.new)))) }
    ensures failed { OnErr result (Rose (H.failures host.old).write (H.failures host.new).write) }
{
    store(host, FileNo::Images, 0, &[0; LENGTH])?;
    store(host, FileNo::Images, 0, &LABEL)
}
