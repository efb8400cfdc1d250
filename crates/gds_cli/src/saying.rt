ghost use Rattle.std.specs.Prelude.{◌≡◌, ◌≢◌, ◌⊎◌, ◌++◌, codes, false};
ghost use Rattle.std.specs.Fmt.{decimal};
ghost use Rattle.host_model.specs.Disk.{SaysSome};
ghost use Rattle.host_model.specs.Failures.{Rose, counted};
ghost use Rattle.host_model.specs.Frames.{WasUsed};
ghost use Rattle.host_model.specs.Moments.{LeavesBy};
ghost use Rattle.gds_cli.specs.Answer.{Reply, line};
ghost use Rattle.gds_cli.specs.Saying.{Answers};
ghost use Rattle.gds_cli.specs.Status.{is_break};

use crate::status::Status;
use host_model::Host;
use std::alloc::Global;

/// Says an answer. Its status is that of the call, unless the device fails.
pub(crate) fn say<H: Host>(host: &mut H, text: &str, status: Status) -> Status
    requires { is_break status ≡ false }
    ensures host { WasUsed H.told H.failures host.old host.new
        (Answers (record { text = text.now; status = status }) result) }
    ensures any_moment { LeavesBy H.moment H.left_since (SaysSome text.now) host.old host.new }
    ensures status { (result ≡ status) ⊎ (result ≡ Status.SayFault) }
    ensures fault { result ≡ Status.SayFault → Rose (H.failures host.old).say (H.failures host.new).say }
    ensures clock { H.moment host.new ≡ counted (H.moment host.old) }
{
    match host.say(text.as_bytes()) {
        Ok(()) => status,
        Err(_) => Status::SayFault,
    }
}

/// Says a word and a number as an answer. Its status is that of the call, unless the device fails or memory runs out.
pub(crate) fn say_number<H: Host>(
    alloc: Global,
    host: &mut H,
    word: &str,
    number: u64,
    status: Status,
) -> Status
    requires { is_break status ≡ false }
    ensures host { WasUsed H.told H.failures host.old host.new
        (Answers (record { text = line (word.now ++ codes " " ++ decimal number); status = status }) result) }
    ensures any_moment { LeavesBy H.moment H.left_since (SaysSome (line (word.now ++ codes " " ++ decimal number)))
        host.old host.new }
    ensures status { (result ≡ status) ⊎ ((result ≡ Status.Memory) ⊎ (result ≡ Status.SayFault)) }
    ensures fault { result ≡ Status.SayFault → Rose (H.failures host.old).say (H.failures host.new).say }
    ensures clock { result ≢ Status.Memory → H.moment host.new ≡ counted (H.moment host.old) }
{
    match format!(in alloc; "{word} {number}\n") {
        Ok(text) => say(host, text.as_str(), status),
        Err(_) => Status::Memory,
    }
}
