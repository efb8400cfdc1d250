ghost use Rattle.host_model.specs.Frames.{WasUsed};
ghost use Rattle.std.specs.Prelude.{Ok};
ghost use Rattle.gds_words.specs.declared.words.Command.TheVariants.{Extract};
ghost use Rattle.gds_cli.specs.Status.{HasCause, MayEnd};
ghost use Rattle.gds_cli.specs.Answer.{ExtractDue};
ghost use Rattle.gds_cli.specs.Saying.{OnlySays};

use crate::saying::{say, say_number};
use crate::status::Status;
use crate::thin::{self, Trouble};
use host_model::Host;
use std::alloc::Global;

/// Says the extract of thin files, and of others that they aren't built yet.
pub(crate) fn extract<H: Host>(alloc: Global, host: &mut H, stamp: &[u8]) -> Status
    ensures host { WasUsed H.told H.failures host.old host.new (λ before after.
        OnlySays (ExtractDue stamp.now before) result before after) }
    ensures status { MayEnd (Ok (Extract (record { items = stamp.now }))) result }
    ensures cause { HasCause result (H.failures host.old) (H.failures host.new) }
{
    match thin::extract(alloc, host, stamp) {
        Ok(true) => Status::Done,
        Ok(false) => say(host, "NOTBUILT\n", Status::NotBuilt),
        Err(Trouble::Memory) => Status::Memory,
        Err(Trouble::Read) => Status::ReadFault,
        Err(Trouble::Say) => Status::SayFault,
        Err(Trouble::Changed { unit }) => say_number(alloc, host, "CHANGED", unit, Status::Changed),
    }
}
