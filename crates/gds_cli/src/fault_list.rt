ghost use Rattle.std.specs.Prelude.{◌≡◌, ◌⊎◌, IsErrOf, Ok};
ghost use Rattle.std.specs.Option.{ForSome};
ghost use Rattle.std.specs.String.{string_bytes};
ghost use Rattle.host_model.specs.Failures.{NeverFell, Rose};
ghost use Rattle.host_model.specs.Frames.{WasUsed};
ghost use Rattle.gds_sound.specs.Sound.{HasOneMap};
ghost use Rattle.gds_words.specs.declared.words.Command.TheVariants.{Integ};
ghost use Rattle.gds_cli.specs.Status.{HasCause, MayEnd};
ghost use Rattle.gds_cli.specs.Answer.{FaultsDue, list_reply, list_status};
ghost use Rattle.gds_cli.specs.Saying.{Answers, OnlySays};
ghost use Rattle.gds_cli.specs.Extract.{SaidOf, SaysOn};
ghost use Rattle.gds_cli.specs.FaultText.{fault_text};

use crate::fault_text::{write_count, write_fault};
use crate::saying::say_number;
use crate::status::Status;
use gds_law::{Fault, SinkTrouble};
use host_model::Host;
use integ::{ListSink, RawFile};
use integ_block::IntegError;
use std::alloc::Global;

/// How many bytes of lines stand together before they are said.
const PIECE: usize = 65_536;

/// Says all faults of the database file, and how many they are. Where the file couldn't be read it says no fault.
pub(crate) fn tell_faults<H: Host>(alloc: Global, host: H) -> (Status, H)
    ensures host { WasUsed H.told H.failures host result.1 (λ before after.
        OnlySays (FaultsDue before.db) result.0 before after) }
    ensures unread { result.0 ≡ Status.ReadFault → H.told result.1 ≡ H.told host }
    ensures one_map { result.0 ≡ Status.Done → ForSome (H.told host) (λ c. HasOneMap c.db) }
    ensures status { MayEnd (Ok Integ) result.0 }
    ensures cause { HasCause result.0 (H.failures host) (H.failures result.1) }
{
    let Ok(mut list) = ListSink::new(alloc) else {
        return (Status::Memory, host);
    };
    let mut units = RawFile::new(host);
    let found = integ::integ(alloc, &mut units, &mut list);
    let mut host = units.into_host();
    match found {
        Ok(_) => {
            let status = say_list(alloc, &mut host, list.faults());
            (status, host)
        }
        Err(IntegError::Memory) => (Status::Memory, host),
        Err(IntegError::ReadFault) => (Status::ReadFault, host),
        Err(IntegError::SayFault) => (Status::SayFault, host),
        Err(IntegError::Changed { unit }) => {
            let status = say_number(
                alloc,
                &mut host,
                "CHANGED",
                u64::from(unit),
                Status::Changed,
            );
            (status, host)
        }
    }
}

/// Says a list of faults. Its status is done where there is none.
fn say_list<H: Host>(alloc: Global, host: &mut H, faults: &[Fault]) -> Status
    ensures host { WasUsed H.told H.failures host.old host.new (Answers (list_reply faults.now) result) }
    ensures status { (result ≡ list_status faults.now) ⊎ ((result ≡ Status.Memory) ⊎ (result ≡ Status.SayFault)) }
    ensures cause { HasCause result (H.failures host.old) (H.failures host.new) }
{
    match say_faults(alloc, host, faults) {
        Ok(()) => status_of(faults),
        Err(SinkTrouble::Memory) => Status::Memory,
        Err(SinkTrouble::Failed) => Status::SayFault,
    }
}

/// The status of a whole list.
fn status_of(faults: &[Fault]) -> Status
    ensures { result ≡ list_status faults.now }
{
    if faults.is_empty() {
        Status::Done
    } else {
        Status::Unsound
    }
}

/// Says a line for each fault, many together, and then how many they are.
fn say_faults<H: Host>(alloc: Global, host: &mut H, faults: &[Fault]) -> Result<(), SinkTrouble>
    ensures said { ForSome (H.told host.old) (λ c. SaidOf c (fault_text faults.now) result (H.told host.new)) }
    ensures failures { NeverFell (H.failures host.old) (H.failures host.new) }
    ensures failed { IsErrOf result SinkTrouble.Failed → Rose (H.failures host.old).say (H.failures host.new).say }
{
    let mut text = String::new(alloc);
    for fault in faults {
        write_fault(fault, &mut text)?;
        say_piece(host, &mut text)?;
    }
    write_count(faults.len(), &mut text)?;
    say_text(host, text.as_bytes())
}

/// Says a text that has grown to a piece, and takes it away. A shorter one waits.
fn say_piece<H: Host>(host: &mut H, text: &mut String) -> Result<(), SinkTrouble>
    ensures said { ForSome (H.told host.old) (λ c.
        SaysOn c (string_bytes text.old) (string_bytes text.new) result (H.told host.new)) }
    ensures failures { NeverFell (H.failures host.old) (H.failures host.new) }
    ensures failed { IsErrOf result SinkTrouble.Failed → Rose (H.failures host.old).say (H.failures host.new).say }
{
    if text.len() < PIECE {
        return Ok(());
    }
    say_text(host, text.as_bytes())?;
    text.clear();
    Ok(())
}

fn say_text<H: Host>(host: &mut H, text: &[u8]) -> Result<(), SinkTrouble>
    ensures said { ForSome (H.told host.old) (λ c. SaidOf c text.now result (H.told host.new)) }
    ensures failures { NeverFell (H.failures host.old) (H.failures host.new) }
    ensures failed { IsErrOf result SinkTrouble.Failed → Rose (H.failures host.old).say (H.failures host.new).say }
{
    match host.say(text) {
        Ok(()) => Ok(()),
        Err(_) => Err(SinkTrouble::Failed),
    }
}
