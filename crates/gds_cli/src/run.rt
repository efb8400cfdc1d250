ghost use Rattle.std.specs.Prelude.{◌≡◌, ◌↔◌, ℕ, List, Ok, Some};
ghost use Rattle.std.specs.Option.{ForSome};
ghost use Rattle.host_model.specs.Failures.{NeverFell, Rose};
ghost use Rattle.host_model.specs.Frames.{WasUsed};
ghost use Rattle.host_model.specs.Told.{TellsOn};
ghost use Rattle.gds_lines.specs.LinesState.{IsAboveLimit, IsEnd};
ghost use Rattle.gds_words.specs.declared.words.Command.TheVariants.{Run};
ghost use Rattle.gds_cli.specs.Status.{HasCause, MayEnd};
ghost use Rattle.gds_cli.specs.Answer.{LeavesRun};
ghost use Rattle.gds_cli.specs.Run.{GivesStatus, IsSilent, LeavesSaying, RunEnds, SaysWhy};

use crate::saying::say_number;
use crate::status::Status;
use gds_run::{Ran, RunError};
use host_model::{Host, Source};
use std::alloc::Global;

/// Opens the database and answers the lines of the input. Where it can't be opened it says why.
pub(crate) fn run<H: Host, I: Source>(alloc: Global, host: H, input: I) -> (Status, H, I)
    ensures host { (text : List ℕ) → I.left input ≡ Some text
        → TellsOn (H.told host) (H.told result.1) (RunEnds text result.0) }
    ensures crash { (text : List ℕ) → I.left input ≡ Some text → ForSome (H.told host)
        (λ before. LeavesRun H.moment H.left_since text result.0 host result.1 before) }
    ensures status { MayEnd (Ok Run) result.0 }
    ensures cause { HasCause result.0 (H.failures host) (H.failures result.1) }
    ensures input_cause { result.0 ≡ Status.InputFault → Rose (I.failures input) (I.failures result.2) }
    ensures too_long { TellsOn (I.left input) (I.left result.2)
        (λ text rest. (result.0 ≡ Status.InputTooLong) ↔ IsAboveLimit text rest) }
    ensures rest { TellsOn (I.left input) (I.left result.2) IsEnd }
    ensures failures { NeverFell (H.failures host) (H.failures result.1) }
{
    let Ran {
        result,
        host,
        input,
    } = gds_run::run(alloc, host, input);
    let mut host = host;
    match result {
        Ok(()) => (Status::Done, host, input),
        Err(error) => {
            let status = say_why(alloc, &mut host, error);
            (status, host, input)
        }
    }
}

/// Says what is wrong with the files, where that is why a run ended. Answers the status of the error.
fn say_why<H: Host>(alloc: Global, host: &mut H, error: RunError) -> Status
    ensures host { WasUsed H.told H.failures host.old host.new (SaysWhy error result) }
    ensures silent { IsSilent error → host.new ≡ host.old }
    ensures crash { LeavesSaying H.moment H.left_since error host.old host.new }
    ensures status { GivesStatus error result (H.failures host.old) (H.failures host.new) }
{
    match error {
        RunError::Memory => Status::Memory,
        RunError::ReadFault => Status::ReadFault,
        RunError::WriteFault => Status::WriteFault,
        RunError::SayFault => Status::SayFault,
        RunError::InputFault => Status::InputFault,
        RunError::InputTooLong => Status::InputTooLong,
        RunError::BadImages { at } => say_number(alloc, host, "BADIMAGES", at, Status::BadImages),
        RunError::Unsound { faults } => say_number(alloc, host, "UNSOUND", faults, Status::Unsound),
        RunError::Changed { unit } => say_number(
            alloc,
            host,
            "CHANGED",
            u64::from(unit),
            Status::Changed,
        ),
    }
}
