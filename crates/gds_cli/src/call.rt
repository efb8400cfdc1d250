ghost use Rattle.std.specs.Prelude.{◌≡◌, ◌≢◌, ◌⊎◌, ◌↔◌, ◌≤◌, ℕ, List, IfOk, length};
ghost use Rattle.std.specs.Option.{ForSome};
ghost use Rattle.host_model.specs.Failures.{NeverFell, NoneRose, Rose, counted};
ghost use Rattle.host_model.specs.Told.{TellsOn};
ghost use Rattle.gds_lines.specs.LinesState.{IsAboveLimit, IsEnd};
ghost use Rattle.gds_lines.specs.declared.TheConstants.{INPUT_LIMIT};
ghost use Rattle.gds_sound.specs.Sound.{HasOneMap};
ghost use Rattle.gds_words.specs.Words.{MakesHeader, command_in};
ghost use Rattle.gds_cli.specs.Status.{HasCause, MayEnd, TouchesNoFile};
ghost use Rattle.gds_cli.specs.Answer.{Due, Ends, IsGiven, Leaves, Replies};

use crate::create::{create, header_with};
use crate::extract::extract;
use crate::fault_list::tell_faults;
use crate::run::run;
use crate::saying::{say, say_number};
use crate::status::Status;
use gds_words::{BadWords, Command, read_words};
use host_model::{Host, Source};
use std::alloc::Global;

/// How a call ended, with what it was given.
#[derive(Drop)]
pub struct Ended<H: Host, I: Source> {
    pub status: Status,
    pub host: H,
    /// The input. Of a RUN bytes may have been taken from it that no line was read of.
    pub input: I,
}

/// Does what the words ask for on the host's files, says the answer, and hands host and input back.
pub fn gds<H: Host, I: Source>(alloc: Global, words: &[String], host: H, input: I) -> Ended<H, I>
    // Over a host that tells: the reply that is due is said and the files hold what is due, or the call broke off.
    ensures host { (text : List ℕ) → IsGiven (command_in words.now) (I.left input) text
        → TellsOn (H.told host) (H.told result.host) (Ends (command_in words.now) text result.status) }
    // Where neither the device nor the input failed, and that isn't too long, the whole reply is said, or memory ran
    // out.
    ensures complete { NoneRose (H.failures host) (H.failures result.host)
        → (Rose (I.failures input) (I.failures result.input) → ⊥)
        → (text : List ℕ) → IsGiven (command_in words.now) (I.left input) text → length text ≤ INPUT_LIMIT
        → TellsOn (H.told host) (H.told result.host) (λ before after. (result.status ≡ Status.Memory)
        ⊎ Replies (Due (command_in words.now) text before) result.status before after) }
    // What a crash at any moment of it leaves.
    ensures crash { (text : List ℕ) → IsGiven (command_in words.now) (I.left input) text → ForSome (H.told host)
        (λ before. Leaves H.moment H.left_since (command_in words.now) text result.status host result.host before) }
    // Where INTEG finds no fault the database file stands for exactly one map of globals.
    ensures one_map { command_in words.now ≡ Ok Command.Integ → result.status ≡ Status.Done
        → ForSome (H.told host) (λ c. HasOneMap c.db) }
    // An INTEG that can't read the file says nothing.
    ensures unread { command_in words.now ≡ Ok Command.Integ → result.status ≡ Status.ReadFault
        → H.told result.host ≡ H.told host }

    // Over any host and input.
    ensures status { MayEnd (command_in words.now) result.status }
    ensures cause { HasCause result.status (H.failures host) (H.failures result.host) }
    ensures failures { NeverFell (H.failures host) (H.failures result.host) }
    ensures input_cause { result.status ≡ Status.InputFault → Rose (I.failures input) (I.failures result.input) }
    // More of the input was taken than its limit exactly where the status says so.
    ensures too_long { TellsOn (I.left input) (I.left result.input)
        (λ text rest. (result.status ≡ Status.InputTooLong) ↔ IsAboveLimit text rest) }
    // RUN alone takes input.
    ensures input { command_in words.now ≢ Ok Command.Run → result.input ≡ input }
    ensures rest { TellsOn (I.left input) (I.left result.input) IsEnd }
    // A call that touches no file asks the host for its saying alone.
    ensures one_call { TouchesNoFile (command_in words.now) → result.status ≢ Status.Memory
        → H.moment result.host ≡ counted (H.moment host) }
{
    let (status, host, input) = answer(alloc, read_words(words), host, input);
    Ended {
        status,
        host,
        input,
    }
}

/// Does what a command asks for, and says the answer.
fn answer<H: Host, I: Source>(
    alloc: Global,
    command: Result<Command, BadWords>,
    host: H,
    input: I,
) -> (Status, H, I)
    requires { IfOk command MakesHeader }
    ensures host { (text : List ℕ) → IsGiven command (I.left input) text
        → TellsOn (H.told host) (H.told result.1) (Ends command text result.0) }
    ensures crash { (text : List ℕ) → IsGiven command (I.left input) text → ForSome (H.told host)
        (λ before. Leaves H.moment H.left_since command text result.0 host result.1 before) }
    ensures one_map { command ≡ Ok Command.Integ → result.0 ≡ Status.Done
        → ForSome (H.told host) (λ c. HasOneMap c.db) }
    ensures unread { command ≡ Ok Command.Integ → result.0 ≡ Status.ReadFault
        → H.told result.1 ≡ H.told host }
    ensures status { MayEnd command result.0 }
    ensures cause { HasCause result.0 (H.failures host) (H.failures result.1) }
    ensures failures { NeverFell (H.failures host) (H.failures result.1) }
    ensures input_cause { result.0 ≡ Status.InputFault → Rose (I.failures input) (I.failures result.2) }
    ensures too_long { TellsOn (I.left input) (I.left result.2)
        (λ text rest. (result.0 ≡ Status.InputTooLong) ↔ IsAboveLimit text rest) }
    ensures input { command ≢ Ok Command.Run → result.2 ≡ input }
    ensures rest { TellsOn (I.left input) (I.left result.2) IsEnd }
    ensures one_call { TouchesNoFile command → result.0 ≢ Status.Memory
        → H.moment result.1 ≡ counted (H.moment host) }
{
    let mut host = host;
    match command {
        Ok(Command::Run) => run(alloc, host, input),
        Ok(Command::Version) => {
            let status = say(&mut host, "GDSPROF1\n", Status::Done);
            (status, host, input)
        }
        Ok(Command::Integ) => {
            let (status, host) = tell_faults(alloc, host);
            (status, host, input)
        }
        Ok(Command::Extract { stamp }) => {
            let status = extract(alloc, &mut host, &stamp);
            (status, host, input)
        }
        Ok(
            Command::Create {
                block,
                key,
                value,
                alloc: total,
                ext,
                limit,
            },
        ) => {
            let header = header_with(block, key, value, total, ext, limit);
            let status = create(alloc, &mut host, &header);
            (status, host, input)
        }
        Err(BadWords { place }) => {
            let status = say_number(alloc, &mut host, "BADWORDS", place as u64, Status::BadWords);
            (status, host, input)
        }
    }
}
