ghost use Rattle.std.specs.Prelude.{◌≡◌, [], ℕ, IfErr, List, false, OnErr, OnOk, Some};
ghost use Rattle.std.specs.Option.{ForSome};
ghost use Rattle.host_model.specs.Told.{TellsOn};
ghost use Rattle.gds_script.specs.Script.{script_of};
ghost use Rattle.gds_recovery.specs.Found.{FindsSame};
ghost use Rattle.gds_run.specs.Ending.{EndsRun, IsRefusal, RunEndsEarly};
ghost use Rattle.gds_run.specs.Progress.{Ends, Origin, Progress};
ghost use Rattle.gds_run.specs.Run.{Breaks, FindsNoMap, IsRun, LeavesAlone, LeavesPrefixes};

use crate::error::RunError;
use crate::lines::answer_script;
use crate::session::Session;
use gds_base::Base;
use gds_lines::{Lines, taken_bytes_are_the_given};
use gds_opening::open;
use host_model::{Host, Source};
use std::alloc::Global;

/// How a run ended, with what it was given.
#[derive(Drop)]
pub struct Ran<H: Host, I: Source> {
    /// Why it ended before its last line, if it did.
    pub result: Result<(), RunError>,
    pub host: H,
    /// The source. Bytes that were taken from it and not read as lines are lost.
    pub input: I,
}

/// Opens a database and answers the lines of the input, each by one line.
pub fn run<H: Host, I: Source>(alloc: Global, host: H, input: I) -> Ran<H, I>
    // Over a host and a source that tell.
    ensures whole { OnOk result.result (ForSome (I.left input) (λ text.
        TellsOn (H.told host) (H.told result.host) (IsRun text))) }
    ensures broken { OnErr result.result (ForSome (I.left input) (λ text.
        TellsOn (H.told host) (H.told result.host) (Breaks text))) }
    ensures refused { IfErr result.result (λ error. IsRefusal error
        → TellsOn (H.told host) (H.told result.host) FindsSame) }
    ensures crash { ForSome (I.left input) (λ text. ForSome (H.told host) (λ c.
        LeavesPrefixes H.moment H.left_since (RunEndsEarly result.result) text c host result.host)) }
    // Files that can't be opened are left alone, however it ends, and stay as they are where nothing is recovered.
    ensures unopened { ForSome (H.told host) (λ c. FindsNoMap c
        → LeavesAlone H.moment H.left_since H.told (RunEndsEarly result.result) host result.host c) }

    // Over any host and source.
    ensures ends { EndsRun H.told H.failures host result.host (I.left input) (I.left result.input)
        (I.failures input) (I.failures result.input) result.result }
{
    match open(alloc, host) {
        Ok(base) => run_open(alloc, base, input),
        Err(returned) => Ran {
            result: Err(returned.error.into()),
            host: returned.host,
            input,
        },
    }
}

/// The same on an open database.
fn run_open<H: Host, I: Source>(alloc: Global, base: Base<H>, input: I) -> Ran<H, I>
    requires going { base.stopped ≡ false }
    ensures run { (o : Origin H) (text : List ℕ) → I.left input ≡ Some text → o.script ≡ script_of text
        → Progress H.told H.moment H.left_since o o.script base [] 0
        → Ends H.told H.moment H.left_since o result.host result.result }
    ensures opened { IfErr result.result (λ error. IsRefusal error → ⊥) }
    ensures ends { EndsRun H.told H.failures base.host result.host (I.left input) (I.left result.input)
        (I.failures input) (I.failures result.input) result.result }
{
    taken_bytes_are_the_given();
    let mut session = Session::new(alloc, base);
    let mut lines = Lines::new(alloc, input);
    let result = answer_script(alloc, &mut session, &mut lines);
    let Session { base, .. } = session;
    Ran {
        result,
        host: base.into_units().into_host(),
        input: lines.into_source(),
    }
}
