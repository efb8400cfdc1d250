ghost use Rattle.std.specs.Prelude.{◌≡◌, ◌^◌, ◌<◌, ◌≤◌, ◌∷◌, [], ℕ};
ghost use Rattle.std.specs.Prelude.{List, false, IfOk, IsFalse, OnOk, OnSome, Some, codes};
ghost use Rattle.std.specs.Option.{ForSome};
ghost use Rattle.host_model.specs.Told.{TellsOn};
ghost use Rattle.gds_lines.specs.declared.TheConstants.{INPUT_LIMIT};
ghost use Rattle.gds_lines.specs.Lines.{after_first_line, next_line};
ghost use Rattle.gds_run.specs.Ending.{EndsAnswering, EndsScript};
ghost use Rattle.gds_run.specs.Line.{MeansNext};
ghost use Rattle.gds_run.specs.Progress.{Asked, Ends, GoesThrough, Origin, Progress};
ghost use Rattle.gds_script.specs.Script.{script_of};

use crate::error::RunError;
use crate::line::{Line, read_line};
use crate::session::Session;
use gds_lines::Lines;
use gds_words::one_request;
use host_model::{Host, Source};
use std::alloc::Global;

/// Answers all lines of the input, and then, as a last line, an epoch; and cuts the file to the length of the database.
/// However it ends, the answers that are there are said.
pub(crate) fn answer_script<H: Host, I: Source>(
    alloc: Global,
    session: &mut Session<H>,
    lines: &mut Lines<I>,
) -> Result<(), RunError>
    requires going { session.old.base.stopped ≡ false }
    requires reading { IsFalse lines.old.refused }
    requires few { session.old.changes ≤ lines.old.passed }
    requires short { lines.old.passed ≤ INPUT_LIMIT }
    requires taken { lines.old.taken ≤ INPUT_LIMIT }
    ensures run { (o : Origin H) (text : List ℕ) → lines.old.left ≡ Some text → o.script ≡ script_of text
        → Progress H.told H.moment H.left_since o o.script session.old.base session.old.waiting.items
        session.old.changes
        → Ends H.told H.moment H.left_since o session.new.base.host result }
    ensures ends { EndsScript H.told H.failures session.old.base session.new.base lines.old lines.new result }
{
    let answered = answer_lines(alloc, session, lines);
    match answered {
        Ok(()) => finish(alloc, session),
        Err(RunError::SayFault) => Err(RunError::SayFault),
        Err(error) => {
            // The first error is the one that is told.
            let _said = session.say_waiting();
            Err(error)
        }
    }
}

/// Answers the lines of the input one after another.
fn answer_lines<H: Host, I: Source>(
    alloc: Global,
    session: &mut Session<H>,
    lines: &mut Lines<I>,
) -> Result<(), RunError>
    requires going { session.old.base.stopped ≡ false }
    requires reading { IsFalse lines.old.refused }
    requires few { session.old.changes ≤ lines.old.passed }
    requires short { lines.old.passed ≤ INPUT_LIMIT }
    requires taken { lines.old.taken ≤ INPUT_LIMIT }
    ensures run { (o : Origin H) (text : List ℕ) → lines.old.left ≡ Some text
        → Progress H.told H.moment H.left_since o (script_of text) session.old.base session.old.waiting.items
        session.old.changes
        → GoesThrough H.told H.moment H.left_since o (codes "EPOCH" ∷ []) session.new.base session.new.waiting.items
        session.new.changes result }
    ensures going { OnOk result (session.new.base.stopped ≡ false) }
    ensures few { OnOk result (session.new.changes < 2 ^ 63) }
    ensures ends { EndsScript H.told H.failures session.old.base session.new.base lines.old lines.new result }
{
    while let Some(line) = next_line(alloc, session, lines)? {
        session.answer(alloc, line)?;
    }
    Ok(())
}

/// The next line of the input. Answers don't wait while more of the input is waited for.
fn next_line<H: Host, I: Source>(
    alloc: Global,
    session: &mut Session<H>,
    lines: &mut Lines<I>,
) -> Result<Option<Line>, RunError>
    requires going { session.old.base.stopped ≡ false }
    requires reading { IsFalse lines.old.refused }
    requires short { lines.old.passed ≤ INPUT_LIMIT }
    requires taken { lines.old.taken ≤ INPUT_LIMIT }
    ensures line { IfOk result (λ line. ForSome lines.old.left (λ text. MeansNext (next_line text) line)) }
    ensures left { OnOk result (TellsOn lines.old.left lines.new.left (λ text rest. rest ≡ after_first_line text)) }
    ensures passed { IfOk result (λ line. OnSome line (lines.old.passed < lines.new.passed)) }
    ensures reading { OnOk result (IsFalse lines.new.refused) }
    ensures short { OnOk result (lines.new.passed ≤ INPUT_LIMIT) }
    ensures taken { OnOk result (lines.new.taken ≤ INPUT_LIMIT) }
    ensures changes { session.new.changes ≡ session.old.changes }
    ensures going { OnOk result (session.new.base.stopped ≡ false) }
    ensures run { (o : Origin H) (rest : List (List ℕ))
        → Progress H.told H.moment H.left_since o rest session.old.base session.old.waiting.items session.old.changes
        → Asked H.told H.moment H.left_since o rest session.new.base session.new.waiting.items session.new.changes
        result }
    ensures ends { EndsScript H.told H.failures session.old.base session.new.base lines.old lines.new result }
{
    if session.is_full() || !lines.has_line() {
        session.say_waiting()?;
    }
    read_line(alloc, lines)
}

/// The epoch behind the last line.
fn finish<H: Host>(alloc: Global, session: &mut Session<H>) -> Result<(), RunError>
    requires going { session.old.base.stopped ≡ false }
    requires few { session.old.changes < 2 ^ 63 }
    ensures run { (o : Origin H)
        → Progress H.told H.moment H.left_since o (codes "EPOCH" ∷ []) session.old.base session.old.waiting.items
        session.old.changes
        → Ends H.told H.moment H.left_since o session.new.base.host result }
    ensures ends { EndsAnswering H.told H.failures session.old.base session.new.base result }
{
    one_request();
    session.answer_epoch(alloc)?;
    session.say_waiting()?;
    session.base.shorten()?;
    session.base.hold_told();
    Ok(())
}
