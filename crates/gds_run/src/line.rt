ghost use Rattle.std.specs.Prelude.{◌≡◌, ◌<◌, ◌≤◌, ℕ, List, false, IfErr, IfOk, IsFalse, OnErr, OnOk, OnSome};
ghost use Rattle.std.specs.Option.{ForSome};
ghost use Rattle.host_model.specs.Failures.{Rose};
ghost use Rattle.host_model.specs.Told.{TellsOn};
ghost use Rattle.gds_lines.specs.Lines.{after_first_line, next_line};
ghost use Rattle.gds_lines.specs.LinesState.{Counts};
ghost use Rattle.gds_words.specs.Script.{Asks, request_of};
ghost use Rattle.gds_run.specs.Line.{IsAfterLine, Means, MeansNext};

use crate::change::Change;
use crate::error::RunError;
use crate::question::Question;
use gds_lines::Lines;
use gds_words::{ScriptLine, read_script};
use host_model::Source;
use std::alloc::Global;

/// A line of the input, as it was read.
#[derive(Debug, Drop)]
pub(crate) enum Line {
    /// It asks for a change.
    Changes(Change),
    /// It asks what is there.
    Asks(Question),
    /// It asks that all changes so far become durable.
    Epoch,
    /// It is outside the grammar.
    Bad,
}

/// Reads the next line of the input, or finds that there is none.
pub(crate) fn read_line<I: Source>(
    alloc: Global,
    lines: &mut Lines<I>,
) -> Result<Option<Line>, RunError>
    requires { IsFalse lines.old.refused }
    ensures line { IfOk result (λ line. ForSome lines.old.left (λ text. MeansNext (next_line text) line)) }
    ensures after { IsAfterLine lines.old lines.new result }
{
    let Some(line) = lines.line()? else {
        return Ok(None);
    };
    match read_script(alloc, line)? {
        Some(asked) => Ok(Some(line_of(asked))),
        None => Ok(Some(Line::Bad)),
    }
}

/// The line that asks for this.
fn line_of(asked: ScriptLine) -> Line
    ensures { (bytes : List ℕ) → Asks bytes (request_of asked) → Means bytes result }
{
    match asked {
        ScriptLine::Set { reference, value } => Line::Changes(Change::Set { reference, value }),
        ScriptLine::Kill { reference } => Line::Changes(Change::Kill { reference }),
        ScriptLine::Get { reference } => Line::Asks(Question::Value { reference }),
        ScriptLine::Order { reference, first } => Line::Asks(Question::Next { reference, first }),
        ScriptLine::DataOf { reference } => Line::Asks(Question::Data { reference }),
        ScriptLine::Query { reference } => Line::Asks(Question::Node { reference }),
        ScriptLine::Epoch => Line::Epoch,
    }
}
