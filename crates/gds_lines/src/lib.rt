//! The lines of an input that comes in pieces.
//!
//! A line ends at byte 10, and one byte 13 right before that byte is dropped. A last line without byte 10 is a
//! line unless it is empty, and keeps a byte 13 at its end.
#![tactic(auto)]

ghost use Rattle.std.specs.Prelude.{◌≡◌, ◌↔◌, ◌<◌, List, ℕ, map, Some};
ghost use Rattle.std.specs.Str.Lines.{lines};
ghost use Rattle.gds_lines.specs.Lines.{AnswersInTurn, given};
ghost use Rattle.gds_lines.specs.LinesState.{Counts, IsAboveLimit, LinesState, Reads};
ghost use Rattle.host_model.specs.Told.{TellsOn};

mod ahead;
mod error;
mod finding;
mod reader;
mod scan;

pub use error::LinesError;
pub use reader::Lines;

/// The most bytes of a line that is given whole, its line end not counted. Of a longer line one byte more is given.
pub const LINE_LIMIT: usize = 1_048_576;

/// The most bytes of an input. Once more were taken from a source, its lines are refused.
pub const INPUT_LIMIT: u64 = 1 << 40;

/// Whoever asks for one line after another until there is none has each line of the text, as it is given, and in
/// its order, in whatever pieces the text came.
pub fn answers_are_the_lines()
    ensures { (text : List ℕ) (answers : List (List ℕ)) → AnswersInTurn text answers
        → answers ≡ map given (lines text) }
{}

/// Of an input that its source tells, a reader took as many bytes as the source gave of it, after each call for a line
/// as before the first; and these are more than [`INPUT_LIMIT`], where it is refused, exactly where the source gave
/// more.
pub fn taken_bytes_are_the_given()
    ensures start { (input : List ℕ) (lines : LinesState) → lines.untaken ≡ Some input → lines.taken ≡ 0
        → Reads input lines }
    ensures onward { (input : List ℕ) (old new : LinesState) → Reads input old
        → TellsOn old.untaken new.untaken (Counts old.taken new.taken) → Reads input new }
    ensures refused { (input rest : List ℕ) (lines : LinesState) → Reads input lines → lines.untaken ≡ Some rest
        → (INPUT_LIMIT < lines.taken) ↔ IsAboveLimit input rest }
{}
