ghost use Rattle.std.specs.Prelude.{List, ℕ};
ghost use Rattle.gds_script.specs.declared.answer.Answer.{Answer};
ghost use Rattle.gds_script.specs.Made.{AreTold};
ghost use Rattle.gds_script.specs.Script.{Runs, State};

/// The answers of a run tell of the changes that lead from the first map to the last: an `OK` for each, and for no line
/// else.
pub fn told_changes()
    ensures { (old new : State) (lines : List (List ℕ)) (answers : List Answer) → Runs old lines answers new
        → AreTold old new lines answers }
{
    gds_words::one_request();
}
