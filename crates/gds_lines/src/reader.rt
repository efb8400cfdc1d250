ghost use Rattle.std.specs.Prelude.{◌≡◌, ◌-◌, nat_lt, false, IfOk, IfSome, IsFalse};
ghost use Rattle.std.specs.Option.{option_copied};
ghost use Rattle.std.specs.Borrow.{sem};
ghost use Rattle.std.specs.Io.BufRead.{Rests};
ghost use Rattle.host_model.specs.Told.{TellsOn};
ghost use Rattle.gds_lines.specs.Lines.{line_len, next_line};
ghost use Rattle.gds_lines.specs.LinesState.{IsEnd, LineTaken};

use crate::LinesError;
use crate::ahead::Ahead;
use crate::finding::find_line;
use crate::scan::line_end;
use host_model::Source;
use std::alloc::Global;
use std::marker::Model;

/// A reader of the lines of a source.
#[derive(Drop)]
pub struct Lines<I: Source> {
    source: I,
    ahead: Ahead,
    taken: u64,
    refused: bool,
}

impl<I: Source> Model for Lines<I> {
    ghost use Rattle.std.specs.Prelude.{◌-◌, ◌≤◌, length, IsFalse};
    ghost use Rattle.gds_lines.specs.declared.TheConstants.{INPUT_LIMIT};
    ghost use Rattle.gds_lines.specs.LinesState.{LinesState};

    ghost Value = { LinesState };

    ghost use Rattle.gds_lines.specs.Ahead.{held, text_left};

    ghost view = { λ l. record {
      left = text_left l.ahead (I.left l.source);
      untaken = I.left l.source;
      passed = l.taken - length (held l.ahead);
      taken = l.taken;
      refused = l.refused;
      failures = I.failures l.source;
    } };

    ghost invariant = { λ l. (length (held l.ahead) ≤ l.taken)
        × (IsFalse l.refused → l.taken ≤ INPUT_LIMIT) };
}

impl<I: Source> Lines<I> {
    ghost use Rattle.gds_lines.specs.contracts.reader.Lines.{the_row};

    /// A reader of the lines of what the source has left.
    pub fn new(alloc: Global, source: I) -> Lines<I>
        ensures { result ≡ record {
          left = I.left source;
          untaken = I.left source;
          passed = 0;
          taken = 0;
          refused = false;
          failures = I.failures source;
        } }
    {
        Lines {
            source,
            ahead: Ahead::new(alloc),
            taken: 0,
            refused: false,
        }
    }

    /// The next line of the text without its line end, or None at the end of the text. A line of more than
    /// [`LINE_LIMIT`](crate::LINE_LIMIT) bytes is given as its first bytes, one more than the limit.
    ///
    /// Where the source tells its bytes, [`LinesError::InputTooLong`] comes exactly where it gave more than
    /// [`INPUT_LIMIT`](crate::INPUT_LIMIT) of them. After an error no further line may be asked for.
    #[tactic(auto, using(crate::proofs::CountLemmas::counts_ahead))]
    pub fn line(&mut self) -> Result<Option<&[u8]>, LinesError>
        requires { IsFalse self.old.refused }
        // Where the source tells its bytes, it is the first line of what was left.
        ensures line { IfOk result
            (λ line. IfSome self.old.left (λ text. option_copied line ≡ next_line text)) }
        ensures* after { sem 𝓛 (Rests (the_row I.row I.Source) self.entry (LineTaken self.old result)) }
    {
        self.refused = true;
        let found = find_line(&mut self.source, &mut self.ahead, &mut self.taken)?;
        self.refused = false;
        match found {
            Some(span) => Ok(Some(self.ahead.part(span))),
            None => Ok(None),
        }
    }

    /// Whether a line was taken whole from the source and not given yet, so that the next one asks the source for
    /// nothing.
    pub fn has_line(&self) -> bool
        // Where the source tells its bytes, the end of the next line is among those that were taken.
        ensures { IfSome self.now.left (λ text. result ≡ nat_lt (line_len text) (self.now.taken - self.now.passed)) }
    {
        line_end(self.ahead.held(), 0).is_some()
    }

    /// The source. Bytes that were taken from it and not given are lost.
    pub fn into_source(self) -> I
        ensures untaken { I.left result ≡ self.untaken }
        ensures left { TellsOn self.left (I.left result) IsEnd }
        ensures failures { I.failures result ≡ self.failures }
    {
        self.source
    }
}
