ghost use Rattle.std.specs.Prelude.{◌≡◌, ◌↔◌, ◌+◌, ◌<◌, ◌≤◌, ℕ, length, take, vec_len, IfSome, OnSome, IfOk, OnOk};
ghost use Rattle.std.specs.Option.{option_map};
ghost use Rattle.std.specs.Result.{IsErrOf};
ghost use Rattle.host_model.specs.Failures.{Rose};
ghost use Rattle.host_model.specs.Told.{TellsOn};
ghost use Rattle.gds_lines.specs.Lines.{after_first_line, next_line};
ghost use Rattle.gds_lines.specs.Ahead.{held, part, text_left};
ghost use Rattle.gds_lines.specs.LinesState.{Counts};

use crate::ahead::{Ahead, Span};
use crate::scan::line_end;
use crate::{INPUT_LIMIT, LINE_LIMIT, LinesError};
use host_model::Source;

/// Takes the next line off the text, and answers where its bytes are kept.
pub(crate) fn find_line<I: Source>(
    source: &mut I,
    ahead: &mut Ahead,
    taken: &mut u64,
) -> Result<Option<Span>, LinesError>
    requires held { length (held ahead.old) ≤ taken.old }
    requires taken { taken.old ≤ INPUT_LIMIT }
    ensures line { IfOk result (λ found. IfSome (text_left ahead.old (I.left source.old))
        (λ text. option_map (part ahead.new) found ≡ next_line text)) }
    ensures within { IfOk result
        (λ found. IfSome found (λ span. span.to ≤ vec_len ahead.new.buffer)) }
    ensures left { OnOk result (TellsOn (text_left ahead.old (I.left source.old))
        (text_left ahead.new (I.left source.new)) (λ text rest. rest ≡ after_first_line text)) }
    ensures counts { TellsOn (I.left source.old) (I.left source.new) (Counts taken.old taken.new) }
    ensures held { length (held ahead.new) ≤ taken.new }
    ensures onward { taken.old + length (held ahead.new) ≤ taken.new + length (held ahead.old) }
    ensures passed { IfOk result (λ found. OnSome found
        (taken.old + length (held ahead.new) < taken.new + length (held ahead.old))) }
    ensures taken { taken.old ≤ taken.new }
    ensures too_long { IsErrOf result LinesError.InputTooLong ↔ (INPUT_LIMIT < taken.new) }
    ensures failures { I.failures source.old ≤ I.failures source.new }
    ensures fault { IsErrOf result LinesError.InputFault
        → Rose (I.failures source.old) (I.failures source.new) }
{
    let mut scanned = 0;
    loop {
        if let Some(end) = line_end(ahead.held(), scanned) {
            return Ok(Some(ahead.give(end)));
        }
        ahead.shorten();
        scanned = ahead.len();
        if fill(source, ahead, taken)? == 0 {
            return Ok(ahead.give_all());
        }
    }
}

/// Takes more bytes behind those that are held, and answers how many they are. 0 says that none are left.
fn fill<I: Source>(source: &mut I, ahead: &mut Ahead, taken: &mut u64) -> Result<usize, LinesError>
    requires short { length (held ahead.old) ≤ LINE_LIMIT + 2 }
    requires taken { taken.old ≤ INPUT_LIMIT }
    ensures text { IfOk result (λ n. TellsOn (text_left ahead.old (I.left source.old))
        (text_left ahead.new (I.left source.new))
        (λ old new. (new ≡ old) × (n ≡ 0 → new ≡ held ahead.new))) }
    ensures held { take (length (held ahead.old)) (held ahead.new) ≡ held ahead.old }
    ensures counts { TellsOn (I.left source.old) (I.left source.new) (Counts taken.old taken.new) }
    ensures none { IfOk result (λ n. n ≡ 0 → held ahead.new ≡ held ahead.old) }
    ensures count { IfOk result (λ n. taken.new ≡ taken.old + n) }
    ensures passed { taken.old + length (held ahead.new) ≡ taken.new + length (held ahead.old) }
    ensures within { OnOk result (taken.new ≤ INPUT_LIMIT) }
    ensures taken { taken.old ≤ taken.new }
    ensures too_long { IsErrOf result LinesError.InputTooLong ↔ (INPUT_LIMIT < taken.new) }
    ensures failures { I.failures source.old ≤ I.failures source.new }
    ensures fault { IsErrOf result LinesError.InputFault
        → Rose (I.failures source.old) (I.failures source.new) }
{
    ahead.make_room()?;
    let n = ahead.take(source)?;
    *taken += n as u64;
    if *taken > INPUT_LIMIT {
        return Err(LinesError::InputTooLong);
    }
    Ok(n)
}
