ghost use Rattle.std.specs.Prelude.{◌≡◌, ◌<◌, map, IfOk, IfSome};
ghost use Rattle.std.specs.Str.Lines.{lines};
ghost use Rattle.gds_lines.specs.Lines.{given};

use gds_lines::{Lines, LinesError};
use host_model::Source;
use std::alloc::Global;

/// Every line of what a source has left, one after another.
pub(crate) fn all_lines<I: Source>(alloc: Global, source: I) -> Result<Vec<Vec<u8>>, LinesError>
    ensures { IfOk result (λ all. IfSome (I.left source)
        (λ text. map (λ line. line.items) all.items ≡ map given (lines text))) }
{
    let mut reader = Lines::new(alloc, source);
    let mut all = Vec::new(alloc);
    while let Some(line) = reader.line()? {
        all.push(Vec::from_slice(alloc, line)?)?;
    }
    Ok(all)
}
