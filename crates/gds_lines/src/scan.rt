ghost use Rattle.std.specs.Prelude.{◌≡◌, ◌<◌, ◌≤◌, length, take, MatchOption};
ghost use Rattle.std.specs.Str.Lines.{strip_carriage_return};
ghost use Rattle.gds_lines.specs.Lines.{line_len, given};

use crate::LINE_LIMIT;
use memchr::memchr;

/// Where the first line end stands, of bytes of which the first `scanned` have none.
pub(crate) fn line_end(bytes: &[u8], scanned: usize) -> Option<usize>
    requires { scanned ≤ line_len bytes.now }
    ensures { MatchOption result (line_len bytes.now ≡ length bytes.now)
        (λ end. (end ≡ line_len bytes.now) × (end < length bytes.now)) }
{
    let found = memchr(b'\n', &bytes[scanned..])?;
    Some(scanned + found)
}

/// The bytes before a line end without the byte 13 at their end, if they have one.
fn without_return(bytes: &[u8]) -> &[u8]
    ensures { result.now ≡ strip_carriage_return bytes.now }
{
    match bytes {
        [line @ .., b'\r'] => line,
        _ => bytes,
    }
}

/// How many of the bytes before a line end are given as the line.
pub(crate) fn given_len(bytes: &[u8]) -> usize
    ensures within { result ≤ length bytes.now }
    ensures given { take result bytes.now ≡ given (strip_carriage_return bytes.now) }
{
    without_return(bytes).len().min(LINE_LIMIT + 1)
}
