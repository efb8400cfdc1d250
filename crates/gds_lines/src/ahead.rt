ghost use Rattle.std.specs.Prelude.{◌≡◌, ◌+◌, ◌<◌, ◌≤◌, [], ◌++◌, ℕ, length, take, drop, slice_range, vec_len, Some};
ghost use Rattle.std.specs.Prelude.{IfSome, OnSome, IfOk, OnOk, OnErr};
ghost use Rattle.std.specs.Option.{option_map};
ghost use Rattle.host_model.specs.Failures.{Rose};
ghost use Rattle.host_model.specs.Told.{TellsOn};
ghost use Rattle.gds_lines.specs.Lines.{line_len, next_line, after_first_line};
ghost use Rattle.gds_lines.specs.LinesState.{Counts};
ghost use Rattle.gds_lines.specs.declared.ahead.TheConstants.{BUFFER_LIMIT};

use crate::LINE_LIMIT;
use crate::scan::given_len;
use host_model::{Source, SourceFailed};
use std::alloc::{AllocError, Global};

/// How many bytes a source is asked for at least.
const PIECE: usize = 65_536;

/// The most bytes that are held of a line that is too long, which tell that it is.
const HELD_LIMIT: usize = LINE_LIMIT + 2;

/// The most bytes that are kept.
const BUFFER_LIMIT: usize = HELD_LIMIT + PIECE;

/// A part of what is kept.
#[derive(Clone, Copy)]
pub(crate) struct Span {
    pub(crate) from: usize,
    pub(crate) to: usize,
    ghost ordered: { from ≤ to },
}

/// Bytes that were taken from a source and not yet given: those of `buffer` from `from` up to `to`.
#[derive(Drop)]
pub(crate) struct Ahead {
    buffer: Vec<u8>,
    from: usize,
    to: usize,
    ghost ordered: { from ≤ to },
    ghost within: { to ≤ vec_len buffer },
    ghost bounded: { vec_len buffer ≤ BUFFER_LIMIT },
}

impl Ahead {
    ghost use Rattle.gds_lines.specs.Ahead.{held, text_left, part};

    pub(crate) fn new(alloc: Global) -> Ahead
        ensures { held result ≡ [] }
    {
        Ahead {
            buffer: Vec::new(alloc),
            from: 0,
            to: 0,
        }
    }

    /// The bytes that are held.
    pub(crate) fn held(&self) -> &[u8]
        ensures { result.now ≡ held self.now }
    {
        &self.buffer[self.from..self.to]
    }

    pub(crate) fn len(&self) -> usize
        ensures { result ≡ length (held self.now) }
    {
        self.to - self.from
    }

    /// A part of what is kept.
    pub(crate) fn part(&self, span: Span) -> &[u8]
        requires { span.to ≤ vec_len self.now.buffer }
        ensures { result.now ≡ part self.now span }
    {
        &self.buffer[span.from..span.to]
    }

    /// Lets go of all but the first bytes of a line that is too long.
    pub(crate) fn shorten(&mut self)
        ensures cut { held self.new ≡ take (LINE_LIMIT + 2) (held self.old) }
        ensures len { length (held self.new) ≤ length (held self.old) }
    {
        if self.to - self.from > HELD_LIMIT {
            self.to = self.from + HELD_LIMIT;
        }
    }

    /// Makes room behind the bytes that are held.
    pub(crate) fn make_room(&mut self) -> Result<(), AllocError>
        requires { length (held self.old) ≤ LINE_LIMIT + 2 }
        ensures held { held self.new ≡ held self.old }
        ensures room { OnOk result (self.new.to < vec_len self.new.buffer) }
    {
        self.move_to_front();
        if self.buffer.len() - self.to < PIECE {
            self.grow()?;
        }
        Ok(())
    }

    fn move_to_front(&mut self)
        ensures held { held self.new ≡ held self.old }
        ensures front { self.new.from ≡ 0 }
    {
        if self.from > 0 {
            self.buffer.copy_within(self.from..self.to, 0);
            self.to -= self.from;
            self.from = 0;
        }
    }

    fn grow(&mut self) -> Result<(), AllocError>
        requires front { self.old.from ≡ 0 }
        requires short { self.old.to ≤ LINE_LIMIT + 2 }
        ensures held { held self.new ≡ held self.old }
        ensures room { OnOk result (self.new.to < vec_len self.new.buffer) }
    {
        let wanted = (self.to + PIECE).max(self.buffer.len() * 2);
        self.buffer.resize(wanted.min(BUFFER_LIMIT), 0)
    }

    /// Takes the next bytes from the source, and answers how many they are. 0 says that none are left.
    pub(crate) fn take<I: Source>(&mut self, source: &mut I) -> Result<usize, SourceFailed>
        requires { self.old.to < vec_len self.old.buffer }
        ensures count { IfOk result (λ n. length (held self.new) ≡ length (held self.old) + n) }
        ensures held { take (length (held self.old)) (held self.new) ≡ held self.old }
        ensures kept { OnErr result (length (held self.new) ≡ length (held self.old)) }
        ensures counts { IfOk result (λ n. TellsOn (I.left source.old) (I.left source.new) (Counts 0 n)) }
        ensures untaken { OnErr result (I.left source.new ≡ I.left source.old) }
        ensures few { IfOk result (λ n. n ≤ BUFFER_LIMIT) }
        ensures text { IfOk result (λ n. TellsOn (text_left self.old (I.left source.old))
            (text_left self.new (I.left source.new))
            (λ old new. (new ≡ old) × (n ≡ 0 → new ≡ held self.new))) }
        ensures failures { I.failures source.old ≤ I.failures source.new }
        ensures failed { OnErr result (Rose (I.failures source.old) (I.failures source.new)) }
    {
        let n = take_behind(source, &mut self.buffer, self.to)?;
        self.to += n;
        Ok(n)
    }

    /// Gives the first line of the bytes that are held, which ends at `end`.
    pub(crate) fn give(&mut self, end: usize) -> Span
        requires first { end ≡ line_len (held self.old) }
        requires found { end < length (held self.old) }
        ensures line { Some (part self.new result) ≡ next_line (held self.old) }
        ensures within { result.to ≤ vec_len self.new.buffer }
        ensures rest { held self.new ≡ after_first_line (held self.old) }
        ensures len { length (held self.new) < length (held self.old) }
    {
        let len = given_len(&self.held()[..end]);
        let from = self.from;
        self.from += end + 1;
        Span {
            from,
            to: from + len,
        }
    }

    /// Gives all bytes that are held, which have no line end, as a last line, unless there are none.
    pub(crate) fn give_all(&mut self) -> Option<Span>
        requires { line_len (held self.old) ≡ length (held self.old) }
        ensures line { option_map (part self.new) result ≡ next_line (held self.old) }
        ensures within { IfSome result (λ span. span.to ≤ vec_len self.new.buffer) }
        ensures some { OnSome result (0 < length (held self.old)) }
        ensures rest { held self.new ≡ [] }
    {
        let from = self.from;
        let len = self.len();
        self.from = self.to;
        if len == 0 {
            return None;
        }
        Some(Span {
            from,
            to: from + len.min(LINE_LIMIT + 1),
        })
    }
}

/// Takes the next bytes of the source into the buffer from `at` on.
fn take_behind<I: Source>(
    source: &mut I,
    buffer: &mut Vec<u8>,
    at: usize,
) -> Result<usize, SourceFailed>
    requires { at < vec_len buffer.old }
    ensures len { vec_len buffer.new ≡ vec_len buffer.old }
    ensures count { IfOk result (λ n. at + n ≤ vec_len buffer.old) }
    ensures before { take at buffer.new.items ≡ take at buffer.old.items }
    ensures given { IfOk result (λ n. TellsOn (I.left source.old) (I.left source.new)
        (λ old new. (old ≡ take n (drop at buffer.new.items) ++ new) × (n ≡ 0 → old ≡ []))) }
    ensures counts { IfOk result (λ n. TellsOn (I.left source.old) (I.left source.new) (Counts 0 n)) }
    ensures kept { OnErr result (I.left source.new ≡ I.left source.old) }
    ensures failures { I.failures source.old ≤ I.failures source.new }
    ensures failed { OnErr result (Rose (I.failures source.old) (I.failures source.new)) }
{
    source.take(&mut buffer[at..])
}
