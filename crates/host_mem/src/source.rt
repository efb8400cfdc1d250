ghost use Rattle.std.specs.Prelude.{◌≡◌, ◌+◌, ◌<◌, ◌≤◌, ◌↔◌, ◌++◌, length, take, drop, Contains, IsTrue, IfOk, OnErr};
ghost use Rattle.host_model.specs.Failures.{Rose};
ghost use Rattle.host_model.specs.Files.{Gives};

use super::parts::copy_front;
use host_model::{Source, SourceFailed};
use std::marker::Model;

/// A source of bytes in memory, that gives them in small pieces and fails the takes that it was told to.
#[derive(Drop)]
pub struct MemSource {
    bytes: Vec<u8>,
    start: usize,
    piece: usize,
    failing: Vec<u64>,
    taken: u64,
    failures: u64,
}

impl Model for MemSource {
    ghost use Rattle.std.specs.Prelude.{◌<◌, ◌≤◌, drop, length};
    ghost use Rattle.host_mem.specs.Source.{Source};

    ghost Value = { Source };

    ghost view = { λ source. record {
      left = drop source.start source.bytes.items;
      piece = source.piece;
      failing = source.failing.items;
      taken = source.taken;
      failures = source.failures;
    } };

    ghost invariant = { λ source. (0 < source.piece) × (source.start ≤ length source.bytes.items) };
}

impl MemSource {
    ghost use Rattle.host_mem.specs.Source.{next_piece};

    /// A source of these bytes, that gives at most `piece` of them at a time.
    /// The takes with the numbers `failing` will fail, counted from 1 for the first.
    pub fn new(bytes: Vec<u8>, piece: usize, failing: Vec<u64>) -> MemSource
        requires { 0 < piece }
        ensures { result ≡ record {
          left = bytes.items;
          piece = piece;
          failing = failing.items;
          taken = 0;
          failures = 0;
        } }
    {
        MemSource {
            bytes,
            start: 0,
            piece,
            failing,
            taken: 0,
            failures: 0,
        }
    }

    /// Puts the next bytes at the front of `out`, and answers how many they are.
    fn give(&mut self, out: &mut [u8]) -> usize
        ensures count { result ≡ next_piece self.old out.old }
        ensures bytes { out.new ≡ take result self.old.left ++ drop result out.old }
        ensures left { self.new ≡ record self.old { left = drop result self.old.left } }
    {
        let rest = &self.bytes[self.start..];
        let piece = &rest[..self.piece.min(rest.len())];
        let count = copy_front(piece, out);
        self.start += count;
        count
    }
}

impl Source for MemSource {
    ghost use Rattle.std.specs.Prelude.{Some};
    ghost use Rattle.host_mem.specs.Source.{Taken};

    ghost left = { λ source. Some source.left };

    ghost failures = { λ source. source.failures };

    fn take(&mut self, out: &mut [u8]) -> Result<usize, SourceFailed>
        requires { 0 < length out.old }
        ensures count { IfOk result (λ n. n ≤ length out.old) }
        ensures given { IfOk result (λ n. Gives out.new n self.old.left self.new.left) }
        ensures kept { OnErr result (Some self.new.left ≡ Some self.old.left) }
        ensures failures { self.old.failures ≤ self.new.failures }
        ensures failed { OnErr result (Rose self.old.failures self.new.failures) }
        ensures taken { Taken result out.old out.new self.old self.new }
    {
        let listed = has_next(&self.failing, self.taken);
        self.taken = self.taken.saturating_add(1);
        if listed {
            self.failures = self.failures.saturating_add(1);
            return Err(SourceFailed);
        }
        Ok(self.give(out))
    }
}

/// Whether the number after `count` is in the list.
fn has_next(list: &[u64], count: u64) -> bool
    ensures { IsTrue result ↔ Contains list.now (count + 1) }
{
    count < u64::MAX && list.contains(&(count + 1))
}
