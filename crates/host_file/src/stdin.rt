ghost use Rattle.std.specs.Prelude.{◌≡◌, ◌<◌, ◌≤◌, length, is_ok, IfOk, OnErr, if◌then◌else◌};
ghost use Rattle.host_model.specs.Failures.{Rose, counted};
ghost use Rattle.host_model.specs.Told.{TellsOn};
ghost use Rattle.host_model.specs.Files.{Gives};
ghost use Rattle.host_file.specs.System.{untold_left};

use host_model::{Source, SourceFailed};
use std::io;
use std::io::{Error, ErrorKind, Read};
use std::marker::{Model, PhantomData};

/// A source over standard input, with one read a take.
#[derive(Drop)]
pub struct StdinSource<'r, R: Input> {
    reader: R::Reader,
    failures: u64,
    runtime: PhantomData<&'r R>,
}

impl<'r, R: Input> Model for StdinSource<'r, R> {
    ghost use Rattle.std.specs.Prelude.{ℕ};

    ghost Value = { ℕ };

    ghost view = { λ source. source.failures };
}

impl<'r, R: Input> StdinSource<'r, R> {
    /// A source over standard input, of which nothing is read yet.
    pub fn new(rt: &'r R) -> StdinSource<'r, R>
        ensures { result ≡ 0 }
    {
        StdinSource {
            reader: rt.reader(),
            failures: 0,
            runtime: PhantomData,
        }
    }
}

impl<'r, R: Input> Source for StdinSource<'r, R> {
    ghost left = { λ _. untold_left };

    ghost failures = { λ source. source };

    fn take(&mut self, out: &mut [u8]) -> Result<usize, SourceFailed>
        requires { 0 < length out.old }
        ensures count { IfOk result (λ n. n ≤ length out.old) }
        ensures given { IfOk result (λ n. TellsOn untold_left untold_left (Gives out.new n)) }
        ensures kept { OnErr result (untold_left ≡ untold_left) }
        ensures failures { self.old ≤ self.new }
        ensures failed { OnErr result (Rose self.old self.new) }
        ensures counts { self.new ≡ (if is_ok result then self.old else counted self.old) }
    {
        match read_uninterrupted(&mut self.reader, out) {
            Ok(count) => Ok(count),
            Err(_) => {
                self.failures = self.failures.saturating_add(1);
                Err(SourceFailed)
            }
        }
    }
}

/// One read, made again while signals interrupt it.
fn read_uninterrupted<T: Read>(reader: &mut T, out: &mut [u8]) -> io::Result<usize>
    ensures { IfOk result (λ n. n ≤ length out.old) }
{
    for _ in 0..u64::MAX {
        match reader.read(out) {
            Err(e) if e.kind() == ErrorKind::Interrupted => {}
            answer => return answer,
        }
    }
    Err(Error::from(ErrorKind::TimedOut))
}
