//! A database file that gives fewer bytes than its length had promised.

ghost use Rattle.std.specs.Prelude.{◌≡◌, ◌≤◌, length};

use crate::bench::{Files, Given, files_of};
use crate::outcomes::status_outcome;
use crate::tasks::call_of;
use crate::texts::add;
use crate::trouble::Trouble;
use crate::words::Words;
use gds_cli::gds;
use host_mem::{MemHost, MemSource, SureHost};
use host_model::{FileNo, Host, HostFailed};
use std::alloc::{AllocError, Global};

/// A host that tells nothing, and from a number of reads on gives no byte.
#[derive(Drop)]
struct Shrinking {
    files: SureHost,
    reads: u64,
    clock: u64,
}

impl Shrinking {
    /// What a read gives.
    fn gives(&mut self, file: FileNo, at: u64, out: &mut [u8]) -> usize
        ensures count { result ≤ length out.old }
        ensures clock { self.new.clock ≡ self.old.clock }
    {
        if self.reads == 0 {
            return 0;
        }
        self.reads -= 1;
        match self.files.read(file, at, out) {
            Ok(count) => count,
            Err(_) => 0,
        }
    }
}

impl Host for Shrinking {
    ghost use Rattle.std.specs.Prelude.{None};

    ghost told = { λ _. None };

    ghost moment = { λ host. host.clock };

    ghost failures = { λ _. record { read = 0; write = 0; say = 0 } };

    // Nothing is known of a crash, as if none could come.
    ghost left_since = { λ _ t c. ⊥ };

    ghost longer = { λ _ t u c le left. left };

    ghost now_left = { λ _ c told. Prim.cc };

    ghost said_stays = { λ _ now c told left. absurd left };

    fn len(&mut self, file: FileNo) -> Result<u64, HostFailed> {
        self.clock = self.clock.saturating_add(1);
        Ok(self.files.len(file).unwrap_or(0))
    }

    fn read(&mut self, file: FileNo, at: u64, out: &mut [u8]) -> Result<usize, HostFailed> {
        self.clock = self.clock.saturating_add(1);
        Ok(self.gives(file, at, out))
    }

    fn write_at(&mut self, _file: FileNo, _at: u64, _bytes: &[u8]) -> Result<(), HostFailed> {
        self.clock = self.clock.saturating_add(1);
        Ok(())
    }

    fn cut(&mut self, _file: FileNo, _len: u64) -> Result<(), HostFailed> {
        self.clock = self.clock.saturating_add(1);
        Ok(())
    }

    fn sync(&mut self, _file: FileNo) -> Result<(), HostFailed> {
        self.clock = self.clock.saturating_add(1);
        Ok(())
    }

    fn say(&mut self, bytes: &[u8]) -> Result<(), HostFailed> {
        self.clock = self.clock.saturating_add(1);
        let _ = self.files.say(bytes);
        Ok(())
    }
}

/// Calls the words behind a number of reads on the host's files, of which no byte comes from that read on.
pub(crate) fn shrink(
    alloc: Global,
    host: &MemHost,
    given: &Given,
    words: Words,
) -> Result<Vec<u8>, Trouble> {
    let mut rest = words;
    let reads = rest.number()?;
    let (line, source) = call_of(alloc, rest, given)?;
    let files = files_of(alloc, host)?;
    called(alloc, made_of(files, reads), line, source)
}

fn made_of(files: Files, reads: u64) -> Shrinking {
    let alloc = *files.db.allocator();
    let Files { db, images } = files;
    Shrinking {
        files: SureHost::new(alloc, db, images),
        reads,
        clock: 0,
    }
}

fn called(
    alloc: Global,
    host: Shrinking,
    line: Vec<String>,
    source: MemSource,
) -> Result<Vec<u8>, Trouble> {
    let ended = gds(alloc, &line, host, source);
    with_status(alloc, said_by(alloc, &ended.host), ended.status.code())
}

fn said_by(alloc: Global, host: &Shrinking) -> Result<Vec<u8>, AllocError> {
    host.files.parts().2.to_vec(alloc)
}

/// What was said, and the status.
fn with_status(
    alloc: Global,
    said: Result<Vec<u8>, AllocError>,
    code: u8,
) -> Result<Vec<u8>, Trouble> {
    let mut answer = said?;
    let outcome = status_outcome(alloc, code)?;
    add(&mut answer, &outcome)?;
    Ok(answer)
}
