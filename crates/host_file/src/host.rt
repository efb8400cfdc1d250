ghost use Rattle.std.specs.Prelude.{◌≡◌, ◌≤◌, length, is_ok, Ok, IsErr, IfOk, IfSome, OnOk, OnErr, MatchResult};
ghost use Rattle.host_model.specs.Failures.{NeverFell, Rose, counted};
ghost use Rattle.host_model.specs.Files.{AreBytes, Reads, file_of};
ghost use Rattle.host_model.specs.Disk.{Changes, Cut, Follows, SaysSome, Settles, Torn, during};
ghost use Rattle.host_model.specs.Frames.{ChangedNothing, WasCalled};
ghost use Rattle.host_file.specs.System.{untold, any_left, tells_nothing, new_host, after_read, after_say, after_write};
ghost use Rattle.host_file.specs.System.{told_by, moment_of, failures_of, left_by};

use super::place::Place;
use host_model::{FileNo, Host, HostFailed};
use std::alloc::{AllocError, Global};
use std::fs::File;
use std::io;
use std::marker::Model;
use std::rt::Files;

/// A host over the file at a path, the file of before images beside it, and standard output.
///
/// The file of before images has the same path with `.bi` at its end. A missing file has the length 0. A path of what
/// is no regular file, as a directory or a link, fails each read and write, and a sync of it does nothing. So does an
/// empty path, for both files. Where both paths lead to one file each call fails.
///
/// A sync fails where the file that was opened doesn't stand at its path any more.
///
/// A file is locked by the first call that opens it, until the host is dropped. Where another program holds it, unless
/// both may only read it, the call fails.
#[derive(Drop)]
pub struct FileHost<'r, R: Files<File = File> + Print> {
    rt: &'r R,
    db: Place,
    images: Place,
    clock: u64,
    read_failures: u64,
    write_failures: u64,
    say_failures: u64,
}

impl<'r, R: Files<File = File> + Print> Model for FileHost<'r, R> {
    ghost use Rattle.std.specs.Prelude.{string_bytes};
    ghost use Rattle.host_file.specs.System.{SystemHost};

    ghost Value = { SystemHost };

    ghost view = { λ host. record {
      db_path = string_bytes host.db.path;
      images_path = string_bytes host.images.path;
      moment = host.clock;
      failures = record {
        read = host.read_failures;
        write = host.write_failures;
        say = host.say_failures;
      };
    } };
}

impl<'r, R: Files<File = File> + Print> FileHost<'r, R> {
    /// A host over the files at this path. No file is opened yet.
    pub fn new(rt: &'r R, alloc: Global, path: &str) -> Result<FileHost<'r, R>, AllocError>
        ensures { IfOk result (λ host. host ≡ new_host path.now) }
    {
        let db = String::from_str(alloc, path)?;
        let mut images = String::from_str(alloc, path)?;
        images.push_str(".bi")?;
        let other_db = String::from_str(alloc, db.as_str())?;
        let other_images = String::from_str(alloc, images.as_str())?;
        Ok(FileHost {
            rt,
            db: Place::new(db, other_images),
            images: Place::new(images, other_db),
            clock: 0,
            read_failures: 0,
            write_failures: 0,
            say_failures: 0,
        })
    }

    /// Counts a write, a cut or a sync, and that it failed where it did.
    fn end_write(&mut self, outcome: io::Result<()>) -> Result<(), HostFailed>
        ensures counts { self.new ≡ after_write (is_ok result) self.old }
        ensures failures { NeverFell self.old.failures self.new.failures }
        ensures clock { self.old.moment ≤ self.new.moment }
    {
        self.clock = self.clock.saturating_add(1);
        if outcome.is_err() {
            self.write_failures = self.write_failures.saturating_add(1);
            return Err(HostFailed);
        }
        Ok(())
    }

    /// Counts a read, and that it failed where it did.
    fn end_read<T: Drop>(&mut self, outcome: io::Result<T>) -> Result<T, HostFailed>
        ensures outcome { MatchResult outcome (λ value. result ≡ Ok value) (λ _. IsErr result) }
        ensures counts { self.new ≡ after_read (is_ok result) self.old }
        ensures failures { NeverFell self.old.failures self.new.failures }
        ensures clock { self.old.moment ≤ self.new.moment }
    {
        self.clock = self.clock.saturating_add(1);
        match outcome {
            Ok(value) => Ok(value),
            Err(_) => {
                self.read_failures = self.read_failures.saturating_add(1);
                Err(HostFailed)
            }
        }
    }
}

impl<'r, R: Files<File = File> + Print> Host for FileHost<'r, R> {
    ghost told = { told_by };

    ghost moment = { moment_of };

    ghost failures = { failures_of };

    ghost left_since = { left_by };

    ghost longer = { λ _ t u c le left. tt };

    ghost now_left = { λ _ c told. tt };

    ghost said_stays = { λ _ now c told left. absurd (tells_nothing now told) };

    fn len(&mut self, file: FileNo) -> Result<u64, HostFailed>
        ensures length { IfOk result (λ n. IfSome untold (λ c. n ≡ length (file_of c file))) }
        ensures bytes { IfSome untold AreBytes }
        ensures kept { ChangedNothing told_by moment_of failures_of left_by self.old self.new }
        ensures failed { OnErr result (Rose self.old.failures.read self.new.failures.read) }
        ensures counts { self.new ≡ after_read (is_ok result) self.old }
    {
        let rt = self.rt;
        let outcome = match file {
            FileNo::Db => self.db.len(rt),
            FileNo::Images => self.images.len(rt),
        };
        self.end_read(outcome)
    }

    fn read(&mut self, file: FileNo, at: u64, out: &mut [u8]) -> Result<usize, HostFailed>
        ensures count { IfOk result (λ n. n ≤ length out.old) }
        ensures bytes { IfOk result (λ n. IfSome untold (λ c. Reads (file_of c file) at out.old out.new n)) }
        ensures kept { ChangedNothing told_by moment_of failures_of left_by self.old self.new }
        ensures failed { OnErr result (Rose self.old.failures.read self.new.failures.read) }
        ensures counts { self.new ≡ after_read (is_ok result) self.old }
    {
        let rt = self.rt;
        let outcome = match file {
            FileNo::Db => self.db.read(rt, at, out),
            FileNo::Images => self.images.read(rt, at, out),
        };
        self.end_read(outcome)
    }

    fn write_at(&mut self, file: FileNo, at: u64, bytes: &[u8]) -> Result<(), HostFailed>
        ensures crash { Follows (Changes file (Torn at (length bytes.now)))
            (any_left self.old.moment) (any_left self.new.moment) }
        ensures called { WasCalled moment_of failures_of left_by self.old self.new (any_left self.new.moment) }
        ensures failed { OnErr result (Rose self.old.failures.write self.new.failures.write) }
        ensures counts { self.new ≡ after_write (is_ok result) self.old }
    {
        let rt = self.rt;
        let outcome = match file {
            FileNo::Db => self.db.write(rt, at, bytes),
            FileNo::Images => self.images.write(rt, at, bytes),
        };
        self.end_write(outcome)
    }

    fn cut(&mut self, file: FileNo, len: u64) -> Result<(), HostFailed>
        ensures crash { Follows (Changes file (Cut len)) (any_left self.old.moment) (any_left self.new.moment) }
        ensures called { WasCalled moment_of failures_of left_by self.old self.new (any_left self.new.moment) }
        ensures failed { OnErr result (Rose self.old.failures.write self.new.failures.write) }
        ensures counts { self.new ≡ after_write (is_ok result) self.old }
    {
        let rt = self.rt;
        let outcome = match file {
            FileNo::Db => self.db.cut(rt, len),
            FileNo::Images => self.images.cut(rt, len),
        };
        self.end_write(outcome)
    }

    fn sync(&mut self, file: FileNo) -> Result<(), HostFailed>
        ensures settled { OnOk result
            (IfSome untold (λ c. Settles file (file_of c file) (any_left self.new.moment))) }
        ensures kept { ChangedNothing told_by moment_of failures_of left_by self.old self.new }
        ensures failed { OnErr result (Rose self.old.failures.write self.new.failures.write) }
        ensures counts { self.new ≡ after_write (is_ok result) self.old }
    {
        let rt = self.rt;
        let outcome = match file {
            FileNo::Db => self.db.sync(rt),
            FileNo::Images => self.images.sync(rt),
        };
        self.end_write(outcome)
    }

    fn say(&mut self, bytes: &[u8]) -> Result<(), HostFailed>
        ensures crash { Follows (SaysSome bytes.now) (any_left self.old.moment) (any_left self.new.moment) }
        ensures called { WasCalled moment_of failures_of left_by self.old self.new
            (during (SaysSome bytes.now) (any_left self.old.moment)) }
        ensures failed { OnErr result (Rose self.old.failures.say self.new.failures.say) }
        ensures counts { self.new ≡ after_say (is_ok result) self.old }
    {
        self.clock = self.clock.saturating_add(1);
        if self.rt.write_all(bytes).is_err() {
            self.say_failures = self.say_failures.saturating_add(1);
            return Err(HostFailed);
        }
        Ok(())
    }
}
