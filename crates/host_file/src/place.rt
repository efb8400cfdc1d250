ghost use Rattle.std.specs.Prelude.{◌≡◌, ◌≤◌, length, IfOk};

use crate::opened::{Opened, lock, lock_shared};
use crate::reading::read_full_at;
use std::fs::{File, OpenOptions};
use std::io::{Error, ErrorKind};
use std::os::unix::fs::FileExt;
use std::rt::Files;
use std::{fs, io};

/// A file at a path, which is opened and locked when it is first used, and is kept so.
///
/// The lock is the system's advisory one on the whole file, and isn't waited for: exclusive where the file may be
/// written, shared where it may only be read. So while another program holds the file so, no call opens it.
///
/// No call opens the file either where it is the other file of its host too, or where one of the two paths is empty.
#[derive(Drop)]
pub(crate) struct Place {
    path: String,
    /// Where the other file of the host stands.
    other_path: String,
    opened: Option<Opened>,
}

impl Place {
    pub(crate) fn new(path: String, other_path: String) -> Place
        ensures { result.path ≡ path }
    {
        Place {
            path,
            other_path,
            opened: None,
        }
    }

    /// The length of the file in bytes. A missing file has none.
    pub(crate) fn len<R: Files<File = File>>(&mut self, files: &R) -> io::Result<u64>
        ensures { self.new.path ≡ self.old.path }
    {
        self.open(files)?;
        match &self.opened {
            Some(opened) => opened.len(),
            None => Ok(0),
        }
    }

    /// Reads from `at` on until `out` is full or the file ends, and answers how many bytes came.
    pub(crate) fn read<R: Files<File = File>>(
        &mut self,
        files: &R,
        at: u64,
        out: &mut [u8],
    ) -> io::Result<usize>
        ensures path { self.new.path ≡ self.old.path }
        ensures count { IfOk result (λ n. n ≤ length out.old) }
    {
        self.open(files)?;
        match &self.opened {
            Some(opened) => read_full_at(&opened.file, at, out),
            None => Ok(0),
        }
    }

    /// Writes all the bytes from `at` on. A missing file is made.
    pub(crate) fn write<R: Files<File = File>>(
        &mut self,
        files: &R,
        at: u64,
        bytes: &[u8],
    ) -> io::Result<()>
        ensures { self.new.path ≡ self.old.path }
    {
        self.open(files)?;
        self.make_missing(files)?;
        match &self.opened {
            Some(opened) if opened.is_writable => opened.file.write_all_at(bytes, at),
            _ => Err(Error::from(ErrorKind::PermissionDenied)),
        }
    }

    /// Cuts the file to a length. A missing file has the length 0 already, and none other.
    pub(crate) fn cut<R: Files<File = File>>(&mut self, files: &R, len: u64) -> io::Result<()>
        ensures { self.new.path ≡ self.old.path }
    {
        self.open(files)?;
        match &self.opened {
            Some(opened) => opened.cut(len),
            None if len == 0 => Ok(()),
            None => Err(Error::from(ErrorKind::NotFound)),
        }
    }

    /// Has the system write what it keeps of the file to the device, and the first time also the folder's entry of
    /// the file, which may be new. A missing file has nothing to write, and nothing was written to what is no regular
    /// file.
    ///
    /// A file that doesn't stand at its path any more is not synced: who comes next wouldn't find what was written.
    pub(crate) fn sync<R: Files<File = File>>(&mut self, files: &R) -> io::Result<()>
        ensures { self.new.path ≡ self.old.path }
    {
        match self.open(files) {
            Err(e) if e.kind() == ErrorKind::InvalidInput => return Ok(()),
            tried => tried?,
        }
        match &mut self.opened {
            Some(opened) => opened.sync(files, self.path.as_str()),
            None => Ok(()),
        }
    }

    /// Opens the file unless it is open. A missing file is looked for again at the next call.
    fn open<R: Files<File = File>>(&mut self, files: &R) -> io::Result<()>
        ensures { self.new.path ≡ self.old.path }
    {
        if self.opened.is_none() {
            self.opened = self.find(files)?;
        }
        Ok(())
    }

    /// Makes the file where it is missing. Where another program has made it since, that is an error.
    fn make_missing<R: Files<File = File>>(&mut self, files: &R) -> io::Result<()>
        ensures { self.new.path ≡ self.old.path }
    {
        if self.opened.is_none() {
            let file = File::create_new(files, self.path.as_str())?;
            self.opened = Some(lock(file, true)?);
        }
        Ok(())
    }

    /// Opens and locks the file at the path, if there is one.
    fn find<R: Files<File = File>>(&self, files: &R) -> io::Result<Option<Opened>> {
        if self.path.is_empty() || self.other_path.is_empty() {
            return Err(Error::from(ErrorKind::InvalidInput));
        }
        let Some(opened) = open_existing(files, self.path.as_str())? else {
            return Ok(None);
        };
        if opened.is_what(fs::metadata(files, self.other_path.as_str()))? {
            return Err(Error::from(ErrorKind::AlreadyExists));
        }
        Ok(Some(opened))
    }
}

/// Opens and locks the file at a path, if there is one. What is no regular file, as a directory or a link, is an
/// error.
fn open_existing<R: Files<File = File>>(files: &R, path: &str) -> io::Result<Option<Opened>> {
    match fs::symlink_metadata(files, path) {
        Ok(metadata) if metadata.is_file() => Ok(Some(open_locked(files, path)?)),
        Ok(_) => Err(Error::from(ErrorKind::InvalidInput)),
        Err(e) if e.kind() == ErrorKind::NotFound => Ok(None),
        Err(e) => Err(e),
    }
}

/// Opens and locks a file for reading and writing, or where that isn't permitted for reading alone.
fn open_locked<R: Files<File = File>>(files: &R, path: &str) -> io::Result<Opened> {
    let mut options = OpenOptions::new();
    options.read(true).write(true);
    match options.open(files, path) {
        Ok(file) => lock(file, false),
        Err(e) if is_refusal(e.kind()) => lock_shared(File::open(files, path)?),
        Err(e) => Err(e),
    }
}

/// Whether a file that can't be opened for writing may still be read.
fn is_refusal(kind: ErrorKind) -> bool {
    kind == ErrorKind::PermissionDenied || kind == ErrorKind::ReadOnlyFilesystem
}
