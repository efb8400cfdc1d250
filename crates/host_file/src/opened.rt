use std::fs::{File, Metadata};
use std::io::{Error, ErrorKind};
use std::os::unix::fs::MetadataExt;
use std::path::Path;
use std::rt::Files;
use std::{fs, io};

/// A file that is open and locked.
#[derive(Drop)]
pub(crate) struct Opened {
    pub(crate) file: File,
    pub(crate) is_writable: bool,
    /// Which file it is, whatever its path leads to meanwhile.
    identity: Identity,
    /// Whether this program made the file.
    is_new: bool,
    /// Whether the file's entry in its folder was made stable.
    has_stable_entry: bool,
}

/// A device and the number of a file on it. Two names with the same two numbers are names of one file.
#[derive(Clone, Copy)]
struct Identity {
    device: u64,
    number: u64,
}

impl Identity {
    fn of(metadata: &Metadata) -> Identity {
        Identity {
            device: metadata.dev(),
            number: metadata.ino(),
        }
    }

    fn is(self, other: Identity) -> bool {
        self.device == other.device && self.number == other.number
    }
}

/// Takes the lock on a file that may be written, and that this program has just made or not.
pub(crate) fn lock(file: File, is_new: bool) -> io::Result<Opened> {
    file.try_lock()?;
    Ok(Opened {
        identity: Identity::of(&file.metadata()?),
        file,
        is_writable: true,
        is_new,
        has_stable_entry: false,
    })
}

/// Takes the lock on a file that may only be read.
pub(crate) fn lock_shared(file: File) -> io::Result<Opened> {
    file.try_lock_shared()?;
    Ok(Opened {
        identity: Identity::of(&file.metadata()?),
        file,
        is_writable: false,
        is_new: false,
        has_stable_entry: false,
    })
}

impl Opened {
    pub(crate) fn len(&self) -> io::Result<u64> {
        Ok(self.file.metadata()?.len())
    }

    /// Cuts the file to a length. Where it has that length the system isn't asked.
    pub(crate) fn cut(&self, len: u64) -> io::Result<()> {
        if self.len()? == len {
            return Ok(());
        }
        if !self.is_writable {
            return Err(Error::from(ErrorKind::PermissionDenied));
        }
        self.file.set_len(len)
    }

    /// Syncs the file, and the first time also its entry in the folder of this path.
    ///
    /// It fails where the file doesn't stand at the path any more, and the first time also where it has more names
    /// than one: by another name it would have other images.
    pub(crate) fn sync<R: Files<File = File>>(&mut self, files: &R, path: &str) -> io::Result<()> {
        if !self.is_what(fs::symlink_metadata(files, path))? {
            return Err(Error::from(ErrorKind::NotFound));
        }
        if self.has_stable_entry {
            return self.file.sync_all();
        }
        if self.file.metadata()?.nlink() > 1 {
            return Err(Error::from(ErrorKind::AlreadyExists));
        }
        self.file.sync_all()?;
        sync_folder(files, folder_of(path), self.is_new)?;
        self.has_stable_entry = true;
        Ok(())
    }

    /// Whether this file was found, where a path was looked at.
    pub(crate) fn is_what(&self, found: io::Result<Metadata>) -> io::Result<bool> {
        match found {
            Ok(metadata) => Ok(Identity::of(&metadata).is(self.identity)),
            Err(e) if e.kind() == ErrorKind::NotFound => Ok(false),
            Err(e) => Err(e),
        }
    }
}

/// Makes the entries of a folder stable. A folder that may not be read can't be opened for that, which matters where
/// this program made an entry of it alone.
fn sync_folder<R: Files<File = File>>(files: &R, folder: &str, is_new: bool) -> io::Result<()> {
    match File::open(files, folder) {
        Ok(folder) => folder.sync_all(),
        Err(e) if e.kind() == ErrorKind::PermissionDenied && !is_new => Ok(()),
        Err(e) => Err(e),
    }
}

/// The folder that the file at a path stands in.
fn folder_of(path: &str) -> &str {
    match Path::new(path).parent() {
        Some(folder) if !folder.as_str().is_empty() => folder.as_str(),
        _ => ".",
    }
}
