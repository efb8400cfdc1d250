use crate::trouble::Trouble;
use gds_header::Header;
use host_mem::MemHost;
use std::alloc::{AllocError, Global};
use std::mem;

/// Both files of a database.
#[derive(Drop)]
pub(crate) struct Files {
    pub(crate) db: Vec<u8>,
    pub(crate) images: Vec<u8>,
}

impl Files {
    pub(crate) fn copy(&self, alloc: Global) -> Result<Files, AllocError> {
        copied(alloc, &self.db, &self.images)
    }
}

fn copied(alloc: Global, db: &[u8], images: &[u8]) -> Result<Files, AllocError> {
    let db = db.to_vec(alloc)?;
    let images = images.to_vec(alloc)?;
    Ok(Files { db, images })
}

/// Files under a name.
#[derive(Drop)]
pub(crate) struct Saved {
    pub(crate) name: Vec<u8>,
    pub(crate) files: Files,
}

/// What a task is given beside its host.
#[derive(Drop)]
pub(crate) struct Given {
    /// The numbers of a database that is made.
    pub(crate) numbers: Header,
    /// The bytes of the input.
    pub(crate) input: Vec<u8>,
    /// How many of them the source gives at a time.
    pub(crate) piece: usize,
    /// The takes of the source that fail.
    pub(crate) takes: Vec<u64>,
    /// The script that asks what an opening found.
    pub(crate) questions: Vec<u8>,
}

/// What commands work on.
#[derive(Drop)]
pub(crate) struct Bench {
    /// The host, whose calls so far are counted.
    pub(crate) host: MemHost,
    /// What the next task is given.
    pub(crate) given: Given,
    /// Files that were saved. A new case keeps them.
    pub(crate) saved: Vec<Saved>,
}

/// The numbers of a database of 100 blocks of 1,024 bytes.
pub(crate) const HUNDRED: Header = Header {
    block_size: 1024,
    total: 100,
    free: 0,
    extension: 100,
    limit: 1_048_576,
    key_max: 64,
    value_max: 400,
    tn: 0,
    master: [0; 256],
};

/// How many bytes a source gives at a time where nothing else is said.
const PIECE: usize = 65_536;

/// What a new case gives to its tasks.
pub(crate) fn nothing_given(alloc: Global) -> Given {
    Given {
        numbers: HUNDRED,
        input: Vec::new(alloc),
        piece: PIECE,
        takes: Vec::new(alloc),
        questions: Vec::new(alloc),
    }
}

/// A host of no files.
pub(crate) fn empty_host(alloc: Global) -> MemHost {
    MemHost::new(alloc, Vec::new(alloc), Vec::new(alloc), Vec::new(alloc))
}

/// A host with these files, of which the calls with these numbers fail.
pub(crate) fn host_of(files: Files, failing: Vec<u64>) -> MemHost {
    let alloc = *failing.allocator();
    let Files { db, images } = files;
    MemHost::new(alloc, db, images, failing)
}

/// A host with these files, of which each call past so many fails.
pub(crate) fn fused_host(alloc: Global, files: Files, calls: u64) -> MemHost {
    let mut host = host_of(files, Vec::new(alloc));
    host.fuse(calls);
    host
}

/// The host, in whose place an empty one stands.
pub(crate) fn take_host(alloc: Global, host: &mut MemHost) -> MemHost {
    mem::replace(host, empty_host(alloc))
}

/// The files that a host holds.
pub(crate) fn files_of(alloc: Global, host: &MemHost) -> Result<Files, AllocError> {
    let (db, images, _) = host.parts();
    copied(alloc, db, images)
}

/// The database file, the file of images, and what was said.
pub(crate) fn parts_of(host: &MemHost) -> (&[u8], &[u8], &[u8]) {
    host.parts()
}

/// What a crash in this way leaves, with what was said.
pub(crate) fn crashed(host: MemHost, way: u64) -> Result<MemHost, AllocError> {
    host.crash(way)
}

/// Both files as a crash in this way leaves them.
pub(crate) fn crashed_files(alloc: Global, host: MemHost, way: u64) -> Result<Files, AllocError> {
    match crashed(host, way) {
        Ok(left) => files_of(alloc, &left),
        Err(error) => Err(error),
    }
}

impl Bench {
    pub(crate) fn new(alloc: Global) -> Bench {
        Bench {
            host: empty_host(alloc),
            given: nothing_given(alloc),
            saved: Vec::new(alloc),
        }
    }
}

/// The files that were saved under a name last.
pub(crate) fn saved_as<'a>(saved: &'a [Saved], name: &[u8]) -> Result<&'a Files, Trouble> {
    let mut found = Err(Trouble::Words);
    for one in saved {
        if one.name.as_slice() == name {
            found = Ok(&one.files);
        }
    }
    found
}
