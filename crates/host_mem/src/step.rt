use host_model::FileNo;

/// A stretch of bytes in a file.
#[derive(Clone, Copy, Debug, PartialEq, Eq)]
pub struct Range {
    /// Its first byte.
    pub at: u64,
    /// The number of its bytes.
    pub len: usize,
}

/// A call that counts for what a crash may leave, with its clock number.
#[derive(Drop)]
pub enum Entry {
    /// A write; `done` says whether it succeeded.
    Write {
        number: u64,
        file: FileNo,
        at: u64,
        bytes: Vec<u8>,
        done: bool,
    },
    /// A cut to the first `len` bytes; `done` says whether it succeeded.
    Cut {
        number: u64,
        file: FileNo,
        len: u64,
        done: bool,
    },
    /// A sync that succeeded.
    Sync {
        number: u64,
        file: FileNo,
    },
    /// A saying that succeeded.
    Say {
        number: u64,
        bytes: Vec<u8>,
    },
}
