use host_model::FileNo;

/// A call of a memory host, with its clock number: 1 for the first call.
#[derive(Clone, Copy, Debug, PartialEq, Eq)]
pub enum Call {
    /// The length of a file was asked for.
    Len {
        number: u64,
        file: FileNo,
    },
    /// A file was read from the byte `at` on, into a buffer of `len` bytes.
    Read {
        number: u64,
        file: FileNo,
        at: u64,
        len: usize,
    },
    /// So many bytes were to be written into a file from the byte `at` on.
    Write {
        number: u64,
        file: FileNo,
        at: u64,
        len: usize,
    },
    /// A file was to be cut to its first `len` bytes.
    Cut {
        number: u64,
        file: FileNo,
        len: u64,
    },
    /// A file was to be made stable.
    Sync {
        number: u64,
        file: FileNo,
    },
    /// So many bytes were to be said.
    Say {
        number: u64,
        len: usize,
    },
}
