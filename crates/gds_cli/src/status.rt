ghost use Rattle.std.specs.Prelude.{◌≡◌};
ghost use Rattle.gds_cli.specs.Status.{code_of};

/// How a call of the program ends. The numbers are the exit statuses.
#[derive(Clone, Copy, Debug, PartialEq, Eq)]
pub enum Status {
    /// The command did all of its work.
    Done = 0,
    /// Memory ran out.
    Memory = 1,
    /// A file could not be read.
    ReadFault = 2,
    /// A file could not be written.
    WriteFault = 3,
    /// Standard output failed.
    SayFault = 4,
    /// Standard input failed.
    InputFault = 5,
    /// The input is longer than 2^40 bytes.
    InputTooLong = 6,
    /// The words are no command.
    BadWords = 7,
    /// A file that was to be made is there.
    NotEmpty = 8,
    /// The file of before images is damaged.
    BadImages = 9,
    /// The database has faults.
    Unsound = 10,
    /// A file changed under the program.
    Changed = 11,
    /// No room is left below the limit of blocks.
    Full = 13,
    /// A tree is as deep as it may be.
    TooDeep = 14,
    /// A line of the input is no line of its command.
    BadLine = 15,
    /// A key or a value is too long, or a value can't be written.
    Refused = 16,
    /// The transaction numbers are used up.
    TnSpent = 18,
    /// There is no such block.
    NoBlock = 19,
    /// The edit can't be made.
    BadEdit = 20,
    /// The snapshot was lost.
    SnapshotLost = 21,
    /// The command isn't built for this file yet.
    NotBuilt = 22,
}

impl Status {
    /// The exit status.
    pub fn code(&self) -> u8
        ensures { result ≡ code_of self.now }
    {
        *self as u8
    }
}
