use std::alloc::AllocError;

/// Why a command has no answer.
#[derive(Clone, Copy, PartialEq, Eq)]
pub(crate) enum Trouble {
    /// Memory ran out.
    Memory,
    /// The words are no command.
    Words,
}

impl From<AllocError> for Trouble {
    fn from(_: AllocError) -> Trouble {
        Trouble::Memory
    }
}
