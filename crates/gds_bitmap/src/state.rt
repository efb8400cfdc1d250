/// The state of a block, as its pair tells it.
#[derive(Clone, Copy, Debug, PartialEq, Eq)]
pub enum State {
    /// In use. Its pair is 00.
    Busy,
    /// Free, and never used. Its pair is 01.
    New,
    /// No state of a sound map. Its pair is 10.
    Illegal,
    /// Free, and used before. Its pair is 11.
    Recycled,
}

impl State {
    ghost use Rattle.std.specs.Prelude.{◌≡◌};
    ghost use Rattle.gds_bitmap.specs.State.{state_from, code_of};

    pub(crate) fn of_pair(pair: u8) -> State
        ensures { result ≡ state_from pair }
    {
        match pair {
            0 => State::Busy,
            1 => State::New,
            2 => State::Illegal,
            _ => State::Recycled,
        }
    }

    pub(crate) fn pair(self) -> u8
        ensures { result ≡ code_of self }
    {
        self as u8
    }
}
