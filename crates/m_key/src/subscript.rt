ghost use Rattle.std.specs.Prelude.{◌≡◌, ◌<◌, ℕ, length, IsSome, IfSome, IfNone, IfOk, OnErr};
ghost use Rattle.m_number.specs.Numeral.{Numeral, IsNumeral};
ghost use Rattle.m_number.specs.Text.{text_of};
ghost use Rattle.m_key.specs.Node.{IsText};

use m_number::Number;

/// A string as a subscript. It isn't empty, and no canonical number has this text.
#[derive(Debug, PartialEq, Eq, Drop)]
pub struct Text {
    bytes: Vec<u8>,
    pub ghost is_text: { IsText bytes.items },
}

impl Text {
    ghost use Rattle.m_key.specs.Reference.{text_bytes};

    /// The bytes of the string.
    pub fn bytes(&self) -> &[u8]
        ensures { result.now ≡ text_bytes self.now }
    {
        self.bytes.as_slice()
    }

    /// The string of these bytes, which aren't empty and aren't the text of a canonical number.
    pub(crate) fn of(bytes: Vec<u8>) -> Text
        requires not_null { 0 < length bytes.items }
        requires no_number { (n : Numeral) → IsNumeral n → text_of n ≡ bytes.items → ⊥ }
        ensures { text_bytes result ≡ bytes.items }
    {
        Text { bytes }
    }
}

/// A subscript.
#[derive(Debug, PartialEq, Eq, Drop)]
pub enum Subscript {
    /// A canonical number.
    Num(Number),
    /// Any other text.
    Text(Text),
}
