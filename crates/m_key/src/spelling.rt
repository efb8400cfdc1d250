ghost use Rattle.std.specs.Prelude.{◌≡◌, ◌<◌, ◌↔◌, ℕ, length, IsSome, IfSome, IfOk, OnErr};
ghost use Rattle.m_number.specs.Numeral.{Numeral, IsNumeral};
ghost use Rattle.m_number.specs.Text.{text_of};
ghost use Rattle.m_key.specs.Node.{IsName, spelled};
ghost use Rattle.m_key.specs.Reference.{name_bytes, node_subscript_of};

use crate::{Name, Subscript, Text};
use m_number::parse_canonical;
use std::alloc::{AllocError, Global};

/// The name of these bytes, where they are one.
pub fn name_of(bytes: &[u8]) -> Option<Name>
    ensures variant { IsSome result ↔ IsName bytes.now }
    ensures value { IfSome result (λ n. name_bytes n ≡ bytes.now) }
{
    Name::of(bytes)
}

/// The subscript that a text is: the number where it is a canonical number, and else the string.
/// The text isn't empty. Only a string takes memory.
pub fn subscript_of(alloc: Global, text: &[u8]) -> Result<Subscript, AllocError>
    requires { 0 < length text.now }
    ensures ok { IfOk result (λ s. spelled (node_subscript_of s) ≡ text.now) }
    ensures err { OnErr result ((n : Numeral) → IsNumeral n → text_of n ≡ text.now → ⊥) }
{
    match parse_canonical(text) {
        Some(number) => Ok(Subscript::Num(number)),
        None => Ok(Subscript::Text(Text::of(Vec::from_slice(alloc, text)?))),
    }
}
