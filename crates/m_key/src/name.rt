ghost use Rattle.std.specs.Prelude.{◌≡◌, ◌==◌, ◌||◌, ◌↔◌, IsSome, IfSome};
ghost use Rattle.std.specs.Char.{is_ascii_alphabetic, is_ascii_alphanumeric};
ghost use Rattle.std.specs.List.{list_all};
ghost use Rattle.m_key.specs.Node.{IsName, is_word, is_name};

use arrayvec::ArrayVec;

/// The name of a global: a letter or `%`, and then letters and digits, 31 bytes at most.
#[derive(Debug, PartialEq, Eq, Drop)]
pub struct Name {
    bytes: ArrayVec<u8, 31>,
    pub ghost is_name: { IsName bytes.items },
}

impl Name {
    ghost use Rattle.m_key.specs.Reference.{name_bytes};

    /// The bytes of the name.
    pub fn bytes(&self) -> &[u8]
        ensures { result.now ≡ name_bytes self.now }
    {
        self.bytes.as_slice()
    }

    pub(crate) fn of(bytes: &[u8]) -> Option<Name>
        ensures variant { IsSome result ↔ IsName bytes.now }
        ensures value { IfSome result (λ n. name_bytes n ≡ bytes.now) }
    {
        let mut name = ArrayVec::new();
        if is_name(bytes) && name.try_extend_from_slice(bytes).is_ok() {
            Some(Name { bytes: name })
        } else {
            None
        }
    }
}

/// Whether these bytes are a name.
pub fn is_name(bytes: &[u8]) -> bool
    ensures { result ≡ is_name bytes.now }
{
    bytes.len() <= 31 && is_word(bytes)
}

fn is_word(bytes: &[u8]) -> bool
    ensures { result ≡ is_word bytes.now }
{
    match bytes {
        [] => false,
        [first, rest @ ..] => is_front(*first) && are_alphanumeric(rest),
    }
}

fn is_front(byte: u8) -> bool
    ensures { result ≡ (byte == 37 || is_ascii_alphabetic byte) }
{
    byte == b'%' || byte.is_ascii_alphabetic()
}

fn are_alphanumeric(bytes: &[u8]) -> bool
    ensures { result ≡ list_all is_ascii_alphanumeric bytes.now }
{
    bytes.iter().all(|b| b.is_ascii_alphanumeric())
}
