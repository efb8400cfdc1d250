ghost use Rattle.std.specs.Prelude.{◌≡◌, MatchOption, Some, None, true, false, if◌then◌else◌};
ghost use Rattle.std.specs.Char.{is_ascii_digit};
ghost use Rattle.std.specs.List.{list_all};
ghost use Rattle.m_text.specs.Grammar.{code_value};
ghost use Rattle.gds_words.specs.Create.{allows, default_of, gives, is_named, is_number, name_of, number_of, text_of};

/// A qualifier of CREATE, to which a word gives a number.
#[derive(Clone, Copy, Debug)]
pub(crate) enum Qualifier {
    Block,
    Key,
    Value,
    Alloc,
    Ext,
    Limit,
}

/// All of them.
pub(crate) const QUALIFIERS: [Qualifier; 6] = [
    Qualifier::Block,
    Qualifier::Key,
    Qualifier::Value,
    Qualifier::Alloc,
    Qualifier::Ext,
    Qualifier::Limit,
];

impl Qualifier {
    /// How its word begins.
    fn name(self) -> &'static [u8]
        ensures { result.now ≡ name_of self }
    {
        match self {
            Qualifier::Block => b"-BLOCK=".as_slice(),
            Qualifier::Key => b"-KEY=".as_slice(),
            Qualifier::Value => b"-VALUE=".as_slice(),
            Qualifier::Alloc => b"-ALLOC=".as_slice(),
            Qualifier::Ext => b"-EXT=".as_slice(),
            Qualifier::Limit => b"-LIMIT=".as_slice(),
        }
    }

    /// Its number where no word gives one.
    pub(crate) fn default(self) -> u32
        ensures { result ≡ default_of self }
    {
        match self {
            Qualifier::Block => 1024,
            Qualifier::Key => 64,
            Qualifier::Value => 400,
            Qualifier::Alloc | Qualifier::Ext => 100,
            Qualifier::Limit => 1_048_576,
        }
    }

    /// Whether it may have the number, whatever those of the others are.
    fn allows(self, number: u64) -> bool
        ensures { result ≡ allows self number }
    {
        match self {
            Qualifier::Block => 512 <= number && number <= 65_024 && number % 512 == 0,
            Qualifier::Key => 3 <= number && number <= 255,
            Qualifier::Value => number <= 65_024,
            Qualifier::Alloc => 3 <= number && number <= 1_048_576,
            Qualifier::Ext => 64 <= number && number <= 65_535,
            Qualifier::Limit => 64 <= number && number <= 1_048_576,
        }
    }

    /// What stands behind its name in the word.
    fn text(self, word: &[u8]) -> Option<&[u8]>
        ensures { MatchOption result (is_named self word.now ≡ false)
            (λ text. (is_named self word.now ≡ true) × (text.now ≡ text_of self word.now)) }
    {
        let name = self.name();
        if word.len() < name.len() {
            return None;
        }
        let (front, text) = word.split_at(name.len());
        if front.eq_ignore_ascii_case(name) {
            Some(text)
        } else {
            None
        }
    }

    /// Whether the word gives it a number.
    pub(crate) fn is_given(self, word: &[u8]) -> bool
        ensures { result ≡ gives self word.now }
    {
        self.number(word).is_some()
    }

    /// The number that the word gives it.
    #[tactic(auto, unfolding(crate::specs::Create::gives))]
    pub(crate) fn number(self, word: &[u8]) -> Option<u32>
        ensures { result ≡ (if gives self word.now then Some (number_of self word.now) else None) }
    {
        let text = self.text(word)?;
        let number = number_of(text)?;
        if self.allows(number) {
            Some(number as u32)
        } else {
            None
        }
    }
}

/// The number that 1 to 10 digits are.
fn number_of(text: &[u8]) -> Option<u64>
    ensures { result ≡ (if is_number text.now then Some (code_value text.now) else None) }
{
    if !is_number(text) {
        return None;
    }
    let mut value = 0;
    for digit in text {
        value = 10 * value + u64::from(*digit - b'0');
    }
    Some(value)
}

fn is_number(text: &[u8]) -> bool
    ensures { result ≡ is_number text.now }
{
    (1..=10).contains(&text.len()) && are_digits(text)
}

fn are_digits(text: &[u8]) -> bool
    ensures { result ≡ list_all is_ascii_digit text.now }
{
    text.iter().all(|b| b.is_ascii_digit())
}
