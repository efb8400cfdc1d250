//! The words of CREATE.
ghost use Rattle.std.specs.Prelude.{◌≡◌, ◌<◌, IfOk, IfSome, length, map, string_bytes};
ghost use Rattle.std.specs.List.{list_any};
ghost use Rattle.gds_words.specs.Create.{fit, gives, goes_on, number_in, odd_place};
ghost use Rattle.gds_words.specs.Words.{MakesHeader, create_of};

use crate::qualifier::{QUALIFIERS, Qualifier};
use crate::words::{BadWords, Command};

/// What CREATE makes, from the words behind its name.
pub(crate) fn read_create(words: &[String]) -> Result<Command, BadWords>
    ensures command { result ≡ create_of (map string_bytes words.now) }
    ensures limits { IfOk result MakesHeader }
{
    if let Some(place) = odd_place(words) {
        return Err(BadWords { place: place + 1 });
    }
    let block = number_in(words, Qualifier::Block);
    let key = number_in(words, Qualifier::Key);
    let value = number_in(words, Qualifier::Value);
    let alloc = number_in(words, Qualifier::Alloc);
    let ext = number_in(words, Qualifier::Ext);
    let limit = number_in(words, Qualifier::Limit);
    if !fit(block, key, value, alloc, limit) {
        return Err(BadWords {
            place: words.len() + 1,
        });
    }
    Ok(Command::Create {
        block,
        key,
        value,
        alloc,
        ext,
        limit,
    })
}

/// The place of the first word that doesn't go on behind those before it.
fn odd_place(words: &[String]) -> Option<usize>
    ensures place { result ≡ odd_place (map string_bytes words.now) }
    ensures within { IfSome result (λ n. n < length words.now) }
{
    for place in 0..words.len() {
        if !goes_on(&words[..place], words[place].as_bytes()) {
            return Some(place);
        }
    }
    None
}

/// Whether the word gives a qualifier that none before it gives.
#[tactic(auto, unfolding(crate::specs::Create::goes_on))]
fn goes_on(before: &[String], word: &[u8]) -> bool
    ensures { result ≡ goes_on (map string_bytes before.now) word.now }
{
    QUALIFIERS.iter().any(|qualifier| qualifier.is_given(word) && !is_among(*qualifier, before))
}

/// Whether one of the words gives the qualifier.
fn is_among(qualifier: Qualifier, words: &[String]) -> bool
    ensures { result ≡ list_any (gives qualifier) (map string_bytes words.now) }
{
    words.iter().any(|word| qualifier.is_given(word.as_bytes()))
}

/// The number of the qualifier.
fn number_in(words: &[String], qualifier: Qualifier) -> u32
    ensures { result ≡ number_in qualifier (map string_bytes words.now) }
{
    for word in words {
        if let Some(number) = qualifier.number(word.as_bytes()) {
            return number;
        }
    }
    qualifier.default()
}

/// Whether the numbers may stand together.
fn fit(block: u32, key: u32, value: u32, alloc: u32, limit: u32) -> bool
    ensures { result ≡ fit block key value alloc limit }
{
    let block = u64::from(block);
    let key = u64::from(key);
    let value = u64::from(value);
    16 + 3 * (8 + key) <= block && 20 + key + value <= block && alloc <= limit
}
