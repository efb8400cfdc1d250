ghost use Rattle.std.specs.Prelude.{◌≡◌, true, false, IfOk, MatchOption, drop, map, string_bytes};
ghost use Rattle.std.specs.List.{list_all};
ghost use Rattle.m_text.specs.Written.{is_printable};
ghost use Rattle.gds_words.specs.Words.{MakesHeader, command_in, alone, extract_of, leads_stamp, stamp_of};

use crate::create::read_create;
use arrayvec::ArrayVec;
use thiserror::Error;

/// The greatest length of an extract's stamp.
const STAMP_MAX: usize = 64;

/// How a word with a stamp begins.
const STAMP_NAME: [u8; 7] = *b"-STAMP=";

/// What the words of the command line ask for.
#[derive(Debug, PartialEq, Eq, Drop)]
pub enum Command {
    /// The name of the file format.
    Version,
    /// The faults of the database file.
    Integ,
    /// The nodes that the files stand for, as a text with this stamp in its second line.
    Extract {
        stamp: ArrayVec<u8, STAMP_MAX>,
    },
    /// A new database with these numbers.
    Create {
        /// The size of a block.
        block: u32,
        /// The most bytes of a key.
        key: u32,
        /// The most bytes of a value.
        value: u32,
        /// How many blocks the file has at first.
        alloc: u32,
        /// By how many blocks it grows.
        ext: u32,
        /// The most blocks that it may have.
        limit: u32,
    },
    /// The lines of a script, one after another.
    Run,
}

/// The words are no command. `place` is that of the first word that no command goes on with, counted
/// from 0, or the number of words where more of them were wanted.
#[derive(Clone, Copy, Debug, PartialEq, Eq, Error)]
#[error("word {place} fits no command")]
pub struct BadWords {
    pub place: usize,
}

/// The command that the words name. Letters of its name and of a qualifier's may have any case.
pub fn read_words(words: &[String]) -> Result<Command, BadWords>
    ensures command { result ≡ command_in words.now }
    ensures limits { IfOk result MakesHeader }
{
    let Some((name, rest)) = words.split_first() else {
        return Err(BadWords { place: 0 });
    };
    let name = name.as_str();
    if name.eq_ignore_ascii_case("VERSION") {
        alone(Command::Version, rest)
    } else if name.eq_ignore_ascii_case("INTEG") {
        alone(Command::Integ, rest)
    } else if name.eq_ignore_ascii_case("RUN") {
        alone(Command::Run, rest)
    } else if name.eq_ignore_ascii_case("CREATE") {
        read_create(rest)
    } else if name.eq_ignore_ascii_case("EXTRACT") {
        read_extract(rest)
    } else {
        Err(BadWords { place: 0 })
    }
}

/// A command that has no words behind its name.
fn alone(command: Command, rest: &[String]) -> Result<Command, BadWords>
    ensures { result ≡ alone command (map string_bytes rest.now) }
{
    if rest.is_empty() {
        Ok(command)
    } else {
        Err(BadWords { place: 1 })
    }
}

/// An extract, from the words behind its name.
fn read_extract(words: &[String]) -> Result<Command, BadWords>
    ensures command { result ≡ extract_of (map string_bytes words.now) }
    ensures limits { IfOk result MakesHeader }
{
    let Some((word, rest)) = words.split_first() else {
        return Ok(Command::Extract {
            stamp: ArrayVec::new(),
        });
    };
    match stamp_of(word.as_str()) {
        None => Err(BadWords { place: 1 }),
        Some(stamp) if rest.is_empty() => Ok(Command::Extract { stamp }),
        Some(_) => Err(BadWords { place: 2 }),
    }
}

/// The stamp that a word gives, as it is written.
fn stamp_of(word: &str) -> Option<ArrayVec<u8, STAMP_MAX>>
    ensures { result ≡ stamp_of word.now }
{
    let text = stamp_text(word.as_bytes())?;
    let mut stamp = ArrayVec::new();
    if stamp.try_extend_from_slice(text).is_ok() {
        Some(stamp)
    } else {
        None
    }
}

/// What stands behind the name of a stamp, all of it printable.
fn stamp_text(word: &[u8]) -> Option<&[u8]>
    ensures { MatchOption result (leads_stamp word.now ≡ false)
        (λ text. (leads_stamp word.now ≡ true) × (text.now ≡ drop 7 word.now)) }
{
    if word.len() < STAMP_NAME.len() {
        return None;
    }
    let (name, text) = word.split_at(STAMP_NAME.len());
    if name.eq_ignore_ascii_case(&STAMP_NAME) && are_printable(text) {
        Some(text)
    } else {
        None
    }
}

fn are_printable(text: &[u8]) -> bool
    ensures { result ≡ list_all is_printable text.now }
{
    text.iter().all(|b| *b >= 32 && *b <= 126)
}
