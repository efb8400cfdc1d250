//! The verbs that lines of a script begin with.
ghost use Rattle.std.specs.Prelude.{◌≡◌, ◌++◌, ℕ, List, IfNone, IfSome};
ghost use Rattle.gds_words.specs.Verb.{verb_text};

/// What a line begins with, where something stands behind it.
#[derive(Clone, Copy, Debug)]
pub(crate) enum Verb {
    Set,
    Kill,
    Get,
    Order,
    DataOf,
    Query,
}

/// The verb at the front of a line, and the text behind it and one space.
pub(crate) fn read_verb(line: &[u8]) -> Option<(Verb, &[u8])>
    ensures some { IfSome result (λ found. line.now ≡ verb_text found.0 ++ found.1.now) }
    ensures none { IfNone result ((verb : Verb) (text : List ℕ) → line.now ≡ verb_text verb ++ text → ⊥) }
{
    if let Some(text) = line.strip_prefix(b"SET ") {
        return Some((Verb::Set, text));
    }
    if let Some(text) = line.strip_prefix(b"KILL ") {
        return Some((Verb::Kill, text));
    }
    if let Some(text) = line.strip_prefix(b"GET ") {
        return Some((Verb::Get, text));
    }
    if let Some(text) = line.strip_prefix(b"ORDER ") {
        return Some((Verb::Order, text));
    }
    if let Some(text) = line.strip_prefix(b"DATA ") {
        return Some((Verb::DataOf, text));
    }
    if let Some(text) = line.strip_prefix(b"QUERY ") {
        return Some((Verb::Query, text));
    }
    None
}
