ghost use Rattle.std.specs.Prelude.{◌≡◌, ◌≤◌, ◌∷◌, ◌++◌, ℕ, List, length, take, map, vec_len, IfOk, IfSome, IfNone};
ghost use Rattle.std.specs.Char.{is_ascii_alphanumeric};
ghost use Rattle.std.specs.List.{AllByRecursion, prefix_len};
ghost use Rattle.m_key.specs.Node.{Node, NodeSubscript, IsName, IsSubscript};
ghost use Rattle.m_key.specs.Reference.{name_bytes, node_subscript_of, node_of};
ghost use Rattle.m_text.specs.Grammar.{IsReferenceText};
ghost use Rattle.m_text.specs.FrontSubscripts.{ListStandsAt, longest_name};

use crate::subscripts::read_subscripts;
use m_key::{Name, Reference, Subscript, Subscripts, name_of};
use std::alloc::{AllocError, Global};

/// The reference at the front of the text, and how many bytes it has. The longest one is taken.
pub fn read_reference(alloc: Global, text: &[u8]) -> Result<Option<(Reference, usize)>, AllocError>
    ensures within { IfOk result (λ o. IfSome o (λ found. found.1 ≤ length text.now)) }
    ensures some { IfOk result (λ o. IfSome o (λ found. IsReferenceText (take found.1 text.now) (node_of found.0))) }
    ensures longest { IfOk result (λ o. IfSome o (λ found. (len : ℕ) (node : Node) →
        len ≤ length text.now → IsReferenceText (take len text.now) node → len ≤ found.1)) }
    ensures none { IfOk result (λ o. IfNone o
        ((len : ℕ) (node : Node) → IsReferenceText (take len text.now) node → ⊥)) }
{
    let Some(behind) = text.strip_prefix(b"^") else {
        return Ok(None);
    };
    let Some((name, rest)) = read_name(behind) else {
        return Ok(None);
    };
    match read_list(alloc, rest)? {
        Some((items, end)) => {
            let subscripts = Subscripts::new(items);
            Ok(Some((Reference { name, subscripts }, text.len() - end.len())))
        }
        None => {
            let subscripts = Subscripts::new(Vec::new(alloc));
            Ok(Some((Reference { name, subscripts }, text.len() - rest.len())))
        }
    }
}

/// The longest name at the front of the text, and the text behind it.
pub(crate) fn read_name(text: &[u8]) -> Option<(Name, &[u8])>
    ensures found { IfSome result (λ found. text.now ≡ name_bytes found.0 ++ found.1.now) }
    ensures longest { IfSome result (λ found. length (name_bytes found.0) ≡ longest_name text.now) }
    ensures none { IfNone result ((name rest : List ℕ) → IsName name → text.now ≡ name ++ rest → ⊥) }
{
    let len = longest_name(text);
    let name = name_of(&text[..len])?;
    Some((name, &text[len..]))
}

/// How many bytes a name at the front of the text has at most.
fn longest_name(text: &[u8]) -> usize
    ensures within { result ≤ length text.now }
    ensures value { result ≡ longest_name text.now }
{
    match text {
        [] => 0,
        [_, rest @ ..] => alphanumeric_len(rest).min(30) + 1,
    }
}

fn alphanumeric_len(text: &[u8]) -> usize
    ensures within { result ≤ length text.now }
    ensures value { result ≡ prefix_len is_ascii_alphanumeric text.now }
{
    text.iter()
        .take_while(|b| b.is_ascii_alphanumeric())
        .count()
}

/// The subscripts in parentheses at the front of the text, and the text behind them.
fn read_list(alloc: Global, text: &[u8]) -> Result<Option<(Vec<Subscript>, &[u8])>, AllocError>
    ensures count { IfOk result (λ o. IfSome o (λ found. vec_len found.0 ≤ 31)) }
    ensures found { IfOk result (λ o. IfSome o (λ found. (inside : List ℕ) × (text.now ≡ 40 ∷ inside)
        × ListStandsAt inside (map node_subscript_of found.0.items) found.1.now)) }
    ensures only { IfOk result (λ o. IfSome o (λ found. (inside rest : List ℕ) (ss : List NodeSubscript) →
        AllByRecursion IsSubscript ss → length ss ≤ 31 → text.now ≡ 40 ∷ inside → ListStandsAt inside ss rest
        → rest ≡ found.1.now)) }
    ensures none { IfOk result (λ o. IfNone o ((inside rest : List ℕ) (ss : List NodeSubscript) →
        AllByRecursion IsSubscript ss → length ss ≤ 31 → text.now ≡ 40 ∷ inside → ListStandsAt inside ss rest → ⊥)) }
{
    let Some(inside) = text.strip_prefix(b"(") else {
        return Ok(None);
    };
    let Some((items, rest)) = read_subscripts(alloc, inside)? else {
        return Ok(None);
    };
    Ok(Some((items, rest)))
}
