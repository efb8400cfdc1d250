ghost use Rattle.std.specs.Prelude.{◌≡◌, ◌≤◌, ℕ, List, length, map, vec_len, IfOk, IfSome, IfNone};
ghost use Rattle.std.specs.List.{prefix_len, AllByRecursion};
ghost use Rattle.m_key.specs.Node.{NodeSubscript, IsSubscript};
ghost use Rattle.m_key.specs.Reference.{node_subscript_of};
ghost use Rattle.m_text.specs.Front.{is_number_byte};
ghost use Rattle.m_text.specs.FrontSubscripts.{StandsAt, IsEnded, ListStandsAt};

use crate::reading::read_string;
use m_key::{SUBSCRIPT_LIMIT, Subscript, subscript_of};
use m_number::parse_canonical;
use std::alloc::{AllocError, Global};

/// The subscripts at the front of the text, up to the ')' behind them, and the text behind that.
pub(crate) fn read_subscripts(
    alloc: Global,
    text: &[u8],
) -> Result<Option<(Vec<Subscript>, &[u8])>, AllocError>
    ensures count { IfOk result (λ o. IfSome o (λ found. vec_len found.0 ≤ 31)) }
    ensures found { IfOk result (λ o. IfSome o (λ found.
        ListStandsAt text.now (map node_subscript_of found.0.items) found.1.now)) }
    ensures only { IfOk result (λ o. IfSome o (λ found. (ss : List NodeSubscript) (rest : List ℕ) →
        AllByRecursion IsSubscript ss → length ss ≤ 31 → ListStandsAt text.now ss rest → rest ≡ found.1.now)) }
    ensures none { IfOk result (λ o. IfNone o ((ss : List NodeSubscript) (rest : List ℕ) →
        AllByRecursion IsSubscript ss → length ss ≤ 31 → ListStandsAt text.now ss rest → ⊥)) }
{
    let mut items = Vec::new(alloc);
    let mut string = Vec::new(alloc);
    let mut rest = text;
    for _i in 0..SUBSCRIPT_LIMIT {
        let Some((subscript, after)) = read_subscript(alloc, rest, &mut string)? else {
            return Ok(None);
        };
        items.push(subscript)?;
        if let Some(more) = after.strip_prefix(b",") {
            rest = more;
        } else {
            let Some(behind) = after.strip_prefix(b")") else {
                return Ok(None);
            };
            return Ok(Some((items, behind)));
        }
    }
    Ok(None)
}

/// The subscript at the front of the text, and the text behind it. What `string` holds doesn't matter.
pub(crate) fn read_subscript<'a>(
    alloc: Global,
    text: &'a [u8],
    string: &mut Vec<u8>,
) -> Result<Option<(Subscript, &'a [u8])>, AllocError>
    ensures found { IfOk result (λ o. IfSome o (λ found. StandsAt text.now (node_subscript_of found.0) found.1.now)) }
    ensures only { IfOk result (λ o. IfSome o (λ found. (s : NodeSubscript) (rest : List ℕ) →
        IsEnded rest → StandsAt text.now s rest → rest ≡ found.1.now)) }
    ensures none { IfOk result (λ o. IfNone o ((s : NodeSubscript) (rest : List ℕ) →
        IsSubscript s → IsEnded rest → StandsAt text.now s rest → ⊥)) }
{
    let count = number_len(text);
    if count > 0 {
        let Some(number) = parse_canonical(&text[..count]) else {
            return Ok(None);
        };
        return Ok(Some((Subscript::Num(number), &text[count..])));
    }
    string.clear();
    let Some(rest) = read_string(text, string)? else {
        return Ok(None);
    };
    let bytes = string.as_slice();
    if bytes.is_empty() {
        return Ok(None);
    }
    let subscript = subscript_of(alloc, bytes)?;
    Ok(Some((subscript, rest)))
}

/// How many bytes the text begins with that a number may have.
fn number_len(text: &[u8]) -> usize
    ensures { result ≡ prefix_len is_number_byte text.now }
{
    text.iter()
        .take_while(|b| **b == b'-' || **b == b'.' || b.is_ascii_digit())
        .count()
}
