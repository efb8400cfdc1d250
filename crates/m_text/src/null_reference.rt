//! References whose last subscript is the null one.
ghost use Rattle.std.specs.Prelude.{◌≡◌, ◌<◌, ◌∷◌, ◌++◌, [], ℕ, List, length, map, vec_len, true, IfOk, IfSome, IfNone};
ghost use Rattle.std.specs.List.{AllByRecursion};
ghost use Rattle.m_key.specs.Node.{Node, NodeSubscript, IsSubscript};
ghost use Rattle.m_key.specs.Reference.{node_subscript_of, node_of};
ghost use Rattle.m_text.specs.Grammar.{IsNullReferenceText};
ghost use Rattle.m_text.specs.FrontSubscripts.{null, StandsAt, ListStandsAt};

use crate::reading::read_string;
use crate::reference::read_name;
use crate::subscripts::read_subscript;
use m_key::{Reference, SUBSCRIPT_LIMIT, Subscript, Subscripts};
use std::alloc::{AllocError, Global};

/// The reference that the whole text is without its last subscript, where that one is null.
pub fn read_null_reference(alloc: Global, text: &[u8]) -> Result<Option<Reference>, AllocError>
    ensures some { IfOk result (λ o. IfSome o (λ read. IsNullReferenceText text.now (node_of read))) }
    ensures none { IfOk result (λ o. IfNone o ((node : Node) → IsNullReferenceText text.now node → ⊥)) }
{
    let Some(behind) = text.strip_prefix(b"^") else {
        return Ok(None);
    };
    let Some((name, rest)) = read_name(behind) else {
        return Ok(None);
    };
    let Some(inside) = rest.strip_prefix(b"(") else {
        return Ok(None);
    };
    let Some(items) = read_before_null(alloc, inside)? else {
        return Ok(None);
    };
    let subscripts = Subscripts::new(items);
    Ok(Some(Reference { name, subscripts }))
}

/// The subscripts before the null one, which ends the text with a ')' behind it.
fn read_before_null(alloc: Global, text: &[u8]) -> Result<Option<Vec<Subscript>>, AllocError>
    ensures count { IfOk result (λ o. IfSome o (λ items. vec_len items < 31)) }
    ensures found { IfOk result (λ o. IfSome o (λ items.
        ListStandsAt text.now (map node_subscript_of items.items ++ null ∷ []) [])) }
    ensures none { IfOk result (λ o. IfNone o ((ss : List NodeSubscript) →
        AllByRecursion IsSubscript ss → length ss < 31 → ListStandsAt text.now (ss ++ null ∷ []) [] → ⊥)) }
{
    let mut items = Vec::new(alloc);
    let mut string = Vec::new(alloc);
    let mut rest = text;
    for _i in 0..SUBSCRIPT_LIMIT {
        let Some((subscript, after)) = read_subscript(alloc, rest, &mut string)? else {
            if is_last_null(rest, &mut string)? {
                return Ok(Some(items));
            }
            return Ok(None);
        };
        let Some(more) = after.strip_prefix(b",") else {
            return Ok(None);
        };
        items.push(subscript)?;
        rest = more;
    }
    Ok(None)
}

/// Whether the text is the null subscript and a ')'. What `string` holds doesn't matter.
fn is_last_null(text: &[u8], string: &mut Vec<u8>) -> Result<bool, AllocError>
    ensures yes { IfOk result (λ is. is ≡ true → StandsAt text.now null (41 ∷ [])) }
    ensures no { IfOk result (λ is. StandsAt text.now null (41 ∷ []) → is ≡ true) }
{
    string.clear();
    let Some(rest) = read_string(text, string)? else {
        return Ok(false);
    };
    Ok(string.is_empty() && rest == b")".as_slice())
}
