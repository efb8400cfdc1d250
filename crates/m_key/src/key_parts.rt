ghost use Rattle.std.specs.Prelude.{◌≡◌, ◌<◌, ◌-◌, ◌∷◌, ◌++◌, length, take, nat_lt, All, IfSome, IfNone};
ghost use Rattle.std.specs.Iterator.{YieldsFirstRef, item_count};
ghost use Rattle.m_key.specs.KeyParts.{name_part, subscript_parts};

use std::marker::Model;

/// The name in a key: its bytes before the first 0.
pub fn name_part(key: &[u8]) -> &[u8]
    ensures { result.now ≡ name_part key.now }
{
    match split_at_zero(key) {
        Some((name, _)) => name,
        None => key,
    }
}

/// The subscripts in a key, in order, seen as the list of those that are left. A 0 stands behind each, and none in one.
#[derive(Drop)]
pub struct SubscriptParts<'a> {
    /// Their bytes, with a 0 between any two, where a subscript is left.
    left: Option<&'a [u8]>,
}

impl<'a> Model for SubscriptParts<'a> {
    ghost use Rattle.std.specs.Prelude.{ℕ, List};
    ghost use Rattle.m_key.specs.KeyParts.{parts_left};

    ghost Value = { List (List ℕ) };

    ghost view = { λ it. parts_left it.left };
}

/// The subscripts in a key.
pub fn subscript_parts(key: &[u8]) -> SubscriptParts<'_>
    ensures { result ≡ subscript_parts key.now }
{
    match split_at_zero(without_end(key)) {
        Some((_, left)) => SubscriptParts { left: Some(left) },
        None => SubscriptParts { left: None },
    }
}

impl<'a> Iterator for SubscriptParts<'a> {
    type Item = &'a [u8];

    ghost next_gives = { YieldsFirstRef (λ left. left) };

    ghost remaining = { item_count (λ left. left) };

    fn next(&mut self) -> Option<&'a [u8]> {
        let left = self.left?;
        match split_at_zero(left) {
            Some((part, more)) => {
                self.left = Some(more);
                Some(part)
            }
            None => {
                self.left = None;
                Some(left)
            }
        }
    }
}

/// How many subscripts a key has.
pub fn subscript_count(key: &[u8]) -> usize
    ensures { result ≡ length (subscript_parts key.now) }
{
    subscript_parts(key).count()
}

/// Whether a key has a subscript.
pub fn has_subscripts(key: &[u8]) -> bool
    ensures { result ≡ nat_lt 0 (length (subscript_parts key.now)) }
{
    subscript_parts(key).next().is_some()
}

/// The bytes of a key without the last two, which end it.
fn without_end(key: &[u8]) -> &[u8]
    ensures { result.now ≡ take (length key.now - 2) key.now }
{
    &key[..key.len().saturating_sub(2)]
}

/// What stands before the first 0 and what stands behind it, where there is a 0.
pub fn split_at_zero(bytes: &[u8]) -> Option<(&[u8], &[u8])>
    ensures some { IfSome result (λ s. s.0.now ++ 0 ∷ s.1.now ≡ bytes.now) }
    ensures first { IfSome result (λ s. All (λ b. 0 < b) s.0.now) }
    ensures none { IfNone result (All (λ b. 0 < b) bytes.now) }
{
    let end = bytes.iter().position(|b| *b == 0)?;
    Some((&bytes[..end], &bytes[end + 1..]))
}
