ghost use Rattle.std.specs.Prelude.{◌≡◌, ◌<◌, ◌-◌, ◌∷◌, ◌++◌, ◌≤◌, ℕ, []};
ghost use Rattle.std.specs.Prelude.{All, IfNone, IfOk, IfSome, List, None, length, option_map, take};
ghost use Rattle.std.specs.Option.{ForSome};
ghost use Rattle.std.specs.Range.Bound.{bound_map};
ghost use Rattle.host_model.specs.Failures.{Failures};
ghost use Rattle.gds_base.specs.Drafting.{IsDraftFor, WithDraft};
ghost use Rattle.gds_base.specs.Ending.{EndsReading};
ghost use Rattle.gds_find.specs.Next.{HasTreeFrom};
ghost use Rattle.gds_law.specs.Visit.{Visit};
ghost use Rattle.gds_units.specs.Reading.{OnlyRead};
ghost use Rattle.gds_units.specs.State.{image_of};
ghost use Rattle.m_key.specs.Key.{key_bytes};
ghost use Rattle.m_key.specs.KeyEnd.{IsKey};
ghost use Rattle.m_key.specs.Reference.{node_of, place_of};
ghost use Rattle.gds_globals.specs.First.{AreOfNodes, Begins, FindsFirst};
ghost use Rattle.gds_globals.specs.First.{FindsPast, IsFirstUnder, IsKeyOfNode, IsWhole};

use crate::asking::root_of;
use gds_base::{Base, BaseError};
use gds_draft::Draft;
use gds_find::next;
use gds_pack::Entry;
use host_model::Host;
use m_key::{Key, Reference, join_key, reference_of};
use std::alloc::Global;
use std::ops::Bound;

/// The node of the first entry of a tree from a bound on, if its key begins with these bytes.
pub(crate) fn first_under<H: Host>(
    alloc: Global,
    base: &mut Base<H>,
    draft: &Draft,
    root: u32,
    from: Bound<&[u8]>,
    front: &[u8],
) -> Result<Option<Reference>, BaseError>
    requires { IsDraftFor base.old.header draft.now }
    ensures first { IfOk result (λ found. WithDraft base.old draft.now (λ file. (v : Visit)
        → (has : HasTreeFrom file v root None (bound_map (λ key. key.now) from.entry))
        → IsFirstUnder has.tree.items (bound_map (λ key. key.now) from.entry) front.now (option_map node_of found))) }
    ensures read { OnlyRead H.told H.moment H.failures H.left_since base.old base.new }
    ensures ends { EndsReading (H.failures base.old.host) (H.failures base.new.host)
        (WithDraft base.old draft.now (λ file. (v : Visit)
        → (has : HasTreeFrom file v root None (bound_map (λ key. key.now) from.entry))
        → AreOfNodes has.tree.items → ⊥)) result }
{
    let mut entry = Entry {
        key: Key::new(),
        rest: Vec::new(alloc),
    };
    if !next(base, draft, root, from, &mut entry)? {
        return Ok(None);
    }
    node_under(alloc, &entry.key, front)
}

// The node of a key, if it begins with these bytes.
fn node_under(alloc: Global, key: &[u8], front: &[u8]) -> Result<Option<Reference>, BaseError>
    ensures some { IfOk result (λ o. IfSome o (λ r. (key_bytes (node_of r) ≡ key.now) × Begins front.now key.now)) }
    ensures none { IfOk result (λ o. IfNone o (Begins front.now key.now → ⊥)) }
    ensures ends { (before now : Failures) → EndsReading before now (IsKeyOfNode key.now → ⊥) result }
{
    if !key.starts_with(front) {
        return Ok(None);
    }
    let Some(found) = reference_of(alloc, key)? else {
        return Err(BaseError::Changed { unit: 0 });
    };
    Ok(Some(found))
}

/// The first node of the global of a reference from a bound on, if its key begins with these bytes.
pub(crate) fn node_from<H: Host>(
    alloc: Global,
    base: &mut Base<H>,
    reference: &Reference,
    from: Bound<&[u8]>,
    front: &[u8],
) -> Result<Option<Reference>, BaseError>
    requires { IsWhole (bound_map (λ key. key.now) from) }
    ensures first { IfOk result (λ found. ForSome (image_of base.old) (λ image.
        FindsFirst image (node_of reference.now).name (bound_map (λ key. key.now) from.entry) front.now
        (option_map place_of found))) }
    ensures read { OnlyRead H.told H.moment H.failures H.left_since base.old base.new }
    ensures ends { EndsReading (H.failures base.old.host) (H.failures base.new.host) (image_of base.old ≡ None) result }
{
    let _header = base.header();
    let draft = base.draft(alloc);
    base.hold_draft(&draft);
    let Some(root) = root_of(alloc, base, &draft, &reference.name)? else {
        return Ok(None);
    };
    first_under(alloc, base, &draft, root, from, front)
}

/// The first node behind all that a reference leads to, if its key begins with these bytes.
pub(crate) fn node_past<H: Host>(
    alloc: Global,
    base: &mut Base<H>,
    reference: &Reference,
    key: &[u8],
    front: &[u8],
) -> Result<Option<Reference>, BaseError>
    requires key { key.now ≡ key_bytes (node_of reference.now) }
    requires short { length key.now ≤ 255 }
    ensures first { IfOk result (λ found. ForSome (image_of base.old) (λ image.
        FindsPast image (node_of reference.now) front.now (option_map place_of found))) }
    ensures read { OnlyRead H.told H.moment H.failures H.left_since base.old base.new }
    ensures ends { EndsReading (H.failures base.old.host) (H.failures base.new.host) (image_of base.old ≡ None) result }
{
    match key_past(key) {
        Some(past) => node_from(alloc, base, reference, Bound::Included(&past), front),
        None => node_from(alloc, base, reference, Bound::Excluded(key), front),
    }
}

// The key at which those of a node and its descendants end. No other keys stand between. Where the node's key is as
// long as a key may be, it has no descendants.
fn key_past(key: &[u8]) -> Option<Key>
    requires { length key.now ≤ 255 }
    ensures past { IfSome result (λ past. past.items ≡ take (length key.now - 2) key.now ++ 1 ∷ 0 ∷ 0 ∷ []) }
    ensures short { IfSome result (λ past. length past.items ≤ 255) }
    ensures none { IfNone result (length key.now ≡ 255) }
{
    if key.len() == 255 {
        return None;
    }
    Some(join_key(&key[..key.len().saturating_sub(2)], &[1, 0, 0]))
}

/// A key but for its last byte. So the keys of the node and of its descendants begin.
pub(crate) fn lead_of(key: &[u8]) -> &[u8]
    ensures { result.now ≡ take (length key.now - 1) key.now }
{
    &key[..key.len().saturating_sub(1)]
}

/// The first bytes of a key, those before its last subscript. So the keys of the nodes on its level begin.
pub(crate) fn front_of(key: &[u8]) -> &[u8]
    ensures { (front last : List ℕ) → key.now ≡ (front ++ 0 ∷ []) ++ (last ++ 0 ∷ 0 ∷ []) → All (λ b. 0 < b) last
        → result.now ≡ front ++ 0 ∷ [] }
{
    let mut end = key.len().saturating_sub(2);
    while end > 0 && key[end - 1] != 0 {
        end -= 1;
    }
    &key[..end]
}
