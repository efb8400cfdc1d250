//! What a KILL finds in the image with a draft, and takes out of it.
ghost use Rattle.std.specs.Prelude.{◌≡◌, ◌≤◌, List, IfOk, OnOk, None, Some, length};
ghost use Rattle.std.specs.declared.ops.Bound.TheVariants.{Included};
ghost use Rattle.gds_base.specs.Drafting.{Drafts, IsDraftFor, WithDraft};
ghost use Rattle.gds_base.specs.Ending.{EndsReading};
ghost use Rattle.gds_find.specs.Next.{HasTreeFrom};
ghost use Rattle.gds_globals.specs.Killing.{CannotDrop, DropsGlobal, HasTrees, IsRootWithin, IsSoundWithout};
ghost use Rattle.gds_globals.specs.Killing.{TellsWithin};
ghost use Rattle.gds_globals.specs.Node.{IsRootOf, name_key};
ghost use Rattle.gds_law.specs.Visit.{Visit};
ghost use Rattle.gds_remove.specs.Killed.{OnlyWrites};
ghost use Rattle.gds_sound.specs.Sound.{Tree};
ghost use Rattle.gds_units.specs.Reading.{OnlyRead};
ghost use Rattle.m_key.specs.Key.{key_bytes, past_bytes};
ghost use Rattle.m_key.specs.Node.{Node};
ghost use Rattle.m_key.specs.Reference.{name_bytes, node_of};

use crate::asking::{DIRECTORY, directory_key, root_of};
use gds_base::{Base, BaseError};
use gds_draft::Draft;
use gds_find::next;
use gds_pack::Entry;
use gds_remove::kill_in;
use host_model::Host;
use m_key::{Key, Name, Reference, join_key};
use std::alloc::Global;
use std::ops::Bound;

// The root of the tree in which a node or a descendant has a value, or `None` where none of them has one.
pub(crate) fn root_within<H: Host>(
    alloc: Global,
    base: &mut Base<H>,
    draft: &Draft,
    reference: &Reference,
    key: &[u8],
) -> Result<Option<u32>, BaseError>
    requires draft { IsDraftFor base.old.header draft.now }
    requires key { key.now ≡ key_bytes (node_of reference.now) }
    requires short { length key.now ≤ 255 }
    ensures root { IfOk result (λ root. WithDraft base.old draft.now (λ file. (d : Tree) (globals : List Tree)
        → HasTrees file d globals → IsRootWithin d globals (node_of reference.now) root)) }
    ensures read { OnlyRead H.told H.moment H.failures H.left_since base.old base.new }
    ensures ends { EndsReading (H.failures base.old.host) (H.failures base.new.host)
        (WithDraft base.old draft.now (λ file. (d : Tree) (globals : List Tree)
        → HasTrees file d globals → ⊥)) result }
{
    base.hold_draft(draft);
    let Some(root) = root_of(alloc, base, draft, &reference.name)? else {
        return Ok(None);
    };
    if !has_within(alloc, base, draft, root, key)? {
        return Ok(None);
    }
    Ok(Some(root))
}

// Whether a tree has an item of the node with this key or of a descendant.
fn has_within<H: Host>(
    alloc: Global,
    base: &mut Base<H>,
    draft: &Draft,
    root: u32,
    key: &[u8],
) -> Result<bool, BaseError>
    requires draft { IsDraftFor base.old.header draft.now }
    requires short { length key.now ≤ 255 }
    ensures within { IfOk result (λ found. WithDraft base.old draft.now (λ file. (v : Visit)
        (has : HasTreeFrom file v root None (Included key.now)) (node : Node)
        → key.now ≡ key_bytes node → TellsWithin node has.tree.items found)) }
    ensures read { OnlyRead H.told H.moment H.failures H.left_since base.old base.new }
    ensures ends { EndsReading (H.failures base.old.host) (H.failures base.new.host)
        (WithDraft base.old draft.now (λ file. (v : Visit)
        → HasTreeFrom file v root None (Included key.now) → ⊥)) result }
{
    let mut first = Entry {
        key: Key::new(),
        rest: Vec::new(alloc),
    };
    if !next(base, draft, root, Bound::Included(key), &mut first)? {
        return Ok(false);
    }
    let past = past_key(key);
    Ok(first.key.as_slice().cmp(past.as_slice()).is_lt())
}

// The bytes past all keys of the node with this key and of its descendants.
fn past_key(key: &[u8]) -> Key
    requires { length key.now ≤ 255 }
    ensures { (node : Node) → key.now ≡ key_bytes node → result.items ≡ past_bytes node }
{
    join_key(&key[..key.len().saturating_sub(2)], &[1])
}

// KILL in the image with a draft: the items of a node and of its descendants go out of the tree of its global, which
// this root has. Where that leaves none the global goes too.
pub(crate) fn kill_in_draft<H: Host>(
    alloc: Global,
    base: &mut Base<H>,
    draft: &mut Draft,
    reference: &Reference,
    root: u32,
    key: &[u8],
) -> Result<(), BaseError>
    requires draft { IsDraftFor base.old.header draft.old }
    requires key { key.now ≡ key_bytes (node_of reference.now) }
    requires short { length key.now ≤ 255 }
    ensures killed { OnOk result (Drafts base.old draft.old draft.new (λ before after. (d : Tree) (globals : List Tree)
        → HasTrees before d globals → IsRootOf d.items (name_key (node_of reference.now).name) (Some root)
        → IsSoundWithout after globals (node_of reference.now))) }
    ensures drafts { OnlyWrites H.told H.moment H.failures H.left_since base.old base.new draft.old draft.new 48 }
    ensures ends { EndsReading (H.failures base.old.host) (H.failures base.new.host)
        (WithDraft base.old draft.old (λ file. (d : Tree) (globals : List Tree)
        → HasTrees file d globals → IsRootOf d.items (name_key (node_of reference.now).name) (Some root) → ⊥)) result }
{
    base.hold_draft(draft);
    let past = past_key(key);
    if !kill_in(alloc, base, draft, root, key, &past)? {
        return Ok(());
    }
    drop_global(alloc, base, draft, &reference.name, root)
}

// Gives back the root of a global that has no items, and takes its entry out of the directory.
fn drop_global<H: Host>(
    alloc: Global,
    base: &mut Base<H>,
    draft: &mut Draft,
    name: &Name,
    root: u32,
) -> Result<(), BaseError>
    requires draft { IsDraftFor base.old.header draft.old }
    ensures dropped { OnOk result (Drafts base.old draft.old draft.new (DropsGlobal root (name_bytes name.now))) }
    ensures drafts { OnlyWrites H.told H.moment H.failures H.left_since base.old base.new draft.old draft.new 24 }
    ensures ends { EndsReading (H.failures base.old.host) (H.failures base.new.host)
        (WithDraft base.old draft.old (CannotDrop root)) result }
{
    base.hold_draft(draft);
    if root >= draft.header().total || root % 512 == 0 {
        return Err(BaseError::Changed { unit: 0 });
    }
    base.free_block(alloc, draft, root)?;
    let key = directory_key(name);
    let past = past_key(&key);
    kill_in(alloc, base, draft, DIRECTORY, &key, &past)?;
    Ok(())
}
