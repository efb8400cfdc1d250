ghost use Rattle.std.specs.Prelude.{◌≡◌, ◌+◌, ◌≤◌, List, OnOk, None, length};
ghost use Rattle.gds_base.specs.Drafting.{Drafts, IsDraftFor, OnlyDrafts, WithDraft};
ghost use Rattle.gds_file.specs.Change.{item_at};
ghost use Rattle.gds_sound.specs.Sound.{IsSound, Tree};
ghost use Rattle.gds_splice.specs.Ending.{EndsParting};
ghost use Rattle.m_key.specs.Key.{key_bytes};
ghost use Rattle.m_key.specs.Reference.{node_of};
ghost use Rattle.gds_globals.specs.Deep.{IsDeepForNode, IsDeepInDirectory};
ghost use Rattle.gds_globals.specs.Node.{IsRootOf, name_key};
ghost use Rattle.gds_globals.specs.SetLaws.{IsSoundWith};

use crate::asking::{DIRECTORY, directory_key, root_of};
use crate::planting::plant;
use gds_base::{Base, BaseError};
use gds_draft::Draft;
use gds_insert::set_in;
use host_model::Host;
use m_key::Reference;
use std::alloc::Global;

/// SET in the image with a draft: a node gets a value. The item of its key is set in the tree of its global, or in one
/// that is planted for it and for which an entry comes into the directory.
///
/// `Changed` comes where the file has a fault or fewer than 17 blocks are free, and `TooDeep` where the leaf that would
/// get the item is as deep as it may be.
pub fn set_in_draft<H: Host>(
    alloc: Global,
    base: &mut Base<H>,
    draft: &mut Draft,
    reference: &Reference,
    key: &[u8],
    value: &[u8],
) -> Result<(), BaseError>
    requires draft { IsDraftFor base.old.header draft.old }
    requires key { key.now ≡ key_bytes (node_of reference.now) }
    requires short { length key.now ≤ draft.old.header.key_max }
    requires small { length value.now ≤ draft.old.header.value_max }
    ensures set { OnOk result (Drafts base.old draft.old draft.new (λ before after. (d : Tree) (globals : List Tree)
        → IsSound before d globals → IsSoundWith after globals (item_at (node_of reference.now) value.now))) }
    ensures free { OnOk result (draft.old.header.free ≤ draft.new.header.free + 19) }
    ensures drafts { OnlyDrafts H.told H.moment H.failures H.left_since base.old base.new draft.old draft.new 46 }
    ensures ends { EndsParting (H.failures base.old.host) (H.failures base.new.host)
        (WithDraft base.old draft.old (λ file. (d : Tree) (globals : List Tree) → IsSound file d globals
        → 17 ≤ draft.old.header.free → ⊥))
        (WithDraft base.old draft.old (λ file. (d : Tree) (globals : List Tree) → IsSound file d globals
        → IsDeepForNode file d (node_of reference.now))) result }
{
    base.hold_draft(draft);
    let _limits = draft.header();
    match root_of(alloc, base, draft, &reference.name)? {
        Some(root) => set_in(alloc, base, draft, root, key, value),
        None => set_in_new(alloc, base, draft, reference, key, value),
    }
}

// The same where the directory has no entry of the name.
fn set_in_new<H: Host>(
    alloc: Global,
    base: &mut Base<H>,
    draft: &mut Draft,
    reference: &Reference,
    key: &[u8],
    value: &[u8],
) -> Result<(), BaseError>
    requires draft { IsDraftFor base.old.header draft.old }
    requires key { key.now ≡ key_bytes (node_of reference.now) }
    requires short { length key.now ≤ draft.old.header.key_max }
    requires small { length value.now ≤ draft.old.header.value_max }
    ensures set { OnOk result (Drafts base.old draft.old draft.new (λ before after. (d : Tree) (globals : List Tree)
        → IsSound before d globals → IsRootOf d.items (name_key (node_of reference.now).name) None
        → IsSoundWith after globals (item_at (node_of reference.now) value.now))) }
    ensures free { OnOk result (draft.old.header.free ≤ draft.new.header.free + 19) }
    ensures drafts { OnlyDrafts H.told H.moment H.failures H.left_since base.old base.new draft.old draft.new 46 }
    ensures ends { EndsParting (H.failures base.old.host) (H.failures base.new.host)
        (WithDraft base.old draft.old (λ file. (d : Tree) (globals : List Tree) → IsSound file d globals
        → IsRootOf d.items (name_key (node_of reference.now).name) None → 17 ≤ draft.old.header.free → ⊥))
        (WithDraft base.old draft.old (λ file. (d : Tree) (globals : List Tree) → IsSound file d globals
        → IsRootOf d.items (name_key (node_of reference.now).name) None
        → IsDeepInDirectory file d (node_of reference.now))) result }
{
    base.hold_draft(draft);
    let _limits = draft.header();
    let root = plant(alloc, base, draft, key, value)?;
    let name = directory_key(&reference.name);
    set_in(alloc, base, draft, DIRECTORY, &name, &root.to_le_bytes())
}
