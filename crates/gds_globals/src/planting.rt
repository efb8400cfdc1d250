ghost use Rattle.std.specs.Prelude.{◌≡◌, ◌+◌, ◌<◌, ◌≤◌, ◌∷◌, [], Err, IfOk, OnErr, OnOk, length};
ghost use Rattle.gds_base.specs.Drafting.{Drafts, IsDraftFor, OnlyDrafts, WithDraft};
ghost use Rattle.gds_base.specs.Ending.{EndsReading};
ghost use Rattle.gds_base.specs.declared.error.BaseError.TheVariants.{Memory};
ghost use Rattle.gds_file.specs.FileLaws.{IsLawful};
ghost use Rattle.gds_pack.specs.Packable.{ArePackable};
ghost use Rattle.gds_pack.specs.Packed.{packed_size};
ghost use Rattle.gds_splice.specs.Writing.{HasMore, PutsEntries};
ghost use Rattle.m_key.specs.KeyEnd.{IsKey};
ghost use Rattle.gds_globals.specs.Planting.{IsPlanted, PutsTree};

use gds_base::{Base, BaseError};
use gds_draft::Draft;
use gds_pack::Entry;
use gds_splice::put_entries;
use host_model::Host;
use m_key::key_from;
use std::alloc::Global;

// Writes a tree with one item into two free blocks of a draft, and answers its root.
pub(crate) fn plant<H: Host>(
    alloc: Global,
    base: &mut Base<H>,
    draft: &mut Draft,
    key: &[u8],
    value: &[u8],
) -> Result<u32, BaseError>
    requires draft { IsDraftFor base.old.header draft.old }
    requires key { IsKey key.now }
    requires fits { 20 + length key.now + length value.now ≤ base.old.header.block_size }

    ensures planted { IfOk result (λ root. Drafts base.old draft.old draft.new (λ before after.
        IsLawful before → IsPlanted before after root (record { key = key.now; rest = value.now }))) }
    ensures free { OnOk result (draft.old.header.free ≡ draft.new.header.free + 2) }
    ensures drafts { OnlyDrafts H.told H.moment H.failures H.left_since base.old base.new draft.old draft.new 4 }
    ensures ends { EndsReading (H.failures base.old.host) (H.failures base.new.host)
        (WithDraft base.old draft.old (λ file. IsLawful file → 2 ≤ draft.old.header.free → ⊥)) result }
{
    let root = base.take_block(alloc, draft)?;
    let leaf = base.take_block(alloc, draft)?;
    put_tree(alloc, base, draft, root, leaf, key, value)?;
    Ok(root)
}

// Writes a root and below it a leaf with one item into two blocks of a draft.
fn put_tree<H: Host>(
    alloc: Global,
    base: &Base<H>,
    draft: &mut Draft,
    root: u32,
    leaf: u32,
    key: &[u8],
    value: &[u8],
) -> Result<(), BaseError>
    requires draft { IsDraftFor base.now.header draft.old }
    requires root_there { root < draft.old.header.total }
    requires leaf_there { leaf < draft.old.header.total }
    requires key { IsKey key.now }
    requires fits { 20 + length key.now + length value.now ≤ base.now.header.block_size }

    ensures put { OnOk result (Drafts base.now draft.old draft.new (λ before after.
        PutsTree before after root leaf (record { key = key.now; rest = value.now }))) }
    ensures more { HasMore draft.old draft.new 2 }
    ensures err { OnErr result (result ≡ Err Memory) }
{
    let _limits = base.header();
    put_one(alloc, base, draft, root, 1, &[], &leaf.to_le_bytes())?;
    put_one(alloc, base, draft, leaf, 0, key, value)
}

// Writes a block of a draft with one entry.
fn put_one<H: Host>(
    alloc: Global,
    base: &Base<H>,
    draft: &mut Draft,
    n: u32,
    level: u8,
    key: &[u8],
    rest: &[u8],
) -> Result<(), BaseError>
    requires draft { IsDraftFor base.now.header draft.old }
    requires there { n < draft.old.header.total }
    requires short { length key.now ≤ 255 }
    requires fits { packed_size (record { key = key.now; rest = rest.now } ∷ []) ≤ base.now.header.block_size }
    requires packable { ArePackable level (record { key = key.now; rest = rest.now } ∷ []) }

    ensures put { OnOk result (Drafts base.now draft.old draft.new (λ before after.
        PutsEntries before after n level (record { key = key.now; rest = rest.now } ∷ []))) }
    ensures more { HasMore draft.old draft.new 1 }
    ensures err { OnErr result (result ≡ Err Memory) }
{
    let rest = Vec::from_slice(alloc, rest)?;
    let key = key_from(key);
    put_entries(alloc, base, draft, n, level, &[Entry { key, rest }])
}
