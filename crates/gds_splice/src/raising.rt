ghost use Rattle.std.specs.Prelude.{◌≡◌, ◌+◌, ◌<◌, ◌≤◌, OnOk, length};
ghost use Rattle.gds_base.specs.Drafting.{Drafts, IsDraftFor, OnlyDrafts, WithDraft};
ghost use Rattle.gds_base.specs.Ending.{EndsReading};
ghost use Rattle.gds_file.specs.FileLaws.{IsLawful};
ghost use Rattle.gds_pack.specs.Entry.{items};
ghost use Rattle.gds_pack.specs.Packable.{ArePackable};
ghost use Rattle.gds_splice.specs.Divided.{CannotRaise, MayPut, Raises};
ghost use Rattle.gds_splice.specs.Ending.{EndsParting};
ghost use Rattle.gds_splice.specs.Writing.{HasMore, PutsEntries};

use crate::above::entries_above;
use crate::dividing::divide;
use crate::halving::Growth;
use crate::node::Node;
use crate::packable::is_packable;
use crate::writing::put_entries;
use gds_base::{Base, BaseError};
use gds_draft::Draft;
use gds_pack::{Entry, packed_size};
use host_model::Host;
use std::alloc::Global;

/// Puts the entries of a root into pieces in free blocks, and leads to them in the root, which gets one level higher.
/// `TooDeep` comes where its level is 7.
pub(crate) fn raise_root<H: Host>(
    alloc: Global,
    base: &mut Base<H>,
    draft: &mut Draft,
    root: u32,
    node: Node,
    growth: Growth,
) -> Result<(), BaseError>
    requires draft { IsDraftFor base.old.header draft.old }
    requires there { root < draft.old.header.total }
    requires packable { ArePackable node.level (items node.entries.items) }

    ensures raised { OnOk result (Drafts base.old draft.old draft.new (λ before after.
        IsLawful before → Raises before after root node.level (items node.entries.items))) }
    ensures low { OnOk result (node.level < 7) }
    ensures free { OnOk result (draft.old.header.free ≤ draft.new.header.free + 3) }
    ensures drafts { OnlyDrafts H.told H.moment H.failures H.left_since base.old base.new draft.old draft.new 7 }
    ensures ends { EndsParting (H.failures base.old.host) (H.failures base.new.host)
        (WithDraft base.old draft.old (CannotRaise node.level (items node.entries.items))) (7 ≤ node.level) result }
{
    base.hold_draft(draft);
    if node.level >= 7 {
        return Err(BaseError::TooDeep);
    }
    let level = node.level + 1;
    let parts = divide(alloc, base, draft, &[], node, growth)?;
    let entries = entries_above(alloc, &parts, &[])?;
    put_checked(alloc, base, draft, root, level, &entries)
}

// Writes a block of a draft with these entries, if they fit and a block may have them.
fn put_checked<H: Host>(
    alloc: Global,
    base: &Base<H>,
    draft: &mut Draft,
    n: u32,
    level: u8,
    entries: &[Entry],
) -> Result<(), BaseError>
    requires draft { IsDraftFor base.now.header draft.old }
    requires there { n < draft.old.header.total }
    ensures put { OnOk result (Drafts base.now draft.old draft.new (λ before after.
        PutsEntries before after n level (items entries.now))) }
    ensures more { HasMore draft.old draft.new 1 }
    ensures ends { EndsReading (H.failures base.now.host) (H.failures base.now.host)
        (MayPut base.now.header level (items entries.now) → ⊥) result }
{
    let header = base.header();
    if packed_size(entries) > u64::from(header.block_size) {
        return Err(BaseError::Changed { unit: 0 });
    }
    if !is_packable(level, entries) {
        return Err(BaseError::Changed { unit: 0 });
    }
    put_entries(alloc, base, draft, n, level, entries)
}
