ghost use Rattle.std.specs.Prelude.{◌<◌, ◌↔◌, IfOk, OnOk, IsTrue};
ghost use Rattle.gds_base.specs.Drafting.{Drafts, IsDraftFor, WithDraft};
ghost use Rattle.gds_base.specs.Ending.{EndsReading};
ghost use Rattle.gds_pack.specs.Entry.{items};
ghost use Rattle.gds_splice.specs.Divided.{MayPut};
ghost use Rattle.gds_splice.specs.Writing.{PutsEntries};
ghost use Rattle.gds_tree.specs.Lawful.{IsTreeNumber};
ghost use Rattle.gds_units.specs.Reading.{OnlyRead};
ghost use Rattle.gds_remove.specs.Block.{AreEntriesAt, HasNoEntries, IsChanged, WritesOne};

use gds_base::{Base, BaseError};
use gds_draft::Draft;
use gds_header::Header;
use gds_pack::{Entry, packed_size};
use gds_splice::{Node, is_packable, put_entries, read_node};
use host_model::Host;
use std::alloc::Global;

/// Reads a block of a tree that has this level, and unpacks it.
pub(crate) fn read_level<H: Host>(
    alloc: Global,
    base: &mut Base<H>,
    draft: &Draft,
    n: u32,
    level: u8,
) -> Result<Vec<Entry>, BaseError>
    requires { IsDraftFor base.old.header draft.now }
    ensures entries { IfOk result (λ v. WithDraft base.old draft.now (AreEntriesAt n level (items v.items))) }
    ensures within { OnOk result (n < draft.now.header.total) }
    ensures read { OnlyRead H.told H.moment H.failures H.left_since base.old base.new }
    ensures ends { EndsReading (H.failures base.old.host) (H.failures base.new.host)
        (WithDraft base.old draft.now (HasNoEntries n level)) result }
{
    base.hold_draft(draft);
    let node = read_node(alloc, base, draft, n)?;
    if node.level != level {
        return Err(changed(n));
    }
    Ok(node.entries)
}

/// Writes a block of a draft with entries that are left of those it had, if a block may have them.
pub(crate) fn put_left<H: Host>(
    alloc: Global,
    base: &Base<H>,
    draft: &mut Draft,
    n: u32,
    level: u8,
    entries: &[Entry],
) -> Result<(), BaseError>
    requires draft { IsDraftFor base.now.header draft.old }
    requires there { n < draft.old.header.total }
    ensures put { OnOk result (Drafts base.now draft.old draft.new (λ before after.
        PutsEntries before after n level (items entries.now))) }
    ensures one { WritesOne draft.old draft.new }
    ensures ends { EndsReading (H.failures base.now.host) (H.failures base.now.host)
        (MayPut base.now.header level (items entries.now) → ⊥) result }
{
    if packed_size(entries) > u64::from(base.header().block_size) {
        return Err(changed(n));
    }
    if !is_packable(level, entries) {
        return Err(changed(n));
    }
    put_entries(alloc, base, draft, n, level, entries)
}

/// Whether a tree of a file with this header may have a block of this number.
pub(crate) fn may_be_in_tree(header: &Header, n: u32) -> bool
    ensures { IsTrue result ↔ IsTreeNumber header.now.total n }
{
    0 < n && n < header.total && n % 512 != 0
}

/// A block isn't what it was.
pub(crate) fn changed(n: u32) -> BaseError
    ensures { IsChanged result }
{
    BaseError::Changed {
        unit: n.saturating_add(1),
    }
}
