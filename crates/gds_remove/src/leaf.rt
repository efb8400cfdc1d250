ghost use Rattle.std.specs.Prelude.{◌≡◌, IfOk};
ghost use Rattle.gds_base.specs.Drafting.{Drafts, IsDraftFor, WithDraft};
ghost use Rattle.gds_base.specs.Ending.{EndsReading};
ghost use Rattle.gds_pack.specs.Entry.{items};
ghost use Rattle.gds_remove.specs.Cut.{CutsAt, NoneStands};
ghost use Rattle.gds_remove.specs.Killed.{OnlyWrites};
ghost use Rattle.gds_remove.specs.Range.{left_by, range_of};

use crate::in_place::cut_in_place;
use crate::node::{put_left, read_level};
use crate::range::KeyRange;
use gds_base::{Base, BaseError};
use gds_draft::Draft;
use gds_pack::Entry;
use host_model::Host;
use std::alloc::Global;

/// Cuts a range of keys out of a leaf, and answers whether it has no entry then. Its block is written only where some
/// entry went and some is left. Where a single entry goes its record is taken out in place, as a KILL of a node without
/// descendants does.
pub(crate) fn cut_leaf<H: Host>(
    alloc: Global,
    base: &mut Base<H>,
    draft: &mut Draft,
    n: u32,
    range: KeyRange<'_>,
) -> Result<bool, BaseError>
    requires { IsDraftFor base.old.header draft.old }
    ensures cut { IfOk result (λ empty. Drafts base.old draft.old draft.new (CutsAt n 0 (range_of range.entry) empty)) }
    ensures drafts { OnlyWrites H.told H.moment H.failures H.left_since base.old base.new draft.old draft.new 1 }
    ensures ends { EndsReading (H.failures base.old.host) (H.failures base.new.host)
        (WithDraft base.old draft.old (NoneStands n 0)) result }
{
    if cut_in_place(alloc, base, draft, n, range)? {
        return Ok(false);
    }
    cut_unpacked(alloc, base, draft, n, range)
}

// The same with the entries unpacked.
fn cut_unpacked<H: Host>(
    alloc: Global,
    base: &mut Base<H>,
    draft: &mut Draft,
    n: u32,
    range: KeyRange<'_>,
) -> Result<bool, BaseError>
    requires { IsDraftFor base.old.header draft.old }
    ensures cut { IfOk result (λ empty. Drafts base.old draft.old draft.new (CutsAt n 0 (range_of range.entry) empty)) }
    ensures drafts { OnlyWrites H.told H.moment H.failures H.left_since base.old base.new draft.old draft.new 1 }
    ensures ends { EndsReading (H.failures base.old.host) (H.failures base.new.host)
        (WithDraft base.old draft.old (NoneStands n 0)) result }
{
    base.hold_draft(draft);
    let mut entries = read_level(alloc, base, draft, n, 0)?;
    let count = entries.len();
    retain_outside(&mut entries, &range);
    if entries.is_empty() {
        return Ok(true);
    }
    if entries.len() == count {
        return Ok(false);
    }
    put_left(alloc, base, draft, n, 0, &entries)?;
    Ok(false)
}

// Lets the entries go whose keys are in a range.
fn retain_outside(entries: &mut Vec<Entry>, range: &KeyRange<'_>)
    ensures { items entries.new.items ≡ left_by (range_of range.now) (items entries.old.items) }
{
    entries.retain(|entry| !range.contains(entry.key.as_slice()));
}
