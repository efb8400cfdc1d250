ghost use Rattle.std.specs.Prelude.{◌+◌, ◌-◌, ◌*◌, ◌<◌, ◌≤◌, IfOk, List, OnOk, Option, ℕ};
ghost use Rattle.gds_base.specs.Drafting.{Drafts, IsDraftFor, WithDraft};
ghost use Rattle.gds_base.specs.Ending.{EndsReading};
ghost use Rattle.gds_pack.specs.Entry.{item};
ghost use Rattle.gds_remove.specs.Child.{CannotPrune, PrunesChild};
ghost use Rattle.gds_remove.specs.Cut.{CutsAt, NoneStands};
ghost use Rattle.gds_remove.specs.Killed.{OnlyWrites};
ghost use Rattle.gds_remove.specs.Range.{IsLeft, Range, StaysLeft, ends_in, ends_left, left_of, most_written};
ghost use Rattle.gds_remove.specs.Range.{range_of};
ghost use Rattle.gds_remove.specs.Sole.{IsSole};

use crate::children::{keep, put_children, take_out};
use crate::freeing::{free_below, free_tested};
use crate::leaf::cut_leaf;
use crate::node::{changed, read_level};
use crate::range::{KeyRange, RangeLeft};
use crate::sole::{SoleChild, sole_child};
use gds_base::{Base, BaseError};
use gds_block::pointer_of;
use gds_draft::Draft;
use gds_pack::Entry;
use host_model::Host;
use std::alloc::Global;

/// Cuts a range of keys out of the tree below a block of this level, and answers whether no item is left. Then all
/// other blocks of the tree are free, and the block itself is still busy, whatever its bytes.
#[cycle(cut)]
pub(crate) fn cut<H: Host>(
    alloc: Global,
    base: &mut Base<H>,
    draft: &mut Draft,
    n: u32,
    level: u8,
    range: KeyRange<'_>,
) -> Result<bool, BaseError>
    requires { IsDraftFor base.old.header draft.old }
    ensures cut { IfOk result (λ empty. Drafts base.old draft.old draft.new
        (CutsAt n level (range_of range.entry) empty)) }
    ensures drafts { OnlyWrites H.told H.moment H.failures H.left_since base.old base.new draft.old draft.new
        (most_written (range_of range.entry) level) }
    ensures ends { EndsReading (H.failures base.old.host) (H.failures base.new.host)
        (WithDraft base.old draft.old (NoneStands n level)) result }
{
    if range.is_all() {
        free_below(alloc, base, draft, n, level)?;
        return Ok(true);
    }
    if level == 0 {
        return cut_leaf(alloc, base, draft, n, range);
    }
    let Some(sole) = sole_child(base, draft, n, level, range)? else {
        return cut_children(alloc, base, draft, n, level, range);
    };
    cut_sole(alloc, base, draft, n, level, range, sole)
}

// The same where the whole range lies below one child: the block is unpacked only if nothing is left below that.
#[cycle(cut)]
fn cut_sole<H: Host>(
    alloc: Global,
    base: &mut Base<H>,
    draft: &mut Draft,
    n: u32,
    level: u8,
    range: KeyRange<'_>,
    sole: SoleChild,
) -> Result<bool, BaseError>
    requires draft { IsDraftFor base.old.header draft.old }
    requires index { 0 < level }
    requires some { 1 ≤ ends_in (range_of range) }
    ensures cut { IfOk result (λ empty. Drafts base.old draft.old draft.new (λ before after.
        IsSole n level (range_of range.entry) sole before → CutsAt n level (range_of range.entry) empty before after)) }
    ensures drafts { OnlyWrites H.told H.moment H.failures H.left_since base.old base.new draft.old draft.new
        (most_written (range_of range.entry) level) }
    ensures ends { EndsReading (H.failures base.old.host) (H.failures base.new.host)
        (WithDraft base.old draft.old (λ file. IsSole n level (range_of range.entry) sole file
        → NoneStands n level file)) result }
{
    if !cut(alloc, base, draft, sole.block, level - 1, range)? {
        return Ok(false);
    }
    free_tested(alloc, base, draft, sole.block)?;
    take_out(alloc, base, draft, n, level, sole.offset)
}

// The same by all children, one after another.
#[cycle(cut)]
fn cut_children<H: Host>(
    alloc: Global,
    base: &mut Base<H>,
    draft: &mut Draft,
    n: u32,
    level: u8,
    range: KeyRange<'_>,
) -> Result<bool, BaseError>
    requires draft { IsDraftFor base.old.header draft.old }
    requires index { 0 < level }
    requires some { 1 ≤ ends_in (range_of range) }
    ensures cut { IfOk result (λ empty. Drafts base.old draft.old draft.new
        (CutsAt n level (range_of range.entry) empty)) }
    ensures drafts { OnlyWrites H.told H.moment H.failures H.left_since base.old base.new draft.old draft.new
        (most_written (range_of range.entry) level) }
    ensures ends { EndsReading (H.failures base.old.host) (H.failures base.new.host)
        (WithDraft base.old draft.old (NoneStands n level)) result }
{
    base.hold_draft(draft);
    let entries = read_level(alloc, base, draft, n, level)?;
    let count = entries.len();
    let mut kept = Vec::new(alloc);
    let mut left = RangeLeft {
        range,
        is_past: false,
    };
    for entry in entries {
        if !prune(alloc, base, draft, &entry, level - 1, &mut left)? {
            keep(&mut kept, entry)?;
        }
    }
    put_children(alloc, base, draft, n, level, count, kept)
}

// Cuts what is left of a range out of the tree of a child, and frees the child's block too where nothing is left of
// that; answers whether that is so.
#[cycle(cut)]
fn prune<'a, H: Host>(
    alloc: Global,
    base: &mut Base<H>,
    draft: &mut Draft,
    entry: &Entry,
    level: u8,
    left: &mut RangeLeft<'a>,
) -> Result<bool, BaseError>
    requires { IsDraftFor base.old.header draft.old }
    ensures pruned { IfOk result (λ empty. Drafts base.old draft.old draft.new
        (PrunesChild level (item entry.now) (left_of left.old) empty)) }
    ensures left { OnOk result ((range : Range) (from : Option (List ℕ)) → IsLeft range from (left_of left.old)
        → StaysLeft range from entry.now.key.items (left_of left.new)) }
    ensures fewer { ends_left (left_of left.new) ≤ ends_left (left_of left.old) }
    ensures drafts { OnlyWrites H.told H.moment H.failures H.left_since base.old base.new draft.old draft.new
        ((ends_left (left_of left.old) - ends_left (left_of left.new)) * (level + 1)) }
    ensures ends { EndsReading (H.failures base.old.host) (H.failures base.new.host)
        (WithDraft base.old draft.old (CannotPrune level (item entry.now) (left_of left.old))) result }
{
    let Some(part) = left.next_part(entry.key.as_slice()) else {
        return Ok(false);
    };
    let Some(child) = pointer_of(&entry.rest) else {
        return Err(changed(0));
    };
    if !cut(alloc, base, draft, child, level, part)? {
        return Ok(false);
    }
    free_tested(alloc, base, draft, child)?;
    Ok(true)
}
