ghost use Rattle.std.specs.Prelude.{◌≡◌, ◌<◌, ◌++◌, ◌∷◌, [], IfOk, IsTrue, List, OnOk};
ghost use Rattle.gds_block.specs.Item.{Item};
ghost use Rattle.gds_base.specs.Drafting.{Drafts, IsDraftFor, WithDraft};
ghost use Rattle.gds_base.specs.Ending.{EndsReading};
ghost use Rattle.gds_pack.specs.Entry.{item, items};
ghost use Rattle.gds_pack.specs.Packed.{packed_size};
ghost use Rattle.gds_split.specs.Pieces.{starred};
ghost use Rattle.gds_remove.specs.Block.{WritesOne};
ghost use Rattle.gds_remove.specs.Child.{CannotPutKept, PutsKept};
ghost use Rattle.gds_remove.specs.Killed.{OnlyWrites};
ghost use Rattle.gds_remove.specs.Sole.{CannotTakeOut, TakesOut};

use crate::node::{changed, put_left, read_level};
use gds_base::{Base, BaseError};
use gds_draft::Draft;
use gds_pack::Entry;
use gds_splice::place_at;
use host_model::Host;
use m_key::key_from;
use std::alloc::{AllocError, Global};

/// Takes the entry out of an index block whose record begins at an offset, and answers whether it was the only one.
/// Then nothing is written.
pub(crate) fn take_out<H: Host>(
    alloc: Global,
    base: &mut Base<H>,
    draft: &mut Draft,
    n: u32,
    level: u8,
    offset: u32,
) -> Result<bool, BaseError>
    requires { IsDraftFor base.old.header draft.old }
    ensures taken { IfOk result (λ empty. Drafts base.old draft.old draft.new (TakesOut n level offset empty)) }
    ensures drafts { OnlyWrites H.told H.moment H.failures H.left_since base.old base.new draft.old draft.new 1 }
    ensures ends { EndsReading (H.failures base.old.host) (H.failures base.new.host)
        (WithDraft base.old draft.old (CannotTakeOut n level offset)) result }
{
    base.hold_draft(draft);
    let mut entries = read_level(alloc, base, draft, n, level)?;
    let count = entries.len();
    if !remove_at(&mut entries, offset) {
        return Err(changed(n));
    }
    put_children(alloc, base, draft, n, level, count, entries)
}

// Takes the entry out whose record begins at an offset, if there is one.
fn remove_at(entries: &mut Vec<Entry>, offset: u32) -> bool
    ensures { (front : List Item) (e : Item) (back : List Item) → items entries.old.items ≡ front ++ e ∷ back
        → packed_size front ≡ offset → IsTrue result × (items entries.new.items ≡ front ++ back) }
{
    let Some(at) = place_at(entries, offset) else {
        return false;
    };
    entries.remove(at);
    true
}

/// Puts an entry behind those that are kept.
pub(crate) fn keep(kept: &mut Vec<Entry>, entry: Entry) -> Result<(), AllocError>
    ensures { OnOk result (items kept.new.items ≡ items kept.old.items ++ item entry ∷ []) }
{
    Ok(kept.push(entry)?)
}

/// Writes an index block with the entries that are left of so many, if any went and any is left; answers whether none
/// is.
pub(crate) fn put_children<H: Host>(
    alloc: Global,
    base: &Base<H>,
    draft: &mut Draft,
    n: u32,
    level: u8,
    count: usize,
    mut kept: Vec<Entry>,
) -> Result<bool, BaseError>
    requires draft { IsDraftFor base.now.header draft.old }
    requires there { n < draft.old.header.total }
    ensures put { IfOk result (λ empty. Drafts base.now draft.old draft.new
        (PutsKept n level count (items kept.items) empty)) }
    ensures one { WritesOne draft.old draft.new }
    ensures ends { EndsReading (H.failures base.now.host) (H.failures base.now.host)
        (CannotPutKept base.now.header level count (items kept.items)) result }
{
    if kept.is_empty() {
        return Ok(true);
    }
    if kept.len() >= count {
        return Ok(false);
    }
    star_last(&mut kept)?;
    put_left(alloc, base, draft, n, level, &kept)?;
    Ok(false)
}

// Makes the last of entries the star.
fn star_last(entries: &mut Vec<Entry>) -> Result<(), AllocError>
    ensures { OnOk result (items entries.new.items ≡ starred (items entries.old.items)) }
{
    let Some(last) = entries.pop() else {
        return Ok(());
    };
    entries.push(Entry {
        key: key_from(&[]),
        rest: last.rest,
    })?;
    Ok(())
}
