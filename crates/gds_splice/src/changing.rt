//! Entries of an index block that go, and others that come in their place.
ghost use Rattle.std.specs.Prelude.{◌≡◌, ◌+◌, ◌<◌, ◌≤◌, ◌++◌, IfNone, IfOk, IfSome, OnOk};
ghost use Rattle.std.specs.Prelude.{List, length, drop, take};
ghost use Rattle.gds_base.specs.Drafting.{IsDraftFor, WithDraft};
ghost use Rattle.gds_base.specs.Ending.{EndsReading};
ghost use Rattle.gds_block.specs.Item.{Item};
ghost use Rattle.gds_pack.specs.Entry.{items};
ghost use Rattle.gds_pack.specs.Packable.{ArePackable};
ghost use Rattle.gds_split.specs.Pieces.{starred};
ghost use Rattle.gds_splice.specs.SplicedNode.{AreGone, CannotSpliceAt, IsSplicedAt, SplicesOf};
ghost use Rattle.gds_splice.specs.Told.{IsIndexNode};
ghost use Rattle.gds_units.specs.Reading.{OnlyRead};

use crate::node::{Node, read_node};
use crate::packable::is_packable;
use crate::sizes::place_at;
use gds_base::{Base, BaseError};
use gds_draft::Draft;
use gds_find::Step;
use gds_pack::Entry;
use host_model::Host;
use m_key::key_from;
use std::alloc::{AllocError, Global};

/// Reads the index block of a step, and puts entries in the place of so many, from the one on that the step is to.
pub(crate) fn read_spliced<H: Host>(
    alloc: Global,
    base: &mut Base<H>,
    draft: &Draft,
    step: Step,
    taken: usize,
    put: Vec<Entry>,
) -> Result<Node, BaseError>
    requires { IsDraftFor base.old.header draft.now }
    ensures spliced { IfOk result (λ node. WithDraft base.old draft.now
        (IsSplicedAt step taken (items put.items) node)) }
    ensures index { IfOk result IsIndexNode }
    ensures within { OnOk result (step.block < draft.now.header.total) }
    ensures read { OnlyRead H.told H.moment H.failures H.left_since base.old base.new }
    ensures ends { EndsReading (H.failures base.old.host) (H.failures base.new.host)
        (WithDraft base.old draft.now (CannotSpliceAt step taken (items put.items))) result }
{
    base.hold_draft(draft);
    let node = read_node(alloc, base, draft, step.block)?;
    let Some(spliced) = splice_node(alloc, node, step.offset, taken, put)? else {
        return Err(BaseError::Changed {
            unit: step.block.saturating_add(1),
        });
    };
    Ok(spliced)
}

/// An index block with entries in the place of so many, from the one on whose record begins at an offset, if there are
/// so many and a block may have them.
fn splice_node(
    alloc: Global,
    mut node: Node,
    offset: u32,
    taken: usize,
    put: Vec<Entry>,
) -> Result<Option<Node>, AllocError>
    ensures some { IfOk result (λ found. IfSome found (λ now. SplicesOf offset taken (items put.items) node now)) }
    ensures none { IfOk result (λ found. IfNone found ((front gone back : List Item)
        → items node.entries.items ≡ front ++ gone ++ back → AreGone offset taken front gone → 0 < node.level
        → ArePackable node.level (starred (front ++ items put.items ++ back)) → ⊥)) }
{
    let Some(place) = place_at(&node.entries, offset) else {
        return Ok(None);
    };
    if taken > node.entries.len() - place {
        return Ok(None);
    }
    put_between(alloc, &mut node.entries, place, taken, put)?;
    if node.level == 0 {
        return Ok(None);
    }
    if !is_packable(node.level, &node.entries) {
        return Ok(None);
    }
    Ok(Some(node))
}

// Puts entries in the place of so many others. The last of all becomes the star.
fn put_between(
    alloc: Global,
    entries: &mut Vec<Entry>,
    place: usize,
    taken: usize,
    mut put: Vec<Entry>,
) -> Result<(), AllocError>
    requires { place + taken ≤ length entries.old.items }
    ensures { OnOk result (items entries.new.items ≡ starred (items (take place entries.old.items)
        ++ items put.items ++ items (drop (place + taken) entries.old.items))) }
{
    let mut back = entries.split_off(place + taken)?;
    entries.truncate(place);
    entries.append(&mut put)?;
    entries.append(&mut back)?;
    star_last(entries)
}

// Makes the last of entries the star.
fn star_last(entries: &mut Vec<Entry>) -> Result<(), AllocError>
    ensures { OnOk result (items entries.new.items ≡ starred (items entries.old.items)) }
{
    let Some(last) = entries.pop() else {
        return Ok(());
    };
    entries.push(Entry {
        key: key_from(&[]),
        rest: last.rest,
    })?;
    Ok(())
}
