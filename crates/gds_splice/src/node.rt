ghost use Rattle.std.specs.Prelude.{◌≡◌, ◌<◌, IfNone, IfOk, IfSome, OnOk, None, Some};
ghost use Rattle.gds_base.specs.Ending.{EndsReading};
ghost use Rattle.gds_base.specs.Drafting.{IsDraftFor, WithDraft};
ghost use Rattle.gds_block.specs.Block.{IsBlock, level_of};
ghost use Rattle.gds_block.specs.Item.{Item};
ghost use Rattle.gds_pack.specs.Entry.{items};
ghost use Rattle.gds_pack.specs.Unpacked.{entries_of};
ghost use Rattle.gds_splice.specs.Writing.{CannotRead, IsNodeAt};
ghost use Rattle.gds_units.specs.Reading.{OnlyRead};

use gds_base::{Base, BaseError};
use gds_block::BlockView;
use gds_draft::Draft;
use gds_pack::{Entry, unpack};
use host_model::Host;
use std::alloc::{AllocError, Global};

/// A block of a tree in memory, its entries unpacked.
#[derive(Debug, Drop)]
pub struct Node {
    /// The block's level.
    pub level: u8,
    /// Its entries.
    pub entries: Vec<Entry>,
}

/// Reads a block of the image with a draft, and unpacks it. `Changed` comes where it can't be read as entries.
pub fn read_node<H: Host>(
    alloc: Global,
    base: &mut Base<H>,
    draft: &Draft,
    n: u32,
) -> Result<Node, BaseError>
    requires { IsDraftFor base.old.header draft.now }
    ensures node { IfOk result (λ node. WithDraft base.old draft.now (λ file. IsNodeAt file n node)) }
    ensures within { OnOk result (n < draft.now.header.total) }
    ensures read { OnlyRead H.told H.moment H.failures H.left_since base.old base.new }
    ensures ends { EndsReading (H.failures base.old.host) (H.failures base.new.host)
        (WithDraft base.old draft.now (λ file. n < draft.now.header.total → CannotRead file n)) result }
{
    if n >= draft.header().total {
        return Err(BaseError::Changed { unit: 0 });
    }
    let bytes = base.read(draft, n)?;
    let Some(node) = unpack_node(alloc, bytes)? else {
        return Err(BaseError::Changed { unit: n + 1 });
    };
    Ok(node)
}

/// The level and the entries of a block, where they can be read.
fn unpack_node(alloc: Global, bytes: &[u8]) -> Result<Option<Node>, AllocError>
    ensures some { IfOk result (λ found. IfSome found (λ node. (level_of bytes.now ≡ node.level)
        × (entries_of bytes.now ≡ Some (items node.entries.items)))) }
    ensures none { IfOk result (λ found. IfNone found (IsBlock bytes.now → entries_of bytes.now ≡ None)) }
{
    let Some(view) = BlockView::new(bytes) else {
        return Ok(None);
    };
    let level = view.level();
    let Some(entries) = unpack(alloc, &view)? else {
        return Ok(None);
    };
    Ok(Some(Node { level, entries }))
}
