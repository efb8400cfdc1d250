//! The entries above that lead to the blocks that a block has gone into.
ghost use Rattle.std.specs.Prelude.{◌≡◌, ◌+◌, ◌<◌, ◌≤◌, ◌++◌, ◌∷◌, IfNone, IfOk, IfSome, OnOk};
ghost use Rattle.std.specs.Prelude.{List, length, drop, take, slice_index_or};
ghost use Rattle.gds_block.specs.Item.{Item};
ghost use Rattle.gds_pack.specs.Entry.{item, items};
ghost use Rattle.gds_pack.specs.Packable.{ArePackable};
ghost use Rattle.gds_pack.specs.Packed.{packed_size};
ghost use Rattle.gds_pack.specs.declared.entry.Entry.{Entry};
ghost use Rattle.gds_split.specs.Pieces.{entry_to};
ghost use Rattle.gds_splice.specs.Parts.{TellsOf, above_parts, told_entries};

use crate::node::Node;
use crate::packable::is_packable;
use crate::parts::Parts;
use crate::sizes::place_at;
use gds_pack::Entry;
use m_key::key_from;
use std::alloc::{AllocError, Global};

/// An index block with the entries that lead to the parts in the place of the one whose record begins at an offset, if
/// there is such a one and a block may have them.
pub(crate) fn tell(
    alloc: Global,
    mut node: Node,
    offset: u32,
    parts: &Parts,
) -> Result<Option<Node>, AllocError>
    ensures some { IfOk result (λ found. IfSome found (λ told. TellsOf parts.now offset node told)) }
    ensures none { IfOk result (λ found. IfNone found ((front : List Item) (e : Item) (back : List Item)
        → items node.entries.items ≡ front ++ e ∷ back → packed_size front ≡ offset → 0 < node.level
        → ArePackable node.level (told_entries parts.now front e back) → ⊥)) }
{
    let Some(place) = place_at(&node.entries, offset) else {
        return Ok(None);
    };
    put_above(alloc, &mut node.entries, place, parts)?;
    if node.level == 0 {
        return Ok(None);
    }
    if !is_packable(node.level, &node.entries) {
        return Ok(None);
    }
    Ok(Some(node))
}

// Puts the entries that lead to the parts in the place of one, whose key the last of them keeps.
fn put_above(
    alloc: Global,
    entries: &mut Vec<Entry>,
    place: usize,
    parts: &Parts,
) -> Result<(), AllocError>
    requires { place < length entries.old.items }
    ensures { OnOk result ((d : Entry) → items entries.new.items ≡ items (take place entries.old.items)
        ++ above_parts parts.now (slice_index_or entries.old.items place d).key.items
        ++ items (drop (place + 1) entries.old.items)) }
{
    let mut back = entries.split_off(place + 1)?;
    let mut put = entries_above(alloc, parts, entries[place].key.as_slice())?;
    entries.truncate(place);
    entries.append(&mut put)?;
    entries.append(&mut back)?;
    Ok(())
}

/// The entries that lead to the parts, of which the last has a key of the block above.
pub(crate) fn entries_above(
    alloc: Global,
    parts: &Parts,
    key: &[u8],
) -> Result<Vec<Entry>, AllocError>
    requires { length key.now ≤ 255 }
    ensures { IfOk result (λ v. items v.items ≡ above_parts parts.now key.now) }
{
    let mut entries = Vec::new(alloc);
    for part in &parts.parted {
        entries.push(entry_to(alloc, part.key.as_slice(), part.block)?)?;
    }
    entries.push(entry_to(alloc, key, parts.last)?)?;
    Ok(entries)
}

// The entry with a key that leads to a block.
fn entry_to(alloc: Global, key: &[u8], block: u32) -> Result<Entry, AllocError>
    requires { length key.now ≤ 255 }
    ensures { IfOk result (λ e. item e ≡ entry_to block key.now) }
{
    let rest = Vec::from_slice(alloc, &block.to_le_bytes())?;
    Ok(Entry {
        key: key_from(key),
        rest,
    })
}
