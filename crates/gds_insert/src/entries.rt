ghost use Rattle.std.specs.Prelude.{◌≡◌, ◌+◌, ◌≤◌, ◌++◌, List, OnOk, drop, length, take};
ghost use Rattle.std.specs.Bool.{OnFalse, OnTrue};
ghost use Rattle.gds_block.specs.Item.{Item};
ghost use Rattle.gds_pack.specs.Entry.{items};
ghost use Rattle.gds_pack.specs.Packed.{packed_size};
ghost use Rattle.gds_insert.specs.Leaf.{with_item};

use gds_pack::Entry;
use gds_splice::place_at;
use m_key::key_from;
use std::alloc::{AllocError, Global};

// Sets an item in the entries of a leaf, at the offset of the first whose key isn't below its own: in the place of that
// one, where their keys are equal, or else before it.
pub(crate) fn set_item(
    alloc: Global,
    entries: &mut Vec<Entry>,
    offset: u32,
    is_equal: bool,
    key: &[u8],
    rest: &[u8],
) -> Result<(), AllocError>
    requires { length key.now ≤ 255 }
    ensures { OnOk result ((front back : List Item) → items entries.old.items ≡ front ++ back
        → packed_size front ≡ offset
        → items entries.new.items ≡ with_item is_equal front back (record { key = key.now; rest = rest.now })) }
{
    let rest = Vec::from_slice(alloc, rest)?;
    let at = place_of(entries, offset);
    if is_equal {
        take_out(entries, at);
    }
    let key = key_from(key);
    entries.insert(at, Entry { key, rest })?;
    Ok(())
}

// Takes out the entry at a place, if there is one.
fn take_out(entries: &mut Vec<Entry>, at: usize)
    requires { at ≤ length entries.old.items }
    ensures gone { entries.new.items ≡ take at entries.old.items ++ drop (at + 1) entries.old.items }
    ensures len { at ≤ length entries.new.items }
{
    if at < entries.len() {
        entries.remove(at);
    }
}

// The place of the entry whose record begins at an offset, or the number of the entries where none does.
fn place_of(entries: &[Entry], offset: u32) -> usize
    ensures within { result ≤ length entries.now }
    ensures front { (front back : List Item) → items entries.now ≡ front ++ back → packed_size front ≡ offset
        → length front ≡ result }
{
    place_at(entries, offset).unwrap_or(entries.len())
}
