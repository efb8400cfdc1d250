ghost use Rattle.std.specs.Prelude.{◌≡◌, ◌≤◌, ◌↔◌, ℕ, List, length, take, map, IsTrue, IfOk, IfSome, IfNone, SomeIff};
ghost use Rattle.std.specs.Ordering.{nat_cmp, is_lt};
ghost use Rattle.std.specs.Cmp.Lexicographic.{slice_cmp};
ghost use Rattle.m_key.specs.Node.{Node, IsNode};
ghost use Rattle.m_key.specs.Key.{key_bytes};
ghost use Rattle.m_key.specs.KeyEnd.{shared};
ghost use Rattle.m_key.specs.Reference.{node_of};
ghost use Rattle.gds_block.specs.View.{record_of};
ghost use Rattle.gds_header.specs.Kinds.{IsWithinLimits};
ghost use Rattle.gds_cli.specs.Thin.{Valued, IsRecordOf, IsLeaf, star_child, is_block_number, is_star_block};
ghost use Rattle.gds_cli.specs.Leaf.{valued, IsSplit, IsListed};

use gds_block::{BlockView, RecordView, u16_at, u32_at};
use gds_header::Header;
use m_key::{Key, Reference, end_within, join_key, reference_of};
use std::alloc::{AllocError, Global};

/// A node of a leaf and its value, which stays in the block.
#[derive(Drop)]
pub(crate) struct LeafNode<'a> {
    /// The node.
    pub(crate) reference: Reference,
    /// Its value.
    pub(crate) value: &'a [u8],
}

/// The nodes of a leaf, or `None` where the block is no leaf.
pub(crate) fn read_leaf<'a>(
    alloc: Global,
    header: &Header,
    block: &'a [u8],
) -> Result<Option<Vec<LeafNode<'a>>>, AllocError>
    requires { IsWithinLimits header.now }
    ensures some { IfOk result (λ o. IfSome o (λ v. IsLeaf header.now block.now (map valued v.items))) }
    ensures none { IfOk result (λ o. IfNone o ((vs : List Valued) → IsLeaf header.now block.now vs → ⊥)) }
{
    let Some(view) = BlockView::new(block) else {
        return Ok(None);
    };
    if view.version() != 1 || view.reserved() != 0 || view.level() != 0 {
        return Ok(None);
    }
    read_nodes(alloc, header, &view)
}

// The nodes of a block's records, or `None` where one of these is of no node or they don't end at the used
// count.
fn read_nodes<'a>(
    alloc: Global,
    header: &Header,
    block: &BlockView<'a>,
) -> Result<Option<Vec<LeafNode<'a>>>, AllocError>
    requires { IsWithinLimits header.now }
    ensures some { IfOk result (λ o. IfSome o (λ v. IsListed header.now block.now (map valued v.items))) }
    ensures none { IfOk result (λ o. IfNone o ((vs : List Valued) → IsListed header.now block.now vs → ⊥)) }
{
    let used = block.used();
    let mut nodes = Vec::new(alloc);
    let mut key = Key::new();
    let mut end = 16;
    for view in block.records() {
        end += 4 + view.body.len() as u32;
        let Some((next, node)) = read_node(alloc, header, key.as_slice(), view)? else {
            return Ok(None);
        };
        nodes.push(node)?;
        key = next;
    }
    Ok(if end == used { Some(nodes) } else { None })
}

// The node of a record behind a key, and its own key, or `None` where the record is of no node.
fn read_node<'a>(
    alloc: Global,
    header: &Header,
    previous: &[u8],
    view: RecordView<'a>,
) -> Result<Option<(Key, LeafNode<'a>)>, AllocError>
    requires { header.now.key_max ≤ 255 }
    ensures some { IfOk result (λ o. IfSome o
        (λ s. IsRecordOf header.now previous.now (record_of view.entry) (valued s.1))) }
    ensures key { IfOk result (λ o. IfSome o (λ s. s.0.items ≡ key_bytes (node_of s.1.reference))) }
    ensures none { IfOk result (λ o. IfNone o
        ((v : Valued) → IsRecordOf header.now previous.now (record_of view.entry) v → ⊥)) }
{
    let Some((key, value)) = split_record(header.key_max, previous, view) else {
        return Ok(None);
    };
    match reference_of(alloc, key.as_slice())? {
        Some(reference) => Ok(Some((key, LeafNode { reference, value }))),
        None => Ok(None),
    }
}

// The key and the value of a record behind a key. The key ends where a node's key would, and may stand there.
fn split_record<'a>(key_max: u32, previous: &[u8], view: RecordView<'a>) -> Option<(Key, &'a [u8])>
    requires { key_max ≤ 255 }
    ensures some { IfSome result
        (λ s. IsSplit key_max previous.now (record_of view.entry) s.0.items s.1.now) }
    ensures only { IfSome result (λ s. (n : Node) (value : List ℕ) → IsNode n
        → IsSplit key_max previous.now (record_of view.entry) (key_bytes n) value → key_bytes n ≡ s.0.items) }
    ensures none { IfNone result ((n : Node) (value : List ℕ) → IsNode n
        → IsSplit key_max previous.now (record_of view.entry) (key_bytes n) value → ⊥) }
{
    let count = view.count as usize;
    if previous.len() < count {
        return None;
    }
    let front = &previous[..count];
    let end = end_within(front, view.body, key_max as usize)?;
    let (back, value) = view.body.split_at(end);
    let key = join_key(front, back);
    if is_next(previous, key.as_slice(), count) {
        Some((key, value))
    } else {
        None
    }
}

// Whether a key that shares its first `count` bytes with the one before it shares no more and is above it.
fn is_next(previous: &[u8], key: &[u8], count: usize) -> bool
    requires shared { take count previous.now ≡ take count key.now }
    requires within_previous { count ≤ length previous.now }
    requires within_key { count ≤ length key.now }
    ensures { IsTrue result ↔ ((count ≡ shared previous.now key.now)
        × IsTrue (is_lt (slice_cmp nat_cmp previous.now key.now))) }
{
    count < key.len() && (count == previous.len() || previous[count] < key[count])
}

/// The block that a star block points to, or `None` where this is no star block.
pub(crate) fn star_child(header: &Header, block: &[u8]) -> Option<u32>
    requires { 24 ≤ length block.now }
    ensures { SomeIff result (IsTrue (is_star_block header.now block.now)) (star_child block.now) }
{
    let view = BlockView::new(block)?;
    if view.version() != 1 || view.reserved() != 0 || view.level() != 1 || view.used() != 24 {
        return None;
    }
    let child = u32_at(block, 20);
    if u16_at(block, 16) == 8 && u16_at(block, 18) == 0 && is_block_number(header, child) {
        Some(child)
    } else {
        None
    }
}

/// Whether the number is that of a block which is no map.
pub(crate) fn is_block_number(header: &Header, number: u32) -> bool
    ensures { result ≡ is_block_number header.now number }
{
    0 < number && number < header.total && number % 512 != 0
}
