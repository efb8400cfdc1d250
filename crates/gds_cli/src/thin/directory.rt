ghost use Rattle.std.specs.Prelude.{◌≡◌, ◌↔◌, nat_eq, IsTrue, List, length, map, IfOk, IfErr, IfSome, IfNone, SomeIff};
ghost use Rattle.std.specs.List.{AllZip, IsDistinct};
ghost use Rattle.std.specs.Option.{ForSome};
ghost use Rattle.gds_header.specs.Kinds.{IsWithinLimits};
ghost use Rattle.gds_cli.specs.Thin.{Valued, IsGlobal, IsThin, root_of};
ghost use Rattle.gds_cli.specs.Leaf.{valued};
ghost use Rattle.gds_cli.specs.Trouble.{WasReadFor, IsChange};
ghost use Rattle.gds_cli.specs.SoundHeader.{IsHeaderOf};
ghost use Rattle.gds_cli.specs.Directory.{IsEntry, IsNodeOf, AreNodesOf, AreTrees, AreLeaves, thin_tree_at, blocks_in};
ghost use Rattle.m_key.specs.Reference.{name_bytes};

use super::blocks::read_below;
use super::distinct::are_distinct;
use super::leaf::{LeafNode, is_block_number, read_leaf};
use super::trouble::Trouble;
use gds_block::pointer_of;
use gds_header::Header;
use host_model::Host;
use m_key::Name;
use std::alloc::{AllocError, Global};

/// The directory leaf is what this block leads to.
const TOP: u32 = 1;

/// The blocks of a global: its root, and the leaf below it.
#[derive(Clone, Copy, Debug, PartialEq, Eq)]
pub(crate) struct ThinTree {
    pub(crate) root: u32,
    pub(crate) leaf: u32,
}

/// The leaves of the globals in the order of the directory, or None where the blocks aren't those of thin files.
pub(crate) fn find_leaves<H: Host>(
    alloc: Global,
    host: &mut H,
    header: &Header,
) -> Result<Option<Vec<u32>>, Trouble>
    requires { IsWithinLimits header.now }
    ensures some { IfOk result (λ o. IfSome o (λ leaves. ForSome (H.told host.old) (λ c.
        IsHeaderOf header.now c.db → AreLeaves c.db leaves.items))) }
    ensures none { IfOk result (λ o. IfNone o (ForSome (H.told host.old) (λ c. IsHeaderOf header.now c.db
        → (directory : List Valued) (globals : List (List Valued)) → IsThin c.db c.images directory globals → ⊥))) }
    ensures host { WasReadFor H.told H.failures host.old host.new result }
    ensures changed { IfErr result (λ t. IsChange t → ForSome (H.told host.old) (λ c. IsHeaderOf header.now c.db → ⊥)) }
{
    let mut directory = vec![in alloc; 0u8; header.block_size as usize]?;
    let mut leaf = vec![in alloc; 0u8; header.block_size as usize]?;
    read_leaves(alloc, host, header, &mut directory, &mut leaf)
}

/// The same, with room for two blocks: the directory's leaf, whose entries stay in it, and the leaf of a global.
fn read_leaves<H: Host>(
    alloc: Global,
    host: &mut H,
    header: &Header,
    directory: &mut [u8],
    leaf: &mut [u8],
) -> Result<Option<Vec<u32>>, Trouble>
    requires limits { IsWithinLimits header.now }
    requires room { length directory.old ≡ header.now.block_size }
    requires leaf_room { length leaf.old ≡ header.now.block_size }
    ensures some { IfOk result (λ o. IfSome o (λ leaves. ForSome (H.told host.old) (λ c.
        IsHeaderOf header.now c.db → AreLeaves c.db leaves.items))) }
    ensures none { IfOk result (λ o. IfNone o (ForSome (H.told host.old) (λ c. IsHeaderOf header.now c.db
        → (directory : List Valued) (globals : List (List Valued)) → IsThin c.db c.images directory globals → ⊥))) }
    ensures host { WasReadFor H.told H.failures host.old host.new result }
    ensures changed { IfErr result (λ t. IsChange t → ForSome (H.told host.old) (λ c. IsHeaderOf header.now c.db → ⊥)) }
{
    let Some(number) = read_below(host, header, TOP, directory)? else {
        return Ok(None);
    };
    let Some(entries) = read_leaf(alloc, header, directory)? else {
        return Ok(None);
    };
    let Some(trees) = read_trees(alloc, host, header, &entries, leaf)? else {
        return Ok(None);
    };
    let Some(leaves) = distinct_leaves(alloc, number, &trees)? else {
        return Ok(None);
    };
    Ok(Some(leaves))
}

/// The leaves of these trees, where no block has two uses.
fn distinct_leaves(
    alloc: Global,
    directory: u32,
    trees: &[ThinTree],
) -> Result<Option<Vec<u32>>, AllocError>
    ensures some { IfOk result (λ o. IfSome o (λ leaves. leaves.items ≡ map (λ t. t.leaf) trees.now)) }
    ensures distinct { IfOk result (λ o. IfSome o (λ leaves. IsDistinct nat_eq (blocks_in directory trees.now))) }
    ensures none { IfOk result (λ o. IfNone o (IsDistinct nat_eq (blocks_in directory trees.now) → ⊥)) }
{
    if are_distinct(alloc, &blocks_in(alloc, directory, trees)?)? {
        Ok(Some(trees.iter().map(|t| t.leaf).collect(alloc)?))
    } else {
        Ok(None)
    }
}

/// The numbers of the blocks that aren't maps: block 1, the directory leaf, and those of the trees.
fn blocks_in(alloc: Global, directory: u32, trees: &[ThinTree]) -> Result<Vec<u32>, AllocError>
    ensures { IfOk result (λ v. v.items ≡ blocks_in directory trees.now) }
{
    let mut blocks = vec![in alloc; TOP, directory]?;
    for tree in trees {
        blocks.push(tree.root)?;
        blocks.push(tree.leaf)?;
    }
    Ok(blocks)
}

/// The trees that the entries of the directory lead to, or None where one leads to none. `block` is room for the work.
fn read_trees<H: Host>(
    alloc: Global,
    host: &mut H,
    header: &Header,
    entries: &[LeafNode],
    block: &mut [u8],
) -> Result<Option<Vec<ThinTree>>, Trouble>
    requires limits { IsWithinLimits header.now }
    requires room { length block.old ≡ header.now.block_size }
    ensures some { IfOk result (λ o. IfSome o (λ trees. ForSome (H.told host.old) (λ c.
        IsHeaderOf header.now c.db → AreTrees c.db (map valued entries.now) trees.items))) }
    ensures none { IfOk result (λ o. IfNone o (ForSome (H.told host.old) (λ c. IsHeaderOf header.now c.db
        → (globals : List (List Valued)) → AllZip (IsGlobal c.db) (map valued entries.now) globals → ⊥))) }
    ensures host { WasReadFor H.told H.failures host.old host.new result }
    ensures changed { IfErr result (λ t. IsChange t → ForSome (H.told host.old) (λ c. IsHeaderOf header.now c.db → ⊥)) }
{
    let mut trees = Vec::new(alloc);
    for entry in entries {
        let Some(tree) = read_tree(alloc, host, header, entry, block)? else {
            return Ok(None);
        };
        trees.push(tree)?;
    }
    Ok(Some(trees))
}

/// The tree that an entry of the directory leads to, or None where it leads to none.
fn read_tree<H: Host>(
    alloc: Global,
    host: &mut H,
    header: &Header,
    entry: &LeafNode,
    block: &mut [u8],
) -> Result<Option<ThinTree>, Trouble>
    requires limits { IsWithinLimits header.now }
    requires room { length block.old ≡ header.now.block_size }
    ensures some { IfOk result (λ o. IfSome o (λ tree. ForSome (H.told host.old) (λ c. IsHeaderOf header.now c.db
        → (tree ≡ thin_tree_at c.db (valued entry.now))
        × ((vs : List Valued) × IsGlobal c.db (valued entry.now) vs)))) }
    ensures none { IfOk result (λ o. IfNone o (ForSome (H.told host.old) (λ c. IsHeaderOf header.now c.db
        → (vs : List Valued) → IsGlobal c.db (valued entry.now) vs → ⊥))) }
    ensures host { WasReadFor H.told H.failures host.old host.new result }
    ensures changed { IfErr result (λ t. IsChange t → ForSome (H.told host.old) (λ c. IsHeaderOf header.now c.db → ⊥)) }
{
    let Some(root) = root_of(header, entry) else {
        return Ok(None);
    };
    let Some(leaf) = read_below(host, header, root, block)? else {
        return Ok(None);
    };
    let Some(nodes) = read_leaf(alloc, header, block)? else {
        return Ok(None);
    };
    if are_nodes_of(header, &entry.reference.name, &nodes) {
        Ok(Some(ThinTree { root, leaf }))
    } else {
        Ok(None)
    }
}

/// The root that an entry of the directory points to, where it is the entry of a name.
fn root_of(header: &Header, entry: &LeafNode) -> Option<u32>
    ensures { SomeIff result (IsEntry header.now (valued entry.now)) (root_of (valued entry.now)) }
{
    if !entry.reference.subscripts.as_slice().is_empty() {
        return None;
    }
    let root = pointer_of(entry.value)?;
    if is_block_number(header, root) {
        Some(root)
    } else {
        None
    }
}

/// Whether there are nodes, all of this name and with values no longer than the header allows.
fn are_nodes_of(header: &Header, name: &Name, nodes: &[LeafNode]) -> bool
    ensures { IsTrue result ↔ AreNodesOf header.now (name_bytes name.now) (map valued nodes.now) }
{
    for node in nodes {
        if !is_node_of(header, name, node) {
            return false;
        }
    }
    !nodes.is_empty()
}

fn is_node_of(header: &Header, name: &Name, node: &LeafNode) -> bool
    ensures { IsTrue result ↔ IsNodeOf header.now (name_bytes name.now) (valued node.now) }
{
    node.reference.name.bytes() == name.bytes() && node.value.len() <= header.value_max as usize
}
