ghost use Rattle.std.specs.Prelude.{◌≡◌, List, length, map, flat_map, codes, OnOk, IfErr};
ghost use Rattle.std.specs.List.{AllZip};
ghost use Rattle.std.specs.Option.{ForSome};
ghost use Rattle.gds_header.specs.Kinds.{IsWithinLimits};
ghost use Rattle.m_text.specs.Extract.{head_lines, zwr_node};
ghost use Rattle.gds_cli.specs.Thin.{Valued};
ghost use Rattle.gds_cli.specs.Leaf.{valued, IsLeafAt};
ghost use Rattle.gds_cli.specs.Trouble.{AreBlamed, IsChange};
ghost use Rattle.gds_cli.specs.SoundHeader.{IsHeaderOf};
ghost use Rattle.gds_cli.specs.Extract.{SaidOf};

use super::blocks::read_block;
use super::leaf::{LeafNode, read_leaf};
use super::trouble::Trouble;
use gds_header::Header;
use host_model::Host;
use m_text::{print_reference, print_value};
use std::alloc::{AllocError, Global};

/// Says the two lines before the nodes.
pub(crate) fn say_head<H: Host>(alloc: Global, host: &mut H, stamp: &[u8]) -> Result<(), Trouble>
    ensures said { ForSome (H.told host.old) (λ c.
        SaidOf c (head_lines stamp.now (codes "ZWR")) result (H.told host.new)) }
    ensures blamed { AreBlamed result (H.failures host.old) (H.failures host.new) }
    ensures changed { IfErr result (λ t. IsChange t → ⊥) }
{
    let mut line = Vec::new(alloc);
    line.extend_from_slice(stamp)?;
    line.extend_from_slice(b" ZWR\n")?;
    say_line(host, b"GT.M MUPIP EXTRACT\n")?;
    say_line(host, &line)
}

/// Says the nodes of these leaves, a line each. `block` is room for the work.
pub(crate) fn say_leaves<H: Host>(
    alloc: Global,
    host: &mut H,
    header: &Header,
    leaves: &[u32],
    block: &mut [u8],
) -> Result<(), Trouble>
    requires limits { IsWithinLimits header.now }
    requires room { length block.old ≡ header.now.block_size }
    ensures said { ForSome (H.told host.old) (λ c. (globals : List (List Valued)) → IsHeaderOf header.now c.db
        → AllZip (IsLeafAt header.now c.db) leaves.now globals
        → SaidOf c (flat_map (flat_map zwr_node) globals) result (H.told host.new)) }
    ensures blamed { AreBlamed result (H.failures host.old) (H.failures host.new) }
    ensures changed { IfErr result (λ t. IsChange t → ForSome (H.told host.old) (λ c. (globals : List (List Valued))
        → IsHeaderOf header.now c.db → AllZip (IsLeafAt header.now c.db) leaves.now globals → ⊥)) }
{
    let mut line = Vec::new(alloc);
    for leaf in leaves {
        say_leaf(alloc, host, header, *leaf, block, &mut line)?;
    }
    Ok(())
}

/// Says the nodes of a leaf. `block` and `line` are room for the work.
fn say_leaf<H: Host>(
    alloc: Global,
    host: &mut H,
    header: &Header,
    leaf: u32,
    block: &mut [u8],
    line: &mut Vec<u8>,
) -> Result<(), Trouble>
    requires limits { IsWithinLimits header.now }
    requires room { length block.old ≡ header.now.block_size }
    ensures said { ForSome (H.told host.old) (λ c. (vs : List Valued) → IsHeaderOf header.now c.db
        → IsLeafAt header.now c.db leaf vs → SaidOf c (flat_map zwr_node vs) result (H.told host.new)) }
    ensures blamed { AreBlamed result (H.failures host.old) (H.failures host.new) }
    ensures changed { IfErr result (λ t. IsChange t → ForSome (H.told host.old) (λ c. (vs : List Valued)
        → IsHeaderOf header.now c.db → IsLeafAt header.now c.db leaf vs → ⊥)) }
{
    read_block(host, header, leaf, block)?;
    match read_leaf(alloc, header, block)? {
        Some(nodes) => say_nodes(host, &nodes, line),
        None => Err(Trouble::Changed {
            unit: u64::from(leaf) + 1,
        }),
    }
}

/// Says these nodes, a line each.
fn say_nodes<H: Host>(host: &mut H, nodes: &[LeafNode], line: &mut Vec<u8>) -> Result<(), Trouble>
    ensures said { ForSome (H.told host.old) (λ c.
        SaidOf c (flat_map zwr_node (map valued nodes.now)) result (H.told host.new)) }
    ensures blamed { AreBlamed result (H.failures host.old) (H.failures host.new) }
    ensures changed { IfErr result (λ t. IsChange t → ⊥) }
{
    for node in nodes {
        write_node(node, line)?;
        say_line(host, line)?;
    }
    Ok(())
}

/// Makes `line` the line of a node.
fn write_node(node: &LeafNode, line: &mut Vec<u8>) -> Result<(), AllocError>
    ensures { OnOk result (line.new.items ≡ zwr_node (valued node.now)) }
{
    line.clear();
    print_reference(&node.reference, line)?;
    line.push(b'=')?;
    print_value(node.value, line)?;
    line.push(b'\n')?;
    Ok(())
}

fn say_line<H: Host>(host: &mut H, line: &[u8]) -> Result<(), Trouble>
    ensures said { ForSome (H.told host.old) (λ c. SaidOf c line.now result (H.told host.new)) }
    ensures blamed { AreBlamed result (H.failures host.old) (H.failures host.new) }
    ensures changed { IfErr result (λ t. IsChange t → ⊥) }
{
    match host.say(line) {
        Ok(()) => Ok(()),
        Err(_) => Err(Trouble::Say),
    }
}
