ghost use Rattle.gds_insert.specs.LeafLaws.{LeafIsSet, LeafMayTake, TrailEndsInLeaf};

/// A trail ends in a leaf, which may have the item that is set. Where it has it, in its block or in pieces, the item is
/// set in the tree.
pub fn leaf_with_item()
    ensures trail { TrailEndsInLeaf }
    ensures may { LeafMayTake }
    ensures set { LeafIsSet }
{}
