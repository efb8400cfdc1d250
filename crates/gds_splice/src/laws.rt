ghost use Rattle.gds_splice.specs.PartLaws.{AllAreTaken, AncestorBecomes, AncestorMayPart, BecomesBehind};
ghost use Rattle.gds_splice.specs.PartLaws.{BecomesInAnyOrder, BlockIsThere, GoesIntoPieces, LeafMayPart};
ghost use Rattle.gds_splice.specs.PartLaws.{PartedHasRoom, PiecesAreThere, RaisedRootIsThere, RootIsRaised, StaysOne};
ghost use Rattle.gds_splice.specs.Splicing.{SplicedMayPart};

/// Free blocks that are taken one after another: they are distinct and busy then, and the file stays lawful.
pub fn taken_blocks()
    ensures { AllAreTaken }
{}

/// The pieces of lawful entries that are written stand in their blocks, each with its own.
pub fn pieces_are_there()
    ensures { PiecesAreThere }
{}

/// A level-0 block of a tree may get other lawful entries.
pub fn leaf_may_part()
    ensures { LeafMayPart }
{}

/// Where a block stays one and is written with the entries, the tree of the root is sound with them.
pub fn block_stays_one()
    ensures sound { StaysOne }
    ensures there { BlockIsThere }
{}

/// Where it goes into pieces, the first with its number and the others in free blocks, it leaves it to the index block
/// above to tell of them.
pub fn block_goes_into_pieces()
    ensures { GoesIntoPieces }
{}

/// Then the index block may get the entries that lead to the pieces in the place of the one that led to the block: what
/// becomes of the tree by these is what becomes of it by the pieces. They have room in at most three blocks.
pub fn ancestor_may_part()
    ensures may { AncestorMayPart }
    ensures becomes { AncestorBecomes }
    ensures room { PartedHasRoom }
{}

/// Where a root goes into pieces, all of them in free blocks, and gets the entries that lead to them, its tree is sound
/// and one level higher.
pub fn root_is_raised()
    ensures sound { RootIsRaised }
    ensures there { RaisedRootIsThere }
{}

/// A tree that comes of a change of blocks comes of the change before it and that one, and of the same old blocks in
/// another order.
pub fn tree_becomes()
    ensures behind { BecomesBehind }
    ensures order { BecomesInAnyOrder }
{}

/// An index block may get entries in the place of neighbouring children: it stays one block with them or goes into
/// pieces. Where nothing stands behind them, the last becomes the star.
pub fn spliced_may_part()
    ensures { SplicedMayPart }
{}
