ghost use Rattle.std.specs.Prelude.{ℕ, ◌≡◌, ◌≤◌, List, [], Some, length};
ghost use Rattle.gds_block.specs.Block.{IsBlock, level_of};
ghost use Rattle.gds_block.specs.Item.{Item};
ghost use Rattle.gds_block.specs.Record.{bytes_left, records_of};
ghost use Rattle.gds_pack.specs.Packable.{ArePackable};
ghost use Rattle.gds_pack.specs.Packed.{packed_size, packed_records, records_bytes, block_bytes};
ghost use Rattle.gds_pack.specs.Unpacked.{entries_of};
ghost use Rattle.gds_search.specs.PackedBlock.{IsPackedBlock};

/// What `gds_pack::pack` writes is a packed block, and so is each block whose used bytes are those of packed records. A
/// packed block reads as its entries, and so has no others.
pub fn packed_blocks()
    ensures written { (es : List Item) (height tn room : ℕ) → packed_size es ≤ room → room ≤ 65024
        → ArePackable height es → IsPackedBlock (block_bytes es height tn room) height es }
    ensures used_bytes { (block : List ℕ) (es : List Item) → IsBlock block → length block ≤ 65024
        → bytes_left block 16 ≡ records_bytes [] es → ArePackable (level_of block) es
        → IsPackedBlock block (level_of block) es }
    ensures entries { (block : List ℕ) (height : ℕ) (es : List Item) → IsPackedBlock block height es
        → entries_of block ≡ Some es }
    ensures records { (block : List ℕ) (height : ℕ) (es : List Item) → IsPackedBlock block height es
        → records_of block ≡ packed_records 16 [] es }
{}
