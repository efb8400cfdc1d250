ghost use Rattle.std.specs.Prelude.{◌≡◌, ◌<◌, ◌≤◌, ◌^◌, ℕ, List, [], Some, length, All};
ghost use Rattle.gds_block.specs.Block.{level_of};
ghost use Rattle.gds_block.specs.Item.{Item};
ghost use Rattle.gds_block.specs.Record.{bytes_left};
ghost use Rattle.gds_header.specs.Fields.{fields_of, block_of};
ghost use Rattle.gds_header.specs.Kinds.{IsWithinLimits};
ghost use Rattle.gds_header.specs.declared.header.Header.{Header};
ghost use Rattle.gds_law.specs.Visit.{Visit};
ghost use Rattle.gds_law.specs.BlockReading.{reading_of};
ghost use Rattle.gds_law.specs.Block.{kinds_of_block, children_of};
ghost use Rattle.gds_sound.specs.Stands.{items_of};
ghost use Rattle.gds_pack.specs.Packed.{packed_size, records_bytes, block_bytes};
ghost use Rattle.gds_pack.specs.Unpacked.{entries_of};
ghost use Rattle.gds_tree.specs.Lawful.{IsLawful};
ghost use Rattle.gds_tree.specs.RightBlock.{UsesSame, IsStamped, IsDueLevel, IsRightBlock};
ghost use Rattle.gds_tree.specs.Below.{children_by, HasEntries};
ghost use Rattle.gds_tree.specs.Keeps.{IsImage};

/// Two blocks that use the same bytes have the same children, items and entries, and where nothing is wrong with the
/// one nothing is wrong with the other, if that is stamped right.
pub fn used_bytes()
    ensures children { (h : Header) (v : Visit) (a b : List ℕ) → UsesSame a b → children_of h v a ≡ children_of h v b }
    ensures items { (h : Header) (v : Visit) (a b : List ℕ) → UsesSame a b
        → items_of (reading_of h v a) a ≡ items_of (reading_of h v b) b }
    ensures entries { (a b : List ℕ) → UsesSame a b → entries_of a ≡ entries_of b }
    ensures faultless { (h : Header) (v : Visit) (a b : List ℕ) → UsesSame a b → IsStamped h b
        → kinds_of_block (reading_of h v a) a ≡ [] → kinds_of_block (reading_of h v b) b ≡ [] }
{}

/// Nothing is wrong with a block at a visit exactly where it is right there, with lawful entries.
pub fn right_block()
    ensures entries { (h : Header) (v : Visit) (block : List ℕ) → IsWithinLimits h → length block ≡ h.block_size
        → kinds_of_block (reading_of h v block) block ≡ [] → (es : List Item) × IsRightBlock h v block es }
    ensures faultless { (h : Header) (v : Visit) (block : List ℕ) (es : List Item) → IsWithinLimits h
        → IsRightBlock h v block es → kinds_of_block (reading_of h v block) block ≡ [] }
{}

/// A right block's children are those by its entries, its items are its entries at level 0, and where it is made of
/// bytes it uses those of the packed entries.
pub fn block_by_entries()
    ensures children { (h : Header) (v : Visit) (block : List ℕ) (es : List Item) → IsWithinLimits h
        → IsRightBlock h v block es → children_of h v block ≡ children_by v (level_of block) es }
    ensures items { (h : Header) (v : Visit) (block : List ℕ) (es : List Item) → IsWithinLimits h
        → IsRightBlock h v block es → level_of block ≡ 0 → items_of (reading_of h v block) block ≡ es }
    ensures bytes { (h : Header) (v : Visit) (block : List ℕ) (es : List Item) → IsWithinLimits h
        → IsRightBlock h v block es → length block ≡ h.block_size → All (λ b. b < 256) block
        → bytes_left block 16 ≡ records_bytes [] es }
{}

/// A packed block with lawful entries that fit is right, and has the size of a block. An image in which it stands has
/// these entries there.
pub fn packed_block()
    ensures right { (h : Header) (v : Visit) (level tn : ℕ) (es : List Item) → IsWithinLimits h → IsLawful h v level es
        → packed_size es ≤ h.block_size → IsDueLevel v.level level → tn < h.tn → tn < 2 ^ 64
        → IsRightBlock h v (block_bytes es level tn h.block_size) es }
    ensures size { (h : Header) (level tn : ℕ) (es : List Item) → IsWithinLimits h → packed_size es ≤ h.block_size
        → length (block_bytes es level tn h.block_size) ≡ h.block_size }
    ensures written { (image : List ℕ) (v : Visit) (level tn : ℕ) (es : List Item) → IsImage image
        → v.block < (fields_of image).total
        → block_of image v.block ≡ block_bytes es level tn (fields_of image).block_size
        → IsLawful (fields_of image) v level es → packed_size es ≤ (fields_of image).block_size
        → IsDueLevel v.level level → tn < (fields_of image).tn → tn < 2 ^ 64 → HasEntries image v level es }
{}
