ghost use Rattle.std.specs.Prelude.{◌≡◌, ◌<◌, ◌≤◌, ◌++◌, ◌∷◌, ℕ, suc, List, Option, Some, All};
ghost use Rattle.gds_block.specs.Item.{Item};
ghost use Rattle.gds_header.specs.Fields.{fields_of};
ghost use Rattle.gds_law.specs.Visit.{Visit};
ghost use Rattle.gds_sound.specs.Sound.{Tree, joined, sound_tree, tree_at};
ghost use Rattle.gds_tree.specs.Below.{visit_below, low_behind, both, trees_below, HasEntries, leaf_tree, index_tree};
ghost use Rattle.gds_tree.specs.Lawful.{IsTreeNumber, IsLawful, IsLawfulEntry};
ghost use Rattle.gds_tree.specs.Keeps.{IsImage, KeepsSizes, KeepsBlocks, IsWithinTotal, IsWider};

/// A tree is sound exactly where its root's block is right: at level 0 its items are the block's entries, and above it
/// what stands below them are sound trees.
pub fn tree_by_entries()
    ensures leaf { (image : List ℕ) (v : Visit) (es : List Item) → IsImage image → HasEntries image v 0 es
        → sound_tree image 0 v ≡ Some (leaf_tree v es) }
    ensures index { (image : List ℕ) (v : Visit) (level : ℕ) (es : List Item) (below : Tree) → IsImage image
        → HasEntries image v (suc level) es → trees_below image v level v.low es ≡ Some below
        → sound_tree image (suc level) v ≡ Some (index_tree v below) }
    ensures of_leaf { (image : List ℕ) (v : Visit) (t : Tree) → IsImage image → v.block < (fields_of image).total
        → sound_tree image 0 v ≡ Some t → (es : List Item) × HasEntries image v 0 es × (t ≡ leaf_tree v es) }
    ensures of_index { (image : List ℕ) (v : Visit) (level : ℕ) (t : Tree) → IsImage image
        → v.block < (fields_of image).total → sound_tree image (suc level) v ≡ Some t
        → (es : List Item) × (below : Tree) × HasEntries image v (suc level) es
        × (trees_below image v level v.low es ≡ Some below) × (t ≡ index_tree v below) }
    ensures own { (image : List ℕ) (v : Visit) (level : ℕ) (t : Tree) → sound_tree image level v ≡ Some t
        → tree_at image v ≡ Some t }
{}

/// A sound tree is so, with the same blocks and items, in an image that keeps the sizes and the tree's blocks, if the
/// total is no smaller, or is above the tree's blocks and the roots that it names. So are the trees below lawful
/// entries
/// of an index block.
pub fn kept_tree()
    ensures grown { (old new : List ℕ) (v : Visit) (level : ℕ) (t : Tree) → IsImage old → IsImage new
        → KeepsSizes old new → (fields_of old).total ≤ (fields_of new).total → v.block < (fields_of old).total
        → sound_tree old level v ≡ Some t → KeepsBlocks old new t.blocks → sound_tree new level v ≡ Some t }
    ensures cut { (old new : List ℕ) (v : Visit) (level : ℕ) (t : Tree) → IsImage old → IsImage new
        → KeepsSizes old new → IsWithinTotal (fields_of new).total v.role t → v.block < (fields_of old).total
        → sound_tree old level v ≡ Some t → KeepsBlocks old new t.blocks → sound_tree new level v ≡ Some t }
    ensures below { (old new : List ℕ) (v : Visit) (level : ℕ) (low : Option (List ℕ)) (es : List Item) (t : Tree)
        → IsImage old → IsImage new → KeepsSizes old new → (fields_of old).total ≤ (fields_of new).total
        → All (IsLawfulEntry (fields_of old) v (suc level)) es → trees_below old v level low es ≡ Some t
        → KeepsBlocks old new t.blocks → trees_below new v level low es ≡ Some t }
{}

/// A sound tree is so, with the same blocks and items, within wider bounds.
pub fn widened_tree()
    ensures { (image : List ℕ) (wide v : Visit) (level : ℕ) (t : Tree) → IsImage image
        → v.block < (fields_of image).total → IsWider wide v → sound_tree image level v ≡ Some t
        → sound_tree image level wide ≡ Some t }
{}

/// The blocks of a sound tree below a root with a sound number are above 0, below the total and no maps. Its items are
/// lawful entries of one level-0 block at its visit: their keys rise and lie within the bounds.
pub fn tree_content()
    ensures blocks { (image : List ℕ) (v : Visit) (level : ℕ) (t : Tree) → IsImage image
        → IsTreeNumber (fields_of image).total v.block → sound_tree image level v ≡ Some t
        → All (IsTreeNumber (fields_of image).total) t.blocks }
    ensures items { (image : List ℕ) (v : Visit) (level : ℕ) (t : Tree) → IsImage image
        → v.block < (fields_of image).total → sound_tree image level v ≡ Some t
        → IsLawful (fields_of image) v 0 t.items }
{}

/// What stands below entries one after another is what stands below the first of them and then below the others.
pub fn trees_in_parts()
    ensures two { (image : List ℕ) (v : Visit) (level : ℕ) (low : Option (List ℕ)) (a b : List Item)
        → trees_below image v level low (a ++ b)
        ≡ both (trees_below image v level low a) (trees_below image v level (low_behind low a) b) }
    ensures three { (image : List ℕ) (v : Visit) (level : ℕ) (low : Option (List ℕ)) (a b : List Item) (e : Item)
        → trees_below image v level low (a ++ e ∷ b)
        ≡ both (trees_below image v level low a)
        (both (sound_tree image level (visit_below v level (low_behind low a) e))
        (trees_below image v level (Some e.key) b)) }
    ensures some { (a b : Option Tree) (x y : Tree) → a ≡ Some x → b ≡ Some y → both a b ≡ Some (joined x y) }
    ensures of_some { (a b : Option Tree) (t : Tree) → both a b ≡ Some t
        → (x y : Tree) × (a ≡ Some x) × (b ≡ Some y) × (t ≡ joined x y) }
{}
