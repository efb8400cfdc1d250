ghost use Rattle.std.specs.Prelude.{◌≡◌, ◌⊎◌, ◌<◌, ◌≤◌, ◌+◌, ◌++◌, ◌∷◌, [], ℕ, suc, List, Option, Some, length, drop};
ghost use Rattle.std.specs.Prelude.{All};
ghost use Rattle.gds_block.specs.Item.{Item};
ghost use Rattle.gds_block.specs.Fields.{u32_at};
ghost use Rattle.gds_header.specs.Fields.{fields_of, block_of};
ghost use Rattle.gds_law.specs.Visit.{Visit};
ghost use Rattle.gds_law.specs.Path.{Steps, visit_from};
ghost use Rattle.gds_pack.specs.Packed.{key_behind};
ghost use Rattle.gds_pack.specs.Unpacked.{entries_of};
ghost use Rattle.gds_sound.specs.Sound.{Tree, joined, sound_tree};
ghost use Rattle.m_key.specs.Key.{AtMost};
ghost use Rattle.gds_tree.specs.Below.{as_star, visit_below, low_behind, trees_below, HasEntries, index_tree};
ghost use Rattle.gds_tree.specs.Split.{PartsAt, InTwoPieces};
ghost use Rattle.gds_tree.specs.Lawful.{IsTreeNumber};
ghost use Rattle.gds_tree.specs.Renumber.{exchanged, renumbered_visit, renumbered_tree, IsRenumbered, KeepsNumbers};
ghost use Rattle.gds_tree.specs.Keeps.{IsImage, KeepsSizes, KeepsBlocks};
ghost use Rattle.gds_tree.specs.Around.{around, IsAround};

/// Where some entries of an index block are replaced by others, whose last key isn't above the last key of those that
/// were taken, and what stands below the new ones is sound in the new image, which keeps what stands below the others,
/// the tree is sound there: with what stands below those before, the new ones and those behind.
pub fn replaced_entries()
    ensures { (old new : List ℕ) (v : Visit) (level : ℕ) (a taken b put : List Item) (before middle behind : Tree)
        → IsImage old → IsImage new → KeepsSizes old new → (fields_of old).total ≤ (fields_of new).total
        → HasEntries old v (suc level) (a ++ taken ++ b)
        → trees_below old v level v.low a ≡ Some before
        → trees_below old v level (low_behind v.low (a ++ taken)) b ≡ Some behind
        → KeepsBlocks old new before.blocks → KeepsBlocks old new behind.blocks
        → HasEntries new v (suc level) (a ++ put ++ b)
        → trees_below new v level (low_behind v.low a) put ≡ Some middle
        → (put ≡ []) ⊎ AtMost (key_behind [] put) (key_behind [] taken)
        → sound_tree new (suc level) v ≡ Some (index_tree v (around before middle behind)) }
{}

/// Where a path leads from a visit to one further down in the same tree, the tree has there a tree of its own, with
/// blocks
/// and items before it and behind it, and another sound tree may stand in its place.
pub fn tree_inside()
    ensures { (image : List ℕ) (v w : Visit) (path : Steps) (level : ℕ) (t : Tree) → IsImage image
        → v.block < (fields_of image).total → visit_from image v path ≡ Some w
        → sound_tree image (length path + level) v ≡ Some t → IsAround image v path w level t }
{}

/// Where a root above level 1 with the star alone takes the entries of its one child, the tree is sound in the new
/// image,
/// which keeps what stands below the child: one level lower, without the child's block and with the same items.
pub fn collapsed_root()
    ensures { (old new : List ℕ) (v : Visit) (level : ℕ) (e : Item) (es : List Item) (t : Tree)
        → IsImage old → IsImage new → KeepsSizes old new → (fields_of old).total ≤ (fields_of new).total
        → HasEntries old v (suc (suc level)) (e ∷ []) → sound_tree old (suc (suc level)) v ≡ Some t
        → entries_of (block_of old (u32_at e.rest 0)) ≡ Some es → HasEntries new v (suc level) es
        → KeepsBlocks old new (drop 2 t.blocks)
        → sound_tree new (suc level) v ≡ Some (record { blocks = v.block ∷ drop 2 t.blocks; items = t.items }) }
{}

/// Where the entries of an index block go into two blocks side by side, whose bounds a key parts, both pieces have
/// sound
/// trees in the new image, which keeps what stands below the block: together those that stood there.
pub fn split_block()
    ensures { (old new : List ℕ) (v : Visit) (level : ℕ) (a : List Item) (m f : Item) (b : List Item) (t : Tree)
        (left right : Visit) → IsImage old → IsImage new → KeepsSizes old new
        → (fields_of old).total ≤ (fields_of new).total → HasEntries old v (suc level) (a ++ m ∷ f ∷ b)
        → sound_tree old (suc level) v ≡ Some t → KeepsBlocks old new (drop 1 t.blocks)
        → PartsAt v m.key left right → HasEntries new left (suc level) (a ++ as_star m ∷ [])
        → HasEntries new right (suc level) (f ∷ b) → InTwoPieces new v level left right t }
{}

/// Where a root's entries go into two blocks below it, the tree is sound in the new image, which keeps what stood below
/// the root: one level higher, with the two blocks more and with the same items.
pub fn split_root()
    ensures { (old new : List ℕ) (v : Visit) (level : ℕ) (a : List Item) (m f : Item) (b : List Item) (t : Tree)
        (p q : Item) → IsImage old → IsImage new → KeepsSizes old new
        → (fields_of old).total ≤ (fields_of new).total → HasEntries old v (suc level) (a ++ m ∷ f ∷ b)
        → sound_tree old (suc level) v ≡ Some t → KeepsBlocks old new (drop 1 t.blocks)
        → HasEntries new v (suc (suc level)) (p ∷ q ∷ []) → p.key ≡ m.key
        → HasEntries new (visit_below v (suc level) v.low p) (suc level) (a ++ as_star m ∷ [])
        → HasEntries new (visit_below v (suc level) (Some p.key) q) (suc level) (f ∷ b)
        → (before behind : Tree) × (t ≡ index_tree v (joined before behind))
        × (sound_tree new (suc (suc level)) v ≡ Some (index_tree v
        (joined (index_tree (visit_below v (suc level) v.low p) before)
        (index_tree (visit_below v (suc level) (Some p.key) q) behind)))) }
{}

/// A sound tree whose blocks get other numbers, in the pointers to them too, is sound under these numbers.
pub fn other_numbers()
    ensures sound { (old new : List ℕ) (number : ℕ → ℕ) (v : Visit) (level : ℕ) (t : Tree) → IsImage old → IsImage new
        → KeepsSizes old new → KeepsNumbers (fields_of old).total (fields_of new).total number
        → IsTreeNumber (fields_of old).total v.block → sound_tree old level v ≡ Some t
        → All (IsRenumbered old new number v.role) t.blocks
        → sound_tree new level (renumbered_visit number v) ≡ Some (renumbered_tree number v.role t) }
    ensures exchange { (total a b : ℕ) → IsTreeNumber total a → IsTreeNumber total b
        → KeepsNumbers total total (exchanged a b) }
{}
