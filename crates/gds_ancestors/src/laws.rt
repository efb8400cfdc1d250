ghost use Rattle.std.specs.Prelude.{◌≡◌, ◌⊎◌, ◌↔◌, ◌<◌, ◌≤◌, ◌+◌, ◌++◌, ◌∷◌, [], ◌||◌, ℕ, suc, nat_eq, List, Some};
ghost use Rattle.std.specs.Prelude.{Option, length, All};
ghost use Rattle.std.specs.List.{IsDistinct, list_any};
ghost use Rattle.std.specs.List.Sorted.{IsPermutation};
ghost use Rattle.gds_block.specs.Item.{Item};
ghost use Rattle.gds_header.specs.declared.header.Header.{Header};
ghost use Rattle.gds_header.specs.Fields.{fields_of};
ghost use Rattle.gds_law.specs.Visit.{Visit};
ghost use Rattle.gds_law.specs.Path.{Steps, visit_from};
ghost use Rattle.gds_pack.specs.Packed.{key_behind, packed_size};
ghost use Rattle.gds_sound.specs.Sound.{Tree, sound_tree};
ghost use Rattle.m_key.specs.Key.{AtMost};
ghost use Rattle.gds_tree.specs.Around.{around};
ghost use Rattle.gds_tree.specs.Below.{as_star, low_behind, trees_below, HasEntries, index_tree};
ghost use Rattle.gds_tree.specs.Keeps.{IsImage, KeepsSizes, KeepsBlocks};
ghost use Rattle.gds_tree.specs.Lawful.{IsTreeNumber, IsLawfulEntry, IsLawful};
ghost use Rattle.gds_ancestors.specs.Ancestors.{Ancestor, whole_with, steps_to, outer_blocks, items_before};
ghost use Rattle.gds_ancestors.specs.Ancestors.{items_behind, AreAncestors, HasAncestors};

/// A path within one tree has ancestors, whose steps it is, and a sound tree stands below them.
pub fn ancestors_of_path()
    ensures { (image : List ℕ) (root w : Visit) (path : Steps) (level : ℕ) (t : Tree) → IsImage image
        → root.block < (fields_of image).total → visit_from image root path ≡ Some w
        → sound_tree image (length path + level) root ≡ Some t → HasAncestors image root path w level t }
{}

/// And back: the steps of ancestors lead from the root to the visit below them. In a block an offset belongs to one
/// entry.
pub fn steps_of_ancestors()
    ensures lead { (image : List ℕ) (root w : Visit) (above : List Ancestor) (level : ℕ) → IsImage image
        → AreAncestors image root above w level → visit_from image root (steps_to above) ≡ Some w }
    ensures count { (above : List Ancestor) → length (steps_to above) ≡ length above }
    ensures entry { (a : List Item) (e : Item) (b c : List Item) (f : Item) (d : List Item)
        → a ++ e ∷ b ≡ c ++ f ∷ d → packed_size a ≡ packed_size c → (a ≡ c) × (e ≡ f) × (b ≡ d) }
{}

/// Over a sound tree the ancestors make the root's tree sound, with that tree in its place.
pub fn tree_of_ancestors()
    ensures { (image : List ℕ) (root w : Visit) (above : List Ancestor) (level : ℕ) (inner : Tree) → IsImage image
        → AreAncestors image root above w level → sound_tree image level w ≡ Some inner
        → sound_tree image (length above + level) root ≡ Some (whole_with above inner) }
{}

/// Ancestors are so in an image that keeps the sizes, their blocks and those beside the way down, and has no smaller
/// total.
pub fn ancestors_kept()
    ensures { (old new : List ℕ) (root w : Visit) (above : List Ancestor) (level : ℕ) → IsImage old → IsImage new
        → KeepsSizes old new → (fields_of old).total ≤ (fields_of new).total → AreAncestors old root above w level
        → KeepsBlocks old new (outer_blocks above) → AreAncestors new root above w level }
{}

/// The tree over ancestors has the items before, those of the tree in its place, and those behind. Its blocks are the
/// outer ones and those of that tree, in another order: a block is among them where it is among either, and none is
/// twice among them where none is twice among both.
pub fn whole_content()
    ensures items { (above : List Ancestor) (inner : Tree)
        → (whole_with above inner).items ≡ items_before above ++ inner.items ++ items_behind above }
    ensures blocks { (above : List Ancestor) (inner : Tree)
        → IsPermutation (whole_with above inner).blocks (outer_blocks above ++ inner.blocks) }
    ensures has { (above : List Ancestor) (inner : Tree) (n : ℕ) → list_any (nat_eq n) (whole_with above inner).blocks
        ≡ (list_any (nat_eq n) (outer_blocks above) || list_any (nat_eq n) inner.blocks) }
    ensures distinct { (above : List Ancestor) (inner : Tree) → IsDistinct nat_eq (whole_with above inner).blocks
        ↔ IsDistinct nat_eq (outer_blocks above ++ inner.blocks) }
{}

/// What stands below entries one after another, in three parts. Where the second part takes the place of entries whose
/// last key isn't below the last of its own, what stood below the third stands there still, within a wider bound. So
/// the block with all of them has a sound tree.
pub fn spliced_block()
    ensures parts { (image : List ℕ) (v : Visit) (level : ℕ) (low : Option (List ℕ)) (a put b : List Item)
        (before middle behind : Tree) → trees_below image v level low a ≡ Some before
        → trees_below image v level (low_behind low a) put ≡ Some middle
        → trees_below image v level (low_behind low (a ++ put)) b ≡ Some behind
        → trees_below image v level low (a ++ put ++ b) ≡ Some (around before middle behind) }
    ensures trees { (image : List ℕ) (v : Visit) (level : ℕ) (a taken put b : List Item) (before middle behind : Tree)
        → IsImage image → IsLawful (fields_of image) v (suc level) (a ++ taken ++ b)
        → IsLawful (fields_of image) v (suc level) (a ++ put ++ b)
        → (put ≡ []) ⊎ AtMost (key_behind [] put) (key_behind [] taken)
        → trees_below image v level v.low a ≡ Some before
        → trees_below image v level (low_behind v.low a) put ≡ Some middle
        → trees_below image v level (low_behind v.low (a ++ taken)) b ≡ Some behind
        → trees_below image v level v.low (a ++ put ++ b) ≡ Some (around before middle behind) }
    ensures sound { (image : List ℕ) (v : Visit) (level : ℕ) (a taken put b : List Item) (before middle behind : Tree)
        → IsImage image → IsLawful (fields_of image) v (suc level) (a ++ taken ++ b)
        → HasEntries image v (suc level) (a ++ put ++ b)
        → (put ≡ []) ⊎ AtMost (key_behind [] put) (key_behind [] taken)
        → trees_below image v level v.low a ≡ Some before
        → trees_below image v level (low_behind v.low a) put ≡ Some middle
        → trees_below image v level (low_behind v.low (a ++ taken)) b ≡ Some behind
        → sound_tree image (suc level) v ≡ Some (index_tree v (around before middle behind)) }
{}

/// Where the last entries of an index block go, the last one that is left becomes the star: the entries are lawful, and
/// the same trees stand below them.
pub fn starred_entry()
    ensures lawful { (h : Header) (v : Visit) (level : ℕ) (a : List Item) (m : Item) (b : List Item)
        → IsLawful h v (suc level) (a ++ m ∷ b) → IsLawful h v (suc level) (a ++ as_star m ∷ []) }
    ensures trees { (image : List ℕ) (v : Visit) (level : ℕ) (low : Option (List ℕ)) (a : List Item) (m : Item)
        (t : Tree) → IsImage image → IsLawfulEntry (fields_of image) v (suc level) m
        → trees_below image v level low (a ++ m ∷ []) ≡ Some t
        → trees_below image v level low (a ++ as_star m ∷ []) ≡ Some t }
{}

/// A visit below ancestors is of the root's role, and where there are some, its level is due. Where the root's number
/// may be that of a tree's block, so may its own and those of the blocks above it and beside.
pub fn visit_of_ancestors()
    ensures role { (image : List ℕ) (root w : Visit) (above : List Ancestor) (level : ℕ)
        → AreAncestors image root above w level → w.role ≡ root.role }
    ensures level { (image : List ℕ) (root w : Visit) (a : Ancestor) (above : List Ancestor) (level : ℕ)
        → AreAncestors image root (a ∷ above) w level → w.level ≡ Some level }
    ensures number { (image : List ℕ) (root w : Visit) (above : List Ancestor) (level : ℕ)
        → IsTreeNumber (fields_of image).total root.block → AreAncestors image root above w level
        → IsTreeNumber (fields_of image).total w.block }
    ensures outer { (image : List ℕ) (root w : Visit) (above : List Ancestor) (level : ℕ) → IsImage image
        → IsTreeNumber (fields_of image).total root.block → AreAncestors image root above w level
        → All (IsTreeNumber (fields_of image).total) (outer_blocks above) }
{}
