ghost use Rattle.std.specs.Prelude.{◌≡◌, ◌≢◌, ◌≤◌, ◌++◌, ◌∷◌, [], ℕ, suc, List, Option, All};
ghost use Rattle.gds_block.specs.Item.{Item};
ghost use Rattle.gds_header.specs.declared.header.Header.{Header};
ghost use Rattle.gds_header.specs.Fields.{fields_of};
ghost use Rattle.gds_law.specs.Visit.{Visit};
ghost use Rattle.gds_pack.specs.Packable.{AreLeaves, AreIndex, ArePackable};
ghost use Rattle.gds_pack.specs.Packed.{key_behind};
ghost use Rattle.m_key.specs.Key.{Below};
ghost use Rattle.m_key.specs.KeyEnd.{IsKey};
ghost use Rattle.gds_tree.specs.Lawful.{IsAboveLow, IsBelowHigh, IsLawfulKey, IsLawfulRest, IsLawfulEntry, MayBeEmpty};
ghost use Rattle.gds_tree.specs.Lawful.{IsLawful, IsPointer};
ghost use Rattle.gds_tree.specs.Keeps.{IsImage, KeepsSizes};
ghost use Rattle.gds_tree.specs.Below.{below_key, from_key, as_star, with_key, trees_below};

/// The lawful entries of a block in two pieces are lawful in two blocks, whose bounds the key that parts them makes: at
/// level 0 that is the first key of the right piece, and above it the key of the left piece's last entry, which becomes
/// the star there.
pub fn cut_entries()
    ensures leaf_left { (h : Header) (v : Visit) (a : List Item) (f : Item) (b : List Item)
        → IsLawful h v 0 (a ++ f ∷ b) → a ≢ [] → IsLawful h (below_key v f.key) 0 a }
    ensures leaf_right { (h : Header) (v : Visit) (a : List Item) (f : Item) (b : List Item)
        → IsLawful h v 0 (a ++ f ∷ b) → IsLawful h (from_key v f.key) 0 (f ∷ b) }
    ensures index_left { (h : Header) (v : Visit) (level : ℕ) (a : List Item) (m f : Item) (b : List Item)
        → IsLawful h v (suc level) (a ++ m ∷ f ∷ b)
        → IsLawful h (below_key v m.key) (suc level) (a ++ as_star m ∷ []) }
    ensures index_right { (h : Header) (v : Visit) (level : ℕ) (a : List Item) (m f : Item) (b : List Item)
        → IsLawful h v (suc level) (a ++ m ∷ f ∷ b) → IsLawful h (from_key v m.key) (suc level) (f ∷ b) }
{}

/// And back: the lawful entries of two neighbours are lawful in one block, where the left one's star takes the key that
/// parts them.
pub fn joined_entries()
    ensures leaf { (h : Header) (v : Visit) (key : List ℕ) (a b : List Item) → IsLawful h (below_key v key) 0 a
        → IsLawful h (from_key v key) 0 b → IsAboveLow 1 v.low key → IsBelowHigh v.high key
        → IsLawful h v 0 (a ++ b) }
    ensures index { (h : Header) (v : Visit) (level : ℕ) (key : List ℕ) (a : List Item) (m : Item) (b : List Item)
        → IsLawful h (below_key v key) (suc level) (a ++ m ∷ []) → IsLawful h (from_key v key) (suc level) b
        → IsKey key → IsLawfulKey h v (suc level) key → IsLawful h v (suc level) (a ++ with_key key m ∷ b) }
{}

/// What a change of one leaf leaves lawful: another value, an entry more in its place, and entries taken out where some
/// are left or none need be.
pub fn changed_leaf()
    ensures value { (h : Header) (v : Visit) (a : List Item) (e : Item) (b : List Item) (rest : List ℕ)
        → IsLawful h v 0 (a ++ e ∷ b) → IsLawfulRest h v.role 0 rest
        → IsLawful h v 0 (a ++ record { key = e.key; rest = rest } ∷ b) }
    ensures put { (h : Header) (v : Visit) (a b : List Item) (e : Item) → IsLawful h v 0 (a ++ b)
        → AreLeaves (key_behind [] a) (e ∷ b) → IsLawfulEntry h v 0 e → IsLawful h v 0 (a ++ e ∷ b) }
    ensures taken { (h : Header) (v : Visit) (a c b : List Item) → IsLawful h v 0 (a ++ c ++ b)
        → (a ++ b ≡ [] → MayBeEmpty v 0) → IsLawful h v 0 (a ++ b) }
{}

/// What a change of one index block leaves lawful: other entries between those before and those behind, or at its end
/// with a star among them.
pub fn changed_index()
    ensures between { (h : Header) (v : Visit) (level : ℕ) (a taken put : List Item) (f : Item) (b : List Item)
        → IsLawful h v (suc level) (a ++ taken ++ f ∷ b) → AreLeaves (key_behind [] a) put
        → (f.key ≢ [] → Below (key_behind (key_behind [] a) put) f.key) → All (IsLawfulEntry h v (suc level)) put
        → IsLawful h v (suc level) (a ++ put ++ f ∷ b) }
    ensures ended { (h : Header) (v : Visit) (level : ℕ) (a : List Item) (f : Item) (taken put : List Item)
        → IsLawful h v (suc level) (a ++ f ∷ taken) → AreIndex (key_behind [] a) put
        → All (IsLawfulEntry h v (suc level)) put → IsLawful h v (suc level) (a ++ put) }
{}

/// Where an entry of an index block becomes two, as where what stands below it is split, a lawful key parts them: above
/// that of the entry before and below the entry's own, which the second of the two keeps.
pub fn parted_entry()
    ensures { (h : Header) (v : Visit) (level : ℕ) (a : List Item) (e : Item) (b : List Item) (key left right : List ℕ)
        → IsLawful h v (suc level) (a ++ e ∷ b) → IsKey key → IsLawfulKey h v (suc level) key
        → Below (key_behind [] a) key → (e.key ≢ [] → Below key e.key) → IsPointer h left → IsPointer h right
        → IsLawful h v (suc level) (a ++ record { key = key; rest = left } ∷ record { key = e.key; rest = right } ∷ b) }
{}

/// The role and the bounds of a visit decide which entries are lawful there and, with the entries, what stands below.
pub fn other_visit()
    ensures lawful { (h : Header) (v w : Visit) (level : ℕ) (es : List Item) → IsLawful h v level es → w.role ≡ v.role
        → w.low ≡ v.low → w.high ≡ v.high → IsLawful h w level es }
    ensures trees { (image : List ℕ) (v w : Visit) (level : ℕ) (low : Option (List ℕ)) (es : List Item)
        → v.role ≡ w.role → v.high ≡ w.high → trees_below image v level low es ≡ trees_below image w level low es }
{}

/// Lawful entries are so under another header with the same limits on keys and values and no smaller total and
/// transaction number.
pub fn other_header()
    ensures { (old new : List ℕ) (v : Visit) (level : ℕ) (es : List Item) → IsImage old → IsImage new
        → KeepsSizes old new → (fields_of old).total ≤ (fields_of new).total → IsLawful (fields_of old) v level es
        → IsLawful (fields_of new) v level es }
{}

/// The same trees stand below the front of the entries of an index block where they have a block of their own, in which
/// the last of them is the star.
pub fn trees_of_front()
    ensures { (image : List ℕ) (v : Visit) (level : ℕ) (low : Option (List ℕ)) (a : List Item) (m : Item)
        → ArePackable (suc level) (a ++ as_star m ∷ []) → m.key ≢ []
        → trees_below image (below_key v m.key) level low (a ++ as_star m ∷ [])
        ≡ trees_below image v level low (a ++ m ∷ []) }
{}
