ghost use Rattle.std.specs.Prelude.{ℕ, ◌≡◌, ◌≢◌, ◌⊎◌, ◌++◌, ◌∷◌, [], List, false, length};
ghost use Rattle.gds_block.specs.Item.{Item};
ghost use Rattle.m_key.specs.KeyEnd.{IsKey};
ghost use Rattle.gds_pack.specs.Packable.{ArePackable};
ghost use Rattle.gds_search.specs.Place.{IsPlaceFor};
ghost use Rattle.gds_search.specs.declared.place.Place.{Place};

/// A block may have what an edit gives it: an entry at the place of a key that no other has, with a pointer of 4 bytes
/// in an index block; another rest, of 4 bytes in an index block; and the others, once one goes that isn't the star.
pub fn edits_are_packable()
    ensures inserted { (height : ℕ) (es a b : List Item) (key rest : List ℕ) (place : Place) → ArePackable height es
        → IsPlaceFor es key place a b → place.is_equal ≡ false → IsKey key → (height ≡ 0) ⊎ (length rest ≡ 4)
        → ArePackable height (a ++ record { key = key; rest = rest } ∷ b) }
    ensures replaced { (height : ℕ) (a b : List Item) (e : Item) (rest : List ℕ) → ArePackable height (a ++ e ∷ b)
        → (height ≡ 0) ⊎ (length rest ≡ 4) → ArePackable height (a ++ record e { rest = rest } ∷ b) }
    ensures removed { (height : ℕ) (a b : List Item) (e : Item) → ArePackable height (a ++ e ∷ b)
        → (height ≡ 0) ⊎ (b ≢ []) → ArePackable height (a ++ b) }
{}
