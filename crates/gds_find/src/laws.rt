ghost use Rattle.std.specs.Prelude.{◌≡◌, ◌<◌, ℕ, Bool, List, Some, All};
ghost use Rattle.gds_ancestors.specs.Ancestors.{Ancestor, AreAncestors, items_before, items_behind};
ghost use Rattle.gds_header.specs.Fields.{fields_of};
ghost use Rattle.gds_law.specs.Path.{Steps};
ghost use Rattle.gds_law.specs.Visit.{Visit};
ghost use Rattle.gds_search.specs.declared.place.Place.{Place};
ghost use Rattle.gds_sound.specs.Sound.{Tree, tree_at};
ghost use Rattle.gds_tree.specs.Keeps.{IsImage};
ghost use Rattle.m_key.specs.Key.{Below};
ghost use Rattle.gds_find.specs.Found.{PartsItems};
ghost use Rattle.gds_find.specs.Trail.{HoldsKey, IsTrail};

/// Where the bounds of a visit hold a key, so do those of the root above it. The items before the way down are below
/// the key, and those behind it above.
pub fn items_beside()
    ensures holds { (image : List ℕ) (root w : Visit) (above : List Ancestor) (level : ℕ) (key : List ℕ)
        → IsImage image → AreAncestors image root above w level → HoldsKey w key → HoldsKey root key }
    ensures before { (image : List ℕ) (root w : Visit) (above : List Ancestor) (level : ℕ) (key : List ℕ)
        → IsImage image → AreAncestors image root above w level → HoldsKey w key
        → All (λ e. Below e.key key) (items_before above) }
    ensures behind { (image : List ℕ) (root w : Visit) (above : List Ancestor) (level : ℕ) (key : List ℕ)
        → IsImage image → AreAncestors image root above w level → HoldsKey w key
        → All (λ e. Below key e.key) (items_behind above) }
{}

/// A trail parts the items of its tree at the key, and says whether one of them has it.
pub fn items_at_trail()
    ensures { (image : List ℕ) (root : Visit) (key : List ℕ) (steps : Steps) (found : Bool) (place : Place) (t : Tree)
        → IsImage image → root.block < (fields_of image).total → tree_at image root ≡ Some t
        → IsTrail image root key steps found place → PartsItems t.items key found }
{}
