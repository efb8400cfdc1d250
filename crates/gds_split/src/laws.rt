ghost use Rattle.std.specs.Prelude.{◌≡◌, ◌⊎◌, ◌≤◌, ◌+◌, ◌-◌, ◌*◌, ℕ, suc};
ghost use Rattle.std.specs.Prelude.{List, [], ◌∷◌, ◌++◌, length, All, Option, Some};
ghost use Rattle.gds_block.specs.Item.{Item};
ghost use Rattle.gds_header.specs.Fields.{fields_of};
ghost use Rattle.gds_header.specs.Kinds.{IsWithinLimits};
ghost use Rattle.gds_header.specs.declared.header.Header.{Header};
ghost use Rattle.gds_law.specs.Visit.{Visit};
ghost use Rattle.gds_pack.specs.Packed.{packed_size, key_behind};
ghost use Rattle.gds_sound.specs.Sound.{Tree};
ghost use Rattle.gds_tree.specs.Below.{low_behind, trees_below, HasEntries};
ghost use Rattle.gds_tree.specs.Around.{around};
ghost use Rattle.gds_tree.specs.Keeps.{IsImage, KeepsSizes, KeepsBlocks};
ghost use Rattle.gds_tree.specs.Lawful.{IsLawful, IsLawfulEntry};
ghost use Rattle.m_key.specs.Key.{AtMost};
ghost use Rattle.gds_split.specs.Pieces.{Piece, GoInto, own_entries, pieces_above, numbers_of, IsVisitBelow};
ghost use Rattle.gds_split.specs.Pieces.{AreLawfulPieces, HasPieces, IsWritten, HasPieceTrees, IsRaised};

/// Where the lawful entries of a block go into pieces, they are lawful in each of them: within the bounds that the keys
/// make which part the pieces, and above level 0 with a star in each.
pub fn lawful_pieces()
    ensures { (h : Header) (v w : Visit) (level total : ℕ) (low : Option (List ℕ)) (es : List Item)
        (pieces : List Piece) (key : List ℕ) → IsVisitBelow v low key w → IsLawful h w level es
        → GoInto total es pieces → AreLawfulPieces h v level low pieces key }
{}

/// And where the pieces are packed into their blocks, these are there with their entries.
pub fn written_pieces()
    ensures { (image : List ℕ) (v w : Visit) (level : ℕ) (low : Option (List ℕ)) (es : List Item)
        (pieces : List Piece) (key : List ℕ) → IsImage image → IsVisitBelow v low key w
        → IsLawful (fields_of image) w level es → GoInto (fields_of image).total es pieces
        → All (IsWritten image level) pieces → HasPieces image v level low pieces key }
{}

/// In the block above, the entries that lead to the pieces may stand in the place of the one that led to the whole.
/// There are as many as pieces, and the last of them keeps its key.
pub fn parted_entries()
    ensures lawful { (h : Header) (v w : Visit) (level : ℕ) (a : List Item) (e : Item) (b es : List Item)
        (pieces : List Piece) → IsWithinLimits h → IsLawful h v (suc level) (a ++ e ∷ b)
        → IsVisitBelow v (low_behind v.low a) e.key w → IsLawful h w level es → GoInto h.total es pieces
        → IsLawful h v (suc level) (a ++ pieces_above level pieces e.key ++ b) }
    ensures last { (total level : ℕ) (es : List Item) (pieces : List Piece) (key : List ℕ) → GoInto total es pieces
        → key_behind [] (pieces_above level pieces key) ≡ key }
    ensures count { (level : ℕ) (pieces : List Piece) (key : List ℕ)
        → length (pieces_above level pieces key) ≡ length pieces }
{}

/// What stands below the entries that lead to the pieces is sound where what stood below the whole is: above level 0
/// with the same items, and with the blocks of the pieces more. At level 0 it is the pieces themselves.
pub fn pieces_trees()
    ensures index { (image : List ℕ) (v w : Visit) (level : ℕ) (low : Option (List ℕ)) (es : List Item)
        (pieces : List Piece) (key : List ℕ) (below : Tree) → IsImage image → IsVisitBelow v low key w
        → IsLawful (fields_of image) w (suc level) es → GoInto (fields_of image).total es pieces
        → trees_below image w level w.low es ≡ Some below → HasPieces image v (suc level) low pieces key
        → HasPieceTrees image v (suc level) low pieces key below }
    ensures leaf { (image : List ℕ) (v : Visit) (low : Option (List ℕ)) (es : List Item) (pieces : List Piece)
        (key : List ℕ) → IsImage image → GoInto (fields_of image).total es pieces
        → HasPieces image v 0 low pieces key
        → trees_below image v 0 low (pieces_above 0 pieces key)
        ≡ Some (record { blocks = numbers_of pieces; items = es }) }
{}

/// Where some entries of an index block are replaced by others, the trees below those before, the new ones and those
/// behind stand below them all, also where they are too many for the block and go into pieces. It is the law
/// `replaced_entries` of `gds_tree` without the new block.
pub fn replaced_trees()
    ensures { (old new : List ℕ) (v : Visit) (level : ℕ) (a taken b put : List Item) (before middle behind : Tree)
        → IsImage old → IsImage new → KeepsSizes old new → (fields_of old).total ≤ (fields_of new).total
        → HasEntries old v (suc level) (a ++ taken ++ b)
        → trees_below old v level v.low a ≡ Some before
        → trees_below old v level (low_behind v.low (a ++ taken)) b ≡ Some behind
        → KeepsBlocks old new before.blocks → KeepsBlocks old new behind.blocks
        → IsLawful (fields_of new) v (suc level) (a ++ put ++ b)
        → trees_below new v level (low_behind v.low a) put ≡ Some middle
        → (put ≡ []) ⊎ AtMost (key_behind [] put) (key_behind [] taken)
        → trees_below new v level v.low (a ++ put ++ b) ≡ Some (around before middle behind) }
{}

/// Where a root's entries go into pieces below it, the entries that lead to them are lawful in the root, one level
/// higher, and with them its tree is sound: with the same items, and with the blocks of the pieces more.
pub fn raised_root()
    ensures lawful { (h : Header) (v : Visit) (level : ℕ) (es : List Item) (pieces : List Piece) → IsWithinLimits h
        → IsLawful h v level es → GoInto h.total es pieces
        → IsLawful h v (suc level) (pieces_above level pieces []) }
    ensures sound { (image : List ℕ) (v : Visit) (level : ℕ) (es : List Item) (pieces : List Piece) (below : Tree)
        → IsImage image → IsLawful (fields_of image) v (suc level) es → GoInto (fields_of image).total es pieces
        → trees_below image v level v.low es ≡ Some below
        → HasEntries image v (suc (suc level)) (pieces_above (suc level) pieces [])
        → HasPieces image v (suc level) v.low pieces [] → IsRaised image v (suc level) pieces below }
{}

/// A piece takes no more bytes than its entries take in the whole.
pub fn piece_size()
    ensures { (level : ℕ) (entries : List Item) → packed_size (own_entries level entries) ≤ packed_size entries }
{}

/// In the block above each piece but one takes at most the room of a record with a key of the greatest length. Up to
/// three entries there, between others or alone, have room in any block.
pub fn pieces_size()
    ensures above { (h : Header) (v w : Visit) (level : ℕ) (a : List Item) (e : Item) (b es : List Item)
        (pieces : List Piece) → IsWithinLimits h → IsLawful h v (suc level) (a ++ e ∷ b)
        → IsVisitBelow v (low_behind v.low a) e.key w → IsLawful h w level es → GoInto h.total es pieces
        → packed_size (a ++ pieces_above level pieces e.key ++ b)
        ≤ packed_size (a ++ e ∷ b) + (length pieces - 1) * (8 + h.key_max) }
    ensures between { (h : Header) (v : Visit) (level : ℕ) (a put b : List Item)
        → IsLawful h v (suc level) (a ++ put ++ b) → length put ≤ 3
        → packed_size put ≤ 16 + 3 * (8 + h.key_max) }
    ensures alone { (h : Header) (v : Visit) (level : ℕ) (put : List Item) → All (IsLawfulEntry h v (suc level)) put
        → length put ≤ 3 → packed_size put ≤ 16 + 3 * (8 + h.key_max) }
{}
