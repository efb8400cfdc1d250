ghost use Rattle.std.specs.Prelude.{ℕ, ◌≡◌, ◌+◌, ◌≤◌, ◌++◌, ◌∷◌, [], List, Some, length};
ghost use Rattle.gds_block.specs.Block.{IsBlock, used_of};
ghost use Rattle.gds_block.specs.Record.{records_of};
ghost use Rattle.gds_pack.specs.Cut.{CanBeCut};
ghost use Rattle.gds_block.specs.Item.{Item};
ghost use Rattle.m_key.specs.KeyEnd.{shared};
ghost use Rattle.gds_pack.specs.Packable.{ArePackable};
ghost use Rattle.gds_pack.specs.Packed.{packed_size, packed_records, block_bytes, key_behind, first_key};
ghost use Rattle.gds_pack.specs.Unpacked.{entries_of};

/// A packed block is one, its used count is the packed size, and its records and entries are those that
/// were packed.
pub fn block_read()
    ensures is_block { (is : List Item) (level tn room : ℕ) → packed_size is ≤ room → room ≤ 65024
        → IsBlock (block_bytes is level tn room) }
    ensures used { (is : List Item) (level tn room : ℕ) → packed_size is ≤ room → room ≤ 65024
        → used_of (block_bytes is level tn room) ≡ packed_size is }
    ensures records { (is : List Item) (level tn room : ℕ) → packed_size is ≤ room → room ≤ 65024
        → ArePackable level is → records_of (block_bytes is level tn room) ≡ packed_records 16 [] is }
    ensures entries { (is : List Item) (level tn room : ℕ) → packed_size is ≤ room → room ≤ 65024
        → ArePackable level is → entries_of (block_bytes is level tn room) ≡ Some is }
{}

/// A part of a list needs no more bytes than the list.
pub fn part_size()
    ensures front { (a b : List Item) → packed_size a ≤ packed_size (a ++ b) }
    ensures back { (a b : List Item) → packed_size b ≤ packed_size (a ++ b) }
{}

/// In one block two lists need less than in two, by a head of 16 bytes at least.
pub fn joined_size()
    ensures { (a b : List Item) → packed_size (a ++ b) + 16 ≤ packed_size a + packed_size b }
{}

/// One more entry adds at most 4 bytes, its key and its rest, and what the entry behind it shares with the
/// key before and no longer with the new one. Where the keys rise that is nothing.
pub fn size_with_one_more()
    ensures alone { (i : Item) → packed_size (i ∷ []) ≡ 20 + length i.key + length i.rest }
    ensures any { (a b : List Item) (i : Item)
        → packed_size (a ++ i ∷ b) + shared i.key (first_key b)
        ≤ packed_size (a ++ b) + 4 + length i.key + length i.rest + shared (key_behind [] a) (first_key b) }
    ensures rising { (level : ℕ) (a b : List Item) (i : Item) → ArePackable level (a ++ i ∷ b)
        → packed_size (a ++ i ∷ b) ≤ packed_size (a ++ b) + 4 + length i.key + length i.rest }
{}

/// Where entries are put in a list, or in place of some of it, and these, those before them and those
/// behind them fit in a block each, three runs suffice.
pub fn three_runs()
    ensures { (limit : ℕ) (a put b : List Item) → packed_size a ≤ limit → packed_size put ≤ limit
        → packed_size b ≤ limit
        → CanBeCut 3 limit (a ++ put ++ b) }
{}
