ghost use Rattle.std.specs.Prelude.{◌≡◌, ◌+◌, ◌*◌, ◌/◌, ◌<◌, ◌==◌, ◌||◌, not, false, ℕ, length, IfOk};
ghost use Rattle.integ_walk.specs.BlockSet.{has_block};

use std::alloc::{AllocError, Global};

/// A set of blocks, one bit for each: block b is bit b mod 8 of byte b div 8.
#[derive(Drop)]
pub(crate) struct BlockSet {
    pub(crate) bytes: Vec<u8>,
}

impl BlockSet {
    /// The empty set, with room for the blocks below a number.
    pub(crate) fn new(alloc: Global, total: u32) -> Result<BlockSet, AllocError>
        ensures none { IfOk result (λ set. (block : ℕ) → has_block set.bytes.items block ≡ false) }
        ensures room { IfOk result (λ set. length set.bytes.items ≡ (total + 7) / 8) }
    {
        let bytes = vec![in alloc; 0; total.div_ceil(8) as usize]?;
        Ok(BlockSet { bytes })
    }

    /// Puts in a block, and answers whether it wasn't there.
    pub(crate) fn insert(&mut self, block: u32) -> bool
        requires { block < 8 * length self.old.bytes.items }
        ensures is_new { result ≡ not (has_block self.old.bytes.items block) }
        ensures blocks { (b : ℕ) → has_block self.new.bytes.items b
            ≡ ((b == block) || has_block self.old.bytes.items b) }
        ensures room { length self.new.bytes.items ≡ length self.old.bytes.items }
    {
        let byte = &mut self.bytes[block as usize / 8];
        let bit = 1 << (block % 8);
        let is_new = *byte & bit == 0;
        *byte |= bit;
        is_new
    }
}
