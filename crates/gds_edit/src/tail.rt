ghost use Rattle.std.specs.Prelude.{◌≡◌, ◌<◌, ◌≤◌, ◌+◌, ◌-◌, length, OnOk, OnErr, IfErr};
ghost use Rattle.gds_edit.specs.Edited.{IsMoved};
ghost use Rattle.gds_edit.specs.declared.error.EditError.TheVariants.{NoRoom};

use crate::error::EditError;
use gds_block::put_u32;

// Moves the used bytes from one place on so that they begin at another, and writes where they end into the head.
pub(crate) fn move_tail(block: &mut [u8], from: usize, to: usize, used: usize)
    requires behind_head { 16 ≤ to }
    requires from { from ≤ used }
    requires within { used ≤ length block.old }
    requires short { length block.old ≤ 65024 }
    requires fits { to + (used - from) ≤ length block.old }
    ensures { IsMoved block.old block.new from to used }
{
    block.copy_within(from..used, to);
    put_u32(block, 4, (to + (used - from)) as u32);
}

// The same, if the block has room.
pub(crate) fn push_tail(
    block: &mut [u8],
    from: usize,
    to: usize,
    used: usize,
) -> Result<(), EditError>
    requires behind_head { 16 ≤ to }
    requires from { from ≤ used }
    requires within { used ≤ length block.old }
    requires short { length block.old ≤ 65024 }
    ensures moved { OnOk result (IsMoved block.old block.new from to used) }
    ensures kept { OnErr result (block.new ≡ block.old) }
    ensures full { IfErr result (λ e. (e ≡ NoRoom) × (length block.old < to + (used - from))) }
{
    if to > block.len() - (used - from) {
        return Err(EditError::NoRoom);
    }
    move_tail(block, from, to, used);
    Ok(())
}
