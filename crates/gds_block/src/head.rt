ghost use Rattle.std.specs.Prelude.{◌≡◌, ◌≤◌, ◌++◌, length, drop};
ghost use Rattle.gds_block.specs.Block.{head_bytes, HasHead};

/// Writes a block's head over the first 16 bytes: version 1, reserved byte 0, and these fields. The bytes
/// behind the head stay.
pub fn write_head(out: &mut [u8], level: u8, used: u32, tn: u64)
    requires { 16 ≤ length out.old }
    ensures written { out.new ≡ head_bytes level used tn ++ drop 16 out.old }
    // Reading the fields gives what was written.
    ensures reads_back { HasHead out.new level used tn }
{
    out[..16].copy_from_slice(&head_of(level, used, tn));
}

// The head of version 1 with these fields.
#[tactic(auto, unfolding(crate::specs::Fields::u16_bytes, crate::specs::Fields::u32_bytes, crate::specs::Fields::u64_bytes))]
fn head_of(level: u8, used: u32, tn: u64) -> [u8; 16]
    ensures { result ≡ head_bytes level used tn }
{
    let [u0, u1, u2, u3] = used.to_le_bytes();
    let [t0, t1, t2, t3, t4, t5, t6, t7] = tn.to_le_bytes();
    [
        1, 0, 0, level, u0, u1, u2, u3, t0, t1, t2, t3, t4, t5, t6, t7,
    ]
}
