ghost use Rattle.std.specs.Prelude.{◌≡◌, ◌<◌, IsTrue, length, IfOk, OnOk, IfErr, IfSome, IfNone};
ghost use Rattle.std.specs.Option.{ForSome};
ghost use Rattle.gds_header.specs.Fields.{block_of};
ghost use Rattle.gds_header.specs.Kinds.{IsWithinLimits};
ghost use Rattle.gds_cli.specs.Thin.{is_star_block};
ghost use Rattle.gds_cli.specs.Trouble.{WasReadFor, IsChange};
ghost use Rattle.gds_cli.specs.SoundHeader.{IsHeaderOf};
ghost use Rattle.gds_cli.specs.Directory.{LeadsTo};

use super::leaf::star_child;
use super::trouble::Trouble;
use gds_header::{HEADER_LENGTH, Header};
use host_model::{FileNo, Host};

/// Reads a block of the database file.
pub(crate) fn read_block<H: Host>(
    host: &mut H,
    header: &Header,
    number: u32,
    block: &mut [u8],
) -> Result<(), Trouble>
    requires { length block.old ≡ header.now.block_size }
    ensures bytes { OnOk result (ForSome (H.told host.old) (λ c.
        IsHeaderOf header.now c.db → number < header.now.total → block.new ≡ block_of c.db number)) }
    ensures host { WasReadFor H.told H.failures host.old host.new result }
    ensures changed { IfErr result (λ t. IsChange t → ForSome (H.told host.old) (λ c.
        IsHeaderOf header.now c.db → number < header.now.total → ⊥)) }
{
    let at = HEADER_LENGTH as u64 + u64::from(number) * u64::from(header.block_size);
    if host.read(FileNo::Db, at, block)? < block.len() {
        return Err(Trouble::Changed {
            unit: u64::from(number) + 1,
        });
    }
    Ok(())
}

/// Reads the block that a star block leads to, and answers its number. None says that there is no star block.
pub(crate) fn read_below<H: Host>(
    host: &mut H,
    header: &Header,
    number: u32,
    block: &mut [u8],
) -> Result<Option<u32>, Trouble>
    requires limits { IsWithinLimits header.now }
    requires room { length block.old ≡ header.now.block_size }
    ensures some { IfOk result (λ o. IfSome o (λ child. ForSome (H.told host.old) (λ c.
        IsHeaderOf header.now c.db → number < header.now.total
        → LeadsTo header.now c.db number child block.new))) }
    ensures none { IfOk result (λ o. IfNone o (ForSome (H.told host.old) (λ c.
        IsHeaderOf header.now c.db → number < header.now.total
        → IsTrue (is_star_block header.now (block_of c.db number)) → ⊥))) }
    ensures host { WasReadFor H.told H.failures host.old host.new result }
    ensures changed { IfErr result (λ t. IsChange t → ForSome (H.told host.old) (λ c.
        IsHeaderOf header.now c.db → number < header.now.total → ⊥)) }
{
    read_block(host, header, number, block)?;
    let Some(child) = star_child(header, block) else {
        return Ok(None);
    };
    read_block(host, header, child, block)?;
    Ok(Some(child))
}
