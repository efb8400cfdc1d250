ghost use Rattle.std.specs.Prelude.{◌≡◌, None, IfOk, IfErr, IfSome, IfNone};
ghost use Rattle.std.specs.Option.{ForSome};
ghost use Rattle.gds_header.specs.Kinds.{IsWithinLimits};
ghost use Rattle.m_key.specs.Globals.{Globals};
ghost use Rattle.gds_cli.specs.Thin.{IsThinWith};
ghost use Rattle.gds_cli.specs.Trouble.{AreBlamed, WasReadFor, IsChange};
ghost use Rattle.gds_cli.specs.Directory.{FindsThin};
ghost use Rattle.gds_cli.specs.Extract.{ExtractEnds};

use super::directory::find_leaves;
use super::header::sound_header;
use super::images::is_closed;
use super::saying::{say_head, say_leaves};
use super::trouble::Trouble;
use gds_header::Header;
use host_model::Host;
use std::alloc::Global;

/// What a thin file has to be read again: its header, and the leaves of its globals by their numbers.
#[derive(Drop)]
struct Thin {
    header: Header,
    leaves: Vec<u32>,
}

/// Says the extract of thin files. Of others it says nothing, and answers false.
pub(crate) fn extract<H: Host>(alloc: Global, host: &mut H, stamp: &[u8]) -> Result<bool, Trouble>
    ensures told { ForSome (H.told host.old) (λ c. ExtractEnds stamp.now c result (H.told host.new)) }
    ensures blamed { AreBlamed result (H.failures host.old) (H.failures host.new) }
    ensures changed { IfErr result (λ t. IsChange t → H.told host.old ≡ None) }
{
    let Some(thin) = find_thin(alloc, host)? else {
        return Ok(false);
    };
    let mut block = vec![in alloc; 0u8; thin.header.block_size as usize]?;
    say_head(alloc, host, stamp)?;
    say_leaves(alloc, host, &thin.header, &thin.leaves, &mut block)?;
    Ok(true)
}

/// Tests whether the files are thin.
fn find_thin<H: Host>(alloc: Global, host: &mut H) -> Result<Option<Thin>, Trouble>
    ensures some { IfOk result (λ o. IfSome o (λ thin. ForSome (H.told host.old) (λ c.
        FindsThin c.db c.images thin.header thin.leaves.items))) }
    ensures limits { IfOk result (λ o. IfSome o (λ thin. IsWithinLimits thin.header)) }
    ensures none { IfOk result (λ o. IfNone o (ForSome (H.told host.old) (λ c.
        (m : Globals) → IsThinWith c.db c.images m → ⊥))) }
    ensures host { WasReadFor H.told H.failures host.old host.new result }
    ensures changed { IfErr result (λ t. IsChange t → H.told host.old ≡ None) }
{
    if !is_closed(host)? {
        return Ok(None);
    }
    let Some(header) = sound_header(host)? else {
        return Ok(None);
    };
    let Some(leaves) = find_leaves(alloc, host, &header)? else {
        return Ok(None);
    };
    Ok(Some(Thin { header, leaves }))
}
