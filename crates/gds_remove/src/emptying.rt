ghost use Rattle.std.specs.Prelude.{◌≡◌, ◌<◌, [], IfOk, OnOk};
ghost use Rattle.gds_base.specs.Drafting.{Drafts, IsDraftFor, WithDraft};
ghost use Rattle.gds_base.specs.Ending.{EndsReading};
ghost use Rattle.gds_pack.specs.Entry.{item};
ghost use Rattle.gds_split.specs.Pieces.{entry_to};
ghost use Rattle.gds_remove.specs.Emptied.{CannotPutEmpty, PutsEmptyDirectory};
ghost use Rattle.gds_remove.specs.Killed.{OnlyWrites};

use crate::node::put_left;
use gds_base::{Base, BaseError};
use gds_draft::Draft;
use gds_pack::Entry;
use host_model::Host;
use m_key::key_from;
use std::alloc::{AllocError, Global};

/// The root of the directory.
pub(crate) const DIRECTORY: u32 = 1;

/// Writes the root of an empty directory: of level 1, it leads to a block without entries, which is taken from the free
/// ones.
pub(crate) fn put_empty_directory<H: Host>(
    alloc: Global,
    base: &mut Base<H>,
    draft: &mut Draft,
) -> Result<(), BaseError>
    requires draft { IsDraftFor base.old.header draft.old }
    requires there { 1 < draft.old.header.total }
    ensures put { OnOk result (Drafts base.old draft.old draft.new PutsEmptyDirectory) }
    ensures drafts { OnlyWrites H.told H.moment H.failures H.left_since base.old base.new draft.old draft.new 2 }
    ensures ends { EndsReading (H.failures base.old.host) (H.failures base.new.host)
        (WithDraft base.old draft.old CannotPutEmpty) result }
{
    base.hold_draft(draft);
    let leaf = base.take_block(alloc, draft)?;
    put_left(alloc, base, draft, leaf, 0, &[])?;
    base.hold_draft(draft);
    let star = star_to(alloc, leaf)?;
    put_left(alloc, base, draft, DIRECTORY, 1, &[star])
}

// The entry without a key that leads to a block.
fn star_to(alloc: Global, n: u32) -> Result<Entry, AllocError>
    ensures { IfOk result (λ e. item e ≡ entry_to n []) }
{
    let rest = Vec::from_slice(alloc, &n.to_le_bytes())?;
    Ok(Entry {
        key: key_from(&[]),
        rest,
    })
}
