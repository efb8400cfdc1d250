ghost use Rattle.std.specs.Prelude.{OnOk};
ghost use Rattle.gds_base.specs.Drafting.{Drafts, IsDraftFor, WithDraft};
ghost use Rattle.gds_base.specs.Ending.{EndsReading};
ghost use Rattle.gds_remove.specs.Block.{CannotFree, FreesBelow, FreesOne};
ghost use Rattle.gds_remove.specs.Cut.{NoneStands};
ghost use Rattle.gds_remove.specs.Killed.{OnlyWrites};

use crate::node::{changed, may_be_in_tree, read_level};
use gds_base::{Base, BaseError};
use gds_block::pointer_of;
use gds_draft::Draft;
use host_model::Host;
use std::alloc::Global;

/// Frees all blocks of a tree below its root, which is a block of this level. The leaves aren't read.
pub(crate) fn free_below<H: Host>(
    alloc: Global,
    base: &mut Base<H>,
    draft: &mut Draft,
    n: u32,
    level: u8,
) -> Result<(), BaseError>
    requires { IsDraftFor base.old.header draft.old }
    ensures freed { OnOk result (Drafts base.old draft.old draft.new (FreesBelow n level)) }
    ensures drafts { OnlyWrites H.told H.moment H.failures H.left_since base.old base.new draft.old draft.new 0 }
    ensures ends { EndsReading (H.failures base.old.host) (H.failures base.new.host)
        (WithDraft base.old draft.old (NoneStands n level)) result }
{
    if level == 0 {
        return Ok(());
    }
    let entries = read_level(alloc, base, draft, n, level)?;
    for entry in &entries {
        let Some(child) = pointer_of(&entry.rest) else {
            return Err(changed(n));
        };
        free_below(alloc, base, draft, child, level - 1)?;
        free_tested(alloc, base, draft, child)?;
    }
    Ok(())
}

/// Frees a block, if a tree may have it.
pub(crate) fn free_tested<H: Host>(
    alloc: Global,
    base: &mut Base<H>,
    draft: &mut Draft,
    n: u32,
) -> Result<(), BaseError>
    requires { IsDraftFor base.old.header draft.old }
    ensures freed { OnOk result (Drafts base.old draft.old draft.new (FreesOne n)) }
    ensures drafts { OnlyWrites H.told H.moment H.failures H.left_since base.old base.new draft.old draft.new 0 }
    ensures ends { EndsReading (H.failures base.old.host) (H.failures base.new.host)
        (WithDraft base.old draft.old (CannotFree n)) result }
{
    base.hold_draft(draft);
    if !may_be_in_tree(draft.header(), n) {
        return Err(changed(n));
    }
    base.free_block(alloc, draft, n)
}
