ghost use Rattle.std.specs.Prelude.{◌+◌, ◌*◌, ◌≤◌, OnOk, length};
ghost use Rattle.gds_base.specs.Drafting.{Drafts, IsDraftFor, OnlyDrafts, WithDraft};
ghost use Rattle.gds_splice.specs.Ending.{EndsParting};
ghost use Rattle.gds_splice.specs.Parting.{CannotGrow, CannotPart, PartsUpwards};

use crate::one_up::tell_one;
use crate::parts::Parts;
use gds_base::{Base, BaseError};
use gds_draft::Draft;
use gds_find::Step;
use host_model::Host;
use std::alloc::Global;

/// Tells the index blocks above a block that has gone into parts of them: the entries that lead to the parts take the
/// place of the one that led to the block, and where they don't fit, that block itself goes into parts, up to the root,
/// which keeps its number and gets one level higher.
///
/// The last step is to the record that led to the block, those before it lead there from the root.
pub fn part<H: Host>(
    alloc: Global,
    base: &mut Base<H>,
    draft: &mut Draft,
    steps: &[Step],
    parts: &Parts,
) -> Result<(), BaseError>
    requires { IsDraftFor base.old.header draft.old }
    ensures parted { OnOk result (Drafts base.old draft.old draft.new (PartsUpwards steps.now parts.now)) }
    ensures free { OnOk result (draft.old.header.free ≤ draft.new.header.free + (2 * length steps.now + 1)) }
    ensures drafts { OnlyDrafts H.told H.moment H.failures H.left_since base.old base.new draft.old draft.new
        (5 * length steps.now + 2) }
    ensures ends { EndsParting (H.failures base.old.host) (H.failures base.new.host)
        (WithDraft base.old draft.old (CannotPart steps.now parts.now))
        (WithDraft base.old draft.old (CannotGrow steps.now parts.now)) result }
{
    base.hold_draft(draft);
    let Some((step, outer)) = steps.split_last() else {
        return Err(BaseError::Changed { unit: 0 });
    };
    let Some(own) = tell_one(alloc, base, draft, *step, outer.is_empty(), parts)? else {
        return Ok(());
    };
    base.hold_draft(draft);
    part(alloc, base, draft, outer, &own)
}
