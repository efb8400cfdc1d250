ghost use Rattle.std.specs.Prelude.{◌≡◌, ◌+◌, ◌≤◌, false, IfOk, IfSome, OnOk, if◌then◌else◌};
ghost use Rattle.gds_base.specs.Drafting.{Drafts, IsDraftFor, OnlyDrafts, WithDraft};
ghost use Rattle.gds_splice.specs.Ending.{EndsParting};
ghost use Rattle.gds_splice.specs.OneUp.{CannotTellOne, IsAtEnd, TellsOne};

use crate::parts::Parts;
use crate::putting::put_node;
use crate::telling::read_told;
use gds_base::{Base, BaseError};
use gds_draft::Draft;
use gds_find::Step;
use host_model::Host;
use std::alloc::Global;

/// Tells one index block, which is the root or isn't, of the parts of a child. Where it has no room for the entries
/// that lead to them it goes into parts itself, of which the one above has to be told, and a root is raised.
pub(crate) fn tell_one<H: Host>(
    alloc: Global,
    base: &mut Base<H>,
    draft: &mut Draft,
    step: Step,
    is_root: bool,
    parts: &Parts,
) -> Result<Option<Parts>, BaseError>
    requires { IsDraftFor base.old.header draft.old }
    ensures told { IfOk result (λ own. Drafts base.old draft.old draft.new
        (TellsOne step is_root parts.now own)) }
    ensures up { IfOk result (λ own. IfSome own (λ _. (is_root ≡ false)
        × (draft.old.header.free ≤ draft.new.header.free + 2))) }
    ensures free { OnOk result (draft.old.header.free ≤ draft.new.header.free + (if is_root then 3 else 2)) }
    ensures drafts { OnlyDrafts H.told H.moment H.failures H.left_since base.old base.new draft.old draft.new
        (if is_root then 7 else 5) }
    ensures ends { EndsParting (H.failures base.old.host) (H.failures base.new.host)
        (WithDraft base.old draft.old (CannotTellOne step is_root parts.now))
        (WithDraft base.old draft.old (IsAtEnd step is_root parts.now)) result }
{
    base.hold_draft(draft);
    let node = read_told(alloc, base, draft, step, parts)?;
    put_node(
        alloc,
        base,
        draft,
        step,
        is_root,
        node,
        parts.parted.len() + 1,
    )
}
