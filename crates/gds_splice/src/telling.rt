ghost use Rattle.std.specs.Prelude.{◌≡◌, ◌<◌, IfOk, OnOk};
ghost use Rattle.gds_base.specs.Drafting.{IsDraftFor, WithDraft};
ghost use Rattle.gds_base.specs.Ending.{EndsReading};
ghost use Rattle.gds_splice.specs.Told.{CannotTell, IsIndexNode, IsToldAt};
ghost use Rattle.gds_units.specs.Reading.{OnlyRead};

use crate::above::tell;
use crate::node::{Node, read_node};
use crate::parts::Parts;
use gds_base::{Base, BaseError};
use gds_draft::Draft;
use gds_find::Step;
use host_model::Host;
use std::alloc::Global;

/// Reads the index block of a step, and puts the entries that lead to the parts in the place of the one that the step
/// is to.
pub(crate) fn read_told<H: Host>(
    alloc: Global,
    base: &mut Base<H>,
    draft: &Draft,
    step: Step,
    parts: &Parts,
) -> Result<Node, BaseError>
    requires { IsDraftFor base.old.header draft.now }
    ensures told { IfOk result (λ node. WithDraft base.old draft.now (IsToldAt step parts.now node)) }
    ensures index { IfOk result IsIndexNode }
    ensures within { OnOk result (step.block < draft.now.header.total) }
    ensures read { OnlyRead H.told H.moment H.failures H.left_since base.old base.new }
    ensures ends { EndsReading (H.failures base.old.host) (H.failures base.new.host)
        (WithDraft base.old draft.now (CannotTell step parts.now)) result }
{
    base.hold_draft(draft);
    let node = read_node(alloc, base, draft, step.block)?;
    let Some(told) = tell(alloc, node, step.offset, parts)? else {
        return Err(BaseError::Changed {
            unit: step.block.saturating_add(1),
        });
    };
    Ok(told)
}
