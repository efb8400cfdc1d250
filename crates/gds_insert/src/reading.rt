ghost use Rattle.std.specs.Prelude.{◌≤◌, ◌<◌, IfOk, OnOk, length};
ghost use Rattle.gds_base.specs.Drafting.{IsDraftFor, WithDraft};
ghost use Rattle.gds_base.specs.Ending.{EndsReading};
ghost use Rattle.gds_pack.specs.Entry.{items};
ghost use Rattle.gds_pack.specs.Packable.{ArePackable};
ghost use Rattle.gds_units.specs.Reading.{OnlyRead};
ghost use Rattle.gds_insert.specs.Node.{CannotHave, HasItemAt};

use crate::entries::set_item;
use gds_base::{Base, BaseError};
use gds_draft::Draft;
use gds_find::Step;
use gds_splice::{Node, is_packable, read_node};
use host_model::Host;
use std::alloc::Global;

// Reads a leaf and sets an item among its entries, at the place where the step's record begins.
pub(crate) fn read_with_item<H: Host>(
    alloc: Global,
    base: &mut Base<H>,
    draft: &Draft,
    step: Step,
    is_equal: bool,
    key: &[u8],
    rest: &[u8],
) -> Result<Node, BaseError>
    requires draft { IsDraftFor base.old.header draft.now }
    requires short { length key.now ≤ 255 }
    ensures item { IfOk result (λ node. WithDraft base.old draft.now
        (HasItemAt step is_equal (record { key = key.now; rest = rest.now }) node)) }
    ensures packable { IfOk result (λ node. ArePackable node.level (items node.entries.items)) }
    ensures within { OnOk result (step.block < draft.now.header.total) }
    ensures read { OnlyRead H.told H.moment H.failures H.left_since base.old base.new }
    ensures ends { EndsReading (H.failures base.old.host) (H.failures base.new.host)
        (WithDraft base.old draft.now (CannotHave step is_equal (record { key = key.now; rest = rest.now }))) result }
{
    base.hold_draft(draft);
    let mut node = read_node(alloc, base, draft, step.block)?;
    set_item(alloc, &mut node.entries, step.offset, is_equal, key, rest)?;
    if !is_packable(node.level, &node.entries) {
        return Err(BaseError::Changed {
            unit: step.block.saturating_add(1),
        });
    }
    Ok(node)
}
