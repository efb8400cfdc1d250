ghost use Rattle.std.specs.Prelude.{◌≡◌, false, IfOk};
ghost use Rattle.gds_run.specs.Ending.{EndsAnswering};
ghost use Rattle.gds_run.specs.Request.{IsMadeOrRefused, LeavesAfterChange, change_request};

use crate::error::RunError;
use crate::killing::kill_node;
use crate::setting::set_node;
use gds_base::Base;
use gds_script::Answer;
use host_model::Host;
use m_key::Reference;
use std::alloc::Global;

/// A change that a line asks for.
#[derive(Debug, Drop)]
pub(crate) enum Change {
    /// The node gets this value.
    Set {
        reference: Reference,
        value: Vec<u8>,
    },
    /// The node and its descendants lose their values.
    Kill {
        reference: Reference,
    },
}

/// Makes a change. Where that is refused the answer says why.
pub(crate) fn make_change<H: Host>(
    alloc: Global,
    base: &mut Base<H>,
    change: &Change,
) -> Result<Option<Answer>, RunError>
    requires { base.old.stopped ≡ false }
    ensures answer { IfOk result (IsMadeOrRefused base.old base.new (change_request change.now)) }
    ensures leaves { LeavesAfterChange H.told H.moment H.left_since base.old base.new result }
    ensures ends { EndsAnswering H.told H.failures base.old base.new result }
{
    match change {
        Change::Set { reference, value } => set_node(alloc, base, reference, value),
        Change::Kill { reference } => kill_node(alloc, base, reference),
    }
}
