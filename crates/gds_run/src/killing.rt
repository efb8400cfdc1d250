ghost use Rattle.std.specs.Prelude.{◌≡◌, false, IfOk};
ghost use Rattle.gds_words.specs.Script as asked;
ghost use Rattle.m_key.specs.Reference.{node_of};
ghost use Rattle.gds_run.specs.Ending.{EndsAnswering};
ghost use Rattle.gds_run.specs.Request.{IsMadeOrRefused, LeavesAfterChange};

use crate::error::RunError;
use gds_base::{Base, BaseError};
use gds_globals::kill;
use gds_script::Answer;
use host_model::Host;
use m_key::{Reference, key_len};
use std::alloc::Global;

/// Kills a node. Where that is refused the answer says why.
pub(crate) fn kill_node<H: Host>(
    alloc: Global,
    base: &mut Base<H>,
    reference: &Reference,
) -> Result<Option<Answer>, RunError>
    requires { base.old.stopped ≡ false }
    ensures answer { IfOk result (IsMadeOrRefused base.old base.new (asked.kill (node_of reference.now))) }
    ensures leaves { LeavesAfterChange H.told H.moment H.left_since base.old base.new result }
    ensures ends { EndsAnswering H.told H.failures base.old base.new result }
{
    let _header = base.header();
    base.hold_told();
    match kill(alloc, base, reference) {
        Ok(()) => Ok(None),
        Err(BaseError::KeyTooLong) => Ok(Some(Answer::KeyTooLong {
            len: key_len(reference),
        })),
        Err(BaseError::TnSpent) => Ok(Some(Answer::TnSpent)),
        Err(error) => Err(error.into()),
    }
}
