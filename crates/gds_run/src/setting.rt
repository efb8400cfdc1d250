ghost use Rattle.std.specs.Prelude.{◌≡◌, false, IfOk};
ghost use Rattle.gds_words.specs.Script as asked;
ghost use Rattle.m_key.specs.Reference.{node_of};
ghost use Rattle.gds_run.specs.Ending.{EndsAnswering};
ghost use Rattle.gds_run.specs.Request.{IsMadeOrRefused, LeavesAfterChange};

use crate::error::RunError;
use gds_base::{Base, BaseError};
use gds_globals::set;
use gds_script::Answer;
use host_model::Host;
use m_key::{Reference, key_len};
use std::alloc::Global;

/// Sets a node. Where that is refused the answer says why.
pub(crate) fn set_node<H: Host>(
    alloc: Global,
    base: &mut Base<H>,
    reference: &Reference,
    value: &[u8],
) -> Result<Option<Answer>, RunError>
    requires { base.old.stopped ≡ false }
    ensures answer { IfOk result
        (IsMadeOrRefused base.old base.new (asked.set (node_of reference.now) value.now)) }
    ensures leaves { LeavesAfterChange H.told H.moment H.left_since base.old base.new result }
    ensures ends { EndsAnswering H.told H.failures base.old base.new result }
{
    let _header = base.header();
    base.hold_told();
    let made = set(alloc, base, reference, value);
    let header = base.header();
    match made {
        Ok(()) => Ok(None),
        Err(BaseError::KeyTooLong) => Ok(Some(Answer::KeyTooLong {
            len: key_len(reference),
        })),
        Err(BaseError::ValueTooLong) => Ok(Some(Answer::ValueTooLong {
            len: value.len() as u64,
        })),
        Err(BaseError::TnSpent) => Ok(Some(Answer::TnSpent)),
        Err(BaseError::Full) => Ok(Some(Answer::Full { free: header.free })),
        Err(BaseError::TooDeep) => Ok(Some(Answer::TooDeep)),
        Err(error) => Err(error.into()),
    }
}
