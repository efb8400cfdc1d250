ghost use Rattle.std.specs.Prelude.{◌≡◌, false, IfOk};
ghost use Rattle.gds_units.specs.Reading.{OnlyRead};
ghost use Rattle.gds_words.specs.Script as asked;
ghost use Rattle.m_key.specs.Reference.{node_of};
ghost use Rattle.gds_run.specs.Ending.{EndsAnswering};
ghost use Rattle.gds_run.specs.Request.{IsAnswered, question_request};

use crate::error::RunError;
use gds_base::{Base, BaseError};
use gds_globals::{data, get, order, query};
use gds_script::Answer;
use host_model::Host;
use m_key::{Reference, key_len};
use std::alloc::Global;

/// What a line asks about a node.
#[derive(Debug, Drop)]
pub(crate) enum Question {
    /// Its value.
    Value { reference: Reference },
    /// What comes next on its level, or first on the level below it.
    Next { reference: Reference, first: bool },
    /// Whether it has a value, and whether one below it has.
    Data { reference: Reference },
    /// The next node of its global that has a value.
    Node { reference: Reference },
}

/// Answers a question.
pub(crate) fn answer_to<H: Host>(
    alloc: Global,
    base: &mut Base<H>,
    question: &Question,
) -> Result<Answer, RunError>
    requires { base.old.stopped ≡ false }
    ensures answer { IfOk result (IsAnswered base.old base.new (question_request question.now)) }
    ensures read { OnlyRead H.told H.moment H.failures H.left_since base.old base.new }
    ensures ends { EndsAnswering H.told H.failures base.old base.new result }
{
    match question {
        Question::Value { reference } => value_of(alloc, base, reference),
        Question::Next { reference, first } => next_to(alloc, base, reference, *first),
        Question::Data { reference } => data_at(alloc, base, reference),
        Question::Node { reference } => node_behind(alloc, base, reference),
    }
}

fn value_of<H: Host>(
    alloc: Global,
    base: &mut Base<H>,
    reference: &Reference,
) -> Result<Answer, RunError>
    requires { base.old.stopped ≡ false }
    ensures answer { IfOk result (IsAnswered base.old base.new (asked.get (node_of reference.now))) }
    ensures read { OnlyRead H.told H.moment H.failures H.left_since base.old base.new }
    ensures ends { EndsAnswering H.told H.failures base.old base.new result }
{
    let _header = base.header();
    base.hold_told();
    match get(alloc, base, reference) {
        Ok(Some(value)) => Ok(Answer::Value { value }),
        Ok(None) => Ok(Answer::Undefined),
        Err(BaseError::KeyTooLong) => Ok(Answer::KeyTooLong {
            len: key_len(reference),
        }),
        Err(error) => Err(error.into()),
    }
}

fn next_to<H: Host>(
    alloc: Global,
    base: &mut Base<H>,
    reference: &Reference,
    first: bool,
) -> Result<Answer, RunError>
    requires { base.old.stopped ≡ false }
    ensures answer { IfOk result (IsAnswered base.old base.new (asked.order (node_of reference.now) first)) }
    ensures read { OnlyRead H.told H.moment H.failures H.left_since base.old base.new }
    ensures ends { EndsAnswering H.told H.failures base.old base.new result }
{
    let _header = base.header();
    base.hold_told();
    match order(alloc, base, reference, first) {
        Ok(Some(next)) => Ok(Answer::Next { next }),
        Ok(None) => Ok(Answer::End),
        Err(BaseError::KeyTooLong) => Ok(Answer::KeyTooLong {
            len: key_len(reference),
        }),
        Err(error) => Err(error.into()),
    }
}

fn data_at<H: Host>(
    alloc: Global,
    base: &mut Base<H>,
    reference: &Reference,
) -> Result<Answer, RunError>
    requires { base.old.stopped ≡ false }
    ensures answer { IfOk result (IsAnswered base.old base.new (asked.data_of (node_of reference.now))) }
    ensures read { OnlyRead H.told H.moment H.failures H.left_since base.old base.new }
    ensures ends { EndsAnswering H.told H.failures base.old base.new result }
{
    let _header = base.header();
    base.hold_told();
    match data(alloc, base, reference) {
        Ok(data) => Ok(Answer::Data { data }),
        Err(BaseError::KeyTooLong) => Ok(Answer::KeyTooLong {
            len: key_len(reference),
        }),
        Err(error) => Err(error.into()),
    }
}

fn node_behind<H: Host>(
    alloc: Global,
    base: &mut Base<H>,
    reference: &Reference,
) -> Result<Answer, RunError>
    requires { base.old.stopped ≡ false }
    ensures answer { IfOk result (IsAnswered base.old base.new (asked.query (node_of reference.now))) }
    ensures read { OnlyRead H.told H.moment H.failures H.left_since base.old base.new }
    ensures ends { EndsAnswering H.told H.failures base.old base.new result }
{
    let _header = base.header();
    base.hold_told();
    match query(alloc, base, reference) {
        Ok(Some(reference)) => Ok(Answer::Node { reference }),
        Ok(None) => Ok(Answer::End),
        Err(BaseError::KeyTooLong) => Ok(Answer::KeyTooLong {
            len: key_len(reference),
        }),
        Err(error) => Err(error.into()),
    }
}
