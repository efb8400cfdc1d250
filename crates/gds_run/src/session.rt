ghost use Rattle.std.specs.Prelude.{◌≡◌, ◌^◌, ◌+◌, ◌<◌, ◌≤◌, ◌∷◌, [], ℕ, List, false, Err, None, OnErr, OnOk};
ghost use Rattle.host_model.specs.Failures.{NeverFell};
ghost use Rattle.gds_words.specs.Script.{Asks, Request};
ghost use Rattle.gds_words.specs.Script as asked;
ghost use Rattle.gds_run.specs.Ending.{EndsAnswering};
ghost use Rattle.gds_run.specs.Line.{Means};
ghost use Rattle.gds_run.specs.Progress.{GoesOn, Origin, Progress, Says};
ghost use Rattle.gds_run.specs.Request.{change_request, question_request};

use crate::change::{Change, make_change};
use crate::error::RunError;
use crate::line::Line;
use crate::question::{Question, answer_to};
use gds_base::Base;
use gds_script::{Answer, write_answer};
use gds_words::one_request;
use host_model::Host;
use std::alloc::Global;

/// How many bytes of answers wait at most before they are said.
const PIECE: usize = 65_536;

/// An open database on which lines are answered.
///
/// Answers wait, so that many are said by one call of the host. They are said before anything that may make a change
/// durable, so that no change is durable whose answer wasn't said.
#[derive(Drop)]
pub(crate) struct Session<H: Host> {
    pub(crate) base: Base<H>,
    /// The lines of the answers that aren't said yet.
    pub(crate) waiting: Vec<u8>,
    /// How many changes were made.
    pub(crate) changes: u64,
    ghost counted: { changes < 2 ^ 64 },
}

impl<H: Host> Session<H> {
    pub(crate) fn new(alloc: Global, base: Base<H>) -> Session<H>
        ensures base { result.base ≡ base }
        ensures waiting { result.waiting.items ≡ [] }
        ensures changes { result.changes ≡ 0 }
    {
        Session {
            base,
            waiting: Vec::new(alloc),
            changes: 0,
        }
    }

    /// Answers a line.
    pub(crate) fn answer(&mut self, alloc: Global, line: Line) -> Result<(), RunError>
        requires going { self.old.base.stopped ≡ false }
        requires few { self.old.changes < 2 ^ 63 }
        ensures ends { EndsAnswering H.told H.failures self.old.base self.new.base result }
        ensures changes { self.new.changes ≤ self.old.changes + 1 }
        ensures run { (o : Origin H) (bytes : List ℕ) (rest : List (List ℕ))
            → Means bytes line
            → Progress H.told H.moment H.left_since o (bytes ∷ rest) self.old.base self.old.waiting.items
            self.old.changes
            → GoesOn H.told H.moment H.left_since o bytes rest self.new.base self.new.waiting.items self.new.changes
            result }
    {
        match line {
            Line::Changes(change) => self.answer_change(alloc, &change),
            Line::Asks(question) => self.answer_question(alloc, &question),
            Line::Epoch => self.answer_epoch(alloc),
            Line::Bad => self.answer_bad_line(alloc),
        }
    }

    /// The answer of a change is there before the change is made, so that none is made whose answer finds no memory.
    fn answer_change(&mut self, alloc: Global, change: &Change) -> Result<(), RunError>
        requires going { self.old.base.stopped ≡ false }
        requires few { self.old.changes < 2 ^ 63 }
        ensures ends { EndsAnswering H.told H.failures self.old.base self.new.base result }
        ensures changes { self.new.changes ≤ self.old.changes + 1 }
        ensures run { (o : Origin H) (bytes : List ℕ) (rest : List (List ℕ))
            → Asks bytes (change_request change.now)
            → Progress H.told H.moment H.left_since o (bytes ∷ rest) self.old.base self.old.waiting.items
            self.old.changes
            → GoesOn H.told H.moment H.left_since o bytes rest self.new.base self.new.waiting.items self.new.changes
            result }
    {
        one_request();
        self.say_waiting()?;
        write_answer(alloc, &Answer::Done, &mut self.waiting)?;
        match make_change(alloc, &mut self.base, change) {
            Ok(None) => {
                self.changes += 1;
                Ok(())
            }
            Ok(Some(refusal)) => {
                self.waiting.clear();
                Ok(write_answer(alloc, &refusal, &mut self.waiting)?)
            }
            Err(error) => {
                self.waiting.clear();
                Err(error)
            }
        }
    }

    fn answer_question(&mut self, alloc: Global, question: &Question) -> Result<(), RunError>
        requires going { self.old.base.stopped ≡ false }
        requires few { self.old.changes < 2 ^ 63 }
        ensures ends { EndsAnswering H.told H.failures self.old.base self.new.base result }
        ensures changes { self.new.changes ≤ self.old.changes + 1 }
        ensures run { (o : Origin H) (bytes : List ℕ) (rest : List (List ℕ))
            → Asks bytes (question_request question.now)
            → Progress H.told H.moment H.left_since o (bytes ∷ rest) self.old.base self.old.waiting.items
            self.old.changes
            → GoesOn H.told H.moment H.left_since o bytes rest self.new.base self.new.waiting.items self.new.changes
            result }
    {
        one_request();
        let answer = answer_to(alloc, &mut self.base, question)?;
        Ok(write_answer(alloc, &answer, &mut self.waiting)?)
    }

    /// Makes all changes durable, and answers that.
    pub(crate) fn answer_epoch(&mut self, alloc: Global) -> Result<(), RunError>
        requires going { self.old.base.stopped ≡ false }
        requires few { self.old.changes < 2 ^ 63 }
        ensures stored { OnOk result (self.new.base.changed ≡ 0) }
        ensures ends { EndsAnswering H.told H.failures self.old.base self.new.base result }
        ensures changes { self.new.changes ≤ self.old.changes + 1 }
        ensures run { (o : Origin H) (bytes : List ℕ) (rest : List (List ℕ))
            → Asks bytes asked.epoch
            → Progress H.told H.moment H.left_since o (bytes ∷ rest) self.old.base self.old.waiting.items
            self.old.changes
            → GoesOn H.told H.moment H.left_since o bytes rest self.new.base self.new.waiting.items self.new.changes
            result }
    {
        one_request();
        self.say_waiting()?;
        self.base.epoch()?;
        let answer = Answer::Epoch {
            changes: self.changes,
        };
        Ok(write_answer(alloc, &answer, &mut self.waiting)?)
    }

    fn answer_bad_line(&mut self, alloc: Global) -> Result<(), RunError>
        requires going { self.old.base.stopped ≡ false }
        requires few { self.old.changes < 2 ^ 63 }
        ensures ends { EndsAnswering H.told H.failures self.old.base self.new.base result }
        ensures changes { self.new.changes ≤ self.old.changes + 1 }
        ensures run { (o : Origin H) (bytes : List ℕ) (rest : List (List ℕ))
            → ((request : Request) → Asks bytes request → ⊥)
            → Progress H.told H.moment H.left_since o (bytes ∷ rest) self.old.base self.old.waiting.items
            self.old.changes
            → GoesOn H.told H.moment H.left_since o bytes rest self.new.base self.new.waiting.items self.new.changes
            result }
    {
        one_request();
        Ok(write_answer(alloc, &Answer::BadLine, &mut self.waiting)?)
    }

    /// Says the answers that wait.
    pub(crate) fn say_waiting(&mut self) -> Result<(), RunError>
        ensures base { self.new.base ≡ record self.old.base { host = self.new.base.host } }
        ensures changes { self.new.changes ≡ self.old.changes }
        ensures empty { OnOk result (self.new.waiting.items ≡ []) }
        ensures err { OnErr result (result ≡ Err RunError.SayFault) }
        ensures failures { NeverFell (H.failures self.old.base.host) (H.failures self.new.base.host) }
        ensures untold { H.told self.old.base.host ≡ None → H.told self.new.base.host ≡ None }
        ensures tells { H.told self.new.base.host ≡ None → H.told self.old.base.host ≡ None }
        ensures ends { self.old.base.stopped ≡ false
            → EndsAnswering H.told H.failures self.old.base self.new.base result }
        ensures run { (o : Origin H) (rest : List (List ℕ))
            → Progress H.told H.moment H.left_since o rest self.old.base self.old.waiting.items self.old.changes
            → Says H.told H.moment H.left_since o rest self.new.base self.new.waiting.items self.new.changes result }
    {
        if self.waiting.is_empty() {
            return Ok(());
        }
        self.base.say(&self.waiting)?;
        self.waiting.clear();
        Ok(())
    }

    /// Whether so much waits that it wants to be said.
    pub(crate) fn is_full(&self) -> bool {
        self.waiting.len() >= PIECE
    }
}
