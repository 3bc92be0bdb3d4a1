//! The head of a session, and what its batches are answered by.

ghost use Rattle.std.specs.Prelude.{◌≡◌, ◌++◌, ℕ, List, IfOk, IsErrOf};
ghost use Rattle.homeo_syntax.specs.SourceView.{plain_workload};
ghost use Rattle.homeo_syntax.specs.WellFormed.{IsWellFormed};
ghost use Rattle.homeo_syntax.specs.declared.workload.Refusal.{Refusal};
ghost use Rattle.homeo_meaning.specs.Verdict.{Accepts, IsRefused};
ghost use Rattle.homeo_meaning.specs.Initial.{initial};
ghost use Rattle.homeo_meaning.specs.Bounds.{IsWithin};
ghost use Rattle.homeo_meaning.specs.Schema.{schema_of};
ghost use Rattle.homeo_meaning.specs.declared.call.Purpose.TheVariants as purpose;
ghost use Rattle.homeo_accept.specs.RefusalLine.{refusal_line};
ghost use Rattle.homeo_session.specs.Batches.{HeadValue, RefusesHead, TakesHead, AnswersBatch};
ghost use Rattle.homeo_frames.specs.LastLines.{EndsInEnd};

use crate::batch::{Served, serve_batch};
use crate::first_token::wrong_beginning;
use homeo_accept::{TextRefusal, accepted, refusal_line};
use homeo_eval::initial;
use homeo_frames::without_last_line;
use homeo_meaning::{Accepted, Database, Purpose};
use homeo_syntax::{Memory, Refusal};
use std::alloc::Global;
use std::marker::Model;

/// The most bytes that a text may have.
const TEXT_LIMIT: usize = 1_048_576;

/// The refusal of a text that has more bytes.
const TOO_LONG: Refusal = Refusal {
    code: 2,
    offset: 1_048_576,
};

/// The lines that stand before each batch, and the database that the batches have left.
#[derive(Drop)]
pub(crate) struct Head {
    text: Vec<u8>,
    database: Database,
}

impl Model for Head {
    ghost use Rattle.homeo_session.specs.Batches.{HeadValue};
    ghost use Rattle.homeo_session.specs.inner.Heads.{IsHead};

    ghost Value = { HeadValue };

    ghost view = { λ h. record { text = h.text.items; database = h.database.items } };

    ghost invariant = { λ h. IsHead h.text.items h.database.items };
}

/// The workload as which a text of any length is accepted for a purpose.
pub(crate) fn judged(alloc: Global, text: &[u8], purpose: Purpose) -> Result<Accepted, TextRefusal>
    ensures well_formed { IfOk result (λ w. IsWellFormed (plain_workload w)) }
    ensures accepted { IfOk result (λ w. Accepts text.now purpose (plain_workload w)) }
    ensures refused { (r : Refusal) → IsErrOf result (TextRefusal.Refused r) → IsRefused text.now purpose r }
{
    if text.len() > TEXT_LIMIT {
        return Err(TextRefusal::Refused(TOO_LONG));
    }
    accepted(alloc, text, purpose)
}

// The database of a workload's starting values.
fn first_database(alloc: Global, w: Accepted) -> Result<Database, Memory>
    ensures value { IfOk result (λ d. d.items ≡ initial (plain_workload w)) }
    ensures within { IfOk result (λ d. IsWithin (schema_of (plain_workload w)) d.items) }
{
    initial(alloc, &w)
}

/// Why a frame at the end of a stream is no head, if it isn't.
pub(crate) fn head_refusal(alloc: Global, frame: &[u8]) -> Result<Option<Refusal>, Memory>
    ensures taken { IfOk result (λ stop. stop ≡ None → (head : HeadValue) × TakesHead frame.now head) }
    ensures refused { (r : Refusal) → IfOk result (λ stop. stop ≡ Some r → RefusesHead frame.now r) }
{
    match judged(alloc, frame, Purpose::Run) {
        Ok(w) => {
            drop(w);
            Ok(None)
        }
        Err(TextRefusal::Refused(refusal)) => Ok(Some(refusal)),
        Err(TextRefusal::Memory) => Err(Memory),
    }
}

impl Head {
    /// The head that a frame is, which has ended and is accepted as this workload.
    pub(crate) fn of(alloc: Global, frame: &[u8], w: Accepted) -> Result<Head, Memory>
        requires ended { EndsInEnd frame.now }
        requires accepted { Accepts frame.now purpose.Run (plain_workload w) }
        ensures { IfOk result (λ head. TakesHead frame.now head) }
    {
        let database = first_database(alloc, w)?;
        let text = Vec::from_slice(alloc, without_last_line(frame))?;
        Ok(Head { text, database })
    }

    /// Takes a batch, and appends its answer.
    pub(crate) fn answer(
        self,
        alloc: Global,
        frame: &[u8],
        answers: &mut Vec<u8>,
    ) -> Result<Head, Memory>
        ensures { IfOk result (λ next. (answer : List ℕ)
            × (answers.new.items ≡ answers.old.items ++ answer) × AnswersBatch self frame.now answer next) }
    {
        let mut text = Vec::from_slice(alloc, &self.text)?;
        text.extend_from_slice(frame)?;
        match judged(alloc, &text, Purpose::Steps) {
            Ok(w) => self.answer_accepted(alloc, w, frame, answers),
            Err(TextRefusal::Refused(refusal)) => self.refuse(alloc, refusal, answers),
            Err(TextRefusal::Memory) => Err(Memory),
        }
    }

    // Takes a batch whose text is accepted as this workload.
    fn answer_accepted(
        self,
        alloc: Global,
        w: Accepted,
        frame: &[u8],
        answers: &mut Vec<u8>,
    ) -> Result<Head, Memory>
        requires well_formed { IsWellFormed (plain_workload w) }
        requires accepted { Accepts (self.text ++ frame.now) purpose.Steps (plain_workload w) }
        ensures { IfOk result (λ next. (answer : List ℕ)
            × (answers.new.items ≡ answers.old.items ++ answer) × AnswersBatch self frame.now answer next) }
    {
        match wrong_beginning(self.text.len(), frame) {
            Some(refusal) => self.refuse(alloc, refusal, answers),
            None => {
                let Head { text, database } = self;
                let Served { report, database } = serve_batch(alloc, w, database)?;
                answers.extend_from_slice(&report)?;
                Ok(Head { text, database })
            }
        }
    }

    // Takes a batch that is refused.
    fn refuse(self, alloc: Global, refusal: Refusal, answers: &mut Vec<u8>) -> Result<Head, Memory>
        ensures { IfOk result (λ next. (next ≡ self) × (answers.new.items ≡ answers.old.items ++ refusal_line refusal)) }
    {
        let line = refusal_line(alloc, refusal)?;
        answers.extend_from_slice(line.as_bytes())?;
        Ok(self)
    }
}
