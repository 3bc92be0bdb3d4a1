//! A stream, byte by byte.

ghost use Rattle.std.specs.Prelude.{◌≡◌, ◌++◌, ◌∷◌, [], ℕ, List, IfOk};
ghost use Rattle.homeo_syntax.specs.declared.workload.Refusal.{Refusal};
ghost use Rattle.homeo_session.specs.Batches.{RefusesHead, IsAnswered};
ghost use Rattle.homeo_session.specs.Streams.{begun, IsAfter, Decides, IsStopped, IsServed, EndRefuses};
ghost use Rattle.homeo_session.specs.inner.Heads.{EndsBy};
ghost use Rattle.homeo_frames.specs.LastLines.{EndsInEnd};

use crate::head::{Head, head_refusal, judged};
use homeo_accept::TextRefusal;
use homeo_frames::ends_frame;
use homeo_meaning::Purpose;
use homeo_syntax::{Memory, Refusal};
use std::alloc::Global;
use std::marker::Model;

/// The most bytes of a frame.
const FRAME_LIMIT: usize = 1_048_576;

/// The most bytes of a stream.
const STREAM_LIMIT: u64 = 67_108_864;

const LONG_FRAME: Refusal = Refusal {
    code: 2,
    offset: 1_048_576,
};

const LONG_STREAM: Refusal = Refusal {
    code: 16,
    offset: 67_108_864,
};

/// What is answered to a piece of a stream: the answers of the frames that it ends, one after another, and why the session stops
/// there, if it does.
#[derive(Drop)]
pub struct Fed {
    pub answers: homeo_syntax::List<u8>,
    pub stop: Option<Refusal>,
}

/// What is kept of a stream: its head once there is one, the bytes of the frame that hasn't ended, and how many bytes came.
#[derive(Drop)]
pub(crate) struct Stream {
    head: Option<Head>,
    rest: Vec<u8>,
    count: u64,
}

impl Model for Stream {
    ghost use Rattle.homeo_session.specs.Streams.{State};

    ghost Value = { State };

    ghost view = { λ s. record { head = s.head; rest = s.rest.items; count = s.count } };
}

// Takes a frame that has ended, and appends its answer; or gives why it is no head.
fn take_frame(
    alloc: Global,
    head: &mut Option<Head>,
    frame: &[u8],
    answers: &mut Vec<u8>,
) -> Result<Option<Refusal>, Memory>
    requires { EndsInEnd frame.now }
    ensures answered { IfOk result (λ stop. stop ≡ None → (answer : List ℕ)
        × (answers.new.items ≡ answers.old.items ++ answer) × IsAnswered head.old frame.now answer head.new) }
    ensures refused { (r : Refusal) → IfOk result (λ stop. stop ≡ Some r → (answers.new.items ≡ answers.old.items)
        × (head.old ≡ None) × RefusesHead frame.now r) }
{
    match head.take() {
        Some(before) => {
            *head = Some(before.answer(alloc, frame, answers)?);
            Ok(None)
        }
        None => match judged(alloc, frame, Purpose::Run) {
            Ok(w) => {
                *head = Some(Head::of(alloc, frame, w)?);
                Ok(None)
            }
            Err(TextRefusal::Refused(refusal)) => Ok(Some(refusal)),
            Err(TextRefusal::Memory) => Err(Memory),
        },
    }
}

// Takes what hasn't ended, where the stream ends, and appends its answer; or gives why it is no head.
fn take_last(
    alloc: Global,
    head: Option<Head>,
    rest: &[u8],
    answers: &mut Vec<u8>,
) -> Result<Option<Refusal>, Memory>
    ensures answered { IfOk result (λ stop. stop ≡ None → (answer : List ℕ)
        × (answers.new.items ≡ answers.old.items ++ answer) × EndsBy head rest.now answer) }
    ensures refused { (r : Refusal) → IfOk result (λ stop. stop ≡ Some r → (answers.new.items ≡ answers.old.items)
        × (head ≡ None) × RefusesHead rest.now r) }
{
    match head {
        Some(before) => {
            if !rest.is_empty() {
                before.answer(alloc, rest, answers)?;
            }
            Ok(None)
        }
        None => head_refusal(alloc, rest),
    }
}

impl Stream {
    pub(crate) fn begin(alloc: Global) -> Stream
        ensures { result ≡ begun }
    {
        Stream {
            head: None,
            rest: Vec::new(alloc),
            count: 0,
        }
    }

    // Takes one byte more, and appends what is answered; or gives why the stream stops there.
    fn take(
        &mut self,
        alloc: Global,
        byte: u8,
        answers: &mut Vec<u8>,
    ) -> Result<Option<Refusal>, Memory>
        ensures goes_on { (bytes out : List ℕ) → IsAfter bytes out self.old → IfOk result (λ stop. stop ≡ None → (answer : List ℕ)
            × (answers.new.items ≡ answers.old.items ++ answer) × IsAfter (bytes ++ byte ∷ []) (out ++ answer) self.new) }
        ensures stops { (bytes out : List ℕ) (r : Refusal) → IsAfter bytes out self.old → IfOk result (λ stop. stop ≡ Some r →
            (answers.new.items ≡ answers.old.items) × Decides self.old byte r) }
    {
        if self.rest.len() >= FRAME_LIMIT {
            return Ok(Some(LONG_FRAME));
        }
        if self.count >= STREAM_LIMIT {
            return Ok(Some(LONG_STREAM));
        }
        let ends = ends_frame(&self.rest, byte);
        self.rest.push(byte)?;
        self.count += 1;
        if !ends {
            return Ok(None);
        }
        let stop = take_frame(alloc, &mut self.head, &self.rest, answers)?;
        self.rest.clear();
        Ok(stop)
    }

    /// Takes bytes, one after another, up to one that stops the stream.
    pub(crate) fn feed(&mut self, alloc: Global, piece: &[u8]) -> Result<Fed, Memory>
        ensures goes_on { (bytes out : List ℕ) → IsAfter bytes out self.old → IfOk result (λ fed. fed.stop ≡ None →
            IsAfter (bytes ++ piece.now) (out ++ fed.answers.items) self.new) }
        ensures stops { (bytes out : List ℕ) (r : Refusal) → IsAfter bytes out self.old → IfOk result (λ fed. fed.stop ≡ Some r →
            IsStopped (bytes ++ piece.now) (out ++ fed.answers.items) r) }
    {
        let mut answers = Vec::new(alloc);
        for byte in piece {
            let stop = self.take(alloc, *byte, &mut answers)?;
            if stop.is_some() {
                return Ok(Fed {
                    answers: homeo_syntax::List::from_vec(answers),
                    stop,
                });
            }
        }
        Ok(Fed {
            answers: homeo_syntax::List::from_vec(answers),
            stop: None,
        })
    }

    /// Takes the end of the stream, which ends what hasn't ended.
    pub(crate) fn close(self, alloc: Global) -> Result<Fed, Memory>
        ensures served { (bytes out : List ℕ) → IsAfter bytes out self → IfOk result (λ fed. fed.stop ≡ None →
            IsServed bytes (out ++ fed.answers.items)) }
        ensures stops { (bytes out : List ℕ) (r : Refusal) → IsAfter bytes out self → IfOk result (λ fed. fed.stop ≡ Some r →
            (out ≡ []) × (fed.answers.items ≡ []) × EndRefuses bytes r) }
    {
        let Stream {
            head,
            rest,
            count: _,
        } = self;
        let mut answers = Vec::new(alloc);
        let stop = take_last(alloc, head, &rest, &mut answers)?;
        Ok(Fed {
            answers: homeo_syntax::List::from_vec(answers),
            stop,
        })
    }
}
