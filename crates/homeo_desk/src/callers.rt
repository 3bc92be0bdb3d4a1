//! What a desk keeps beside its node.

ghost use Rattle.std.specs.Prelude.{◌≡◌, ◌<◌, ◌++◌, ◌∷◌, [], ℕ, All, None, drop, length, map, replicate, slice_index_or, take, IfOk, IsTrue, OnOk};
ghost use Rattle.std.specs.VecDeque.{deque_len, deque_capacity};
ghost use Rattle.std.specs.List.{filter_map, list_any};
ghost use Rattle.homeo_syntax.specs.SourceView.{plain_workload};
ghost use Rattle.homeo_history.specs.Answers.{called};
ghost use Rattle.homeo_history.specs.HistoryView.{plain_answer};
ghost use Rattle.homeo_history.specs.Legal.{IsCallAt};
ghost use Rattle.homeo_live.specs.LiveView.{plain_step};
ghost use Rattle.homeo_desk.specs.DeskView.{calls_of, last_answers, plain_reply};
ghost use Rattle.homeo_desk.specs.Outputs.{plain_path};
ghost use Rattle.homeo_desk.specs.Places.{made_in, IsPlaced};
ghost use Rattle.homeo_desk.specs.declared.places.Places.{Places};
ghost use Rattle.homeo_desk.specs.Requests.{after_last, among, is_later, is_same};
ghost use Rattle.homeo_desk.specs.inner.Keeping.{AreLast, KeepsLast, StaysWithin, Tells, closed_by, put};
ghost use Rattle.homeo_desk.specs.inner.Known.{IsKnown};

use crate::answered::Answered;
use crate::output::{Answer, Output, Path, Request};
use crate::places::Places;
use homeo_history::Answer as Made;
use homeo_live::{LiveNode, MOST_WAITING, Step};
use homeo_syntax::{List, Memory};
use std::alloc::Global;
use std::collections::VecDeque;

/// The requests that wait, in the order of the node's calls that wait; of each client the answer that was given last; and how many
/// calls the site has made alone in its round.
#[derive(Drop)]
pub(crate) struct Callers {
    queue: VecDeque<Request>,
    answered: Answered,
    places: Places,
}

/// What is known of a request: it was answered by this, it waits, it comes too late, or it is new, and there is room or not.
#[derive(Drop)]
pub(crate) enum Known<'a> {
    Answered(&'a Answer),
    Waits,
    Late,
    Full,
    New,
}

impl Callers {
    /// These requests wait, no answer was given, and so many calls were made in this round.
    pub(crate) fn of(
        alloc: Global,
        clients: u64,
        round: u64,
        made: u64,
        requests: Vec<Request>,
    ) -> Result<Callers, Memory>
        ensures queue { IfOk result (λ c. c.queue.items ≡ requests.items) }
        ensures answered { IfOk result (λ c. c.answered ≡ replicate clients None) }
        ensures round { IfOk result (λ c. c.places.round ≡ round) }
        ensures made { IfOk result (λ c. c.places.made ≡ made) }
    {
        Ok(Callers {
            queue: VecDeque::from(requests),
            answered: Answered::new(alloc, clients)?,
            places: Places::new(round, made),
        })
    }

    /// How many requests wait.
    pub(crate) fn waiting(&self) -> usize
        ensures { result ≡ length self.now.queue.items }
    {
        self.queue.len()
    }

    /// Equal requests, in order.
    pub(crate) fn requests(&self, alloc: Global) -> Result<Vec<Request>, Memory>
        ensures { IfOk result (λ r. r.items ≡ self.now.queue.items) }
    {
        let mut requests = Vec::new(alloc);
        for request in self.queue.iter() {
            requests.push(request.copy(alloc)?)?;
        }
        Ok(requests)
    }

    /// Equal answers, in the order of the clients.
    pub(crate) fn answers(&self, alloc: Global) -> Result<Vec<Answer>, Memory>
        ensures { IfOk result (λ a. map plain_reply a.items ≡ filter_map (λ o. o) self.now.answered) }
    {
        self.answered.copies(alloc)
    }

    /// How many calls the site has made alone in a round that isn't over.
    pub(crate) fn made_in(&self, round: u64) -> u64
        ensures { result ≡ made_in self.now.places.round self.now.places.made round }
    {
        self.places.made_in(round)
    }

    /// What is known of a request.
    pub(crate) fn known(&self, request: &Request) -> Known<'_>
        ensures { IsKnown result (after_last self.now.queue.items request.now (slice_index_or self.now.answered request.now.call.client None)) }
    {
        match self.answered.of(request.call.client) {
            Some(answer) => {
                if request.number == answer.number {
                    return Known::Answered(answer);
                }
                if request.number < answer.number {
                    return Known::Late;
                }
                self.known_by_queue(request)
            }
            None => self.known_by_queue(request),
        }
    }

    /// What is known of a request that comes after the last answer of its client.
    fn known_by_queue(&self, request: &Request) -> Known<'_>
        ensures { IsKnown result (among self.now.queue.items request.now) }
    {
        if self.has_same(request) {
            return Known::Waits;
        }
        if self.has_later(request) {
            return Known::Late;
        }
        if self.waiting() >= MOST_WAITING {
            return Known::Full;
        }
        Known::New
    }

    /// Whether a request of this number of the client waits.
    fn has_same(&self, request: &Request) -> bool
        ensures { result ≡ list_any (is_same request.now) self.now.queue.items }
    {
        self.queue.iter().any(|waiting| {
            waiting.call.client == request.call.client && waiting.number == request.number
        })
    }

    /// Whether a request of a higher number of the client waits.
    fn has_later(&self, request: &Request) -> bool
        ensures { result ≡ list_any (is_later request.now) self.now.queue.items }
    {
        self.queue.iter().any(|waiting| {
            waiting.call.client == request.call.client && request.number < waiting.number
        })
    }

    /// Makes room for a request more.
    pub(crate) fn reserve(&mut self) -> Result<(), Memory>
        ensures room { OnOk result (deque_len self.new.queue < deque_capacity self.new.queue) }
        ensures queue { self.new.queue.items ≡ self.old.queue.items }
        ensures answered { self.new.answered ≡ self.old.answered }
        ensures places { self.new.places ≡ self.old.places }
    {
        Ok(self.queue.reserve(1)?)
    }

    /// A request waits behind the others, for which there is room.
    pub(crate) fn add(&mut self, request: Request)
        requires { deque_len self.old.queue < deque_capacity self.old.queue }
        ensures queue { self.new.queue.items ≡ self.old.queue.items ++ request ∷ [] }
        ensures answered { self.new.answered ≡ self.old.answered }
        ensures places { self.new.places ≡ self.old.places }
    {
        self.queue.push_back_reserved(request);
    }

    /// Keeps the last answers of clients, where each is to a call of the node's site.
    pub(crate) fn keep(&mut self, node: &LiveNode, answers: Vec<Answer>) -> bool
        ensures queue { self.new.queue.items ≡ self.old.queue.items }
        ensures places { self.new.places ≡ self.old.places }
        ensures answered { IsTrue result → self.new.answered ≡ last_answers (map plain_reply answers.items) self.old.answered }
        ensures last { AreLast (plain_workload node.now.work) node.now.node.number self.old.answered → AreLast (plain_workload node.now.work) node.now.node.number self.new.answered }
        ensures no { All (λ a. IsCallAt (plain_workload node.now.work) node.now.node.number a.call) answers.items → IsTrue result }
    {
        for answer in answers {
            if !node.can_ask(answer.call) {
                return false;
            }
            self.answered.keep(answer);
        }
        true
    }

    /// Answers the requests whose calls were made by the end of the round, if it has ended: they are the first that wait. These are
    /// gone also where the memory for an answer lacks.
    pub(crate) fn tell(
        &mut self,
        alloc: Global,
        step: Step,
        outputs: &mut List<Output>,
    ) -> Result<(), Memory>
        requires { take (length (closed_by (plain_step step))) (calls_of self.old.queue.items) ≡ map called (closed_by (plain_step step)) }
        ensures queue { self.new.queue.items ≡ drop (length (closed_by (plain_step step))) self.old.queue.items }
        ensures tells { OnOk result (Tells (closed_by (plain_step step)) self.old.places self.new.places self.old.queue.items self.new.queue.items self.old.answered self.new.answered outputs.old.items outputs.new.items) }
        ensures last { KeepsLast (closed_by (plain_step step)) self.old.answered self.new.answered }
        ensures round { StaysWithin (closed_by (plain_step step)) self.old.places self.new.places }
    {
        match step {
            Step::Closed(answers) => self.answer_all(alloc, answers, outputs),
            _ => Ok(()),
        }
    }

    /// Answers the first requests that wait, whose calls were made, one after another.
    fn answer_all(
        &mut self,
        alloc: Global,
        answers: List<Made>,
        outputs: &mut List<Output>,
    ) -> Result<(), Memory>
        requires { take (length answers.items) (calls_of self.old.queue.items) ≡ map called (map plain_answer answers.items) }
        ensures queue { self.new.queue.items ≡ drop (length answers.items) self.old.queue.items }
        ensures tells { OnOk result (Tells (map plain_answer answers.items) self.old.places self.new.places self.old.queue.items self.new.queue.items self.old.answered self.new.answered outputs.old.items outputs.new.items) }
        ensures last { KeepsLast (map plain_answer answers.items) self.old.answered self.new.answered }
        ensures round { StaysWithin (map plain_answer answers.items) self.old.places self.new.places }
    {
        let mut done = Ok(());
        for made in answers.into_vec() {
            let one = self.answer(alloc, made, outputs);
            done = done.and(one);
        }
        done
    }

    /// Answers the first request that waits, whose call was made. It is gone also where the memory for the answer lacks.
    pub(crate) fn answer(
        &mut self,
        alloc: Global,
        made: Made,
        outputs: &mut List<Output>,
    ) -> Result<(), Memory>
        requires { take 1 (calls_of self.old.queue.items) ≡ called (plain_answer made) ∷ [] }
        ensures queue { self.new.queue.items ≡ drop 1 self.old.queue.items }
        ensures tells { OnOk result (Tells (plain_answer made ∷ []) self.old.places self.new.places self.old.queue.items self.new.queue.items self.old.answered self.new.answered outputs.old.items outputs.new.items) }
        ensures last { KeepsLast (plain_answer made ∷ []) self.old.answered self.new.answered }
        ensures round { StaysWithin (plain_answer made ∷ []) self.old.places self.new.places }
    {
        let path = self.places.next(made.round, made.path);
        match self.queue.pop_front() {
            Some(request) => self.answer_request(alloc, request, made, path, outputs),
            None => unreachable!(),
        }
    }

    /// Answers a request, whose call was made.
    fn answer_request(
        &mut self,
        alloc: Global,
        request: Request,
        made: Made,
        path: Path,
        outputs: &mut List<Output>,
    ) -> Result<(), Memory>
        requires call { request.call ≡ called (plain_answer made) }
        requires path { plain_path path ≡ made.path }
        ensures queue { self.new.queue.items ≡ self.old.queue.items }
        ensures places { self.new.places ≡ self.old.places }
        ensures tells { (was : Places) → IsPlaced path (made_in was.round was.made made.round) →
            OnOk result (Tells (plain_answer made ∷ []) was (put path made.round was) (request ∷ []) [] self.old.answered self.new.answered outputs.old.items outputs.new.items) }
        ensures last { KeepsLast (plain_answer made ∷ []) self.old.answered self.new.answered }
    {
        let answer = Answer {
            number: request.number,
            call: request.call,
            prints: made.prints,
            round: made.round,
            path,
        };
        self.answered.keep(answer.copy(alloc)?);
        outputs.push(Output::Answer(request.caller, answer))?;
        Ok(())
    }
}
