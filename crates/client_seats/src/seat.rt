ghost use Rattle.std.specs.Prelude.{◌≡◌, ◌+◌, ◌*◌, ◌<◌, ◌≤◌, ◌∷◌, ◌++◌, [], ℕ, List, Some, None, ◌⊎◌, IfSome, IfNone, IfOk, OnOk, Option, option_map, filter, not, ◌==◌, true, false, slice_set, vec_len, vec_capacity};
ghost use Rattle.sock_words.specs.declared.outcome.Outcome.TheVariants.{NotHeld};
ghost use Rattle.seat_programs.specs.LoopHeads.{Retry};
ghost use Rattle.seat_programs.specs.Programs.{Program, Say};
ghost use Rattle.seat_programs.specs.CallAndRetryPrograms.{retry};
ghost use Rattle.seat_programs.specs.ClientProgram.{HeldLife, held_under, without_name, give_back, operation, ending_of};
ghost use Rattle.seat_programs.specs.Cores.{said, next_step};
ghost use Rattle.id_points.specs.IdsAndAttemptNumbers.{id_of, number_of};
ghost use Rattle.seat_states.specs.ProgramAtPoint.{Context, client_on, point_program, next_program, after_program, IsCalling, TakesCall};
ghost use Rattle.client_seats.specs.ClientSeatState.{lives, retries, bytes_of, asked_or_nothing, message_in, call_in, seat_data, around, client_of, seat_program};
ghost use Rattle.sock_message.specs.Asked.{name_of};
ghost use Rattle.call_points.specs.AsideCodeSteps.{after_call};
ghost use Rattle.client_seats.specs.ClientSeatFollowing.{IsFlat, FollowsOn, IsFramedAs, IsPrepared, HasTaken};

use crate::hand::InHand;
use call_points::{DecideStep, WordStep};
use id_points::{AttemptNumber, CallId};
use message_parts::OutgoingParcel;
use seat_programs::{Op, Sizes, Task};
use seat_states::{
    AfterStep, Aim, Attempt, CallStep, Calling, Continuation, JoinStep, Next, Opening, Point,
    ReleaseStep, RetryStep, Retrying, SeekStep,
};
use sock_message::{BlockPool, Call, NoMemory};
use sock_words::{Outcome, SocketId};
use std::alloc::Global;
use std::collections::VecDeque;

/// A life that is held: the number of the name under which it was reached, and its id.
#[derive(Clone, Copy)]
pub struct Held {
    pub name: u16,
    pub id: SocketId,
}

/// A retry that is kept: the id of its call, and the attempt that is to be tried.
#[derive(Clone, Copy)]
pub struct Kept {
    pub id: CallId,
    pub attempt: AttemptNumber,
}

impl Kept {
    /// Where a client tries it.
    fn point(self) -> Point
        ensures { (a : Context) → point_program a result ≡ retry a.sizes.requests (id_of self.id) (number_of self.attempt) (client_on a) }
    {
        // Its operation and its name are those of its call, once that is in hand.
        let attempt = Attempt {
            operation: 0,
            id: self.id,
            number: self.attempt,
        };
        Point::Retry(
            Retrying { attempt, name: 0 },
            RetryStep::Lock(WordStep::Read),
        )
    }
}

/// The seat of a client.
#[derive(Drop)]
pub struct Seat {
    /// The tasks behind the one that it is at.
    pub tasks: VecDeque<Task>,
    /// Whether it has none left, and gives back what it holds.
    pub leaving: bool,
    pub held: Vec<Held>,
    /// The `open`s that it has still to end.
    pub ending: VecDeque<u16>,
    pub point: Point,
    /// The retries that wait, the oldest first.
    pub waiting: Vec<Kept>,
    pub hand: InHand,
    /// What it writes.
    pub out: Option<OutgoingParcel>,
}

/// The operation of this number has this outcome.
fn tell(outcomes: &mut [Option<Outcome>], operation: u16, outcome: Outcome)
    ensures { outcomes.new ≡ slice_set outcomes.old operation (Some outcome) }
{
    let place = usize::from(operation);
    if place < outcomes.len() {
        outcomes[place] = Some(outcome);
    }
}

/// The life that is held under a name.
fn find_held(held: &[Held], name: u16) -> Option<SocketId>
    ensures { option_map (λ (id : _). id.0) result ≡ held_under name (lives held.now) }
{
    for life in held {
        if life.name == name {
            return Some(life.id);
        }
    }
    None
}

/// Nothing is held under this name any more.
fn drop_held(held: &mut Vec<Held>, name: u16)
    ensures rest { held.new.items ≡ filter (λ (h : _). not (h.name == name)) held.old.items }
    ensures fewer { vec_len held.new ≤ vec_len held.old }
{
    held.retain(|life| life.name != name);
}

/// The life that is held under a name; it is held no more.
fn take_held(held: &mut Vec<Held>, name: u16) -> Option<SocketId>
    ensures id { option_map (λ (id : _). id.0) result ≡ held_under name (lives held.old.items) }
    ensures rest { lives held.new.items ≡ without_name name (lives held.old.items) }
    ensures fewer { vec_len held.new ≤ vec_len held.old }
{
    let id = find_held(held, name);
    drop_held(held, name);
    id
}

/// Where a task begins, over a table of these sizes; nowhere where it is a `drop` of what isn't held. The message of a `send`
/// and the call of a `call` come into the seat's hand.
fn begin(held: &mut Vec<Held>, hand: &mut InHand, sizes: Sizes, task: Task) -> Option<Point>
    ensures some { IfSome result (λ point. (a : Context) → a.sizes ≡ sizes → a.held ≡ lives held.new.items → a.message ≡ bytes_of (message_in hand.new) → a.asked ≡ asked_or_nothing (call_in hand.new) →
        point_program a point ≡ operation sizes (lives held.old.items) task.number a.goes_on task.op) }
    ensures none { IfNone result ((goes_on : List HeldLife → Program) →
        operation sizes (lives held.old.items) task.number goes_on task.op ≡ Say task.number NotHeld (goes_on (lives held.new.items))) }
{
    let Task {
        number: operation,
        op,
    } = task;
    match op {
        Op::Open(name, link) => {
            let opening = Opening {
                operation,
                name,
                link,
            };
            Some(opening.try_slot(sizes.slots, 0))
        }
        Op::Send(name, bytes) => {
            *hand = InHand::Message(bytes);
            Some(Point::Seek(Aim::Send { operation, name }, SeekStep::Load))
        }
        Op::Call(asked) => {
            *hand = InHand::Call(asked);
            Some(Point::Call(CallStep::LoadName))
        }
        Op::Expire(called) => Some(Point::Expire(operation, called)),
        Op::Join(called) => Some(Point::Join(operation, JoinStep::LoadCall(called))),
        Op::Hold(name) => Some(Point::Seek(Aim::Hold { operation, name }, SeekStep::Load)),
        Op::Fail(name, code) => {
            let aim = Aim::Fail {
                operation,
                name,
                code,
            };
            Some(Point::Seek(aim, SeekStep::Load))
        }
        Op::Drop(name) => {
            let id = take_held(held, name)?;
            Some(Point::Release(
                id.slot(),
                Continuation::Dropped { operation },
                ReleaseStep::SubRef,
            ))
        }
    }
}

/// Where a client goes on behind its last task: it gives back what it holds, the oldest first.
fn give_back(held: &mut Vec<Held>) -> Point
    ensures { (a : Context) → a.goes_on ≡ give_back → a.held ≡ lives held.new.items → point_program a result ≡ give_back (lives held.old.items) }
{
    if held.is_empty() {
        return Point::Rest;
    }
    let oldest = held.remove(0);
    Point::Release(
        oldest.id.slot(),
        Continuation::GaveBack,
        ReleaseStep::SubRef,
    )
}

impl Seat {
    /// The seat of a client with these tasks, before it began.
    pub fn new(alloc: Global, tasks: VecDeque<Task>) -> Seat
        ensures { seat_data result ≡ record { tasks = tasks.items; leaving = false; held = []; ending = []; point = Point.Rest; waiting = []; message = None; call = None; out = None } }
    {
        Seat {
            tasks,
            leaving: false,
            held: Vec::new(alloc),
            ending: VecDeque::new(alloc),
            point: Point::Rest,
            waiting: Vec::new(alloc),
            hand: InHand::Nothing,
            out: None,
        }
    }

    /// What it knows of the call in its hand.
    pub fn calling(&self) -> Calling
        ensures { (sizes : Sizes) → IsCalling (around sizes (seat_data self.now)) result }
    {
        match self.hand.call() {
            Some(call) => Calling {
                operation: call.operation,
                name: call.name(0),
                range: call.range,
            },
            None => Calling {
                operation: 0,
                name: 0,
                range: 0,
            },
        }
    }

    /// The frame of an attempt of the call in its hand is made.
    fn frame(
        &mut self,
        alloc: Global,
        pool: &mut BlockPool,
        id: CallId,
        attempt: AttemptNumber,
    ) -> Result<(), NoMemory>
        ensures { IfOk result (λ _. IsFramedAs (seat_data self.old) (seat_data self.new) (id_of id) (number_of attempt)) }
    {
        let hand = std::mem::replace(&mut self.hand, InHand::Nothing);
        self.hand = hand.framed(alloc, pool, id, attempt)?;
        Ok(())
    }

    /// What the step needs in hand of the call is made. The program stays.
    #[inline(never)]
    fn prepare_call(&mut self, alloc: Global, pool: &mut BlockPool) -> Result<(), NoMemory>
        ensures { OnOk result ((sizes : Sizes) → IsPrepared sizes (seat_data self.old) (seat_data self.new)) }
    {
        match self.point {
            Point::Call(CallStep::StoreCall(id, _)) => {
                self.frame(alloc, pool, id, AttemptNumber::new(0))
            }
            Point::Retry(_, RetryStep::Lock(_) | RetryStep::TakeCall(_)) => Ok(()),
            Point::Retry(retrying, step) => {
                let Attempt { id, number, .. } = retrying.attempt;
                self.frame(alloc, pool, id, number)?;
                self.point = Point::Retry(self.retrying(id, number), step);
                Ok(())
            }
            _ => Ok(()),
        }
    }

    /// Before its step: what this needs in hand is made. The frame of a call's first attempt is made in the step that tells its
    /// id, and that of a retry once its call is in hand. The program stays.
    #[inline(always)]
    pub fn prepare(&mut self, alloc: Global, pool: &mut BlockPool) -> Result<(), NoMemory>
        ensures { OnOk result ((sizes : Sizes) → IsPrepared sizes (seat_data self.old) (seat_data self.new)) }
    {
        match self.point {
            Point::Call(CallStep::StoreCall(_, _)) | Point::Retry(_, _) => {
                self.prepare_call(alloc, pool)
            }
            _ => Ok(()),
        }
    }

    /// The retry of this attempt of the call in its hand.
    fn retrying(&self, id: CallId, number: AttemptNumber) -> Retrying
        ensures id { (result.attempt.id ≡ id) × (result.attempt.number ≡ number) }
        ensures operation { result.attempt.operation ≡ (asked_or_nothing (seat_data self.now).call).operation }
        ensures name { result.name ≡ name_of (asked_or_nothing (seat_data self.now).call) (number_of number) }
    {
        let (operation, name) = match self.hand.call() {
            Some(call) => (call.operation, call.name(number.get())),
            None => (0, 0),
        };
        let attempt = Attempt {
            operation,
            id,
            number,
        };
        Retrying { attempt, name }
    }

    /// A call comes into its hand, out of its home; how it goes on. A retry makes its frame.
    pub fn with_call(
        &mut self,
        alloc: Global,
        pool: &mut BlockPool,
        call: Call,
    ) -> Result<Next, NoMemory>
        requires { TakesCall self.old.point }
        ensures hand { OnOk result (HasTaken (seat_data self.old) (seat_data self.new) call) }
        ensures next { IfOk result (λ next. (sizes : Sizes) → next_program (around sizes (seat_data self.new)) next ≡ after_call (seat_program sizes (seat_data self.old)) call) }
    {
        let point = self.point;
        let operation = call.operation;
        match point {
            Point::Retry(retrying, _) => {
                let Attempt { id, number, .. } = retrying.attempt;
                let name = call.name(number.get());
                self.hand = InHand::Call(call).framed(alloc, pool, id, number)?;
                Ok(point.with_call(operation, name))
            }
            _ => {
                self.hand = InHand::Call(call);
                Ok(point.with_call(operation, 0))
            }
        }
    }

    /// The client goes on with its next task, over a table of these sizes, up to a step. Outcomes that need none are told.
    fn next_task(&mut self, sizes: Sizes, outcomes: &mut [Option<Outcome>])
        requires tasks { self.old.leaving ≡ false }
        requires none { self.old.waiting.items ≡ [] }
        ensures { FollowsOn sizes (seat_data self.old) (seat_data self.new) (client_of sizes (seat_data self.old)) outcomes.old outcomes.new }
    {
        while let Some(task) = self.tasks.pop_front() {
            let number = task.number;
            match begin(&mut self.held, &mut self.hand, sizes, task) {
                Some(point) => {
                    self.point = point;
                    return;
                }
                None => tell(outcomes, number, Outcome::NotHeld),
            }
        }
        self.leaving = true;
        self.point = give_back(&mut self.held);
    }

    /// The client goes on, over a table of these sizes, up to a step: with the oldest retry that waits, or else with its next
    /// task. Outcomes that need no step are told.
    pub fn go_on(&mut self, sizes: Sizes, outcomes: &mut [Option<Outcome>])
        ensures { FollowsOn sizes (seat_data self.old) (seat_data self.new) (client_of sizes (seat_data self.old)) outcomes.old outcomes.new }
    {
        if self.leaving {
            self.point = give_back(&mut self.held);
            return;
        }
        if self.waiting.is_empty() {
            self.next_task(sizes, outcomes);
        } else {
            let oldest = self.waiting.remove(0);
            self.point = oldest.point();
        }
    }

    /// The ending goes on with its next `open`.
    pub fn end_next(&mut self)
        ensures program { (sizes : Sizes) → seat_program sizes (seat_data self.new) ≡ next_step (ending_of self.old.ending.items) }
        ensures waiting { self.new.waiting ≡ self.old.waiting }
        ensures said { (outcomes : List (Option Outcome)) → outcomes ≡ said (ending_of self.old.ending.items) outcomes }
    {
        self.point = match self.ending.pop_front() {
            Some(operation) => Point::Seek(Aim::End { operation }, SeekStep::Load),
            None => Point::Rest,
        };
    }

    /// The seat goes on behind a step that ended no call and keeps no retry.
    fn follow_flat(&mut self, sizes: Sizes, next: Next, outcomes: &mut [Option<Outcome>])
        requires flat { IsFlat next }
        requires room { (o name : ℕ) (id : SocketId) → next ≡ Next.Held o name id → vec_len self.old.held < vec_capacity self.old.held }
        ensures { FollowsOn sizes (seat_data self.old) (seat_data self.new) (next_program (around sizes (seat_data self.old)) next) outcomes.old outcomes.new }
    {
        match next {
            Next::Point(point) => self.point = point,
            Next::Said(operation, outcome) => {
                tell(outcomes, operation, outcome);
                self.go_on(sizes, outcomes);
            }
            Next::Sent(_) => self.go_on(sizes, outcomes),
            Next::Held(operation, name, id) => {
                self.held.push_reserved(Held { name, id });
                tell(outcomes, operation, Outcome::Held);
                self.go_on(sizes, outcomes);
            }
            Next::GaveBack => self.go_on(sizes, outcomes),
            Next::Ended => self.end_next(),
            Next::CallEnded(_, _, _, _) | Next::Kept(_, _, _) | Next::KeptWith(_, _, _, _) => {}
        }
    }

    /// The seat goes on behind what it decided on an error.
    fn follow_after(&mut self, sizes: Sizes, after: AfterStep, outcomes: &mut [Option<Outcome>])
        ensures { FollowsOn sizes (seat_data self.old) (seat_data self.new) (after_program (around sizes (seat_data self.old)) after) outcomes.old outcomes.new }
    {
        self.follow_flat(sizes, after.next(), outcomes);
    }

    /// A retry is kept, behind those that wait.
    fn keep(&mut self, id: CallId, attempt: AttemptNumber)
        requires { vec_len self.old.waiting < vec_capacity self.old.waiting }
        ensures { seat_data self.new ≡ record (seat_data self.old) { waiting = retries self.old.waiting.items ++ record { id = id_of id; attempt = number_of attempt } ∷ [] } }
    {
        self.waiting.push_reserved(Kept { id, attempt });
    }

    /// The seat goes on behind a step that ended its operation, or that ended a call or keeps a retry.
    #[inline(never)]
    fn follow_end(&mut self, sizes: Sizes, next: Next, outcomes: &mut [Option<Outcome>])
        requires room { (o name : ℕ) (id : SocketId) → next ≡ Next.Held o name id → vec_len self.old.held < vec_capacity self.old.held }
        requires more { IsFlat next ⊎ (vec_len self.old.waiting < vec_capacity self.old.waiting) }
        ensures { FollowsOn sizes (seat_data self.old) (seat_data self.new) (next_program (around sizes (seat_data self.old)) next) outcomes.old outcomes.new }
    {
        match next {
            Next::CallEnded(operation, id, code, after) => {
                let outcome = Outcome::CallFailed {
                    id: id.number(),
                    code,
                };
                tell(outcomes, operation, outcome);
                self.follow_after(sizes, after, outcomes);
            }
            Next::Kept(id, attempt, after) => {
                self.keep(id, attempt);
                self.follow_after(sizes, after, outcomes);
            }
            Next::KeptWith(error, attempt, word, after) => {
                self.keep(error.id, attempt);
                self.point = Point::Decide(error, after, DecideStep::Take(word));
            }
            flat => self.follow_flat(sizes, flat, outcomes),
        }
    }

    /// The seat goes on behind a step. Mostly it stays in its operation.
    pub fn follow(&mut self, sizes: Sizes, next: Next, outcomes: &mut [Option<Outcome>])
        requires room { (o name : ℕ) (id : SocketId) → next ≡ Next.Held o name id → vec_len self.old.held < vec_capacity self.old.held }
        requires more { IsFlat next ⊎ (vec_len self.old.waiting < vec_capacity self.old.waiting) }
        ensures { FollowsOn sizes (seat_data self.old) (seat_data self.new) (next_program (around sizes (seat_data self.old)) next) outcomes.old outcomes.new }
    {
        match next {
            Next::Point(point) => self.point = point,
            other => self.follow_end(sizes, other, outcomes),
        }
    }
}
