ghost use Rattle.std.specs.Prelude.{◌≡◌, ℕ, None, Some};
ghost use Rattle.seat_programs.specs.CallAndRetryPrograms.{retry_locked, tried_again, expire};
ghost use Rattle.id_points.specs.CallIdLoopTurns.{lock_on, unlock_on, sought_as};
ghost use Rattle.call_points.specs.AsideCodeSteps.{after_word, after_call};
ghost use Rattle.seat_programs.specs.sock_message.specs.Asked.{Asked};
ghost use Rattle.id_points.specs.IdsAndAttemptNumbers.{id_of, number_of};
ghost use Rattle.seat_states.specs.ProgramAtPoint.{Context, client_on, locker_of, retry_program, join_program, next_program, with_asked, with_frame, HasRetry, MayLock, RetriesByWord, MayFindId, MayFindJoined, link_behind};
ghost use Rattle.seat_states.specs.ProgramStepsOfMachine.{first_in, step_as};
ghost use Rattle.sock_words.specs.PackedWords.{id_slot};

use crate::asking::posting;
use crate::name_step::NameStep;
use crate::point::{
    AfterStep, Attempt, AttemptStep, JoinStep, Next, Point, RetryStep, Retrying, Step,
};
use crate::table_step::TableStep;
use call_points::{Aside, DecideStep, Locker, OnCall, WordStep};
use id_points::{CallId, IdError, LockTurn, Sought, UnlockTurn, is_awaited, unlock_behind};
use sock_words::{EFAILEDSOCKET, ERPCTIMEDOUT, IdWord, Outcome, SocketId};

impl Retrying {
    /// A retry comes to this step.
    fn to(self, step: RetryStep) -> Next
        ensures { result ≡ Next.Point (Point.Retry self step) }
    {
        Next::Point(Point::Retry(self, step))
    }

    /// Whoever locks the call's id for it.
    fn locker(self) -> Locker
        ensures { result ≡ locker_of self }
    {
        let id = self.attempt.id;
        Locker {
            slot: id.slot(),
            sought: Sought::First(id.first()),
        }
    }

    /// The next step of a retry.
    pub fn step(self, step: RetryStep) -> Step
        ensures { (a : Context) → HasRetry a self step → first_in (retry_program a self step) ≡ Some (step_as a result) }
    {
        let slot = self.attempt.id.slot();
        match step {
            RetryStep::Lock(at) => Step::Aside(self.locker().step(at)),
            RetryStep::TakeCall(_) => Step::Aside(Aside::TakeCall(slot)),
            RetryStep::PutCall(_) => Step::Aside(Aside::PutCall(slot)),
            RetryStep::Unlock(from, advance) => {
                Step::Aside(Aside::UnlockId(slot, from, advance))
            }
            RetryStep::LoadName => Step::Table(TableStep::Name(NameStep::LoadName(self.name))),
        }
    }

    /// How a retry goes on behind a step on the way to its lock.
    fn locked(self, turn: LockTurn) -> Next
        ensures program { (a : Context) → next_program a result ≡ lock_on (locker_of self).slot (sought_as (locker_of self).sought) (retry_locked a.sizes.requests (id_of self.attempt.id) (number_of self.attempt.number) (client_on a)) turn }
        ensures hand { link_behind result ≡ None }
    {
        match turn {
            LockTurn::NotThere(_) => Next::GaveBack,
            LockTurn::Has(word) => self.to(RetryStep::TakeCall(word)),
            LockTurn::Again(None) => self.to(RetryStep::Lock(WordStep::Read)),
            LockTurn::Again(Some(from)) => self.to(RetryStep::Lock(WordStep::Exchange(from))),
        }
    }

    /// How it goes on behind the giving back of its lock; an error that was queued is decided on.
    fn unlocked(self, turn: UnlockTurn) -> Next
        ensures program { (a : Context) → next_program a result ≡ unlock_on (id_slot (id_of self.attempt.id)) (tried_again a.sizes.requests (id_of self.attempt.id) (number_of self.attempt.number) a.asked (client_on a)) turn }
        ensures hand { link_behind result ≡ None }
    {
        match turn {
            UnlockTurn::Open(_) => self.to(RetryStep::LoadName),
            UnlockTurn::Next(word, error) => {
                let queued = OnCall {
                    id: self.attempt.id,
                    error,
                };
                Next::Point(Point::Decide(queued, AfterStep::Attempt(None), DecideStep::Take(word)))
            }
            UnlockTurn::Again(from, advance) => self.to(RetryStep::Unlock(from, advance)),
        }
    }

    /// How a retry goes on by the word that its step found.
    pub fn next(self, step: RetryStep, found: u64) -> Next
        requires lock { MayLock step }
        requires word { RetriesByWord step }
        ensures program { (a : Context) → HasRetry a self step → next_program a result ≡ after_word (retry_program a self step) found }
        ensures hand { link_behind result ≡ None }
    {
        match step {
            RetryStep::Lock(at) => self.locked(self.locker().next(at, found)),
            RetryStep::TakeCall(_) => Next::GaveBack,
            RetryStep::PutCall(word) => self.to(RetryStep::Unlock(word, false)),
            RetryStep::Unlock(from, advance) => {
                self.unlocked(unlock_behind(from, advance, IdWord(found)))
            }
            RetryStep::LoadName => {
                if found == 0 {
                    posting(self.attempt.error(EFAILEDSOCKET), AfterStep::Attempt(None))
                } else {
                    let socket = SocketId(found - 1);
                    self.attempt.to(socket, AttemptStep::AddRef)
                }
            }
        }
    }

    /// How it goes on with its call in hand, which is that of this operation, and this is the name of the attempt.
    pub fn with_call(self, word: IdWord, operation: u16, name: u16) -> Next
        ensures program { (a : Context) (asked : Asked) → next_program (with_frame (id_of self.attempt.id) (number_of self.attempt.number) (with_asked asked a)) result ≡ after_call (retry_program a self (RetryStep.TakeCall word)) asked }
        ensures hand { link_behind result ≡ None }
    {
        let retrying = Retrying {
            attempt: Attempt {
                operation,
                ..self.attempt
            },
            name,
        };
        retrying.to(RetryStep::PutCall(word))
    }
}

/// An `expire` goes on by the word of the call that it loaded.
pub fn expiring(operation: u16, found: u64) -> Next
    requires { MayFindId found }
    ensures program { (a : Context) (call : ℕ) → next_program a result ≡ after_word (expire operation call (client_on a)) found }
    ensures hand { link_behind result ≡ None }
{
    if found == 0 {
        return Next::Said(operation, Outcome::NotBegun);
    }
    let error = OnCall {
        id: CallId::from_number(found),
        error: IdError::of_call(ERPCTIMEDOUT),
    };
    posting(error, AfterStep::Expire(operation))
}

impl JoinStep {
    /// The next step of a `join`.
    pub fn step(self) -> Step
        ensures { (a : Context) (o : ℕ) → first_in (join_program a o self) ≡ Some (step_as a result) }
    {
        match self {
            JoinStep::LoadCall(call) => Step::Aside(Aside::LoadCall(call)),
            JoinStep::Wait(id) => Step::Aside(Aside::LoadIdWord(id.slot())),
        }
    }

    /// How a `join` goes on by the word that its step found.
    pub fn next(self, operation: u16, found: u64) -> Next
        requires { MayFindJoined self found }
        ensures program { (a : Context) → next_program a result ≡ after_word (join_program a operation self) found }
        ensures hand { link_behind result ≡ None }
    {
        match self {
            JoinStep::LoadCall(_) => {
                if found == 0 {
                    Next::Said(operation, Outcome::NotBegun)
                } else {
                    let id = CallId::from_number(found);
                    Next::Point(Point::Join(operation, JoinStep::Wait(id)))
                }
            }
            JoinStep::Wait(id) => {
                if is_awaited(id.first(), IdWord(found)) {
                    Next::Point(Point::Join(operation, JoinStep::Wait(id)))
                } else {
                    Next::Said(operation, Outcome::Joined)
                }
            }
        }
    }
}
