ghost use Rattle.std.specs.Prelude.{◌≡◌, ◌+◌, Some};
ghost use Rattle.seat_programs.specs.LoopHeads.{Deciding};
ghost use Rattle.seat_programs.specs.Programs.{Program};
ghost use Rattle.seat_programs.specs.sock_message.specs.Asked.{Asked};
ghost use Rattle.call_points.specs.AsideCodeSteps.{step_of, aside_in, after_word, after_call};
ghost use Rattle.call_points.specs.CallIdPoints.{decide_program, decide_on, MayStand, GoesByWord};

use crate::aside::Aside;
use id_points::{AttemptNumber, CallId, IdError, UnlockTurn, ends_call, is_reused, unlock_behind};
use sock_words::IdWord;

/// An error in a seat's hand: the id of its call, and the error.
#[derive(Clone, Copy)]
pub struct OnCall {
    pub id: CallId,
    pub error: IdError,
}

/// Where the decision on an error stands, by whoever has the call's id locked, which has this word.
/// bRPC's handler of an id's errors, which retries or ends the call (bthread_id.md).
#[derive(Clone, Copy)]
pub enum DecideStep {
    /// The call is taken out of its home,
    Take(IdWord),
    /// and its range ends, or it goes home again,
    Judge(IdWord),
    /// and the slot of the call of this operation may be claimed again,
    Free(u16),
    /// or the lock is given back, with an advance or without; then this attempt is tried.
    Unlock(IdWord, bool, AttemptNumber),
}

/// How a decision goes on behind a step.
#[derive(Clone, Copy)]
pub enum DecideNext {
    Step(DecideStep),
    /// The call of this operation has ended with the error's code.
    Ended(u16),
    /// The id is open, and this attempt is to be tried;
    Kept(AttemptNumber),
    /// or it stays locked with this word, since this error was queued, which is decided on first.
    KeptWith(AttemptNumber, IdWord, IdError),
}

impl OnCall {
    /// The next step of a decision.
    pub fn decide_step(self, step: DecideStep) -> Aside
        ensures { (asked : Asked) (k : Deciding → Program) → Some (step_of asked result) ≡ aside_in (decide_program self asked k step) }
    {
        let slot = self.id.slot();
        match step {
            DecideStep::Take(_) => Aside::TakeCall(slot),
            DecideStep::Judge(word) if ends_call(word, self.error) => Aside::EndId(slot),
            DecideStep::Judge(_) => Aside::PutCall(slot),
            DecideStep::Free(_) => Aside::FreeId(slot),
            DecideStep::Unlock(from, advance, _) => Aside::UnlockId(slot, from, advance),
        }
    }

    /// How a decision goes on with its call in hand.
    pub fn with_call(self, word: IdWord) -> DecideStep
        ensures { (asked : Asked) (k : Deciding → Program) → decide_program self asked k result ≡ after_call (decide_program self asked k (DecideStep.Take word)) asked }
    {
        DecideStep::Judge(word)
    }

    /// How a decision goes on behind a step that found this word; the call in hand is that of this operation.
    pub fn decide_next(self, step: DecideStep, operation: u16, found: u64) -> DecideNext
        requires stands { MayStand step }
        requires word { GoesByWord step }
        ensures { (asked : Asked) (k : Deciding → Program) → asked.operation ≡ operation → decide_on asked k self result ≡ after_word (decide_program self asked k step) found }
    {
        let found = IdWord(found);
        match step {
            DecideStep::Take(word) => DecideNext::Step(self.with_call(word)),
            DecideStep::Judge(word) if ends_call(word, self.error) => {
                if is_reused(found) {
                    DecideNext::Step(DecideStep::Free(operation))
                } else {
                    DecideNext::Ended(operation)
                }
            }
            DecideStep::Judge(word) => {
                let attempt = AttemptNumber::new(word.attempt() + 1);
                DecideNext::Step(DecideStep::Unlock(word, true, attempt))
            }
            DecideStep::Free(done) => DecideNext::Ended(done),
            DecideStep::Unlock(from, advance, attempt) => {
                match unlock_behind(from, advance, found) {
                    UnlockTurn::Open(_) => DecideNext::Kept(attempt),
                    UnlockTurn::Next(word, error) => DecideNext::KeptWith(attempt, word, error),
                    UnlockTurn::Again(from, advance) => {
                        DecideNext::Step(DecideStep::Unlock(from, advance, attempt))
                    }
                }
            }
        }
    }
}
