ghost use Rattle.std.specs.Prelude.{◌≡◌, ◌≤◌, ℕ, List, None, Some, if◌then◌else◌};
ghost use Rattle.seat_programs.specs.LoopHeads.{Posting};
ghost use Rattle.seat_programs.specs.CallAndRetryPrograms.{expire_outcome};
ghost use Rattle.seat_programs.specs.PostPrograms.{posted, decided};
ghost use Rattle.seat_programs.specs.Programs.{Program};
ghost use Rattle.id_points.specs.CallIdLoopTurns.{post_on};
ghost use Rattle.call_points.specs.CallIdPoints.{decide_on};
ghost use Rattle.id_points.specs.IdsAndAttemptNumbers.{id_of};
ghost use Rattle.seat_states.specs.ProgramAtPoint.{Context, after_program, error_by, refused_program, posted_program, IsRefused, next_program, tell, told, link_behind};

use crate::point::{AfterStep, Attempt, Author, Continuation, Next, Point, ReleaseStep};
use crate::releasing::releasing;
use call_points::{DecideNext, DecideStep, OnCall, WordStep};
use id_points::{IdError, PostTurn};
use sock_words::{EFAILEDSOCKET, Outcome};

/// An error is posted, and this follows.
pub fn posting(error: OnCall, after: AfterStep) -> Next
    ensures { result ≡ Next.Point (Point.Post error after WordStep.Read) }
{
    Next::Point(Point::Post(error, after, WordStep::Read))
}

/// An error is decided on, at this step.
pub fn deciding(error: OnCall, after: AfterStep, step: DecideStep) -> Next
    ensures { result ≡ Next.Point (Point.Decide error after step) }
{
    Next::Point(Point::Decide(error, after, step))
}

impl Attempt {
    /// An error of this attempt.
    pub fn error(self, code: u16) -> OnCall
        requires { code ≤ 4095 }
        ensures { result ≡ error_by self code }
    {
        OnCall {
            id: self.id,
            error: IdError::of_attempt(code, self.number),
        }
    }
}

impl Author {
    /// What the call of a message is told where it was dropped with this code, 0 where none was stored yet; nothing where it
    /// is none of a call.
    pub fn told(self, code: u16) -> Option<OnCall>
        requires code { code ≤ 4095 }
        ensures { (parts : List ℕ) (next : Program) → told result next ≡ tell self parts code next }
    {
        match self {
            Author::Send(_) => None,
            Author::Attempt(attempt) => {
                if attempt.id.number() == 0 {
                    None
                } else if code == 0 {
                    Some(attempt.error(EFAILEDSOCKET))
                } else {
                    Some(attempt.error(code))
                }
            }
        }
    }
}

impl AfterStep {
    /// How a seat goes on behind what it decided.
    pub fn next(self) -> Next
        ensures program { (a : Context) → next_program a result ≡ after_program a self }
        ensures hand { link_behind result ≡ None }
    {
        self.telling(Outcome::Expired)
    }

    /// How it goes on where an `expire` tells this.
    fn telling(self, outcome: Outcome) -> Next
        ensures program { (a : Context) → next_program a result ≡ refused_program a self outcome }
        ensures hand { link_behind result ≡ None }
    {
        match self {
            AfterStep::Attempt(None) => Next::GaveBack,
            AfterStep::Attempt(Some(slot)) => releasing(
                slot,
                Continuation::GaveBack,
                ReleaseStep::SubRef,
            ),
            AfterStep::Expire(operation) => Next::Said(operation, outcome),
            AfterStep::Drop(writer, next) => writer.freed(next),
        }
    }

    /// How it goes on where a post was refused or queued, which has this outcome for an `expire`.
    fn refused(self, outcome: Outcome) -> Next
        ensures program { (a : Context) (c : OnCall) (how : Posting) → IsRefused how → outcome ≡ expire_outcome how → next_program a result ≡ posted_program a c self how }
        ensures hand { link_behind result ≡ None }
    {
        self.telling(outcome)
    }

    /// How it goes on behind the step of a post.
    pub fn posted(self, error: OnCall, turn: PostTurn) -> Next
        ensures program { (a : Context) → next_program a result ≡ post_on (id_of error.id) error.error.0 (posted_program a error self) turn }
        ensures hand { link_behind result ≡ None }
    {
        match turn {
            PostTurn::Gone | PostTurn::Stale => self.refused(Outcome::Late),
            PostTurn::Crowded(first, second) => self.refused(Outcome::Crowded { first, second }),
            PostTurn::Queued => self.refused(Outcome::Queued),
            PostTurn::Locked(word) => {
                Next::Point(Point::Decide(error, self, DecideStep::Take(word)))
            }
            PostTurn::Again(from) => Next::Point(Point::Post(
                error,
                self,
                WordStep::Exchange(from),
            )),
        }
    }

    /// How it goes on behind the step of a decision.
    pub fn decided(self, error: OnCall, next: DecideNext) -> Next
        ensures program { (a : Context) → next_program a result ≡ decide_on a.asked (decided (id_of error.id) (after_program a self)) error next }
        ensures hand { link_behind result ≡ None }
    {
        match next {
            DecideNext::Step(step) => Next::Point(Point::Decide(error, self, step)),
            DecideNext::Ended(operation) => {
                Next::CallEnded(operation, error.id, error.error.code(), self)
            }
            DecideNext::Kept(attempt) => Next::Kept(error.id, attempt, self),
            DecideNext::KeptWith(attempt, word, queued) => {
                let next = OnCall {
                    id: error.id,
                    error: queued,
                };
                Next::KeptWith(next, attempt, word, self)
            }
        }
    }
}
