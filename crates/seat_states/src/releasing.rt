ghost use Rattle.std.specs.Prelude.{◌≡◌, None, ℕ, Bool, if◌then◌else◌};
ghost use Rattle.seat_programs.specs.Programs.{Program, fail_outcome};
ghost use Rattle.call_points.specs.AsideCodeSteps.{after_word};
ghost use Rattle.seat_states.specs.ProgramAtPoint.{Context, release_on, released_on, release_program, next_program, then_program, MayFindIn, release_left, released_link, link_behind, link_left};

use crate::asking::posting;
use crate::point::{AfterStep, Continuation, Next, Point, ReleaseStep, Released};
use sock_words::{EFAILEDSOCKET, Outcome, Vref};

/// The last version that a slot may be given again with.
const LAST_VERSION: u32 = 4_294_967_292;

impl Continuation {
    /// What follows a release that recycled the slot, or didn't.
    pub fn next(self, freed: bool) -> Next
        ensures program { (a : Context) → next_program a result ≡ then_program a self freed }
        ensures hand { link_behind result ≡ None }
    {
        match self {
            Continuation::Gone { operation, found } => Next::Said(
                operation,
                Outcome::Gone { found },
            ),
            Continuation::Failed { operation, found } => Next::Said(
                operation,
                failed_outcome(found),
            ),
            Continuation::Full { operation } => Next::Said(operation, Outcome::Full),
            Continuation::Sent { operation } => Next::Sent(operation),
            Continuation::Dropped { operation } => Next::Said(operation, dropped_outcome(freed)),
            Continuation::GaveBack => Next::GaveBack,
            Continuation::Unreached(attempt) => posting(
                attempt.error(EFAILEDSOCKET),
                AfterStep::Attempt(None),
            ),
            Continuation::Ended => Next::Ended,
        }
    }
}

/// The outcome of a `fail` that found this word.
fn failed_outcome(found: Vref) -> Outcome
    ensures { result ≡ fail_outcome found.0 }
{
    if found.is_failed() {
        Outcome::Already { found }
    } else {
        Outcome::Failed
    }
}

/// The outcome of a `drop` that recycled the slot, or didn't.
fn dropped_outcome(freed: bool) -> Outcome
    ensures { result ≡ (if freed then Outcome.Freed else Outcome.Kept) }
{
    if freed { Outcome::Freed } else { Outcome::Kept }
}

/// The release of a slot, at this step.
pub fn releasing(slot: u32, follows: Continuation, step: ReleaseStep) -> Next
    ensures { result ≡ Next.Point (Point.Release slot follows step) }
{
    Next::Point(Point::Release(slot, follows, step))
}

impl ReleaseStep {
    /// How the release of a slot goes on by the word that its step found.
    pub fn behind(self, found: u64) -> Released
        requires { MayFindIn self found }
        ensures program { (i : ℕ) (k : Bool → Program) → released_on i k result ≡ after_word (release_on i k self) found }
        ensures hand { released_link result ≡ release_left self }
    {
        match self {
            ReleaseStep::SubRef => {
                let word = Vref(found);
                if word.is_failed() && word.nref() == 1 {
                    Released::Step(ReleaseStep::Recycle(Vref(found - 1)))
                } else {
                    Released::Done(false)
                }
            }
            ReleaseStep::Recycle(from) => {
                if found == from.0 {
                    Released::Step(ReleaseStep::LoadLink(from.version() + 1))
                } else {
                    Released::Done(false)
                }
            }
            ReleaseStep::LoadLink(version) => {
                Released::Step(ReleaseStep::TakeLink(version, found as u16))
            }
            ReleaseStep::TakeLink(version, link) => {
                Released::Step(ReleaseStep::FinishLink(version, link))
            }
            ReleaseStep::FinishLink(version, link) => {
                Released::Step(ReleaseStep::PutLink(version, link))
            }
            ReleaseStep::PutLink(version, _) => {
                if version <= LAST_VERSION {
                    Released::Step(ReleaseStep::FreeSlot)
                } else {
                    Released::Done(true)
                }
            }
            ReleaseStep::FreeSlot => Released::Done(true),
        }
    }

    /// Where the release of a slot goes on, and what follows it, by the word that its step found.
    pub fn next(self, slot: u32, follows: Continuation, found: u64) -> Next
        requires { MayFindIn self found }
        ensures program { (a : Context) → next_program a result ≡ after_word (release_program a slot follows self) found }
        ensures hand { link_behind result ≡ link_left (Point.Release slot follows self) }
    {
        match self.behind(found) {
            Released::Step(step) => releasing(slot, follows, step),
            Released::Done(freed) => follows.next(freed),
        }
    }
}
