ghost use Rattle.std.specs.Prelude.{◌≡◌, ℕ, List, None};
ghost use Rattle.call_points.specs.AsideCodeSteps.{after_word, after_call};
ghost use Rattle.seat_programs.specs.sock_message.specs.Asked.{Asked};
ghost use Rattle.seat_states.specs.ProgramAtPoint.{Context, point_program, next_program, after_message, after_link, after_home, after_put, after_ready, with_message, with_put, is_whole, MayNext, IsCalling, HasInHand, IsNextName, framed, taken_with, TakesCall, TakesMessage, TakesLink, PutsHome, PutsPiece, Asks, link_behind, link_left};

use crate::asking::deciding;
use crate::calling::Calling;
use crate::point::{Author, Next, Point, RetryStep, SendStep, WriteStep};
use crate::retrying::expiring;
use call_points::DecideStep;
use seat_programs::Sizes;
use sock_io::{Put, Ready};

impl Point {
    /// Where a seat goes on, over a table of these sizes and with this call in hand, by the word that its step found; 0 where
    /// it was none on a word.
    pub fn next(&self, sizes: Sizes, calling: Calling, found: u64) -> Next
        requires { MayNext sizes self.now found }
        ensures program { (a : Context) → a.sizes ≡ sizes → IsCalling a calling → HasInHand a self.now → next_program (framed self.now a) result ≡ after_word (point_program a self.now) found }
        ensures hand { link_behind result ≡ link_left self.now }
    {
        match *self {
            Point::Rest => Next::Ended,
            Point::Open(opening, step) => opening.next(sizes.slots, step, found),
            Point::Seek(aim, step) => aim.next(step, found),
            Point::Fail(failing, step) => failing.next(step, found),
            Point::Release(slot, follows, step) => step.next(slot, follows, found),
            Point::Send(sending, step) => sending.next(sizes.requests, step, found),
            Point::Write(writer, step) => writer.next(step, found),
            Point::Call(step) => step.next(calling, sizes.ids, found),
            Point::Attempt(attempt, socket, step) => step.next(attempt, socket, found),
            Point::Post(error, after, step) => after.posted(error, error.post_next(step, found)),
            Point::Decide(error, after, step) => {
                after.decided(error, error.decide_next(step, calling.operation, found))
            }
            Point::Retry(retrying, step) => retrying.next(step, found),
            Point::Expire(operation, _) => expiring(operation, found),
            Point::Join(operation, step) => step.next(operation, found),
        }
    }

    /// Where it goes on with the message of this author in hand.
    pub fn with_message(self, author: Author) -> Next
        requires step { TakesMessage self }
        ensures program { (a : Context) (parts bytes : List ℕ) → next_program (with_message parts bytes a) result ≡ after_message (point_program a self) author parts bytes }
        ensures hand { link_behind result ≡ None }
    {
        match self {
            Point::Send(sending, SendStep::TakeMessage(_, own, link, places)) => {
                sending.writes(own, link, places, author)
            }
            Point::Write(writer, WriteStep::TakeMessage(next)) => writer.writes(next, author),
            Point::Write(writer, WriteStep::TakeFirst(top, at)) => {
                writer.up_to(top).writes(at, author)
            }
            _ => Next::Ended,
        }
    }

    /// Where it goes on with a call in hand that it took out of its home: that of this operation, of which this is the name of
    /// its next attempt.
    pub fn with_call(self, operation: u16, name: u16) -> Next
        requires step { TakesCall self }
        ensures program { (a : Context) (asked : Asked) → asked.operation ≡ operation → IsNextName asked self name → next_program (taken_with self asked a) result ≡ after_call (point_program a self) asked }
        ensures hand { link_behind result ≡ None }
    {
        match self {
            Point::Decide(error, after, DecideStep::Take(word)) => {
                let step = error.with_call(word);
                deciding(error, after, step)
            }
            Point::Retry(retrying, RetryStep::TakeCall(word)) => {
                retrying.with_call(word, operation, name)
            }
            _ => Next::Ended,
        }
    }

    /// Where it goes on with its link in hand, of whose messages so many have places.
    pub fn with_link(self, places: u32) -> Next
        requires step { TakesLink self }
        ensures program { (a : Context) → next_program a result ≡ after_link (point_program a self) places }
        ensures hand { link_behind result ≡ None }
    {
        match self {
            Point::Send(sending, SendStep::TakeHome(request, own, link)) => {
                sending.to(SendStep::TakeMessage(request, own, link, places))
            }
            Point::Write(writer, WriteStep::TakeHome(found)) => writer.walks(found, places),
            _ => Next::Ended,
        }
    }

    /// Where it goes on once its link is home.
    pub fn link_home(self) -> Next
        requires step { PutsHome self }
        ensures program { (a : Context) → next_program a result ≡ after_home (point_program a self) }
        ensures hand { link_behind result ≡ None }
    {
        let Point::Write(writer, _) = self else {
            return Next::Ended;
        };
        writer.to(WriteStep::EmptyHead)
    }

    /// Where it goes on by what its link answered to a put, and whether it took all that was left.
    pub fn put_answered(self, answer: Put, whole: bool) -> Next
        requires step { PutsPiece self }
        ensures program { (a : Context) → whole ≡ is_whole a.left answer → next_program (with_put answer a) result ≡ after_put (point_program a self) answer }
        ensures hand { link_behind result ≡ None }
    {
        let Point::Write(writer, WriteStep::Put(current, _)) = self else {
            return Next::Ended;
        };
        writer.to(current.put_answered(answer, whole))
    }

    /// Where it goes on by what its link answered to the question whether it takes more.
    pub fn ready_answered(self, answer: Ready) -> Next
        requires step { Asks self }
        ensures program { (a : Context) → next_program a result ≡ after_ready (point_program a self) answer }
        ensures hand { link_behind result ≡ None }
    {
        let Point::Write(writer, WriteStep::Ask(current)) = self else {
            return Next::Ended;
        };
        writer.to(current.ready_answered(answer))
    }
}
