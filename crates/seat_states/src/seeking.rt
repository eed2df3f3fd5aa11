ghost use Rattle.std.specs.Prelude.{◌≡◌, None};
ghost use Rattle.sock_words.specs.PackedWords.{socket_id_slot};
ghost use Rattle.call_points.specs.AsideCodeSteps.{after_word};
ghost use Rattle.seat_states.specs.ProgramAtPoint.{Context, seek_program, fail_program, failed_then, gone_then, has_life, unopened_program, reached_program, next_program, link_behind};

use crate::point::{
    Aim, Author, Continuation, FailStep, Failing, Next, Point, ReleaseStep, SeekStep, SendStep,
    Sending,
};
use crate::releasing::releasing;
use sock_words::{EEOF, NO_SOCKET, Outcome, SocketId, Vref};

impl Failing {
    /// What follows the failing of a life that found this word.
    fn then(self, found: Vref) -> Continuation
        ensures { result ≡ failed_then self.operation found.0 }
    {
        match self.operation {
            Some(operation) => Continuation::Failed { operation, found },
            None => Continuation::Ended,
        }
    }

    /// The release of the life behind its failing, which found this word.
    fn release(self, found: Vref) -> Next
        ensures { result ≡ Next.Point (Point.Release (socket_id_slot self.id.0) (failed_then self.operation found.0) ReleaseStep.SubRef) }
    {
        releasing(self.id.slot(), self.then(found), ReleaseStep::SubRef)
    }

    /// Where the failing of a life goes on, by the word that its step found.
    pub fn next(self, step: FailStep, found: u64) -> Next
        ensures program { (a : Context) → next_program a result ≡ after_word (fail_program a self step) found }
        ensures hand { link_behind result ≡ None }
    {
        match step {
            FailStep::SetOdd => {
                let word = Vref(found);
                if word.is_failed() {
                    self.release(word)
                } else {
                    Next::Point(Point::Fail(self, FailStep::StoreCode(word)))
                }
            }
            FailStep::StoreCode(word) => Next::Point(Point::Fail(
                self,
                FailStep::ReleaseFirst(word),
            )),
            FailStep::ReleaseFirst(word) => self.release(word),
        }
    }
}

impl Aim {
    /// Where it goes on without a life under the name.
    fn unopened(self) -> Next
        ensures program { (a : Context) → next_program a result ≡ unopened_program a self }
        ensures hand { link_behind result ≡ None }
    {
        match self {
            Aim::Hold { operation, .. }
            | Aim::Send { operation, .. }
            | Aim::Fail { operation, .. } => Next::Said(operation, Outcome::Unopened),
            Aim::End { .. } => Next::Ended,
        }
    }

    /// Whether this word has the id of a life.
    fn is_id(self, word: u64) -> bool
        ensures { result ≡ has_life self word }
    {
        match self {
            Aim::Hold { .. } | Aim::Send { .. } | Aim::Fail { .. } => word != 0,
            Aim::End { .. } => word != 0 && word != NO_SOCKET,
        }
    }

    /// Where it goes on with a reference to the life.
    fn reached(self, id: SocketId) -> Next
        ensures program { (a : Context) → next_program a result ≡ reached_program a self id }
        ensures hand { link_behind result ≡ None }
    {
        match self {
            Aim::Hold { operation, name } => Next::Held(operation, name, id),
            Aim::Send { operation, .. } => {
                let author = Author::Send(operation);
                Next::Point(Point::Send(Sending { author, id }, SendStep::Look))
            }
            Aim::Fail {
                operation,
                code,
                ..
            } => {
                let failing = Failing {
                    id,
                    code,
                    operation: Some(operation),
                };
                Next::Point(Point::Fail(failing, FailStep::SetOdd))
            }
            Aim::End { .. } => {
                let failing = Failing {
                    id,
                    code: EEOF,
                    operation: None,
                };
                Next::Point(Point::Fail(failing, FailStep::SetOdd))
            }
        }
    }

    /// What follows the release of a 1 that was added to the word of another version.
    fn gone(self, found: Vref) -> Continuation
        ensures { result ≡ gone_then self found.0 }
    {
        match self {
            Aim::Hold { operation, .. }
            | Aim::Send { operation, .. }
            | Aim::Fail { operation, .. } => Continuation::Gone { operation, found },
            Aim::End { .. } => Continuation::Ended,
        }
    }

    /// Where the way to a life goes on, by the word that its step found.
    pub fn next(self, step: SeekStep, found: u64) -> Next
        ensures program { (a : Context) → next_program a result ≡ after_word (seek_program a self step) found }
        ensures hand { link_behind result ≡ None }
    {
        match step {
            SeekStep::Load => {
                if self.is_id(found) {
                    let id = SocketId(found - 1);
                    Next::Point(Point::Seek(self, SeekStep::AddRef(id)))
                } else {
                    self.unopened()
                }
            }
            SeekStep::AddRef(id) => {
                let word = Vref(found);
                if word.version() == id.version() {
                    self.reached(id)
                } else {
                    releasing(id.slot(), self.gone(word), ReleaseStep::SubRef)
                }
            }
        }
    }
}
