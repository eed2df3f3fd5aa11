ghost use Rattle.std.specs.Prelude.{◌≡◌, ◌-◌, ◌≤◌, ◌+◌, None, Some};
ghost use Rattle.seat_programs.specs.CallAndRetryPrograms.{claim_id};
ghost use Rattle.call_points.specs.AsideCodeSteps.{after_word};
ghost use Rattle.seat_states.specs.ProgramAtPoint.{Context, client_on, call_program, attempt_program, next_program, framed, IsOneOfIds, IsCalling, HasLink, MayFindAt, link_behind};
ghost use Rattle.seat_states.specs.ProgramStepsOfMachine.{first_in, step_as};

use crate::name_step::NameStep;
use crate::point::{
    Attempt, AttemptStep, Author, CallStep, Continuation, Next, Point, ReleaseStep, SendStep,
    Sending, Step,
};
use crate::releasing::releasing;
use crate::slot_step::SlotStep;
use crate::table_step::TableStep;
use call_points::Aside;
use id_points::{AttemptNumber, CallId};
use sock_words::{AtWord, IdWord, Outcome, SocketId, Vref};

/// What a seat knows of the call in its hand: the number of its operation, that of the name of its first attempt, and how
/// many versions its id has.
#[derive(Clone, Copy)]
pub struct Calling {
    pub operation: u16,
    pub name: u16,
    pub range: u8,
}

/// A call is begun: this id slot is tried, or the one behind it.
fn claiming(ids: u16, slot: u16, socket: SocketId) -> Next
    ensures program { (a : Context) → a.sizes.ids ≡ ids → next_program a result ≡ claim_id (ids - slot) slot a.sizes.requests socket.0 a.asked (client_on a) }
    ensures hand { link_behind result ≡ None }
{
    if slot < ids {
        Next::Point(Point::Call(CallStep::ClaimId(slot, socket)))
    } else {
        Next::GaveBack
    }
}

impl CallStep {
    /// The next step of the call in hand.
    pub fn step(self, calling: Calling) -> Step
        ensures { (a : Context) → IsCalling a calling → first_in (call_program a self) ≡ Some (step_as a result) }
    {
        match self {
            CallStep::LoadName => Step::Table(TableStep::Name(NameStep::LoadName(calling.name))),
            CallStep::ClaimId(slot, _) => Step::Aside(Aside::ClaimId(slot)),
            CallStep::PutCall(slot, _) => Step::Aside(Aside::PutCall(slot)),
            CallStep::MakeId(slot, _) => Step::Aside(Aside::MakeId(slot, calling.range)),
            CallStep::StoreCall(id, _) => Step::Aside(Aside::StoreCall(calling.operation, id)),
        }
    }

    /// How the call in hand goes on, over so many id slots, by the word that its step found.
    pub fn next(self, calling: Calling, ids: u16, found: u64) -> Next
        requires few { ids ≤ 4096 }
        requires within { IsOneOfIds ids self }
        ensures program { (a : Context) → IsCalling a calling → a.sizes.ids ≡ ids → next_program (framed (Point.Call self) a) result ≡ after_word (call_program a self) found }
        ensures hand { link_behind result ≡ None }
    {
        match self {
            CallStep::LoadName => {
                if found == 0 {
                    Next::Said(calling.operation, Outcome::Unopened)
                } else {
                    claiming(ids, 0, SocketId(found - 1))
                }
            }
            CallStep::ClaimId(slot, socket) => {
                if found == 0 {
                    Next::Point(Point::Call(CallStep::PutCall(slot, socket)))
                } else {
                    claiming(ids, slot + 1, socket)
                }
            }
            CallStep::PutCall(slot, socket) => {
                Next::Point(Point::Call(CallStep::MakeId(slot, socket)))
            }
            CallStep::MakeId(slot, socket) => {
                let id = CallId::pack(slot, IdWord(found).first());
                Next::Point(Point::Call(CallStep::StoreCall(id, socket)))
            }
            CallStep::StoreCall(id, socket) => {
                let attempt = Attempt {
                    operation: calling.operation,
                    id,
                    number: AttemptNumber::new(0),
                };
                attempt.to(socket, AttemptStep::AddRef)
            }
        }
    }
}

impl Attempt {
    /// An attempt over this socket comes to this step.
    pub fn to(self, socket: SocketId, step: AttemptStep) -> Next
        ensures { result ≡ Next.Point (Point.Attempt self socket step) }
    {
        Next::Point(Point::Attempt(self, socket, step))
    }

    /// It has told where it goes, and looks at the word of its socket.
    fn looks(self, socket: SocketId) -> Next
        ensures { result ≡ Next.Point (Point.Send (record { author = Author.Attempt self; id = socket }) SendStep.Look) }
    {
        let sending = Sending {
            author: Author::Attempt(self),
            id: socket,
        };
        sending.to(SendStep::Look)
    }
}

impl AttemptStep {
    /// The next step of an attempt over this socket.
    pub fn step(self, attempt: Attempt, socket: SocketId) -> Step
        requires { HasLink self }
        ensures { (a : Context) → first_in (attempt_program a attempt socket self) ≡ Some (step_as a result) }
    {
        match self {
            AttemptStep::AddRef => Step::Table(TableStep::Slot(SlotStep::AddRef(socket))),
            AttemptStep::FindLink => Step::Table(TableStep::Slot(SlotStep::FindLink(socket))),
            AttemptStep::StoreAt(link) => {
                let id = attempt.id;
                let word = AtWord::pack(id.first(), id.slot(), link, attempt.number.get());
                Step::Aside(Aside::StoreAt(attempt.operation, word))
            }
        }
    }

    /// How an attempt goes on by the word that its step found.
    pub fn next(self, attempt: Attempt, socket: SocketId, found: u64) -> Next
        requires { MayFindAt self found }
        ensures program { (a : Context) → next_program a result ≡ after_word (attempt_program a attempt socket self) found }
        ensures hand { link_behind result ≡ None }
    {
        match self {
            AttemptStep::AddRef => {
                let word = Vref(found);
                if word.version() == socket.version() {
                    attempt.to(socket, AttemptStep::FindLink)
                } else {
                    releasing(
                        socket.slot(),
                        Continuation::Unreached(attempt),
                        ReleaseStep::SubRef,
                    )
                }
            }
            AttemptStep::FindLink => attempt.to(socket, AttemptStep::StoreAt(found as u16)),
            AttemptStep::StoreAt(_) => attempt.looks(socket),
        }
    }
}
