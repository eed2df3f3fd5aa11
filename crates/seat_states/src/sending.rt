ghost use Rattle.std.specs.Prelude.{◌≡◌, ◌-◌, ◌≤◌, ℕ, List, None, Some};
ghost use Rattle.sock_words.specs.PackedWords.{socket_id_slot};
ghost use Rattle.call_points.specs.AsideCodeSteps.{after_word};
ghost use Rattle.seat_states.specs.ProgramAtPoint.{Context, place_by, claims_program, full_program, failed_look, look_program, sent_then, send_program, first_program, next_program, after_message, with_message, IsOneOfRequests, MayFindOf, SendsByWord, link_behind};
ghost use Rattle.seat_states.specs.ProgramStepsOfMachine.{first_in, step_as};

use crate::asking::posting;
use crate::chain_step::ChainStep;
use crate::point::{
    AfterStep, Author, Continuation, Holder, MessageInHand, Next, Point, ReleaseStep, SendStep,
    Sending, Step, WriteStep, Writer,
};
use crate::releasing::releasing;
use crate::slot_step::SlotStep;
use crate::table_step::TableStep;
use sock_words::{EFAILEDSOCKET, EREQUESTS, Ticket, Vref};

impl Author {
    /// What follows the release of the life behind its message, which was accepted.
    pub fn sent(self) -> Continuation
        ensures { result ≡ sent_then self }
    {
        match self {
            Author::Send(operation) => Continuation::Sent { operation },
            Author::Attempt(_) => Continuation::GaveBack,
        }
    }

    /// The number of its place word: of a `send` the first of the operation's eight, of an attempt that of its number.
    pub fn place(self) -> u32
        ensures { result ≡ place_by self }
    {
        match self {
            Author::Send(operation) => 8 * u32::from(operation),
            Author::Attempt(attempt) => {
                8 * u32::from(attempt.operation) + u32::from(attempt.number.get())
            }
        }
    }
}

impl Sending {
    /// It comes to this step.
    pub fn to(self, step: SendStep) -> Next
        ensures { result ≡ Next.Point (Point.Send self step) }
    {
        Next::Point(Point::Send(self, step))
    }

    /// Its next step.
    pub fn step(self, step: SendStep) -> Step
        ensures { (a : Context) → first_in (send_program a self step) ≡ Some (step_as a result) }
    {
        let slot = self.id.slot();
        match step {
            SendStep::Look => Step::Table(TableStep::Slot(SlotStep::LookWord(self.id))),
            SendStep::Claim(request) => Step::Table(TableStep::Chain(ChainStep::ClaimRequest(
                self.id, request,
            ))),
            SendStep::PutMessage(request, _) => Step::PutMessage(request, self.author),
            SendStep::Unconnect(request, _) => Step::Table(TableStep::Chain(ChainStep::Unconnect(
                request,
            ))),
            SendStep::SwapHead(_, own) => Step::Table(TableStep::Chain(ChainStep::SwapHead(
                slot, own,
            ))),
            SendStep::Connect(request, before) => Step::Table(TableStep::Chain(ChainStep::Connect(
                request, before,
            ))),
            SendStep::FindLink(_, _) => Step::Table(TableStep::Slot(SlotStep::FindLink(self.id))),
            SendStep::TakeHome(_, _, link) => Step::TakeHome(link),
            SendStep::TakeMessage(request, _, _, _) => Step::TakeMessage(request),
        }
    }

    /// It has come to this of so many requests.
    pub fn try_request(self, requests: u16, request: u16) -> Next
        ensures program { (a : Context) → a.sizes.requests ≡ requests → next_program a result ≡ claims_program a self (requests - request) request }
        ensures hand { link_behind result ≡ None }
    {
        if request < requests {
            self.to(SendStep::Claim(request))
        } else {
            self.full()
        }
    }

    /// Each request was found taken.
    fn full(self) -> Next
        ensures program { (a : Context) → next_program a result ≡ full_program a self.author self.id.0 }
        ensures hand { link_behind result ≡ None }
    {
        let slot = self.id.slot();
        match self.author {
            Author::Send(operation) => {
                releasing(slot, Continuation::Full { operation }, ReleaseStep::SubRef)
            }
            Author::Attempt(attempt) => {
                posting(attempt.error(EREQUESTS), AfterStep::Attempt(Some(slot)))
            }
        }
    }

    /// Its life was found failed, by this word.
    fn refused(self, found: Vref) -> Next
        ensures program { (a : Context) → next_program a result ≡ failed_look a self.author self.id.0 found.0 }
        ensures hand { link_behind result ≡ None }
    {
        let slot = self.id.slot();
        match self.author {
            Author::Send(operation) => {
                releasing(
                    slot,
                    Continuation::Gone { operation, found },
                    ReleaseStep::SubRef,
                )
            }
            Author::Attempt(attempt) => {
                posting(attempt.error(EFAILEDSOCKET), AfterStep::Attempt(Some(slot)))
            }
        }
    }

    /// Where it goes on behind its look.
    fn looked(self, requests: u16, found: Vref) -> Next
        ensures program { (a : Context) → a.sizes.requests ≡ requests → next_program a result ≡ after_word (look_program a self.author self.id.0) found.0 }
        ensures hand { link_behind result ≡ None }
    {
        if found.is_failed() {
            self.refused(found)
        } else {
            self.try_request(requests, 0)
        }
    }

    /// Where it goes on behind the head's exchange, which found this word.
    fn swapped(self, request: u16, own: Ticket, found: Ticket) -> Next
        ensures program { (a : Context) → next_program a result ≡ after_word (send_program a self (SendStep.SwapHead request own)) found.0 }
        ensures hand { link_behind result ≡ None }
    {
        if found.idle() {
            self.to(SendStep::FindLink(request, own))
        } else {
            self.to(SendStep::Connect(request, found))
        }
    }

    /// Behind the message, which was accepted.
    fn sent(self) -> Next
        ensures { result ≡ Next.Point (Point.Release (socket_id_slot self.id.0) (sent_then self.author) ReleaseStep.SubRef) }
    {
        releasing(self.id.slot(), self.author.sent(), ReleaseStep::SubRef)
    }

    /// Where it goes on, over a table of so many requests, by the word that its step found.
    pub fn next(self, requests: u16, step: SendStep, found: u64) -> Next
        requires few { requests ≤ 4096 }
        requires within { IsOneOfRequests requests step }
        requires word { MayFindOf step found }
        requires by_word { SendsByWord step }
        ensures program { (a : Context) → a.sizes.requests ≡ requests → next_program a result ≡ after_word (send_program a self step) found }
        ensures hand { link_behind result ≡ None }
    {
        match step {
            SendStep::Look => self.looked(requests, Vref(found)),
            SendStep::Claim(request) => {
                if found % 2 == 0 {
                    let own = Ticket::pack(false, found / 2, request);
                    self.to(SendStep::PutMessage(request, own))
                } else {
                    self.try_request(requests, request + 1)
                }
            }
            SendStep::PutMessage(request, own) => self.to(SendStep::Unconnect(request, own)),
            SendStep::Unconnect(request, own) => self.to(SendStep::SwapHead(request, own)),
            SendStep::SwapHead(request, own) => { self.swapped(request, own, Ticket(found)) }
            SendStep::FindLink(request, own) => {
                self.to(SendStep::TakeHome(request, own, found as u16))
            }
            SendStep::Connect(_, _) | SendStep::TakeHome(_, _, _) => self.sent(),
            SendStep::TakeMessage(_, _, _, _) => self.sent(),
        }
    }

    /// It found an idle head, and has the message of this ticket and author in hand, and the link.
    pub fn writes(self, own: Ticket, link: u16, places: u32, author: Author) -> Next
        ensures program { (a : Context) (request : ℕ) (parts bytes : List ℕ) → next_program (with_message parts bytes a) result ≡ after_message (first_program a self request own.0 link places) author parts bytes }
        ensures hand { link_behind result ≡ None }
    {
        let writer = Writer {
            author: self.author,
            holder: Holder {
                id: self.id,
                link,
                last: own,
                places,
            },
        };
        let current = MessageInHand {
            ticket: own,
            author,
        };
        writer.to(WriteStep::FirstLook(current))
    }
}
