ghost use Rattle.std.specs.Prelude.{◌≡◌, ◌==◌, ◌+◌, ◌%◌, ◌<◌, ◌≤◌, if◌then◌else◌, ℕ, List, None, Some, Bool, false};
ghost use Rattle.sock_words.specs.PackedWords.{vref_version};
ghost use Rattle.seat_programs.specs.SendAndWritePrograms.{one_more, freed, passed_telling};
ghost use Rattle.sock_io.specs.declared.link.Put.{Put};
ghost use Rattle.call_points.specs.AsideCodeSteps.{after_word};
ghost use Rattle.seat_states.specs.ProgramAtPoint.{Context, write_program, written_program, holder_of, next_message, told, behind_drop, freed_program, taken_again, next_program, after_message, after_link, after_put, after_ready, with_message, with_put, is_whole, HasPlaceLeft, MayFindWriting, TellsCode, WritesByWord, link_behind};
ghost use Rattle.seat_states.specs.ProgramStepsOfMachine.{first_in, step_as};

use crate::asking::posting;
use crate::chain_step::ChainStep;
use crate::place_step::PlaceStep;
use crate::point::{
    AfterStep, Author, Holder, MessageInHand, Next, Point, ReleaseStep, Step, WriteStep, Writer,
};
use crate::releasing::releasing;
use crate::slot_step::SlotStep;
use crate::table_step::TableStep;
use call_points::OnCall;
use sock_io::{Put, Ready};
use sock_words::{EFAILEDSOCKET, Ticket, UNCONNECTED, Vref};

/// The last generation of a request, which isn't given back then.
const LAST_GENERATION: u64 = 140_737_488_355_327;

impl MessageInHand {
    /// What follows a put into the link, by its answer and by whether it took all that was left: a whole message gets
    /// its place; before what is left is put the socket is looked at; behind `Again` the link is asked whether it takes more;
    /// where it failed, the socket is set failed.
    pub fn put_answered(self, answer: Put, whole: bool) -> WriteStep
        ensures { (a : Context) (w : Writer) (asked : Bool) → whole ≡ is_whole a.left answer → write_program (with_put answer a) w result ≡ after_put (write_program a w (WriteStep.Put self asked)) answer }
    {
        match answer {
            Put::Took(_) => {
                if whole {
                    WriteStep::StorePlace(self)
                } else {
                    WriteStep::Look(self, false)
                }
            }
            Put::Again => WriteStep::Ask(self),
            Put::Failed => WriteStep::SetOdd(self),
        }
    }

    /// What follows the question whether the link takes more.
    pub fn ready_answered(self, answer: Ready) -> WriteStep
        ensures { (a : Context) (w : Writer) → write_program a w result ≡ after_ready (write_program a w (WriteStep.Ask self)) answer }
    {
        match answer {
            Ready::Now => WriteStep::Look(self, true),
            Ready::NotYet => WriteStep::Ask(self),
            Ready::Failed => WriteStep::SetOdd(self),
        }
    }
}

impl Holder {
    /// One place more was given.
    fn one_more(self) -> Holder
        requires { self.places < 4294967295 }
        ensures { holder_of result ≡ one_more (holder_of self) }
    {
        Holder {
            places: self.places + 1,
            ..self
        }
    }
}

impl Writer {
    /// Whoever writes comes to this step.
    pub fn to(self, step: WriteStep) -> Next
        ensures { result ≡ Next.Point (Point.Write self step) }
    {
        Next::Point(Point::Write(self, step))
    }

    /// It has the message of this ticket and author in hand.
    pub fn writes(self, ticket: Ticket, author: Author) -> Next
        ensures program { (a : Context) (parts bytes : List ℕ) → next_program (with_message parts bytes a) result ≡ after_message (next_message a self (holder_of self.holder) ticket.0) author parts bytes }
        ensures hand { link_behind result ≡ None }
    {
        self.to(WriteStep::Look(MessageInHand { ticket, author }, false))
    }

    /// It has noted the messages up to this ticket.
    pub fn up_to(self, top: Ticket) -> Writer
        ensures author { result.author ≡ self.author }
        ensures holder { result.holder ≡ record self.holder { last = top } }
    {
        Writer {
            holder: Holder {
                last: top,
                ..self.holder
            },
            ..self
        }
    }

    /// It has its link in hand again, of whose messages so many have places, and walks from the ticket found in the head.
    pub fn walks(self, found: Ticket, places: u32) -> Next
        ensures program { (a : Context) → next_program a result ≡ after_link (taken_again a self found.0) places }
        ensures hand { link_behind result ≡ None }
    {
        let writer = Writer {
            holder: Holder {
                places,
                ..self.holder
            },
            ..self
        };
        writer.to(WriteStep::Reversing(found, found, Ticket(0)))
    }

    /// The next step of whoever writes.
    pub fn step(self, step: WriteStep) -> Step
        ensures { (a : Context) → first_in (write_program a self step) ≡ Some (step_as a result) }
    {
        let Holder {
            id,
            link,
            last,
            places,
        } = self.holder;
        match step {
            WriteStep::FirstLook(_) | WriteStep::Look(_, _) => Step::Table(TableStep::Slot(
                SlotStep::LookWord(id),
            )),
            WriteStep::Put(current, asked) => Step::PutBytes(link, asked, current.author),
            WriteStep::Ask(_) => Step::AskReady(link),
            WriteStep::SetOdd(_) => Step::Table(TableStep::Slot(SlotStep::SetOdd(id.slot()))),
            WriteStep::StoreCode(_) => {
                Step::Table(TableStep::Slot(SlotStep::StoreCode(
                    id.slot(),
                    id.version(),
                    EFAILEDSOCKET,
                )))
            }
            WriteStep::ReleaseFirst(_) => Step::Table(TableStep::Slot(SlotStep::SubRef(id.slot()))),
            WriteStep::StorePlace(current) => {
                Step::Table(TableStep::Place(PlaceStep::StorePlace(
                    current.author.place(),
                    link,
                    places,
                )))
            }
            WriteStep::LoadCode(_) => Step::Table(TableStep::Slot(SlotStep::LoadCode(id))),
            WriteStep::DropPlace(current, _) => {
                Step::Table(TableStep::Place(PlaceStep::DropPlace(
                    current.author.place(),
                    link,
                    places,
                )))
            }
            WriteStep::ReadNext(now, _) => Step::Table(TableStep::Chain(ChainStep::ReadNext(
                now.request(),
            ))),
            WriteStep::Free(now, _, _) => {
                Step::Table(TableStep::Chain(ChainStep::FreeRequest(
                    now.request(),
                    now.generation(),
                )))
            }
            WriteStep::TakeMessage(next) => Step::TakeMessage(next.request()),
            WriteStep::PutHome => Step::PutHome(link, places),
            WriteStep::EmptyHead => Step::Table(TableStep::Chain(ChainStep::EmptyHead(
                id.slot(),
                last,
            ))),
            WriteStep::TakeHome(_) => Step::TakeHome(link),
            WriteStep::Reversing(_, at, _) => Step::Table(TableStep::Chain(ChainStep::ReadNext(
                at.request(),
            ))),
            WriteStep::ReverseNext(_, at, after, _) => Step::Table(TableStep::Chain(
                ChainStep::ReverseNext(at.request(), after),
            )),
            WriteStep::TakeFirst(_, at) => Step::TakeMessage(at.request()),
        }
    }

    /// What follows where a word of its socket was found: this step where the socket was failed, and that one where it lives.
    fn by_life(self, found: u64, failed: WriteStep, lives: WriteStep) -> Next
        ensures { result ≡ Next.Point (Point.Write self (if vref_version found % 2 == 0 then lives else failed)) }
    {
        if Vref(found).is_failed() {
            self.to(failed)
        } else {
            self.to(lives)
        }
    }

    /// What follows once the request of this ticket needn't be given back: the next message, or the head.
    pub fn freed(self, next: Option<Ticket>) -> Next
        ensures program { (a : Context) → next_program a result ≡ freed_program a self next }
        ensures hand { link_behind result ≡ None }
    {
        match next {
            Some(next) => self.to(WriteStep::TakeMessage(next)),
            None => self.to(WriteStep::PutHome),
        }
    }

    /// The call of a dropped message is told, if it is one of a call, and then the next message follows, or the head.
    fn tells(self, next: Option<Ticket>, told: Option<OnCall>) -> Next
        ensures program { (a : Context) → next_program a result ≡ behind_drop a self told next }
        ensures hand { link_behind result ≡ None }
    {
        match told {
            Some(error) => posting(error, AfterStep::Drop(self, next)),
            None => self.freed(next),
        }
    }

    /// The request of this ticket is given back, but for one of the last generation.
    fn gives_back(self, now: Ticket, next: Option<Ticket>, told: Option<OnCall>) -> Next
        ensures program { (a : Context) → next_program a result ≡ freed now.0 (behind_drop a self told next) }
        ensures hand { link_behind result ≡ None }
    {
        if now.generation() == LAST_GENERATION {
            self.tells(next, told)
        } else {
            self.to(WriteStep::Free(now, next, told))
        }
    }

    /// One place more was given.
    fn placed(self) -> Writer
        requires { self.holder.places < 4294967295 }
        ensures author { result.author ≡ self.author }
        ensures holder { holder_of result.holder ≡ one_more (holder_of self.holder) }
    {
        Writer {
            holder: self.holder.one_more(),
            ..self
        }
    }

    /// Whether the message of this ticket is the last that it has to write.
    fn is_last(self, now: Ticket) -> bool
        ensures { result ≡ (now.0 == self.holder.last.0) }
    {
        now == self.holder.last
    }

    /// The message of this ticket has its place, and this call is to be told that it was dropped.
    fn passed(self, now: Ticket, call: Option<OnCall>) -> Next
        requires { self.holder.places < 4294967295 }
        ensures program { (a : Context) → next_program a result ≡ passed_telling (one_more (holder_of self.holder)) now.0 (told call) (written_program a self) }
        ensures hand { link_behind result ≡ None }
    {
        let writer = self.placed();
        if self.is_last(now) {
            writer.gives_back(now, None, call)
        } else {
            writer.to(WriteStep::ReadNext(now, call))
        }
    }

    /// What follows the place of a message that was dropped with this code.
    fn dropped(self, current: MessageInHand, code: u16) -> Next
        requires places { self.holder.places < 4294967295 }
        requires code { code ≤ 4095 }
        ensures program { (a : Context) (found : ℕ) → next_program a result ≡ after_word (write_program a self (WriteStep.DropPlace current code)) found }
        ensures hand { link_behind result ≡ None }
    {
        self.passed(current.ticket, current.author.told(code))
    }

    /// What follows a try of the head: where it is idle now all is written, and else a newer ticket was found there.
    fn emptied(self, found: Ticket) -> Next
        ensures program { (a : Context) → next_program a result ≡ after_word (write_program a self WriteStep.EmptyHead) found.0 }
        ensures hand { link_behind result ≡ None }
    {
        if found == self.holder.last {
            releasing(
                self.holder.id.slot(),
                self.author.sent(),
                ReleaseStep::SubRef,
            )
        } else {
            self.to(WriteStep::TakeHome(found))
        }
    }

    /// What follows on a walk once a next word was turned; before that it had the last of these tickets.
    fn turned(self, top: Ticket, at: Ticket, before: Ticket) -> Next
        ensures program { (a : Context) (after : Ticket) (found : ℕ) → next_program a result ≡ after_word (write_program a self (WriteStep.ReverseNext top at after before)) found }
        ensures hand { link_behind result ≡ None }
    {
        if before == self.holder.last {
            self.to(WriteStep::TakeFirst(top, at))
        } else {
            self.to(WriteStep::Reversing(top, before, at))
        }
    }

    /// What follows on a walk once the next word was read, which may not be connected yet.
    fn walked(self, top: Ticket, at: Ticket, after: Ticket, found: u64) -> Next
        ensures program { (a : Context) → next_program a result ≡ after_word (write_program a self (WriteStep.Reversing top at after)) found }
        ensures hand { link_behind result ≡ None }
    {
        if found == UNCONNECTED {
            self.to(WriteStep::Reversing(top, at, after))
        } else {
            self.to(WriteStep::ReverseNext(top, at, after, Ticket(found)))
        }
    }

    /// Where whoever writes goes on by the word that its step found.
    pub fn next(self, step: WriteStep, found: u64) -> Next
        requires room { HasPlaceLeft self step }
        requires word { MayFindWriting step found }
        requires told { TellsCode step }
        requires by_word { WritesByWord step }
        ensures program { (a : Context) → next_program a result ≡ after_word (write_program a self step) found }
        ensures hand { link_behind result ≡ None }
    {
        match step {
            // Nothing is dropped before the loop looked again.
            WriteStep::FirstLook(current) => self.by_life(
                found,
                WriteStep::Look(current, false),
                WriteStep::Put(current, false),
            ),
            WriteStep::Look(current, asked) => self.by_life(
                found,
                WriteStep::LoadCode(current),
                WriteStep::Put(current, asked),
            ),
            // Who made the version odd stores the code.
            WriteStep::SetOdd(current) => self.by_life(
                found,
                WriteStep::Look(current, false),
                WriteStep::StoreCode(current),
            ),
            WriteStep::StoreCode(current) => self.to(WriteStep::ReleaseFirst(current)),
            WriteStep::ReleaseFirst(current) => self.to(WriteStep::Look(current, false)),
            WriteStep::LoadCode(current) => self.to(WriteStep::DropPlace(current, found as u16)),
            WriteStep::StorePlace(current) => self.passed(current.ticket, None),
            WriteStep::DropPlace(current, code) => self.dropped(current, code),
            WriteStep::ReadNext(now, told) => { self.gives_back(now, Some(Ticket(found)), told) }
            WriteStep::Free(_, next, told) => self.tells(next, told),
            WriteStep::EmptyHead => self.emptied(Ticket(found)),
            WriteStep::Reversing(top, at, after) => self.walked(top, at, after, found),
            WriteStep::ReverseNext(top, at, _, before) => self.turned(top, at, before),
            WriteStep::Put(_, _)
            | WriteStep::Ask(_)
            | WriteStep::TakeMessage(_)
            | WriteStep::PutHome
            | WriteStep::TakeHome(_)
            | WriteStep::TakeFirst(_, _) => Next::Ended,
        }
    }
}
