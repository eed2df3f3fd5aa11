ghost use Rattle.std.specs.Prelude.{◌≡◌, ◌+◌, Bool, option_map, Some, None};
ghost use Rattle.sock_words.specs.PackedWords.{socket_id};
ghost use Rattle.seat_programs.specs.Programs.{Program};
ghost use Rattle.seat_states.specs.ProgramAtPoint.{Context, open_program, seek_program, fail_program, release_on, point_program, IsCalling, HasInHand, HasLinkAt};
ghost use Rattle.seat_states.specs.ProgramStepsOfMachine.{OfTable, step_of, first_in, step_as, kind_of_first};

use crate::calling::Calling;
use crate::link_step::LinkStep;
use crate::name_step::NameStep;
use crate::point::{Aim, FailStep, Failing, OpenStep, Opening, Point, ReleaseStep, SeekStep, Step};
use crate::slot_step::SlotStep;
use crate::table_step::TableStep;
use call_points::Aside;
use sock_words::{Kind, NO_SOCKET, SocketId};

/// The word that names a life: its id, and 1.
fn socket_word(version: u32, slot: u16) -> u64
    ensures { result ≡ socket_id version slot + 1 }
{
    SocketId::pack(version, u32::from(slot)).0 + 1
}

impl Opening {
    /// The next step of an `open`.
    fn table_step(self, step: OpenStep) -> TableStep
        ensures { (a : Context) → first_in (open_program a self step) ≡ Some (OfTable (step_of result)) }
    {
        match step {
            OpenStep::Claim(slot) => TableStep::Slot(SlotStep::ClaimSlot(u32::from(slot))),
            OpenStep::StoreLink(slot) => TableStep::Slot(SlotStep::StoreLink(
                u32::from(slot),
                self.link,
            )),
            OpenStep::ResetHead(slot) => TableStep::Slot(SlotStep::ResetHead(
                u32::from(slot),
                self.link,
            )),
            OpenStep::ClearCode(slot) => TableStep::Slot(SlotStep::ClearCode(
                u32::from(slot),
                self.link,
            )),
            OpenStep::CreateLife(slot) => TableStep::Slot(SlotStep::CreateLife(
                u32::from(slot),
                self.link,
            )),
            OpenStep::StoreOpen(slot, version) => {
                TableStep::Name(NameStep::StoreOpen(self.operation, socket_word(version, slot)))
            }
            OpenStep::StoreName(slot, version) => {
                TableStep::Name(NameStep::StoreName(self.name, socket_word(version, slot)))
            }
            OpenStep::TakeLink => TableStep::Link(LinkStep::TakeLink(self.link)),
            OpenStep::FinishLink => TableStep::Link(LinkStep::FinishLink(self.link)),
            OpenStep::PutLink => TableStep::Link(LinkStep::PutLink(self.link)),
            OpenStep::StoreNone => TableStep::Name(NameStep::StoreOpen(self.operation, NO_SOCKET)),
        }
    }
}

impl Aim {
    /// The next step of the way to a life.
    fn table_step(self, step: SeekStep) -> TableStep
        ensures { (a : Context) → first_in (seek_program a self step) ≡ Some (OfTable (step_of result)) }
    {
        match step {
            SeekStep::AddRef(id) => TableStep::Slot(SlotStep::AddRef(id)),
            SeekStep::Load => match self {
                Aim::Hold { name, .. } | Aim::Send { name, .. } | Aim::Fail { name, .. } => {
                    TableStep::Name(NameStep::LoadName(name))
                }
                Aim::End { operation } => TableStep::Name(NameStep::LoadOpen(operation)),
            },
        }
    }
}

impl Failing {
    /// The next step of a failing.
    fn table_step(self, step: FailStep) -> TableStep
        ensures { (a : Context) → first_in (fail_program a self step) ≡ Some (OfTable (step_of result)) }
    {
        match step {
            FailStep::SetOdd => TableStep::Slot(SlotStep::SetOdd(self.id.slot())),
            FailStep::StoreCode(_) => {
                TableStep::Slot(SlotStep::StoreCode(self.id.slot(), self.id.version(), self.code))
            }
            FailStep::ReleaseFirst(_) => TableStep::Slot(SlotStep::SubRef(self.id.slot())),
        }
    }
}

impl ReleaseStep {
    /// The next step of a release.
    pub fn table_step(self, slot: u32) -> TableStep
        ensures { (k : Bool → Program) → first_in (release_on slot k self) ≡ Some (OfTable (step_of result)) }
    {
        match self {
            ReleaseStep::SubRef => TableStep::Slot(SlotStep::SubRef(slot)),
            ReleaseStep::Recycle(from) => TableStep::Slot(SlotStep::Recycle(slot, from)),
            ReleaseStep::LoadLink(version) => TableStep::Slot(SlotStep::LoadLink(slot, version)),
            ReleaseStep::TakeLink(_, link) => TableStep::Link(LinkStep::TakeLink(link)),
            ReleaseStep::FinishLink(_, link) => TableStep::Link(LinkStep::FinishLink(link)),
            ReleaseStep::PutLink(_, link) => TableStep::Link(LinkStep::PutLink(link)),
            ReleaseStep::FreeSlot => TableStep::Slot(SlotStep::FreeSlot(slot)),
        }
    }
}

impl Point {
    /// The next step, if there is one, with this call in hand.
    pub fn step(&self, calling: Calling) -> Option<Step>
        requires { HasLinkAt self.now }
        ensures { (a : Context) → IsCalling a calling → HasInHand a self.now → option_map (step_as a) result ≡ first_in (point_program a self.now) }
    {
        match *self {
            Point::Rest => None,
            Point::Open(opening, step) => Some(Step::Table(opening.table_step(step))),
            Point::Seek(aim, step) => Some(Step::Table(aim.table_step(step))),
            Point::Fail(failing, step) => Some(Step::Table(failing.table_step(step))),
            Point::Release(slot, _, step) => Some(Step::Table(step.table_step(slot))),
            Point::Send(sending, step) => Some(sending.step(step)),
            Point::Write(writer, step) => Some(writer.step(step)),
            Point::Call(step) => Some(step.step(calling)),
            Point::Attempt(attempt, socket, step) => Some(step.step(attempt, socket)),
            Point::Post(error, _, step) => Some(Step::Aside(error.post_step(step))),
            Point::Decide(error, _, step) => Some(Step::Aside(error.decide_step(step))),
            Point::Retry(retrying, step) => Some(retrying.step(step)),
            Point::Expire(_, call) => Some(Step::Aside(Aside::LoadCall(call))),
            Point::Join(_, step) => Some(step.step()),
        }
    }
}

impl Step {
    /// Its kind, as a schedule names it.
    pub fn kind(&self) -> Kind
        ensures { (a : Context) → result ≡ kind_of_first (step_as a self.now) }
    {
        match *self {
            Step::Table(step) => step.kind(),
            Step::Aside(aside) => aside.kind(),
            Step::PutMessage(_, _) => Kind::M1,
            Step::TakeMessage(_) => Kind::M2,
            Step::TakeHome(_) => Kind::L1,
            Step::PutHome(_, _) => Kind::L2,
            Step::PutBytes(_, _, _) => Kind::W1,
            Step::AskReady(_) => Kind::W2,
        }
    }
}
