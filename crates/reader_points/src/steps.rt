ghost use Rattle.std.specs.Prelude.{◌≡◌, option_map, Some};
ghost use Rattle.id_points.specs.IdsAndAttemptNumbers.{id_of};
ghost use Rattle.call_points.specs.AsideCodeSteps.{aside_in};
ghost use Rattle.call_points.specs.AsideCodeSteps as asides;
ghost use Rattle.seat_states.specs.ProgramStepsOfMachine.{OfTable, step_of, first_in};
ghost use Rattle.reader_points.specs.ReaderPoints.{Context, close_program, answer_program, point_program, code_by, room, GoesBy};
ghost use Rattle.reader_points.specs.ReaderCodeSteps.{step_as};

use crate::point::{AnswerStep, Behind, ByteCount, CloseStep, Closing, ReadPoint, ReadStep};
use call_points::Aside;
use id_points::CallId;
use seat_states::{NameStep, SlotStep, TableStep};
use sock_words::{EEOF, ERESPONSE};

impl Closing {
    /// The code with which the reading ends.
    pub fn code(self) -> u16
        ensures code { result ≡ code_by self.fault }
    {
        if self.fault { ERESPONSE } else { EEOF }
    }
}

impl CloseStep {
    /// The next step of the failing of a reader's socket.
    fn table_step(self, closing: Closing) -> TableStep
        ensures { (a : Context) → first_in (close_program a closing self) ≡ Some (OfTable (step_of result)) }
    {
        let id = closing.reader.socket;
        match self {
            CloseStep::AddRef => TableStep::Slot(SlotStep::AddRef(id)),
            CloseStep::SetOdd => TableStep::Slot(SlotStep::SetOdd(id.slot())),
            CloseStep::StoreCode => TableStep::Slot(SlotStep::StoreCode(
                id.slot(),
                id.version(),
                closing.code(),
            )),
            CloseStep::ReleaseFirst => TableStep::Slot(SlotStep::SubRef(id.slot())),
            CloseStep::Release(step) => step.table_step(id.slot()),
        }
    }
}

impl AnswerStep {
    /// The next step of the end of the call with this id by a response.
    fn aside(self, id: CallId) -> Aside
        ensures { (a : Context) (b : Behind) → Some (asides.step_of a.asked result) ≡ aside_in (answer_program a b (id_of id) self) }
    {
        match self {
            AnswerStep::Take => Aside::TakeCall(id.slot()),
            AnswerStep::End(_, step) => step.step(id.slot()),
        }
    }
}

impl ReadPoint {
    /// The next step, if there is one.
    pub fn step(self) -> Option<ReadStep>
        ensures program { (a : Context) → option_map (step_as a.asked) result ≡ first_in (point_program a self) }
        ensures kind { GoesBy self result }
    {
        match self {
            ReadPoint::Rest => None,
            ReadPoint::Open(_, operation) => Some(ReadStep::Table(TableStep::Name(
                NameStep::LoadOpen(operation),
            ))),
            ReadPoint::Take(reader) => taking(reader.link, reader.total),
            ReadPoint::Lock(_, locker, step) => Some(ReadStep::Aside(locker.step(step))),
            ReadPoint::Answer(_, id, step) => Some(ReadStep::Aside(step.aside(id))),
            ReadPoint::Close(closing, step) => Some(ReadStep::Table(step.table_step(closing))),
            ReadPoint::Load(_, operation) => Some(ReadStep::Aside(Aside::LoadAt(operation))),
            ReadPoint::Post(lost, step) => Some(ReadStep::Aside(lost.error().post_step(step))),
            ReadPoint::Fail(lost, step) => Some(ReadStep::Aside(lost.fail_step(step))),
            ReadPoint::Discard(link, total) => taking(link, total),
        }
    }
}

/// Bytes are taken from this link, over which so many came.
fn taking(link: u16, total: ByteCount) -> Option<ReadStep>
    ensures { result ≡ Some (ReadStep.Aside (Aside.TakeBytes link (room total))) }
{
    Some(ReadStep::Aside(Aside::TakeBytes(link, total.room())))
}
