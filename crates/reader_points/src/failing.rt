ghost use Rattle.std.specs.Prelude.{◌≡◌, Some};
ghost use Rattle.sock_message.specs.Asked.{Asked};
ghost use Rattle.call_points.specs.AsideCodeSteps.{aside_in, after_word, after_call};
ghost use Rattle.call_points.specs.AsideCodeSteps as asides;
ghost use Rattle.reader_points.specs.ReaderPoints.{Context, next_program, point_program, fail_program, with_asked, FailsByWord, HasInHand, HasNext, GoesBy};

use crate::point::{FailStep, Lost, ReadNext, ReadPoint, ReadStep};
use call_points::Aside;
use id_points::is_reused;
use sock_words::IdWord;

impl Lost {
    /// The next step of the end of the call.
    pub fn fail_step(self, step: FailStep) -> Aside
        ensures program { (a : Context) → Some (asides.step_of a.asked result) ≡ aside_in (fail_program a self step) }
        ensures kind { GoesBy (ReadPoint.Fail self step) (Some (ReadStep.Aside result)) }
    {
        let slot = self.id.slot();
        match step {
            FailStep::Take(_) => Aside::TakeCall(slot),
            FailStep::Judge(_) => Aside::EndId(slot),
            FailStep::Free(_) => Aside::FreeId(slot),
        }
    }

    /// Where it goes on with the call in hand; its id has this word.
    pub fn with_call(self, word: IdWord) -> ReadPoint
        ensures program { (a : Context) (asked : Asked) → point_program (with_asked asked a) result ≡ after_call (fail_program a self (FailStep.Take word)) asked }
        ensures hand { (a : Context) → HasInHand a result }
    {
        ReadPoint::Fail(self, FailStep::Judge(word))
    }

    /// How it goes on behind a step that found this word; the call in hand is that of this operation.
    pub fn fail_next(self, step: FailStep, operation: u16, found: u64) -> ReadNext
        requires { FailsByWord step }
        ensures program { (a : Context) → a.asked.operation ≡ operation → next_program a result ≡ after_word (fail_program a self step) found }
        ensures hand { (a : Context) → HasNext a result }
    {
        match step {
            FailStep::Take(_) => ReadNext::Point(ReadPoint::Rest),
            FailStep::Judge(_) => {
                if is_reused(IdWord(found)) {
                    ReadNext::Point(ReadPoint::Fail(self, FailStep::Free(operation)))
                } else {
                    ReadNext::CallEnded(operation, self)
                }
            }
            FailStep::Free(done) => ReadNext::CallEnded(done, self),
        }
    }
}
