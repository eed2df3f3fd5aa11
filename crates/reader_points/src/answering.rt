ghost use Rattle.std.specs.Prelude.{◌≡◌};
ghost use Rattle.sock_message.specs.Asked.{Asked};
ghost use Rattle.call_points.specs.AsideCodeSteps.{after_word, after_call};
ghost use Rattle.id_points.specs.IdsAndAttemptNumbers.{id_of};
ghost use Rattle.reader_points.specs.ReaderPoints.{Context, answer_program, next_program, point_program, with_asked, AnswersByWord, HasInHand, HasNext};

use crate::point::{AnswerStep, Behind, ReadNext, ReadPoint};
use call_points::EndStep;
use id_points::CallId;

impl Behind {
    /// Where the end of the call with this id goes on with the call in hand, which is that of this operation.
    pub fn with_call(self, id: CallId, operation: u16) -> ReadPoint
        ensures program { (a : Context) (asked : Asked) → asked.operation ≡ operation → point_program (with_asked asked a) result ≡ after_call (answer_program a self (id_of id) AnswerStep.Take) asked }
        ensures hand { (a : Context) → HasInHand a result }
    {
        ReadPoint::Answer(self, id, AnswerStep::End(operation, EndStep::End))
    }
}

impl AnswerStep {
    /// How it goes on by the word that its step found.
    pub fn next(self, behind: Behind, id: CallId, found: u64) -> ReadNext
        requires { AnswersByWord self }
        ensures program { (a : Context) → next_program a result ≡ after_word (answer_program a behind (id_of id) self) found }
        ensures hand { (a : Context) → HasNext a result }
    {
        match self {
            AnswerStep::Take => ReadNext::Point(ReadPoint::Rest),
            AnswerStep::End(operation, step) => match step.next(found) {
                Some(step) => {
                    let next = AnswerStep::End(operation, step);
                    ReadNext::Point(ReadPoint::Answer(behind, id, next))
                }
                None => ReadNext::Answered(operation, id, behind),
            },
        }
    }
}
