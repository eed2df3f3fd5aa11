ghost use Rattle.std.specs.Prelude.{◌≡◌};
ghost use Rattle.sock_message.specs.Asked.{Asked};
ghost use Rattle.call_points.specs.AsideCodeSteps.{after_word, after_call};
ghost use Rattle.reader_points.specs.ReaderPoints.{Context, next_program, point_program, with_asked, HasInHand, HasNext, GoesByWord, TakesCall, MayFind, IsWithin};

use crate::point::{AnswerStep, ByteCount, FailStep, ReadNext, ReadPoint, Reader};
use sock_words::{NO_SOCKET, SocketId};

/// How the reader of a link goes on by the word of the `open` of its link and operation.
fn opened(link: u16, operation: u16, found: u64) -> ReadNext
    ensures program { (a : Context) → HasInHand a (ReadPoint.Open link operation) → next_program a result ≡ after_word (point_program a (ReadPoint.Open link operation)) found }
    ensures hand { (a : Context) → HasInHand a (ReadPoint.Open link operation) → HasNext a result }
{
    if found == 0 {
        ReadNext::Point(ReadPoint::Open(link, operation))
    } else if found == NO_SOCKET {
        ReadNext::Point(ReadPoint::Rest)
    } else {
        let reader = Reader {
            link,
            socket: SocketId(found - 1),
            total: ByteCount::NONE,
        };
        reader.to_take()
    }
}

impl ReadPoint {
    /// How a reader goes on by the word that its step found; the call in hand is that of this operation.
    pub fn next(self, operation: u16, found: u64) -> ReadNext
        requires within { IsWithin self }
        requires word { MayFind self found }
        requires step { GoesByWord self }
        ensures program { (a : Context) → a.asked.operation ≡ operation → HasInHand a self → next_program a result ≡ after_word (point_program a self) found }
        ensures hand { (a : Context) → HasInHand a self → HasNext a result }
    {
        match self {
            ReadPoint::Open(link, operation) => opened(link, operation, found),
            ReadPoint::Lock(reader, locker, step) => {
                reader.locked(locker, locker.next(step, found))
            }
            ReadPoint::Answer(behind, id, step) => step.next(behind, id, found),
            ReadPoint::Close(closing, step) => step.next(closing, found),
            ReadPoint::Load(closing, _) => closing.loaded(found),
            ReadPoint::Post(lost, step) => lost.posted(lost.error().post_next(step, found)),
            ReadPoint::Fail(lost, step) => lost.fail_next(step, operation, found),
            ReadPoint::Rest | ReadPoint::Take(_) | ReadPoint::Discard(_, _) => {
                ReadNext::Point(ReadPoint::Rest)
            }
        }
    }

    /// Where it goes on with a call in hand that it took out of its home, which is that of this operation.
    pub fn with_call(self, operation: u16) -> ReadPoint
        requires { TakesCall self }
        ensures program { (a : Context) (asked : Asked) → asked.operation ≡ operation → point_program (with_asked asked a) result ≡ after_call (point_program a self) asked }
        ensures hand { (a : Context) → HasInHand a result }
    {
        match self {
            ReadPoint::Answer(behind, id, AnswerStep::Take) => behind.with_call(id, operation),
            ReadPoint::Fail(lost, FailStep::Take(word)) => lost.with_call(word),
            _ => ReadPoint::Rest,
        }
    }
}
