ghost use Rattle.std.specs.Prelude.{◌≡◌, ◌≤◌, ◌<◌, ◌+◌, length};
ghost use Rattle.call_points.specs.AsideCodeSteps.{after_word};
ghost use Rattle.reader_points.specs.ReaderPoints.{Context, next_program, close_program, posts_program, point_program, MayFindClosing, HasInHand, HasNext};

use crate::point::{CloseStep, Closing, ReadNext, ReadPoint};
use seat_states::{ReleaseStep, Released};
use sock_words::Vref;

impl Closing {
    /// Its socket's failing comes to this step.
    fn to(self, step: CloseStep) -> ReadNext
        ensures { result ≡ ReadNext.Point (ReadPoint.Close self step) }
    {
        ReadNext::Point(ReadPoint::Close(self, step))
    }

    /// One more call was looked at.
    fn beyond(self) -> Closing
        requires { self.next < 4096 }
        ensures { result ≡ record self { next = self.next + 1 } }
    {
        Closing {
            next: self.next + 1,
            ..self
        }
    }

    /// Where it goes on among these calls: at the next one, or behind the last; behind a frame fault what comes is thrown
    /// away.
    pub fn posts(self, calls: &[u16]) -> ReadPoint
        requires { length calls.now ≤ 4096 }
        ensures program { (a : Context) → a.calls ≡ calls.now → point_program a result ≡ posts_program a self }
        ensures hand { (a : Context) → HasInHand a result }
    {
        let next = self.next as usize;
        let reader = self.reader;
        if next < calls.len() {
            ReadPoint::Load(self.beyond(), calls[next])
        } else if self.fault && reader.total.is_below_limit() {
            ReadPoint::Discard(reader.link, reader.total)
        } else {
            ReadPoint::Rest
        }
    }
}

impl CloseStep {
    /// How the failing of the reader's socket goes on by the word that its step found.
    pub fn next(self, closing: Closing, found: u64) -> ReadNext
        requires { MayFindClosing self found }
        ensures program { (a : Context) → next_program a result ≡ after_word (close_program a closing self) found }
        ensures hand { (a : Context) → HasNext a result }
    {
        let word = Vref(found);
        match self {
            CloseStep::AddRef => {
                if word.version() == closing.reader.socket.version() {
                    closing.to(CloseStep::SetOdd)
                } else {
                    closing.to(CloseStep::Release(ReleaseStep::SubRef))
                }
            }
            CloseStep::SetOdd => {
                if word.is_failed() {
                    closing.to(CloseStep::Release(ReleaseStep::SubRef))
                } else {
                    closing.to(CloseStep::StoreCode)
                }
            }
            CloseStep::StoreCode => closing.to(CloseStep::ReleaseFirst),
            CloseStep::ReleaseFirst => closing.to(CloseStep::Release(ReleaseStep::SubRef)),
            CloseStep::Release(step) => match step.behind(found) {
                Released::Step(step) => closing.to(CloseStep::Release(step)),
                Released::Done(_) => ReadNext::Posts(closing),
            },
        }
    }
}
