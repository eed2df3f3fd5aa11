ghost use Rattle.std.specs.Prelude.{◌≡◌, nat_lt, None, IfOk, IfSome, IfNone, true, false};
ghost use Rattle.prpc_frame.specs.FrameMeaning.{frame_of};
ghost use Rattle.reader_points.specs.ReaderPoints.{count_of, IsLocker};
ghost use Rattle.reader_points.specs.CutsInHand.{GoesOnBehind, is_asked};

use crate::point::{CloseStep, ReadPoint, Reader};
use call_points::{Locker, WordStep};
use id_points::Sought;
use io_buf::NoMemory;
use prpc_frame::{Cutter, Frame, NextFault};
use sock_words::CorrelationId;

/// How a reader goes on behind the bytes that it took: with the response that it has in hand now, if it has one.
/// Frames are those of baidu_std.md.
#[derive(Drop)]
pub struct Cut {
    pub frame: Option<Frame>,
    pub point: ReadPoint,
}

/// Whoever locks the id of a response, where it is one for one of so many id slots.
fn locker_of(frame: &Frame, ids: u16) -> Option<Locker>
    ensures none { IfNone result (is_asked ids (frame_of frame.now) ≡ false) }
    ensures some { IfSome result (λ l. (is_asked ids (frame_of frame.now) ≡ true) × IsLocker (frame_of frame.now) l) }
{
    let id = CorrelationId(frame.meta.correlation_id);
    if frame.meta.response.is_some() && id.slot() < u32::from(ids) {
        Some(Locker {
            slot: id.slot() as u16,
            sought: Sought::Version(id.version()),
        })
    } else {
        None
    }
}

impl Reader {
    /// The reading has ended, by a frame fault or not: its socket is set failed.
    fn fails(self, fault: bool) -> Cut
        ensures { result ≡ record { frame = None; point = ReadPoint.Close (record { reader = self; fault = fault; next = 0 }) CloseStep.AddRef } }
    {
        Cut {
            frame: None,
            point: ReadPoint::Close(self.closing(fault), CloseStep::AddRef),
        }
    }

    /// No more is whole: bytes are taken below the limit, and at the limit the reading has ended.
    fn takes_more(self) -> Cut
        ensures below { nat_lt (count_of self.total) 16777216 ≡ true → result ≡ record { frame = None; point = ReadPoint.Take self } }
        ensures at_limit { nat_lt (count_of self.total) 16777216 ≡ false → result ≡ record { frame = None; point = ReadPoint.Close (record { reader = self; fault = false; next = 0 }) CloseStep.AddRef } }
    {
        if self.total.is_below_limit() {
            Cut {
                frame: None,
                point: ReadPoint::Take(self),
            }
        } else {
            self.fails(false)
        }
    }

    /// The next response for one of so many id slots is cut out of the bytes that it has; where there is none it takes more
    /// below its limit, and behind a frame fault or at the limit the reading has ended.
    pub fn cut(self, cutter: &mut Cutter, ids: u16) -> Result<Cut, NoMemory>
        ensures { IfOk result (λ cut. GoesOnBehind self ids cutter.old.bytes cutter.new.bytes cut) }
    {
        loop {
            match cutter.next() {
                Ok(Some(frame)) => match locker_of(&frame, ids) {
                    Some(locker) => {
                        return Ok(Cut {
                            frame: Some(frame),
                            point: ReadPoint::Lock(self, locker, WordStep::Read),
                        });
                    }
                    None => {}
                },
                Ok(None) => return Ok(self.takes_more()),
                Err(NextFault::Frame(_)) => return Ok(self.fails(true)),
                Err(NextFault::NoMemory) => return Err(NoMemory),
            }
        }
    }
}
