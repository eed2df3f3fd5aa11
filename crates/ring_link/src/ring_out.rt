ghost use Rattle.std.specs.Prelude.{◌≡◌, ◌++◌, ◌-◌, ◌<◌, [], false, length};
ghost use Rattle.sock_io.specs.LinkHalves.{FinishStep, PutStep, ReadyStep, taken_of};
ghost use Rattle.ring_link.specs.Cells.{IsOpen};
ghost use Rattle.ring_link.specs.RingHalves.{ring_out};

use crate::writer::RingWriter;
use sock_io::{Out, Put, Ready};
use std::marker::Model;

/// The writing half of a link over a ring. It keeps none of what it took, and so tells nothing: the wrapper that gives a
/// link its shape keeps that. `Again` and `NotYet` come only where the ring has no free place that this end sees.
#[derive(Drop)]
pub struct RingOut {
    link: u16,
    pub(crate) writer: RingWriter,
    finished: bool,
    again: bool,
}

impl Model for RingOut {
    ghost use Rattle.std.specs.Prelude.{◌≡◌};
    ghost use Rattle.sock_io.specs.Peer.{has_ended};
    ghost use Rattle.ring_link.specs.RingHalves.{RingOutState};

    ghost Value = { RingOutState };

    ghost view = { λ o. record { link = o.link; writer = o.writer; again = o.again } };

    ghost invariant = { λ o. o.finished ≡ has_ended o.writer.ending };
}

impl RingOut {
    /// The writing half of the link of this number.
    pub(crate) fn new(link: u16, writer: RingWriter) -> RingOut
        requires { IsOpen writer.ending }
        ensures { result ≡ record { link = link; writer = writer; again = false } }
    {
        RingOut {
            link,
            writer,
            finished: false,
            again: false,
        }
    }
}

impl Out for RingOut {
    ghost state = { ring_out };

    fn put(&mut self, piece: &[u8]) -> Put
        requires { 0 < length piece.now }
        ensures step { PutStep (ring_out self.old) (ring_out self.new) piece.now result }
        ensures bytes { self.new.writer.bytes ≡ self.old.writer.bytes ++ taken_of piece.now result }
        ensures ring { self.new.writer.ring ≡ self.old.writer.ring }
        ensures full { result ≡ Put.Again → self.new.writer.places ≡ 0 }
    {
        self.again = false;
        if self.finished {
            return Put::Failed;
        }
        let count = self.writer.put(piece);
        if count == 0 {
            self.again = true;
            return Put::Again;
        }
        Put::Took(count)
    }

    fn ready(&mut self) -> Ready
        ensures step { ReadyStep (ring_out self.old) (ring_out self.new) result }
        ensures bytes { self.new.writer.bytes ≡ self.old.writer.bytes }
        ensures ring { self.new.writer.ring ≡ self.old.writer.ring }
        ensures full { result ≡ Ready.NotYet → self.new.writer.places ≡ 0 }
    {
        if self.finished {
            return Ready::Failed;
        }
        if self.writer.has_place() {
            Ready::Now
        } else {
            Ready::NotYet
        }
    }

    fn finish(&mut self)
        ensures step { FinishStep (ring_out self.old) (ring_out self.new) }
        ensures bytes { self.new.writer.bytes ≡ self.old.writer.bytes }
        ensures ring { self.new.writer.ring ≡ self.old.writer.ring }
    {
        if !self.finished {
            self.writer.end();
            self.finished = true;
        }
    }

    fn taken(&self) -> &[u8] {
        &[]
    }
}
