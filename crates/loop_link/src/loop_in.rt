ghost use Rattle.std.specs.Prelude.{◌≡◌, ◌⊎◌, ◌<◌, true, false, length, OnErr, OnOk};
ghost use Rattle.sock_io.specs.LinkHalves.{IsServed, TakeStep};
ghost use Rattle.sock_io.specs.LinksInMemory.{TakesWaiting, closing, is_closing};
ghost use Rattle.loop_link.specs.ServingFedBytes.{Settled, first_ending, loop_in, new_in, offer_of};

use crate::counts::is_reached;
use crate::loop_peer::LoopPeer;
use io_buf::BlockPool;
use sock_io::{Ending, In, MemIn, NoMemory, Take};
use std::alloc::Global;
use std::marker::Model;

/// The reading half of a link in memory, with its other end: the built-in server, or one that gives nothing.
/// The server answers frames of baidu_std.md.
#[derive(Drop)]
pub struct LoopIn {
    half: MemIn,
    peer: LoopPeer,
}

impl Model for LoopIn {
    ghost use Rattle.std.specs.Prelude.{◌≡◌};
    ghost use Rattle.loop_link.specs.ServingFedBytes.{IsSteady, IsTold, LoopInState};

    ghost Value = { LoopInState };

    ghost view = { λ i. record { half = i.half; peer = i.peer } };

    ghost invariant = { λ i. IsSteady i.peer i.half × IsTold i.half };
}

// What stands in a new half: a server of no response gives its end at once.
fn first_ending(serve: bool, end: Option<u32>) -> Ending
    ensures { result ≡ first_ending serve end }
{
    if serve && is_reached(end, 0) {
        Ending::Ended
    } else {
        Ending::Open
    }
}

impl LoopIn {
    /// A half whose other end was fed nothing.
    pub(crate) fn new(alloc: Global, serve: bool, end: Option<u32>) -> Self
        ensures { result ≡ new_in serve end }
    {
        LoopIn {
            half: MemIn::new(alloc, first_ending(serve, end)),
            peer: LoopPeer::new(serve, end),
        }
    }

    /// Has the other end answer what the link took since the last call, and close its half where the link was finished.
    /// Where memory is wanting, what is told stays as it is.
    pub fn settle(
        &mut self,
        alloc: Global,
        pool: &mut BlockPool,
        took: &[u8],
        finished: bool,
    ) -> Result<(), NoMemory>
        ensures half { self.new.half ≡ record self.old.half { waiting = self.new.half.waiting; ending = self.new.half.ending } }
        ensures asked { (self.new.peer.serve ≡ self.old.peer.serve) × (self.new.peer.end ≡ self.old.peer.end) }
        ensures closing { (is_closing self.new.half.ending ≡ is_closing self.old.half.ending) ⊎ ((finished ≡ true) × (is_closing self.new.half.ending ≡ true)) }
        ensures open { OnOk result (self.old.peer.serve ≡ false → finished ≡ false → self.new.half ≡ self.old.half) }
        ensures closes { OnOk result (self.old.peer.serve ≡ false → finished ≡ true → self.new.half ≡ record self.old.half { ending = closing self.old.half.ending }) }
        ensures settled { OnOk result (IsServed took.now finished self.old.half.given (offer_of self.old) → Settled took.now finished self.new) }
        ensures err { OnErr result (self.new ≡ self.old) }
    {
        self.peer.answer(alloc, pool, took, &mut self.half)?;
        if finished {
            self.half.close();
        }
        Ok(())
    }
}

impl In for LoopIn {
    ghost state = { loop_in };

    fn take(&mut self, room: &mut [u8]) -> Take
        requires { 0 < length room.old }
        ensures step { TakeStep (loop_in self.old) (loop_in self.new) room.new result }
        ensures half { TakesWaiting self.old.half self.new.half (length room.old) room.new result }
        ensures peer { self.new.peer ≡ self.old.peer }
    {
        self.half.take(room)
    }
}
