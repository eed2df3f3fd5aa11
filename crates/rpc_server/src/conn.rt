ghost use Rattle.std.specs.Prelude.{◌≡◌, ◌+◌, ◌≤◌, ◌++◌, length, OnOk, OnErr};
ghost use Rattle.prpc_frame.specs.FrameMeaning.{frame_of};
ghost use Rattle.rpc_server.specs.Feeding.{Feeds, AnswersWhole, replies_to, reply_bytes};
ghost use Rattle.rpc_server.specs.ReplySize.{IsBegun};
ghost use Rattle.rpc_server.specs.declared.conn.ConnFault.TheVariants.{NoMemory as no_memory};

use crate::reply::reply_to;
use io_buf::{BlockPool, IoBuf, NoMemory};
use prpc_frame::{Cutter, Frame, FrameFault, NextFault};
use std::alloc::Global;
use std::marker::Model;

/// Why a connection stopped.
#[derive(Clone, Copy, PartialEq, Eq, Debug)]
pub enum ConnFault {
    /// The bytes go on with no frame. It is answered for good.
    Frame(FrameFault),
    /// An allocation failed. The connection may only be dropped.
    NoMemory,
}

impl From<NoMemory> for ConnFault {
    ghost from_gives = { λ _ e. e ≡ no_memory };

    fn from(_error: NoMemory) -> ConnFault {
        ConnFault::NoMemory
    }
}

/// The server's end of a connection: it is fed what the client put, in any pieces, and answers each whole request frame in
/// order. It holds no more than one frame that isn't whole. Behind a frame's fault it holds nothing. Contracts see
/// the bytes that were fed and stand in no frame, how many replies it made, and whether it has answered a frame's fault.
#[derive(Drop)]
pub struct Conn {
    cutter: Cutter,
    made: u64,
    alloc: Global,
}

impl Model for Conn {
    ghost use Rattle.rpc_server.specs.HeldByConnection.{Held, held_code};

    ghost Value = { Held };

    ghost coded = { held_code };

    ghost use Rattle.rpc_server.specs.InsideConnection.{held_view};

    ghost view = { held_view };
}

impl Conn {
    ghost use Rattle.rpc_server.specs.HeldByConnection.{unused};

    /// A connection that was fed nothing. It takes no memory.
    pub fn new(alloc: Global) -> Conn
        ensures { result ≡ unused }
    {
        Conn {
            cutter: Cutter::new(alloc),
            made: 0,
            alloc,
        }
    }

    /// How many replies it made.
    pub fn replies(&self) -> u64
        ensures { result ≡ self.now.made }
    {
        self.made
    }

    /// Takes the next bytes, and appends the replies to the request frames that became whole.
    ///
    /// `Frame` comes exactly where the bytes go on with no frame, with the replies before it appended, and from then on for
    /// good, with the same fault. Behind `NoMemory` the replies to some first frames were appended.
    pub fn feed(
        &mut self,
        pool: &mut BlockPool,
        piece: &[u8],
        out: &mut IoBuf,
    ) -> Result<(), ConnFault>
        ensures { Feeds self.old piece.now out.old.items result self.new out.new.items }
    {
        self.cutter.feed(pool, piece)?;
        self.answer_whole(pool, out)
    }

    // Answers each frame that is whole.
    fn answer_whole(&mut self, pool: &mut BlockPool, out: &mut IoBuf) -> Result<(), ConnFault>
        ensures { AnswersWhole self.old out.old.items result self.new out.new.items }
    {
        loop {
            match self.cutter.next() {
                Ok(Some(frame)) => self.answer(pool, out, frame)?,
                Ok(None) => return Ok(()),
                Err(NextFault::Frame(fault)) => return Err(ConnFault::Frame(fault)),
                Err(NextFault::NoMemory) => return Err(ConnFault::NoMemory),
            }
        }
    }

    // Appends the reply to a frame.
    fn answer(
        &mut self,
        pool: &mut BlockPool,
        out: &mut IoBuf,
        frame: Frame,
    ) -> Result<(), NoMemory>
        requires { IsBegun (frame_of frame) }
        ensures bytes { self.new.bytes ≡ self.old.bytes }
        ensures told { self.new.told ≡ self.old.told }
        ensures appended { OnOk result (out.new.items ≡ out.old.items ++ reply_bytes (frame_of frame)) }
        ensures counted { OnOk result (self.new.made ≡ self.old.made + length (replies_to (frame_of frame))) }
        ensures kept { OnErr result (out.new.items ≡ out.old.items) }
    {
        let Some(reply) = reply_to(self.alloc, pool, frame)? else {
            return Ok(());
        };
        let Some(made) = self.made.checked_add(1) else {
            return Err(NoMemory);
        };
        out.reserve_refs(reply.refs())?;
        out.append_buf(reply);
        self.made = made;
        Ok(())
    }
}
