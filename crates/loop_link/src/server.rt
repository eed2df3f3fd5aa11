ghost use Rattle.std.specs.Prelude.{◌≡◌, ◌++◌, [], length, IfOk};
ghost use Rattle.brpc_model.specs.Reply.{reply_frames};
ghost use Rattle.loop_link.specs.ServingFedBytes.{Goes, NewReplies};
ghost use Rattle.rpc_server.specs.Feeding.{has_fault};

use ghosts::Ghosts;
use io_buf::{BlockPool, IoBuf};
use rpc_server::{Conn, ConnFault};
use sock_io::NoMemory;
use std::alloc::Global;
use std::marker::Model;

/// The server of a link. Contracts see all bytes that it was fed.
#[derive(Drop)]
pub(crate) struct Server {
    conn: Conn,
    fed: Ghosts<u8>,
}

impl Model for Server {
    ghost use Rattle.std.specs.Prelude.{ℕ, List};
    ghost use Rattle.loop_link.specs.ServingFedBytes.{Follows};

    ghost Value = { List ℕ };

    ghost view = { λ s. s.fed.list };

    ghost invariant = { λ s. Follows s.fed.list s.conn };
}

/// A server that was fed a piece more, the replies to what became whole, and whether it met a frame fault.
#[derive(Drop)]
pub(crate) struct Fed {
    pub server: Server,
    pub replies: IoBuf,
    pub faulty: bool,
}

impl Server {
    /// A server that was fed nothing. It takes no memory.
    pub(crate) fn new(alloc: Global) -> Server
        ensures { result ≡ [] }
    {
        Server {
            conn: Conn::new(alloc),
            fed: Ghosts::of(&0u8),
        }
    }

    /// How many replies it made.
    pub(crate) fn replies(&self) -> u64
        ensures { result ≡ length (reply_frames self.now) }
    {
        self.conn.replies()
    }

    /// Feeds the next bytes. A server that ran out of memory is lost.
    pub(crate) fn feed(
        mut self,
        alloc: Global,
        pool: &mut BlockPool,
        piece: &[u8],
    ) -> Result<Fed, NoMemory>
        ensures fed { IfOk result (λ f. f.server ≡ self ++ piece.now) }
        ensures replies { IfOk result (λ f. NewReplies self piece.now f.replies.items) }
        ensures faulty { IfOk result (λ f. f.faulty ≡ has_fault (self ++ piece.now)) }
    {
        let mut replies = IoBuf::new(alloc);
        let faulty = feeds(&mut self.conn, pool, piece, &mut replies)?;
        let with = (self.fed, piece);
        let server = Server {
            conn: self.conn,
            fed: Ghosts::of(&with),
        };
        Ok(Fed {
            server,
            replies,
            faulty,
        })
    }
}

/// Feeds a server, and answers whether it met a frame fault.
pub fn feeds(
    conn: &mut Conn,
    pool: &mut BlockPool,
    piece: &[u8],
    out: &mut IoBuf,
) -> Result<bool, NoMemory>
    ensures { IfOk result (λ faulty. Goes conn.old piece.now conn.new out.old.items out.new.items faulty) }
{
    match conn.feed(pool, piece, out) {
        Ok(()) => Ok(false),
        Err(ConnFault::Frame(_)) => Ok(true),
        Err(ConnFault::NoMemory) => Err(NoMemory),
    }
}
