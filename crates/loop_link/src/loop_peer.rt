ghost use Rattle.std.specs.Prelude.{◌≡◌, ◌<◌, [], true, false, length, IfOk, OnErr, OnOk};
ghost use Rattle.sock_io.specs.LinksInMemory.{is_open};
ghost use Rattle.loop_link.specs.ServingFedBytes.{Answers, IsOver, ending_for};

use crate::counts::gives_end;
use crate::front::{gathered, given_len};
use crate::server::Server;
use ghosts::Ghosts;
use io_buf::BlockPool;
use sock_io::{Ending, MemIn, NoMemory};
use std::alloc::Global;
use std::marker::Model;

/// The other end of a link: the built-in server, or one that takes all bytes and gives nothing. Contracts see what was
/// asked of it, and all bytes of the link that it was fed.
#[derive(Drop)]
pub(crate) struct LoopPeer {
    serve: bool,
    end: Option<u32>,
    /// The server, unless it was lost for want of memory.
    server: Option<Server>,
    fed_len: usize,
    /// All bytes that it was fed, for the proofs.
    fed: Ghosts<u8>,
}

impl Model for LoopPeer {
    ghost use Rattle.std.specs.Prelude.{◌≡◌, length, IfSome};
    ghost use Rattle.loop_link.specs.ServingFedBytes.{LoopPeerState};

    ghost Value = { LoopPeerState };

    ghost view = { λ p. record { serve = p.serve; end = p.end; fed = p.fed.list } };

    ghost invariant = { λ p. (p.fed_len ≡ length p.fed.list) × IfSome p.server (λ s. s ≡ p.fed.list) };
}

impl LoopPeer {
    /// An other end that was fed nothing.
    pub(crate) fn new(serve: bool, end: Option<u32>) -> Self
        ensures { result ≡ record { serve = serve; end = end; fed = [] } }
    {
        LoopPeer {
            serve,
            end,
            server: None,
            fed_len: 0,
            fed: Ghosts::of(&0u8),
        }
    }

    /// Takes what the link took since the last call, and gives the replies to it, and its end where that is to come. Once
    /// it gave its end it takes no more.
    pub(crate) fn answer(
        &mut self,
        alloc: Global,
        pool: &mut BlockPool,
        took: &[u8],
        inn: &mut MemIn,
    ) -> Result<(), NoMemory>
        ensures ok { OnOk result (Answers self.old took.now inn.old self.new inn.new) }
        ensures err { OnErr result ((self.new ≡ self.old) × (inn.new ≡ inn.old)) }
    {
        if !self.serves() {
            self.pass(took);
            return Ok(());
        }
        if self.is_over(took, inn) {
            return Ok(());
        }
        let end = self.end();
        let (front, rest) = took.split_at(self.fed_len());
        let server = self.begun(alloc, pool, front)?;
        let given = server.replies();
        let fed = server.feed(alloc, pool, rest)?;
        let made = fed.server.replies();
        let bytes = gathered(alloc, &fed.replies)?;
        let count = given_len(end, given, &bytes);
        inn.give(&bytes[..count])?;
        end_where(inn, gives_end(end, made, fed.faulty));
        self.keep(fed.server, took.len());
        Ok(())
    }

    // Whether it is the server.
    fn serves(&self) -> bool
        ensures { result ≡ self.now.serve }
    {
        self.serve
    }

    // Whether nothing is left to be fed to the server, as mostly where a reader looks again for bytes. Fewer bytes than it
    // was fed are another link's.
    fn is_over(&self, took: &[u8], inn: &MemIn) -> bool
        ensures over { result ≡ true → IsOver self.now took.now inn.now }
        ensures live { result ≡ false → is_open inn.now.ending ≡ true }
        ensures enough { result ≡ false → length self.now.fed < length took.now }
    {
        !inn.is_open() || took.len() <= self.fed_len
    }

    // How many bytes it was fed.
    fn fed_len(&self) -> usize
        ensures { result ≡ length self.now.fed }
    {
        self.fed_len
    }

    // After how many responses it gives its end.
    fn end(&self) -> Option<u32>
        ensures { result ≡ self.now.end }
    {
        self.end
    }

    // The server that was fed the front; a new one, where the old one was lost.
    fn begun(
        &mut self,
        alloc: Global,
        pool: &mut BlockPool,
        front: &[u8],
    ) -> Result<Server, NoMemory>
        requires { length front.now ≡ length self.old.fed }
        ensures same { self.new ≡ self.old }
        ensures size { IfOk result (λ s. length s ≡ length front.now) }
        ensures fed { IfOk result (λ s. front.now ≡ self.old.fed → s ≡ front.now) }
    {
        match self.server.take() {
            Some(server) => Ok(server),
            None => {
                let fed = Server::new(alloc).feed(alloc, pool, front)?;
                Ok(fed.server)
            }
        }
    }

    // Keeps the server, which was fed so many bytes.
    fn keep(&mut self, server: Server, len: usize)
        requires { len ≡ length server }
        ensures { self.new ≡ record self.old { fed = server } }
    {
        self.fed = Ghosts::of(&server);
        self.server = Some(server);
        self.fed_len = len;
    }

    // Takes all and gives nothing.
    fn pass(&mut self, took: &[u8])
        ensures { self.new ≡ record self.old { fed = took.now } }
    {
        self.server = None;
        self.fed = Ghosts::of(&took);
        self.fed_len = took.len();
    }
}

// Gives its end, where it has come to that.
fn end_where(inn: &mut MemIn, ended: bool)
    requires { inn.old.ending ≡ Ending.Open }
    ensures { inn.new ≡ record inn.old { ending = ending_for ended false } }
{
    if ended {
        inn.end();
    }
}
