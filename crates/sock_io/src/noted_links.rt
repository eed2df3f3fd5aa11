ghost use Rattle.std.specs.Prelude.{◌≡◌, ◌∷◌, ◌++◌, []};
ghost use Rattle.sock_io.specs.LinkHalves.{end_of};

use crate::link::{Ends, In, LinkSpec, Out, Peer};
use ghosts::Ghosts;
use std::marker::Model;

/// A list that is kept for the proofs, with one more behind.
pub fn noted<V: Drop>(list: &Ghosts<V>, one: V) -> Ghosts<V>
    ensures { result.list ≡ list.now.list ++ one ∷ [] }
{
    let before: Ghosts<V> = Ghosts::of(list);
    let with = (before, one);
    Ghosts::of(&with)
}

/// The halves of a connection, as it was given back.
#[derive(Drop)]
struct Connection<O: Out, I: In> {
    out: O,
    inn: I,
}

/// What was asked of the links of a linker, and what was given back to it, for the proofs alone: it takes no memory.
#[derive(Drop)]
pub struct NotedLinks<O: Out, I: In, P: Peer> {
    asked: Ghosts<LinkSpec>,
    links: Ghosts<Ends<O, I, P>>,
    connections: Ghosts<Connection<O, I>>,
}

impl<O: Out, I: In, P: Peer> Model for NotedLinks<O, I, P> {
    ghost use Rattle.std.specs.Prelude.{map};
    ghost use Rattle.sock_io.specs.LinkHalves.{end_of};
    ghost use Rattle.sock_io.specs.MemoryLinker.{NotedLinksState};

    ghost Value = { NotedLinksState };

    ghost view = { λ l. record { asked = l.asked.list; back = map (λ e. end_of (O.state e.out) (I.state e.inn)) l.links.list; done = map (λ c. end_of (O.state c.out) (I.state c.inn)) l.connections.list } };
}

impl<O: Out, I: In, P: Peer> NotedLinks<O, I, P> {
    /// Nothing was asked or given back yet.
    pub fn new() -> Self
        ensures { result ≡ record { asked = []; back = []; done = [] } }
    {
        NotedLinks {
            asked: Ghosts::of(&0u8),
            links: Ghosts::of(&0u8),
            connections: Ghosts::of(&0u8),
        }
    }

    /// A link was opened, of which this was asked.
    pub fn ask(&mut self, spec: &LinkSpec)
        ensures { self.new ≡ record self.old { asked = self.old.asked ++ spec.now ∷ [] } }
    {
        self.asked = noted(&self.asked, *spec);
    }

    /// A connection was given back.
    pub fn done(&mut self, out: O, inn: I)
        ensures { self.new ≡ record self.old { done = self.old.done ++ end_of (O.state out) (I.state inn) ∷ [] } }
    {
        self.connections = noted(&self.connections, Connection { out, inn });
    }

    /// A link was given back.
    pub fn back(&mut self, ends: Ends<O, I, P>)
        ensures { self.new ≡ record self.old { back = self.old.back ++ end_of (O.state ends.out) (I.state ends.inn) ∷ [] } }
    {
        self.links = noted(&self.links, ends);
    }
}
