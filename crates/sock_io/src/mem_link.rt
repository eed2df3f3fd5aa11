ghost use Rattle.std.specs.Prelude.{◌≡◌, ◌<◌, ◌++◌, ◌∷◌, [], Ok, None, false, true, OnErr, OnOk, drop, length, take};
ghost use Rattle.sock_io.specs.LinkHalves.{TakeStep, of_take};
ghost use Rattle.sock_io.specs.LinksInMemory.{TakesWaiting, mem_in, empty_in, take_answer, closing, is_open};
ghost use Rattle.sock_io.specs.Peer.{no_peer};

use crate::ending::Ending;
use crate::link::{In, Out, Peer, Put, Ready, Served, Take};
use crate::mem_source::{copy_front, from_place};
use crate::noted_links::noted;
use ghosts::Ghosts;
use sock_words::NoMemory;
use std::alloc::Global;
use std::marker::Model;

/// A writing half in memory that takes everything. It keeps none of it, and so tells nothing: the wrapper that gives a
/// link its shape keeps what was taken.
#[derive(Drop)]
pub struct MemOut {
    link: u16,
    finished: bool,
}

impl MemOut {
    /// The writing half of the link of this number. For linkers.
    pub fn new(link: u16) -> Self
        ensures { ⟦<MemOut as Out>⟧.state result ≡ record { link = link; took = None; put_bytes = None; way = []; faults = 0; finished = false; clear = true; always_ready = true; again = false; steady = true; whole = true; pacing = None; answers = None } }
    {
        MemOut {
            link,
            finished: false,
        }
    }
}

impl Out for MemOut {
    ghost state = { λ o. record { link = o.link; took = None; put_bytes = None; way = []; faults = 0; finished = o.finished; clear = true; always_ready = true; again = false; steady = true; whole = true; pacing = None; answers = None } };

    fn put(&mut self, piece: &[u8]) -> Put {
        if self.finished {
            return Put::Failed;
        }
        Put::Took(piece.len())
    }

    fn ready(&mut self) -> Ready {
        if self.finished {
            return Ready::Failed;
        }
        Ready::Now
    }

    fn finish(&mut self) {
        self.finished = true;
    }

    fn taken(&self) -> &[u8] {
        &[]
    }
}

/// A reading half in memory: it gives what the other end gave, and then answers how that went on. It tells all that it
/// answered.
#[derive(Drop)]
pub struct MemIn {
    bytes: Vec<u8>,
    at: usize,
    ending: Ending,
    gave_end: bool,
    closed: bool,
    /// All that it answered, for the proofs.
    takes: Ghosts<Take>,
}

impl Model for MemIn {
    ghost use Rattle.std.specs.Prelude.{◌≤◌, drop, map, take, vec_len};
    ghost use Rattle.sock_io.specs.LinkHalves.{of_take};
    ghost use Rattle.sock_io.specs.LinksInMemory.{MemInState};

    ghost Value = { MemInState };

    ghost view = { λ i. record { given = take i.at i.bytes.items; waiting = drop i.at i.bytes.items; ending = i.ending; gave_end = i.gave_end; closed = i.closed; takes = map of_take i.takes.list } };

    ghost invariant = { λ i. i.at ≤ vec_len i.bytes };
}

impl MemIn {
    /// A half to which nothing was given yet. For linkers.
    pub fn new(alloc: Global, ending: Ending) -> Self
        ensures { result ≡ empty_in ending }
    {
        MemIn {
            bytes: Vec::new(alloc),
            at: 0,
            ending,
            gave_end: false,
            closed: false,
            takes: Ghosts::of(&0u8),
        }
    }

    /// Whether the other end may still give.
    pub fn is_open(&self) -> bool
        ensures { result ≡ is_open self.now.ending }
    {
        match self.ending {
            Ending::Open => true,
            Ending::Ended | Ending::Closed => false,
        }
    }

    /// The other end gives these bytes.
    pub fn give(&mut self, bytes: &[u8]) -> Result<(), NoMemory>
        requires { self.old.ending ≡ Ending.Open }
        ensures ok { OnOk result (self.new ≡ record self.old { waiting = self.old.waiting ++ bytes.now }) }
        ensures err { OnErr result (self.new ≡ self.old) }
    {
        self.bytes.extend_from_slice(bytes)?;
        Ok(())
    }

    /// The other end gives its end.
    pub fn end(&mut self)
        requires { self.old.ending ≡ Ending.Open }
        ensures { self.new ≡ record self.old { ending = Ending.Ended } }
    {
        self.ending = Ending::Ended;
    }

    /// The link was finished and the other end closes its half, unless it gave its end before.
    pub fn close(&mut self)
        ensures { self.new ≡ record self.old { ending = closing self.old.ending } }
    {
        match self.ending {
            Ending::Open | Ending::Closed => self.ending = Ending::Closed,
            Ending::Ended => {}
        }
    }

    /// Takes, and leaves it to the caller to note what it answers.
    fn answer_take(&mut self, room: &mut [u8]) -> Take
        requires { 0 < length room.old }
        ensures step { TakeStep (mem_in self.old) (mem_in (record self.new { takes = self.old.takes ++ of_take result ∷ [] })) room.new result }
        ensures answer { result ≡ take_answer self.old.waiting self.old.ending (length room.old) }
        ensures bytes { self.new.given ++ self.new.waiting ≡ self.old.given ++ self.old.waiting }
        ensures ending { self.new.ending ≡ self.old.ending }
        ensures takes { self.new.takes ≡ self.old.takes }
    {
        let count = copy_front(from_place(&self.bytes, self.at), room);
        if count > 0 {
            self.at += count;
            return Take::Took(count);
        }
        match self.ending {
            Ending::Open => Take::Empty,
            Ending::Ended => {
                self.gave_end = true;
                Take::End
            }
            Ending::Closed => {
                self.closed = true;
                Take::Closed
            }
        }
    }

    /// Notes an answer.
    fn note(&mut self, answer: Take)
        ensures { self.new ≡ record self.old { takes = self.old.takes ++ of_take answer ∷ [] } }
    {
        self.takes = noted(&self.takes, answer);
    }
}

impl In for MemIn {
    ghost state = { mem_in };

    fn take(&mut self, room: &mut [u8]) -> Take
        requires { 0 < length room.old }
        ensures { TakesWaiting self.old self.new (length room.old) room.new result }
    {
        let answer = self.answer_take(room);
        self.note(answer);
        answer
    }
}

/// No other end inside this process that would have to be served.
#[derive(Drop)]
pub struct NoPeer;

impl Peer for NoPeer {
    ghost state = { λ _. no_peer };

    fn serve(&mut self) -> Result<Served, NoMemory> {
        Ok(Served::Done)
    }
}
