ghost use Rattle.std.specs.Prelude.{◌≡◌, ◌↔◌, ◌+◌, ◌<◌, ◌∷◌, ◌++◌, [], length, Contains, IfOk, IsErrOf, OnErr};
ghost use Rattle.sock_io.specs.FaultCauses.{OpenCause, next_number};
ghost use Rattle.sock_io.specs.LinkHalves.{end_of};
ghost use Rattle.sock_io.specs.MemoryLinker.{new_half};
ghost use Rattle.sock_io.specs.ShapeOfPuts.{shaped_out};
ghost use Rattle.sock_words.specs.PlainShape.{plain_shape};

use crate::counts::{is_counted, next_call, risen};
use crate::link::{Ends, In, LinkSpec, OpenFault};
use crate::mem_link::{MemOut, NoPeer};
use crate::shaped::Shaped;
use sock_words::Shape;
use std::alloc::Global;
use std::marker::Model;

/// The halves of a connection, as it was given back.
#[derive(Drop)]
struct Connection<I: In> {
    out: Shaped<MemOut>,
    inn: I,
}

/// The links of a linker in memory: it makes their writing halves, and keeps what was given back. It reserves the room
/// for that as it opens and accepts, so that giving back takes no memory.
///
/// Its `open` calls with the numbers in `fail_opens`, counted from 1, answer `Failed`.
#[derive(Drop)]
pub struct MemLinks<I: In> {
    alloc: Global,
    fail_opens: Vec<u32>,
    calls: u64,
    asked: Vec<LinkSpec>,
    accepted: u16,
    faults: u64,
    links: Vec<Ends<Shaped<MemOut>, I, NoPeer>>,
    connections: Vec<Connection<I>>,
}

impl<I: In> Model for MemLinks<I> {
    ghost use Rattle.std.specs.Prelude.{◌≤◌, map, vec_len, vec_capacity};
    ghost use Rattle.sock_io.specs.LinkHalves.{end_of};
    ghost use Rattle.sock_io.specs.MemoryLinker.{MemLinksState};
    ghost use Rattle.sock_io.specs.ShapeOfPuts.{shaped_out};

    ghost Value = { MemLinksState };

    ghost view = { λ l. record { asked = l.asked.items; accepted = l.accepted; back = map (λ e. end_of (shaped_out e.out) (I.state e.inn)) l.links.items; done = map (λ c. end_of (shaped_out c.out) (I.state c.inn)) l.connections.items; fail_opens = l.fail_opens.items; calls = l.calls; faults = l.faults } };

    ghost invariant = { λ l. (vec_len l.asked ≤ vec_capacity l.links) × (vec_len l.links ≤ vec_len l.asked) × (l.accepted ≤ vec_capacity l.connections) × (vec_len l.connections ≤ l.accepted) };
}

impl<I: In> MemLinks<I> {
    /// Nothing was opened or accepted yet. It takes no memory.
    pub fn new(alloc: Global, fail_opens: Vec<u32>) -> Self
        ensures { result ≡ record { asked = []; accepted = 0; back = []; done = []; fail_opens = fail_opens.items; calls = 0; faults = 0 } }
    {
        MemLinks {
            alloc,
            fail_opens,
            calls: 0,
            asked: Vec::new(alloc),
            accepted: 0,
            faults: 0,
            links: Vec::new(alloc),
            connections: Vec::new(alloc),
        }
    }

    /// The writing half of the next link, with the room for its `back`.
    pub fn open(&mut self, spec: &LinkSpec, shape: Shape) -> Result<Shaped<MemOut>, OpenFault>
        requires piece { 0 < shape.piece }
        requires few { length self.old.asked < 256 }
        ensures out { IfOk result (λ out. out ≡ new_half (length self.old.asked) shape) }
        ensures links { IfOk result (λ _. self.new ≡ record self.old { asked = self.old.asked ++ spec.now ∷ []; calls = next_number self.old.calls }) }
        ensures refused { OnErr result (self.new ≡ record self.old { calls = next_number self.old.calls; faults = self.new.faults }) }
        ensures cause { OpenCause self.old.faults self.new.faults result }
        ensures failed_at { IsErrOf result OpenFault.Failed ↔ Contains self.old.fail_opens (next_number self.old.calls) }
    {
        self.calls = next_call(self.calls);
        if is_counted(&self.fail_opens, self.calls) {
            self.faults = risen(self.faults);
            return Err(OpenFault::Failed);
        }
        let opened = self.asked.len();
        let room = opened + 1 - self.links.len();
        if self.asked.reserve(1).is_err() || self.links.reserve(room).is_err() {
            return Err(OpenFault::NoMemory);
        }
        match Shaped::new(self.alloc, MemOut::new(opened as u16), shape) {
            Ok(out) => {
                self.asked.push_reserved(*spec);
                Ok(out)
            }
            Err(_) => Err(OpenFault::NoMemory),
        }
    }

    /// The writing half of the next connection, with the room for its `done`.
    pub fn accept(&mut self) -> Result<Shaped<MemOut>, OpenFault>
        requires { self.old.accepted < 256 }
        ensures out { IfOk result (λ out. out ≡ new_half 0 plain_shape) }
        ensures links { IfOk result (λ _. self.new ≡ record self.old { accepted = self.old.accepted + 1 }) }
        ensures refused { OnErr result (self.new ≡ self.old) }
        ensures never { ¬ IsErrOf result OpenFault.Failed }
    {
        let room = self.accepted as usize + 1 - self.connections.len();
        if self.connections.reserve(room).is_err() {
            return Err(OpenFault::NoMemory);
        }
        match Shaped::new(self.alloc, MemOut::new(0), Shape::plain()) {
            Ok(out) => {
                self.accepted += 1;
                Ok(out)
            }
            Err(_) => Err(OpenFault::NoMemory),
        }
    }

    /// Takes a connection back.
    pub fn done(&mut self, out: Shaped<MemOut>, inn: I)
        requires { length self.old.done < self.old.accepted }
        ensures { self.new ≡ record self.old { done = self.old.done ++ end_of (shaped_out out) (I.state inn) ∷ [] } }
    {
        match self.connections.push(Connection { out, inn }) {
            Ok(()) => {}
            Err(_) => unreachable!(),
        }
    }

    /// Takes a link back.
    pub fn back(&mut self, ends: Ends<Shaped<MemOut>, I, NoPeer>)
        requires { length self.old.back < length self.old.asked }
        ensures { self.new ≡ record self.old { back = self.old.back ++ end_of (shaped_out ends.out) (I.state ends.inn) ∷ [] } }
    {
        match self.links.push(ends) {
            Ok(()) => {}
            Err(_) => unreachable!(),
        }
    }
}
