ghost use Rattle.std.specs.Prelude.{◌≡◌, ◌↔◌, ◌⊎◌, ◌-◌, ◌<◌, ◌≤◌, Contains, IfOk, IsErr, Some, [], length, min};
ghost use Rattle.std.specs.Io.KnownBytes.{WriteAppends};
ghost use Rattle.sock_io.specs.FaultCauses.{HasCause, next_number};

use crate::counts::{is_listed, next_call, risen};
use crate::room::with_room;
use crate::stream::{Failed, Sink};
use sock_words::NoMemory;
use std::alloc::Global;
use std::marker::Model;

/// Takes bytes into the room that it reserved. Its calls with the numbers in `fail`, counted from 1, answer `Failed`,
/// and so do those that find the room full.
#[derive(Drop)]
pub struct MemSink {
    bytes: Vec<u8>,
    room: usize,
    fail: Vec<u64>,
    calls: u64,
    faults: u64,
}

impl Model for MemSink {
    ghost use Rattle.std.specs.Prelude.{◌≤◌, vec_capacity, vec_len};
    ghost use Rattle.sock_io.specs.LinksInMemory.{MemSinkState};

    ghost Value = { MemSinkState };

    ghost view = { λ s. record { contents = s.bytes.items; room = s.room; fail = s.fail.items; calls = s.calls; faults = s.faults } };

    ghost invariant = { λ s. (s.room ≤ vec_capacity s.bytes) × (vec_len s.bytes ≤ s.room) };
}

impl MemSink {
    /// A sink that takes this many bytes.
    pub fn new(alloc: Global, room: usize, fail: Vec<u64>) -> Result<Self, NoMemory>
        ensures { IfOk result (λ sink. sink ≡ record { contents = []; room = room; fail = fail.items; calls = 0; faults = 0 }) }
    {
        let bytes = with_room(alloc, room)?;
        Ok(MemSink {
            bytes,
            room,
            fail,
            calls: 0,
            faults: 0,
        })
    }

    /// What it took.
    pub fn bytes(&self) -> &[u8]
        ensures { result.now ≡ self.now.contents }
    {
        self.bytes.as_slice()
    }
}

impl Sink for MemSink {
    ghost state = { λ s. record { contents = Some s.contents; faults = s.faults } };

    fn write(&mut self, piece: &[u8]) -> Result<usize, Failed>
        requires { 0 < length piece.now }
        ensures count { IfOk result (λ n. (0 < n) × (n ≤ length piece.now)) }
        ensures bytes { WriteAppends (Some self.old.contents) (Some self.new.contents) result piece.now }
        ensures cause { HasCause self.old.faults self.new.faults result }
        ensures calls { self.new.calls ≡ next_number self.old.calls }
        ensures fail { self.new.fail ≡ self.old.fail }
        ensures room { self.new.room ≡ self.old.room }
        ensures failed { IsErr result ↔ ((self.old.room ≡ length self.old.contents) ⊎ Contains self.old.fail self.new.calls) }
        ensures all { IfOk result (λ n. n ≡ min (length piece.now) (self.old.room - length self.old.contents)) }
    {
        self.calls = next_call(self.calls);
        let free = self.room - self.bytes.len();
        if free == 0 || is_listed(&self.fail, self.calls) {
            self.faults = risen(self.faults);
            return Err(Failed);
        }
        let count = piece.len().min(free);
        match self.bytes.extend_from_slice(&piece[..count]) {
            Ok(()) => Ok(count),
            Err(_) => unreachable!(),
        }
    }
}
