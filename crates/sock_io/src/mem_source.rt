ghost use Rattle.std.specs.Prelude.{◌≡◌, ◌↔◌, ◌<◌, ◌≤◌, Contains, IfOk, IfSome, IsErr, Some, [], drop, length, min, take};
ghost use Rattle.std.specs.Io.{ReadsAtMost};
ghost use Rattle.std.specs.Io.KnownBytes.{ReadConsumes};
ghost use Rattle.sock_io.specs.FaultCauses.{HasCause, next_number};

use crate::counts::{is_listed, next_call, risen};
use crate::stream::{Failed, Source};
use std::marker::Model;

/// What stands behind a place.
pub(crate) fn from_place(bytes: &[u8], at: usize) -> &[u8]
    requires { at ≤ length bytes.now }
    ensures { result.now ≡ drop at bytes.now }
{
    &bytes[at..]
}

/// Copies as much of the bytes to the front of the room as it takes.
pub(crate) fn copy_front(bytes: &[u8], room: &mut [u8]) -> usize
    ensures count { result ≡ min (length bytes.now) (length room.old) }
    ensures copied { take result room.new ≡ take result bytes.now }
{
    let count = bytes.len().min(room.len());
    room[..count].copy_from_slice(&bytes[..count]);
    count
}

/// Gives these bytes, as many a call as the room takes. Its calls with the numbers in `fail`, counted from 1, answer
/// `Failed`.
#[derive(Drop)]
pub struct MemSource {
    bytes: Vec<u8>,
    at: usize,
    fail: Vec<u64>,
    calls: u64,
    faults: u64,
}

impl Model for MemSource {
    ghost use Rattle.std.specs.Prelude.{◌≤◌, drop, vec_len};
    ghost use Rattle.sock_io.specs.LinksInMemory.{MemSourceState};

    ghost Value = { MemSourceState };

    ghost view = { λ s. record { left = drop s.at s.bytes.items; fail = s.fail.items; calls = s.calls; faults = s.faults } };

    ghost invariant = { λ s. s.at ≤ vec_len s.bytes };
}

impl MemSource {
    pub fn new(bytes: Vec<u8>, fail: Vec<u64>) -> Self
        ensures { result ≡ record { left = bytes.items; fail = fail.items; calls = 0; faults = 0 } }
    {
        MemSource {
            bytes,
            at: 0,
            fail,
            calls: 0,
            faults: 0,
        }
    }
}

impl Source for MemSource {
    ghost state = { λ s. record { left = Some s.left; faults = s.faults } };

    fn read(&mut self, room: &mut [u8]) -> Result<usize, Failed>
        requires { 0 < length room.old }
        ensures bound { ReadsAtMost result room.new }
        ensures bytes { ReadConsumes (Some self.old.left) (Some self.new.left) result room.new }
        ensures end { IfOk result (λ n. IfSome (Some self.old.left) (λ bytes. (n ≡ 0) ↔ (bytes ≡ []))) }
        ensures cause { HasCause self.old.faults self.new.faults result }
        ensures calls { self.new.calls ≡ next_number self.old.calls }
        ensures fail { self.new.fail ≡ self.old.fail }
        ensures failed { IsErr result ↔ Contains self.old.fail self.new.calls }
        ensures count { IfOk result (λ n. n ≡ min (length self.old.left) (length room.old)) }
    {
        self.calls = next_call(self.calls);
        if is_listed(&self.fail, self.calls) {
            self.faults = risen(self.faults);
            return Err(Failed);
        }
        let rest = from_place(&self.bytes, self.at);
        let count = copy_front(rest, room);
        self.at += count;
        Ok(count)
    }
}
