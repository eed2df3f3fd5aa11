ghost use Rattle.std.specs.Prelude.{◌≡◌, ◌<◌, [], Ok, IfOk, OnErr, OnOk, length};
ghost use Rattle.sock_io.specs.GivingLinker.{before_bytes, bytes_and_end, give_in, given_half, still_to_come, with_bytes, with_closing};
ghost use Rattle.sock_io.specs.LinksInMemory.{TakesWaiting};

use crate::ending::Ending;
use crate::link::{In, Take};
use crate::mem_link::MemIn;
use sock_words::NoMemory;
use std::alloc::Global;

/// A reading half in memory that gives stated bytes: at once, or when it is told that they are due. What it offers it
/// doesn't tell: the bytes are whatever was stated, and no reply of a server.
#[derive(Drop)]
pub struct GiveIn {
    inner: MemIn,
    /// Whether the bytes are still to come.
    waits: bool,
}

impl GiveIn {
    /// A half whose bytes are to come.
    pub(crate) fn new(alloc: Global) -> Self
        ensures { result ≡ before_bytes }
    {
        GiveIn {
            inner: MemIn::new(alloc, Ending::Open),
            waits: true,
        }
    }

    /// A half that gives these bytes and then its end.
    pub(crate) fn ended(alloc: Global, bytes: &[u8]) -> Result<Self, NoMemory>
        ensures { IfOk result (λ half. half ≡ bytes_and_end bytes.now) }
    {
        let mut inner = MemIn::new(alloc, Ending::Open);
        inner.give(bytes)?;
        inner.end();
        Ok(GiveIn {
            inner,
            waits: false,
        })
    }

    /// The bytes come, where they are due and didn't come before.
    pub(crate) fn hand(&mut self, due: bool, bytes: &[u8]) -> Result<(), NoMemory>
        ensures ok { OnOk result (self.new ≡ with_bytes due bytes.now self.old) }
        ensures err { OnErr result (self.new ≡ self.old) }
        ensures nothing { bytes.now ≡ [] → result ≡ Ok tt }
    {
        if self.waits && due && self.inner.is_open() {
            if !bytes.is_empty() {
                self.inner.give(bytes)?;
            }
            self.waits = false;
        }
        Ok(())
    }

    /// Where the link was finished, the other end closes its half.
    pub(crate) fn close_where(&mut self, finished: bool)
        ensures { self.new ≡ with_closing finished self.old }
    {
        if finished {
            self.inner.close();
            self.waits = false;
        }
    }
}

impl In for GiveIn {
    ghost state = { give_in };

    fn take(&mut self, room: &mut [u8]) -> Take
        requires { 0 < length room.old }
        ensures half { TakesWaiting (given_half self.old) (given_half self.new) (length room.old) room.new result }
        ensures waits { still_to_come self.new ≡ still_to_come self.old }
    {
        self.inner.take(room)
    }
}
