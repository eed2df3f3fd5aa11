ghost use Rattle.std.specs.Prelude.{◌≡◌};

use crate::counts::risen;
use crate::stream::{Failed, Sink, Source};
use std::io::{Read, Write};
use std::marker::Model;

/// A reader of std as a source, or a writer as a sink. Each `Err` of it is a fault, and so is a write that takes nothing.
#[derive(Drop)]
pub struct StdEdge<T: Drop> {
    inner: T,
    faults: u64,
}

impl<T: Drop> Model for StdEdge<T> {
    ghost use Rattle.sock_io.specs.Edge.{EdgeState};

    ghost Value = { EdgeState T };

    ghost view = { λ e. record { inner = e.inner; faults = e.faults } };
}

impl<T: Drop> StdEdge<T> {
    /// Over this reader or writer, with no fault so far.
    pub fn new(inner: T) -> Self
        ensures { result ≡ record { inner = inner; faults = 0 } }
    {
        StdEdge { inner, faults: 0 }
    }
}

impl<R: Read + Drop> Source for StdEdge<R> {
    ghost state = { λ e. record { left = R.remaining e.inner; faults = e.faults } };

    fn read(&mut self, room: &mut [u8]) -> Result<usize, Failed> {
        match self.inner.read(room) {
            Ok(count) => Ok(count),
            Err(_) => {
                self.faults = risen(self.faults);
                Err(Failed)
            }
        }
    }
}

impl<W: Write + Drop> Sink for StdEdge<W> {
    ghost state = { λ e. record { contents = W.contents e.inner; faults = e.faults } };

    fn write(&mut self, piece: &[u8]) -> Result<usize, Failed> {
        match self.inner.write(piece) {
            Ok(count) if count > 0 => Ok(count),
            _ => {
                self.faults = risen(self.faults);
                Err(Failed)
            }
        }
    }
}
