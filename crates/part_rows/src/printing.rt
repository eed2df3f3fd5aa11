ghost use Rattle.std.specs.Prelude.{Some, None};

use frame_print::{StreamEnd, print_frames};
use sock_io::{Failed, MemSource, Sink, Source};
use std::cell::Cell;
use std::rc::Rc;
use std::test::Fail;

/// Request 2 of the service and the method Echo with the payload "hi", in the layout of brpc's baidu_std.md.
const REQUEST: &[u8; 30] =
    b"PRPC\x00\x00\x00\x12\x00\x00\x00\x10\x0a\x0c\x0a\x04Echo\x12\x04Echo\x20\x02hi";

/// How long its line is.
const LINE: usize = 74;

/// Counts what it takes.
#[derive(Drop)]
struct Counter {
    taken: Rc<Cell<usize>>,
}

impl Sink for Counter {
    ghost state = { λ s. record { contents = None; faults = 0 } };

    fn write(&mut self, piece: &[u8]) -> Result<usize, Failed> {
        self.taken.set(self.taken.get().saturating_add(piece.len()));
        Ok(piece.len())
    }
}

/// Gives a frame and a half a read, and notes how much was written by then.
#[derive(Drop)]
struct Watcher {
    inner: MemSource,
    taken: Rc<Cell<usize>>,
    seen: [usize; 4],
    reads: usize,
}

impl Source for Watcher {
    ghost state = { λ s. record { left = Some s.inner.left; faults = s.inner.faults } };

    fn read(&mut self, room: &mut [u8]) -> Result<usize, Failed> {
        if let Some(seen) = self.seen.get_mut(self.reads) {
            *seen = self.taken.get();
        }
        self.reads = self.reads.saturating_add(1);
        let most = room.len().min(45);
        self.inner.read(&mut room[..most])
    }
}

// The lines of all frames that are whole are written before the source is asked again.
#[test]
fn holds_no_line_back(rt: HostRuntime) -> Result<(), Fail> {
    let alloc = rt.alloc();
    let taken = Rc::new(alloc, Cell::new(0))?;
    let mut bytes = Vec::new(alloc);
    for _ in 0..3 {
        bytes.extend_from_slice(REQUEST)?;
    }
    let mut source = Watcher {
        inner: MemSource::new(bytes, Vec::new(alloc)),
        taken: taken.clone()?,
        seen: [0; 4],
        reads: 0,
    };
    let mut out = Counter { taken };
    assert!(rt; print_frames(alloc, &mut source, &mut out) == Ok(StreamEnd::Rest));
    assert!(rt; source.seen == [0, LINE, 3 * LINE, 0]);
    assert!(rt; source.reads == 3);
    Ok(())
}
