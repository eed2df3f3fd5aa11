ghost use Rattle.std.specs.Prelude.{◌<◌, length};

use sock_io::{Failed, Sink, Source, StdEdge};
use std::io;
use std::io::{Read, Write};

/// Gives 3 bytes a call, and fails at the second one.
#[derive(Drop)]
struct ShakyReader {
    calls: u8,
}

impl Read for ShakyReader {
    fn read(&mut self, buf: &mut [u8]) -> io::Result<usize> {
        self.calls = self.calls.saturating_add(1);
        if self.calls == 2 {
            return Err(io::ErrorKind::Other.into());
        }
        let count = buf.len().min(3);
        buf[..count].fill(b'r');
        Ok(count)
    }
}

/// Takes 2 bytes a call; the second one fails, and the fourth one takes nothing.
#[derive(Drop)]
struct ShakyWriter {
    calls: u8,
}

impl Write for ShakyWriter {
    fn write(&mut self, buf: &[u8]) -> io::Result<usize> {
        self.calls = self.calls.saturating_add(1);
        match self.calls {
            2 => Err(io::ErrorKind::Other.into()),
            4 => Ok(0),
            _ => Ok(buf.len().min(2)),
        }
    }

    fn flush(&mut self) -> io::Result<()> {
        Ok(())
    }
}

fn read_from<S: Source>(source: &mut S, room: &mut [u8; 4]) -> Result<usize, Failed> {
    source.read(room)
}

fn write_to<S: Sink>(sink: &mut S, piece: &[u8]) -> Result<usize, Failed>
    requires { 0 < length piece.now }
{
    sink.write(piece)
}

#[test]
fn reader_that_fails_once(rt: HostRuntime) {
    let mut source = StdEdge::new(ShakyReader { calls: 0 });
    let mut room = [0; 4];
    for want in [Ok(3), Err(Failed), Ok(3)] {
        assert!(rt; read_from(&mut source, &mut room) == want);
    }
}

#[test]
fn writer_that_fails_once(rt: HostRuntime) {
    let mut sink = StdEdge::new(ShakyWriter { calls: 0 });
    for want in [Ok(2), Err(Failed), Ok(2), Err(Failed), Ok(2)] {
        assert!(rt; write_to(&mut sink, b"abc") == want);
    }
}
