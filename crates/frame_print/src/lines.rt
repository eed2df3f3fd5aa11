ghost use Rattle.std.specs.Prelude.{◌≡◌, ◌++◌, [], IfOk, MatchBool, length, take, Some};
ghost use Rattle.brpc_model.specs.FramesText.{frame_line};
ghost use Rattle.frame_print.specs.FrameLineView.{frame_viewed};
ghost use Rattle.frame_print.specs.TextWrittenToSink.{Writes, Gathers};

use crate::frame_text::print_frame;
use crate::output::write_all;
use crate::view::FrameView;
use prpc_frame::NoMemory;
use sock_io::{Failed, Sink};
use std::alloc::Global;
use std::marker::Model;

/// So much room the lines have that wait.
const ROOM: usize = 65_536;

/// The line of a frame with more bytes isn't gathered.
const MOST: usize = 16_384;

/// Lines that wait to be written. Contracts see their bytes, and how often they found no room.
#[derive(Drop)]
pub struct Lines {
    bytes: Vec<u8>,
    faults: u64,
}

impl Model for Lines {
    ghost use Rattle.frame_print.specs.TextWrittenToSink.{LinesState};

    ghost Value = { LinesState };

    ghost view = { λ l. record { bytes = l.bytes.items; faults = l.faults } };
}

impl Lines {
    /// None yet.
    pub fn new(alloc: Global) -> Result<Lines, NoMemory>
        ensures { IfOk result (λ l. l.bytes ≡ []) }
    {
        let bytes = Vec::with_capacity(alloc, ROOM)?;
        Ok(Lines { bytes, faults: 0 })
    }

    fn len(&self) -> usize
        ensures { result ≡ length self.now.bytes }
    {
        self.bytes.len()
    }

    fn truncate(&mut self, len: usize)
        ensures { self.new.bytes ≡ take len self.old.bytes }
    {
        self.bytes.truncate(len);
    }

    /// Writes them. Where the sink fails the rest of them is lost.
    pub fn flush<K: Sink>(&mut self, out: &mut K) -> Result<(), Failed>
        ensures writes { Writes (K.state out.old) (K.state out.new) self.old.bytes result }
        ensures none { self.new.bytes ≡ [] }
    {
        let written = write_all(out, self.bytes.as_slice());
        self.bytes.clear();
        written
    }

    /// One more line, unless it is long or finds no room.
    fn gather(&mut self, frame: &FrameView) -> bool
        ensures { MatchBool result (self.new.bytes ≡ self.old.bytes ++ frame_line (frame_viewed frame.now)) (self.new.bytes ≡ self.old.bytes) }
    {
        if frame.payload.len() > MOST || frame.attachment.len() > MOST {
            return false;
        }
        let before = self.len();
        match print_frame(self, frame) {
            Ok(()) => true,
            Err(Failed) => {
                self.truncate(before);
                false
            }
        }
    }

    /// The line of a frame. It waits where it finds room; otherwise those before it are written, and
    /// then it waits, or is written too where it is long.
    pub fn print<K: Sink>(&mut self, out: &mut K, frame: &FrameView) -> Result<(), Failed>
        ensures { Gathers (K.state out.old) (K.state out.new) self.old.bytes self.new.bytes (frame_line (frame_viewed frame.now)) result }
    {
        if self.gather(frame) {
            return Ok(());
        }
        self.flush(out)?;
        if self.gather(frame) {
            return Ok(());
        }
        print_frame(out, frame)
    }
}

impl Sink for Lines {
    ghost state = { λ l. record { contents = Some l.bytes; faults = l.faults } };

    fn write(&mut self, piece: &[u8]) -> Result<usize, Failed> {
        if piece.len() > self.bytes.capacity() - self.bytes.len() {
            self.faults = self.faults.saturating_add(1);
            return Err(Failed);
        }
        match self.bytes.extend_from_slice(piece) {
            Ok(()) => Ok(piece.len()),
            Err(_) => {
                self.faults = self.faults.saturating_add(1);
                Err(Failed)
            }
        }
    }
}
