ghost use Rattle.std.specs.Prelude.{◌≡◌, [], false, None, IfOk, OnOk};
ghost use Rattle.frame_print.specs.PrintedFrames.{PrintsFrames, edges_over};
ghost use Rattle.frame_print.specs.Cutting.{CutsWhole, EndsStopped, Judges, RestPrinted};

use crate::ending_text::{print_fault, print_rest};
use crate::lines::Lines;
use crate::view::{FrameView, front_view};
use prpc_frame::{BlockPool, Cutter, FrameFault, NextFault};
use sock_io::{Failed, Sink, Source};
use std::alloc::Global;

/// The most bytes whose frames are printed.
const FRAMES_LIMIT: usize = 268_435_456;

/// The most bytes that are read at once.
const ROOM: usize = 65_536;

/// How a stream ended whose text was printed.
#[derive(Clone, Copy, PartialEq, Eq)]
pub enum StreamEnd {
    /// In a rest, at the end of the source.
    Rest,
    /// In a fault, behind which nothing more is read.
    Fault,
}

/// Why printing stopped.
#[derive(Clone, Copy, PartialEq, Eq)]
pub enum PrintFault {
    /// A read failed.
    Source,
    /// A write failed, and the bytes that came have no fault.
    Sink,
    /// More than 268,435,456 bytes came.
    TooLong,
    NoMemory,
}

/// Prints a line for each frame of the bytes that a source gives, before it is asked for more, and then the line of
/// the rest or of the first fault.
///
/// Where the sink fails nothing more is read or written. The bytes that came are then judged to their end, so that it ends
/// in a fault exactly where they have one.
///
/// It holds one frame and the bytes of one read behind it, and at most one byte more is read than 268,435,456. The lines of
/// the frames of one read are written together, before the next.
pub fn print_frames<S: Source, K: Sink>(
    alloc: Global,
    source: &mut S,
    out: &mut K,
) -> Result<StreamEnd, PrintFault>
    ensures { PrintsFrames (edges_over (S.state source.old) (S.state source.new) (K.state out.old) (K.state out.new)) result }
{
    match Lines::new(alloc) {
        Ok(mut lines) => print_all(alloc, source, out, &mut lines),
        Err(_) => Err(PrintFault::NoMemory),
    }
}

// The same, with room for the lines.
fn print_all<S: Source, K: Sink>(
    alloc: Global,
    source: &mut S,
    out: &mut K,
    lines: &mut Lines,
) -> Result<StreamEnd, PrintFault>
    requires { lines.old.bytes ≡ [] }
    ensures { PrintsFrames (edges_over (S.state source.old) (S.state source.new) (K.state out.old) (K.state out.new)) result }
{
    let mut pool = BlockPool::new(alloc);
    let mut cutter = Cutter::new(alloc);
    print_each(source, out, lines, &mut pool, &mut cutter)
}

// The same, with a cutter that holds nothing yet.
fn print_each<S: Source, K: Sink>(
    source: &mut S,
    out: &mut K,
    lines: &mut Lines,
    pool: &mut BlockPool,
    cutter: &mut Cutter,
) -> Result<StreamEnd, PrintFault>
    requires gathered { lines.old.bytes ≡ [] }
    requires held { cutter.old.bytes ≡ [] }
    requires untold { cutter.old.told ≡ false }
    ensures { PrintsFrames (edges_over (S.state source.old) (S.state source.new) (K.state out.old) (K.state out.new)) result }
{
    let mut room = [0; ROOM];
    let mut read = 0;
    loop {
        let most = ROOM.min(FRAMES_LIMIT - read).max(1);
        let piece = &mut room[..most];
        let count = match source.read(piece) {
            Ok(count) => count,
            Err(Failed) => return Err(PrintFault::Source),
        };
        if count == 0 {
            return end_in_rest(out, cutter.held());
        }
        if read == FRAMES_LIMIT {
            return Err(PrintFault::TooLong);
        }
        if cutter.feed(pool, &piece[..count]).is_err() {
            return Err(PrintFault::NoMemory);
        }
        read += count;
        let whole = match print_whole(cutter, out, lines) {
            Ok(whole) => whole,
            Err(stopped) => return end_stopped(cutter, stopped),
        };
        if let Some(met) = whole {
            let _ = print_fault(out, read - met.len, met.fault);
            return Ok(StreamEnd::Fault);
        }
    }
}

// A fault that was met, and how many bytes came from the beginning of its frame on.
#[derive(Clone, Copy)]
struct Met {
    fault: FrameFault,
    len: usize,
}

// Prints each frame that is whole, up to the first fault. Its lines are gathered, and written before it returns.
fn print_whole<K: Sink>(
    cutter: &mut Cutter,
    out: &mut K,
    lines: &mut Lines,
) -> Result<Option<Met>, PrintFault>
    requires none { lines.old.bytes ≡ [] }
    requires untold { cutter.old.told ≡ false }
    ensures cuts { CutsWhole cutter.old.bytes (K.state out.old) cutter.new.bytes (K.state out.new) result }
    ensures none { OnOk result (lines.new.bytes ≡ []) }
    ensures untold { IfOk result (λ met. met ≡ None → cutter.new.told ≡ false) }
{
    loop {
        if let Some(frame) = cutter.front() {
            let size = frame.size;
            let printed = lines.print(out, &front_view(frame));
            cutter.skip(size);
            if printed.is_err() {
                return Err(PrintFault::Sink);
            }
            continue;
        }
        let len = cutter.held();
        match cutter.next() {
            Ok(Some(frame)) => {
                if lines.print(out, &FrameView::of(&frame)).is_err() {
                    drop(frame);
                    return Err(PrintFault::Sink);
                }
                drop(frame);
            }
            Ok(None) => {
                return match lines.flush(out) {
                    Ok(()) => Ok(None),
                    Err(Failed) => Err(PrintFault::Sink),
                };
            }
            Err(NextFault::Frame(fault)) => {
                return match lines.flush(out) {
                    Ok(()) => Ok(Some(Met { fault, len })),
                    Err(Failed) => Err(PrintFault::Sink),
                };
            }
            Err(NextFault::NoMemory) => {
                return match lines.flush(out) {
                    Ok(()) => Err(PrintFault::NoMemory),
                    Err(Failed) => Err(PrintFault::Sink),
                };
            }
        }
    }
}

// How it ends where printing the frames stopped.
fn end_stopped(cutter: &mut Cutter, stopped: PrintFault) -> Result<StreamEnd, PrintFault>
    ensures { EndsStopped cutter.old.bytes cutter.new.bytes stopped result }
{
    match stopped {
        PrintFault::Sink => judge_whole(cutter),
        other => Err(other),
    }
}

// The sink failed: how the bytes end that came.
fn judge_whole(cutter: &mut Cutter) -> Result<StreamEnd, PrintFault>
    ensures { Judges cutter.old.bytes cutter.new.bytes result }
{
    loop {
        match cutter.next() {
            Ok(Some(frame)) => drop(frame),
            Ok(None) => return Err(PrintFault::Sink),
            Err(NextFault::Frame(_)) => return Ok(StreamEnd::Fault),
            Err(NextFault::NoMemory) => return Err(PrintFault::NoMemory),
        }
    }
}

// Prints the line of the rest.
fn end_in_rest<K: Sink>(out: &mut K, len: usize) -> Result<StreamEnd, PrintFault>
    ensures { RestPrinted (K.state out.old) (K.state out.new) len result }
{
    match print_rest(out, len) {
        Ok(()) => Ok(StreamEnd::Rest),
        Err(Failed) => Err(PrintFault::Sink),
    }
}
