ghost use Rattle.std.specs.Prelude.{◌≡◌, ◌≢◌};
ghost use Rattle.brpc_eng.specs.StatusNumbers.{number_of};
ghost use Rattle.brpc_eng.specs.ProgramAnswers.{FramesPrinted, frames_status, sink_over, source_over};

use crate::status::Status;
use frame_print::{PrintFault, StreamEnd, print_frames};
use sock_io::{Sink, Source};
use std::alloc::Global;

/// Prints the frames of the input.
pub fn frames<S: Source, K: Sink>(alloc: Global, source: &mut S, out: &mut K) -> Status
    ensures printed { FramesPrinted (source_over (S.state source.old) (S.state source.new)) (sink_over (K.state out.old) (K.state out.new)) (number_of result) }
    ensures source { number_of result ≢ 4 → (S.state source.new).faults ≡ (S.state source.old).faults }
{
    status_of(print_frames(alloc, source, out))
}

/// The status of an ending.
fn status_of(ended: Result<StreamEnd, PrintFault>) -> Status
    ensures { number_of result ≡ frames_status ended }
{
    match ended {
        Ok(StreamEnd::Rest) => Status::Done,
        Ok(StreamEnd::Fault) => Status::FaultyFrames,
        Err(PrintFault::Source) => Status::SourceFailed,
        Err(PrintFault::Sink) => Status::SinkFailed,
        Err(PrintFault::TooLong) => Status::TooLong,
        Err(PrintFault::NoMemory) => Status::NoMemory,
    }
}
