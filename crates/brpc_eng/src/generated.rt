ghost use Rattle.brpc_eng.specs.StatusNumbers.{number_of};
ghost use Rattle.brpc_eng.specs.ProgramAnswers.{Generated, sink_over};

use crate::draw::Draw;
use crate::status::Status;
use script_draw::generate;
use script_print::{PrintFault, print_script};
use sock_io::Sink;
use std::alloc::Global;

/// Draws a script and prints it.
pub fn print_generated<K: Sink>(alloc: Global, draw: &Draw, out: &mut K) -> Status
    ensures { Generated draw.now.seed draw.now.clients draw.now.operations (sink_over (K.state out.old) (K.state out.new)) (number_of result) }
{
    let seed = u64::from(draw.seed);
    let Ok(lines) = generate(alloc, seed, draw.clients as u16, draw.operations as u16) else {
        return Status::NoMemory;
    };
    match print_script(alloc, &lines, out) {
        Ok(()) => Status::Done,
        Err(PrintFault::Sink) => Status::SinkFailed,
        Err(PrintFault::NoMemory) => Status::NoMemory,
    }
}
