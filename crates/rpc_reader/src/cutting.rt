// The whole frames of what a link gave.
ghost use Rattle.rpc_reader.specs.ReaderIdSeat.{IsOpen, Rests};
ghost use Rattle.rpc_reader.specs.ReaderBooks.{books};
ghost use Rattle.rpc_reader.specs.Met.{MetAll};
ghost use Rattle.rpc_reader.specs.LinkReading.{StopsAt};

use crate::books::AnswerSeat;
use crate::meeting::meet;
use call_table::Call;
use corr_id::IdTable;
use prpc_frame::{Cutter, NextFault};
use std::sync::Wait;

/// Why no further frame is cut.
#[derive(Clone, Copy, Debug, PartialEq, Eq)]
pub enum Stop {
    /// No more is whole.
    Waits,
    /// What is left is no frame.
    Fault,
    NoMemory,
}

/// Each frame that is whole is met, in order.
pub fn meet_all<R: Wait>(
    rt: &R,
    ids: &IdTable<Call>,
    calls: &mut AnswerSeat,
    cutter: &mut Cutter,
) -> Stop
    requires { IsOpen ids.now.table.shared.table_id calls.old.seat }
    ensures rest { Rests calls.old.seat calls.new.seat }
    ensures met { MetAll ids.now.plan.slots cutter.old.bytes cutter.new.bytes (books calls.old) (books calls.new) }
    ensures stops { StopsAt result cutter.new.bytes }
{
    'frames: loop {
        match cutter.next() {
            Ok(Some(frame)) => {
                meet(rt, ids, calls, frame);
                if calls.starved {
                    return Stop::NoMemory;
                }
            }
            Ok(None) => return Stop::Waits,
            Err(NextFault::Frame(_)) => return Stop::Fault,
            Err(NextFault::NoMemory) => return Stop::NoMemory,
        }
    }
}
