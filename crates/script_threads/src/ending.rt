// What is left of calls once all clients and readers of a run have ended, and how the table of ids ends.
ghost use Rattle.std.specs.Prelude.{◌≡◌, ◌<◌, ◌≤◌, All, IfOk};
ghost use Rattle.std.specs.List.{flat_map};
ghost use Rattle.call_run.specs.CrewOfRun.{AreLeft};
ghost use Rattle.script_threads.specs.ServedScriptTold.{HasEnded};
ghost use Rattle.sock_words.specs.Totals.{total};

use corr_id::{IdSeat, IdTable};
use prpc_frame::Frame;
use rpc_client::Told;
use rpc_reader::{AnswerSeat, end_rest};
use script_parts::{NoMemory, join_all};
use sock_message::Call;
use sock_words::EEOF;
use std::alloc::{AllocError, Global};
use std::sync::Wait;

/// The responses of all of these, one behind the other.
fn gathered(alloc: Global, kept: Vec<Vec<Frame>>) -> Result<Vec<Frame>, AllocError>
    ensures { IfOk result (λ all. all.items ≡ flat_map (λ own. own.items) kept.items) }
{
    let mut all = Vec::new(alloc);
    'gathers: for mut own in kept {
        all.append(&mut own)?;
    }
    Ok(all)
}

/// One of these seats takes in the others. Each of these calls that hasn't ended ends then, with the first response that a reader
/// kept for it, or as at the end of its link; and the table of ids is closed. What became of the calls that ended here.
pub fn end_calls<R: Wait>(
    rt: &R,
    alloc: Global,
    ids: IdTable<Call>,
    seats: Vec<IdSeat<Call>>,
    operations: &[u16],
    kept: Vec<Vec<Frame>>,
) -> Result<Vec<Told>, NoMemory>
    requires seats { AreLeft ids.table.shared.table_id seats.items }
    requires all { total (λ s. s.me.0.share) seats.items ≡ ids.plan.seats }
    requires some { (1 ≤ ids.plan.seats) × (1 ≤ ids.plan.operations) }
    requires operations { All (λ o. o < ids.plan.operations) operations.now }
    ensures { IfOk result (λ told. HasEnded ids.plan operations.now seats.items (flat_map (λ own. own.items) kept.items) told.items) }
{
    let early = gathered(alloc, kept)?;
    let mut done = Vec::with_capacity(alloc, 1)?;
    let mut calls = AnswerSeat {
        seat: join_all(&ids, seats),
        early,
        told: Vec::new(alloc),
        starved: false,
        alloc,
    };
    end_rest(rt, &ids, &mut calls, operations, EEOF);
    let AnswerSeat {
        seat,
        early: _,
        told,
        starved,
        alloc: _,
    } = calls;
    done.push_reserved(seat);
    let Ok(_words) = ids.close(alloc, done) else {
        return Err(NoMemory);
    };
    if starved {
        return Err(NoMemory);
    }
    Ok(told)
}
