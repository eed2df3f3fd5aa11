// A link is read to its end.
ghost use Rattle.std.specs.Prelude.{◌≡◌, ◌+◌, ◌<◌, ◌≤◌, [], length, take};
ghost use Rattle.brpc_model.specs.Frame.{NoneYet, judged};
ghost use Rattle.rpc_reader.specs.ReaderIdSeat.{IsOpen, Rests};
ghost use Rattle.rpc_reader.specs.ReaderBooks.{books};
ghost use Rattle.rpc_reader.specs.LinkReading.{held_by, code_of, HeldMet, FedIn, ReadOnce, ReadBy};

use crate::books::AnswerSeat;
use crate::cutting::{Stop, meet_all};
use call_table::Call;
use corr_id::IdTable;
use link_pauses::Pauses;
use prpc_frame::{BlockPool, Cutter};
use sock_io::{In, Take};
use sock_words::{EEOF, EINTERNAL, ERESPONSE};
use std::sync::Wait;

/// The most bytes that are read from a link.
pub const LIMIT: u32 = 16_777_216;

/// Why a reading has ended.
#[derive(Clone, Copy, Debug, PartialEq, Eq)]
pub enum How {
    /// The other end gave its end.
    End,
    /// The link was finished, and all was taken.
    Closed,
    /// The link failed.
    Failed,
    /// Nothing was there, and the run is ending.
    Empty,
    /// As many bytes came as are read from a link.
    Limit,
    /// What came is no frame.
    Fault,
    NoMemory,
}

impl How {
    /// The code with which the reading has ended.
    pub fn code(self) -> u16
        ensures code { result ≡ code_of self }
        ensures some { (0 < result) × (result < 4096) }
    {
        match self {
            How::Fault => ERESPONSE,
            How::NoMemory => EINTERNAL,
            How::End | How::Closed | How::Failed | How::Empty | How::Limit => EEOF,
        }
    }
}

/// What came over a link: how many bytes, and the cutter to which they were fed.
#[derive(Drop)]
pub struct Intake {
    pub cutter: Cutter,
    pub pool: BlockPool,
    pub total: u32,
}

// The frames that are whole are met. More is taken where none is whole below the limit.
fn meet_held<R: Wait>(
    rt: &R,
    ids: &IdTable<Call>,
    calls: &mut AnswerSeat,
    intake: &mut Intake,
) -> Option<How>
    requires seat { IsOpen ids.now.table.shared.table_id calls.old.seat }
    requires few { intake.old.total ≤ 16777216 }
    ensures rest { Rests calls.old.seat calls.new.seat }
    ensures total { intake.new.total ≡ intake.old.total }
    ensures met { HeldMet ids.now.plan.slots (held_by intake.old) result intake.new (books calls.old) (books calls.new) }
{
    match meet_all(rt, ids, calls, &mut intake.cutter) {
        Stop::Fault => Some(How::Fault),
        Stop::NoMemory => Some(How::NoMemory),
        Stop::Waits => {
            if intake.total < LIMIT {
                None
            } else {
                Some(How::Limit)
            }
        }
    }
}

/// A piece is fed, and the frames that are whole by it are met.
pub fn take_in<R: Wait>(
    rt: &R,
    ids: &IdTable<Call>,
    calls: &mut AnswerSeat,
    intake: &mut Intake,
    piece: &[u8],
) -> Option<How>
    requires seat { IsOpen ids.now.table.shared.table_id calls.old.seat }
    requires waits { judged (held_by intake.old) ≡ NoneYet }
    requires few { intake.old.total + length piece.now ≤ 16777216 }
    ensures rest { Rests calls.old.seat calls.new.seat }
    ensures total { intake.new.total ≡ intake.old.total + length piece.now }
    ensures fed { FedIn ids.now.plan.slots piece.now result intake.old intake.new (books calls.old) (books calls.new) }
{
    intake.total += piece.len() as u32;
    match intake.cutter.feed(&mut intake.pool, piece) {
        Ok(()) => meet_held(rt, ids, calls, intake),
        Err(_) => Some(How::NoMemory),
    }
}

// One take into this room, and what comes of it. Where nothing is there it waits, unless the run is ending.
fn read_once<I: In, R: Wait>(
    rt: &R,
    ids: &IdTable<Call>,
    calls: &mut AnswerSeat,
    intake: &mut Intake,
    inn: &mut I,
    room: &mut [u8],
    ending: bool,
    pauses: &Pauses,
) -> Option<How>
    requires seat { IsOpen ids.now.table.shared.table_id calls.old.seat }
    requires waits { judged (held_by intake.old) ≡ NoneYet }
    requires below { intake.old.total < 16777216 }
    requires room { (0 < length room.old) × (intake.old.total + length room.old ≤ 16777216) }
    ensures rest { Rests calls.old.seat calls.new.seat }
    ensures read { ReadOnce ids.now.plan.slots ending result (I.state inn.old) (I.state inn.new) intake.old intake.new (books calls.old) (books calls.new) }
{
    match inn.take(room) {
        Take::Took(count) => {
            pauses.reset();
            take_in(rt, ids, calls, intake, &room[..count])
        }
        Take::Empty => {
            if ending {
                Some(How::Empty)
            } else {
                pauses.pause(rt);
                None
            }
        }
        Take::End => Some(How::End),
        Take::Closed => Some(How::Closed),
        Take::Failed => Some(How::Failed),
    }
}

/// How many bytes may be taken at once, behind so many: at most 4,096, and none past the limit.
pub fn room_behind(total: u32) -> usize
    requires { total < 16777216 }
    ensures { (0 < result) × (result ≤ 4096) × (total + result ≤ 16777216) }
{
    let left = LIMIT - total;
    if left < 4096 { left as usize } else { 4096 }
}

/// The link is read, and the frames of its bytes are met, until its reading has ended.
/// A reader cuts responses out of what its link gives and ends their calls by their correlation ids (io.md, baidu_std.md).
pub fn read_all<I: In, R: Wait>(
    rt: &R,
    ids: &IdTable<Call>,
    calls: &mut AnswerSeat,
    intake: &mut Intake,
    inn: &mut I,
    ending: bool,
) -> How
    requires seat { IsOpen ids.now.table.shared.table_id calls.old.seat }
    requires new { (held_by intake.old ≡ []) × (intake.old.total ≡ 0) }
    ensures rest { Rests calls.old.seat calls.new.seat }
    ensures read { ReadBy ids.now.plan.slots ending result (I.state inn.old) (I.state inn.new) intake.new.total (books calls.old) (books calls.new) }
{
    let pauses = Pauses::new();
    let mut room = [0u8; 4096];
    'reads: for _ in rt.forever() {
        let count = room_behind(intake.total);
        let part = &mut room[..count];
        if let Some(how) = read_once(rt, ids, calls, intake, inn, part, ending, &pauses) {
            return how;
        }
    }
    unreachable!()
}
