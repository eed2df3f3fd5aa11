// A reader from its seats to what it tells.
ghost use Rattle.std.specs.Prelude.{◌≡◌, ◌<◌, ◌≤◌, [], false, All};
ghost use Rattle.std.specs.Result.{is_err};
ghost use Rattle.sock_table.specs.ClosedSocketTable.{IsDoneSeat};
ghost use Rattle.sock_table.specs.ReferenceCalls.{Knows};
ghost use Rattle.rpc_client.specs.SeatBetweenOperations.{Idle, MayAct, AtRest, SameRefs};
ghost use Rattle.rpc_client.specs.HoldAndDropOutcomes.{IsHolder};
ghost use Rattle.rpc_reader.specs.ReaderIdSeat.{IsOpen, Rests};
ghost use Rattle.rpc_reader.specs.ReaderBooks.{books};
ghost use Rattle.rpc_reader.specs.LinkReading.{code_of};
ghost use Rattle.rpc_reader.specs.ReaderRunFromOpen.{fails, throws, is_starved, FailedIf, ThrownIf, RanBy};

use crate::books::AnswerSeat;
use crate::failing::fail_id;
use crate::opening::wait_open;
use crate::posting::post_all;
use crate::reading::{How, Intake, read_all};
use crate::throwing::throw_all;
use call_table::Call;
use corr_id::{IdSeat, IdTable};
use prpc_frame::{BlockPool, Cutter, Frame, NoMemory};
use rpc_client::Told;
use sock_io::{In, Out};
use sock_rule::SockSeat;
use sock_table::SockTable;
use sock_words::SocketId;
use std::alloc::Global;
use std::sync::Wait;

/// The reader of a link: its seat of the sockets, and its part for calls.
#[derive(Drop)]
pub struct Reader<O: Out> {
    pub seat: SockSeat<O>,
    pub link: u16,
    pub calls: AnswerSeat,
}

/// What a reader leaves: its seats, the outcomes of the calls that it ended, and the responses that it kept and that ended no call,
/// in the order in which they came.
#[derive(Drop)]
pub struct Spent<O: Out> {
    pub seat: SockSeat<O>,
    pub ids: IdSeat<Call>,
    pub outcomes: Vec<Told>,
    pub early: Vec<Frame>,
}

impl How {
    // Whether the socket is set failed behind it.
    fn fails(self) -> bool
        ensures { result ≡ fails self }
    {
        match self {
            How::Closed | How::Empty => false,
            How::End | How::Failed | How::Limit | How::Fault | How::NoMemory => true,
        }
    }

    // Whether more may come behind it.
    fn throws(self) -> bool
        ensures { result ≡ throws self }
    {
        match self {
            How::Fault | How::NoMemory => true,
            How::End | How::Closed | How::Failed | How::Empty | How::Limit => false,
        }
    }

    // Whether memory was wanting.
    fn is_starved(self) -> bool
        ensures { result ≡ is_starved self }
    {
        match self {
            How::NoMemory => true,
            How::End | How::Closed | How::Failed | How::Empty | How::Limit | How::Fault => false,
        }
    }
}

// The socket is set failed, unless that has been done.
fn fail_if<O: Out>(table: &SockTable<O>, seat: &mut SockSeat<O>, id: SocketId, how: How)
    requires may { MayAct table.now.rule.table.shared.table_id table.now.rule.plan seat.old }
    requires known { Knows table.now.rule.plan seat.old.me.0 id.0 }
    ensures rest { AtRest table.now.rule.table.shared.table_id table.now.rule.plan seat.old seat.new }
    ensures by { FailedIf (fails how) id.0 (code_of how) seat.old.me.0 seat.new.me.0 }
    ensures refs { SameRefs seat.old.me.0 seat.new.me.0 }
    ensures lists { seat.new.me.0.lists ≡ seat.old.me.0.lists }
{
    if how.fails() {
        fail_id(table, seat, id, how.code());
    }
}

/// What comes behind a fault is thrown away.
pub fn throw_if<I: In, R: Wait>(rt: &R, inn: &mut I, how: How, total: u32, ending: bool)
    requires { total ≤ 16777216 }
    ensures { ThrownIf (throws how) ending total (I.state inn.old) (I.state inn.new) }
{
    if how.throws() {
        throw_all(rt, inn, total, ending);
    }
}

/// Whether memory was wanting nowhere.
pub fn calm(starved: bool, how: How) -> Result<(), NoMemory>
    ensures { is_err result ≡ false → (starved ≡ false) × (is_starved how ≡ false) }
{
    if starved || how.is_starved() {
        Err(NoMemory)
    } else {
        Ok(())
    }
}

impl<O: Out> Reader<O> {
    /// The reader of this link with these seats. It takes no memory.
    pub fn new(alloc: Global, seat: SockSeat<O>, ids: IdSeat<Call>, link: u16) -> Reader<O>
        ensures seats { (result.seat ≡ seat) × (result.calls.seat ≡ ids) × (result.link ≡ link) }
        ensures empty { (result.calls.early.items ≡ []) × (result.calls.told.items ≡ []) × (result.calls.starved ≡ false) }
    {
        Reader {
            seat,
            link,
            calls: AnswerSeat::new(alloc, ids),
        }
    }

    /// Waits for the socket of its link, which is that of this `open`; reads the link to its end, unless it got no socket; and
    /// then sees to the calls that still wait for it, of these operations. Where memory was wanting, all is done all the same,
    /// but an outcome may be told nowhere. In a run that is ending it waits for no bytes.
    /// A reader reads until its input ends, and sets its socket failed then (io.md).
    pub fn run<I: In, R: Wait>(
        &mut self,
        rt: &R,
        socks: &SockTable<O>,
        ids: &IdTable<Call>,
        operation: u16,
        calls: &[u16],
        inn: &mut I,
        ending: bool,
    ) -> Result<(), NoMemory>
        requires idle { Idle socks.now.rule.table.shared.table_id socks.now.rule.plan self.old.seat }
        requires none_ { IsHolder socks.now.rule.plan [] self.old.seat.me.0 }
        requires ids { IsOpen ids.now.table.shared.table_id self.old.calls.seat }
        requires operation { operation < socks.now.rule.plan.operations }
        requires calls { All (λ o. o < ids.now.plan.operations) calls.now }
        ensures done { IsDoneSeat socks.now.rule.table.shared.table_id socks.now.rule.plan self.new.seat }
        ensures share { self.new.seat.me.0.share ≡ self.old.seat.me.0.share }
        ensures lists { self.new.seat.me.0.lists ≡ self.old.seat.me.0.lists }
        ensures ids { Rests self.old.calls.seat self.new.calls.seat }
        ensures ran { RanBy ids.now.plan self.old.link calls.now ending (is_err result) (I.state inn.old) (I.state inn.new) socks.now.rule.plan operation self.old.seat.me.0 self.new.seat.me.0 (books self.old.calls) (books self.new.calls) }
    {
        match wait_open(rt, socks, &mut self.seat, operation) {
            None => Ok(()),
            Some(id) => {
                let alloc = self.calls.alloc;
                let mut intake = Intake {
                    cutter: Cutter::new(alloc),
                    pool: BlockPool::new(alloc),
                    total: 0,
                };
                let how = read_all(rt, ids, &mut self.calls, &mut intake, inn, ending);
                fail_if(socks, &mut self.seat, id, how);
                post_all(rt, ids, &mut self.calls, self.link, how.code(), calls);
                throw_if(rt, inn, how, intake.total, ending);
                drop(intake);
                calm(self.calls.starved, how)
            }
        }
    }

    /// What it leaves.
    pub fn spent(self) -> Spent<O>
        ensures { (result.seat ≡ self.seat) × (result.ids ≡ self.calls.seat) × (result.outcomes ≡ self.calls.told) × (result.early ≡ self.calls.early) }
    {
        let Reader {
            seat,
            link: _,
            calls,
        } = self;
        let AnswerSeat {
            seat: ids,
            early,
            told,
            starved: _,
            alloc: _,
        } = calls;
        Spent {
            seat,
            ids,
            outcomes: told,
            early,
        }
    }
}
