// A thread that sends messages through one socket, one after another.
ghost use Rattle.std.specs.Prelude.{◌≡◌, ◌*◌, ◌<◌, IfSome, IfOk, IfErr};
ghost use Rattle.sock_rule.specs.SocketSeatSplits.{IsSeat};
ghost use Rattle.write_chain.specs.SendingIntoChain.{HasRoom};
ghost use Rattle.write_chain.specs.WritingRightInHand.{MayBegin, MayGoOn, Begins};
ghost use Rattle.write_chain.specs.ReadyToSend.{IsSpent, HoldsOne, sock_of};
ghost use Rattle.chain_bench.specs.SenderWithOneReference.{HasRoomFor, IsHolding, IsLoad, MaySend, OneMore};

use crate::out::SlowOut;
use crossbeam_utils::Backoff;
use message_parts::Parcel;
use sock_message::{BlockPool, Message};
use sock_rule::{Letter, SockSeat};
use sock_table::{SockRef, SockTable};
use sock_words::{Label, SocketId};
use std::alloc::Global;
use std::sync::Wait;
use std::time::{Clock, Duration, Instant};
use write_chain::{Kept, Once, Refused, Started, WriteRight, keep_write, start, write_once};

pub type Seat = SockSeat<SlowOut>;

pub type Table = SockTable<SlowOut>;

/// How many messages of a thread have place words of their own.
pub const PLACES: u32 = 32_768;

/// What each thread does: so many sends; how many turns a put takes; and whether it notes how long each send took.
#[derive(Clone, Copy)]
pub struct Load {
    pub count: u32,
    pub turns: u64,
    pub timed: bool,
}

/// A thread's seat, the socket as it knows it, and its number.
#[derive(Drop)]
pub struct Sender {
    pub seat: Seat,
    pub id: SocketId,
    pub number: u8,
}

/// What it leaves: its seat, and how many nanoseconds each send took, where that was asked for.
#[derive(Drop)]
pub struct Sent {
    pub seat: Seat,
    pub times: Vec<u64>,
}

/// The message of a send: its number, and then the thread's, 32 bytes in all.
fn letter(alloc: Global, pool: &mut BlockPool, sender: u8, number: u32) -> Option<Letter>
    ensures { IfSome result (λ m. m.label.place < 32768) }
{
    let mut bytes = [sender; 32];
    bytes[..8].copy_from_slice(&u64::from(number).to_be_bytes());
    let Ok(bytes) = Message::new(alloc, pool, &bytes) else {
        return None;
    };
    let label = Label {
        client: u16::from(sender),
        operation: 1,
        attempt: 0,
        place: number % PLACES,
    };
    Some(Letter {
        bytes: Parcel::Message(bytes),
        label,
        owner: 0,
    })
}

/// The message is accepted; where each request is taken, once one is free. The reference comes back where the socket was failed.
fn hand_in<R: Wait>(
    rt: &R,
    table: &Table,
    seat: &mut Seat,
    mut sock: SockRef,
    mut msg: Letter,
) -> Result<Started<SlowOut>, SockRef>
    requires holding { IsHolding table.now.rule.table.shared.table_id table.now.rule.plan sock.id.0 seat.old }
    requires room { HasRoom seat.old.me.0 }
    requires label { msg.label.place < 8 * table.now.rule.plan.operations }
    ensures seat { IsSeat table.now.rule.table.shared.table_id table.now.rule.plan seat.new }
    ensures begins { IfOk result (λ s. Begins table.now.rule.plan (sock_of s) s seat.new.me × HoldsOne table.now.rule.plan (sock_of s).id.0 seat.new.me.0) }
    ensures holding { IfErr result (λ s. IsHolding table.now.rule.table.shared.table_id table.now.rule.plan s.id.0 seat.new) }
    ensures lists { OneMore seat.old.me.0 seat.new.me.0 }
{
    let backoff = Backoff::new();
    'tries: for _ in rt.forever() {
        match start(table, seat, sock, msg) {
            Ok(started) => return Ok(started),
            Err(Refused::Failed(back, _, _)) => return Err(back),
            Err(Refused::Full(back, again)) => {
                sock = back;
                msg = again;
                backoff.snooze();
            }
        }
    }
    unreachable!()
}

/// Writes until the head is empty. What is dropped is dropped.
fn write_on<R: Wait>(
    rt: &R,
    table: &Table,
    seat: &mut Seat,
    mut right: WriteRight<SlowOut>,
) -> SockRef
    requires seat { IsSeat table.now.rule.table.shared.table_id table.now.rule.plan seat.old }
    requires may { MayGoOn table.now.rule.plan table.now.rule.ways.list right seat.old.me }
    requires one { HoldsOne table.now.rule.plan right.sock.id.0 seat.old.me.0 }
    ensures holding { IsHolding table.now.rule.table.shared.table_id table.now.rule.plan result.id.0 seat.new }
    ensures lists { seat.new.me.0.lists ≡ seat.old.me.0.lists }
{
    'goes: for _ in rt.forever() {
        match keep_write(table, rt, seat, right) {
            Kept::Done(sock) => return sock,
            Kept::Dropped {
                right: next,
                msg: _,
                code: _,
            } => right = next,
        }
    }
    unreachable!()
}

/// Whoever has the right writes.
fn write<R: Wait>(rt: &R, table: &Table, seat: &mut Seat, right: WriteRight<SlowOut>) -> SockRef
    requires seat { IsSeat table.now.rule.table.shared.table_id table.now.rule.plan seat.old }
    requires may { MayBegin table.now.rule.plan right seat.old.me }
    requires one { HoldsOne table.now.rule.plan right.sock.id.0 seat.old.me.0 }
    ensures holding { IsHolding table.now.rule.table.shared.table_id table.now.rule.plan result.id.0 seat.new }
    ensures lists { seat.new.me.0.lists ≡ seat.old.me.0.lists }
{
    match write_once(table, seat, right) {
        Once::Done(sock) => sock,
        Once::Keep(right) => write_on(rt, table, seat, right),
    }
}

/// A message that was accepted is written, where this seat has to.
fn follow<R: Wait>(rt: &R, table: &Table, seat: &mut Seat, started: Started<SlowOut>) -> SockRef
    requires seat { IsSeat table.now.rule.table.shared.table_id table.now.rule.plan seat.old }
    requires begins { Begins table.now.rule.plan (sock_of started) started seat.old.me }
    requires one { HoldsOne table.now.rule.plan (sock_of started).id.0 seat.old.me.0 }
    ensures holding { IsHolding table.now.rule.table.shared.table_id table.now.rule.plan result.id.0 seat.new }
    ensures lists { seat.new.me.0.lists ≡ seat.old.me.0.lists }
{
    match started {
        Started::Queued(sock) => sock,
        Started::Right(right) => write(rt, table, seat, right),
    }
}

/// A message is sent with the reference, which comes back.
fn send<R: Wait>(rt: &R, table: &Table, seat: &mut Seat, sock: SockRef, msg: Letter) -> SockRef
    requires holding { IsHolding table.now.rule.table.shared.table_id table.now.rule.plan sock.id.0 seat.old }
    requires room { HasRoom seat.old.me.0 }
    requires label { msg.label.place < 8 * table.now.rule.plan.operations }
    ensures holding { IsHolding table.now.rule.table.shared.table_id table.now.rule.plan result.id.0 seat.new }
    ensures lists { OneMore seat.old.me.0 seat.new.me.0 }
{
    match hand_in(rt, table, seat, sock, msg) {
        Ok(started) => follow(rt, table, seat, started),
        Err(sock) => sock,
    }
}

/// The time, where it is asked for.
fn now<R: Clock>(rt: &R, timed: bool) -> Option<Instant> {
    if timed { Instant::now(rt).ok() } else { None }
}

/// So many nanoseconds, or the most that can be told.
pub fn nanos_of(time: Duration) -> u64 {
    time.as_nanos().min(u128::from(u64::MAX)) as u64
}

/// Notes how long it is since then, as far as there is memory.
fn note<R: Clock>(rt: &R, begun: Option<Instant>, times: &mut Vec<u64>) {
    if let Some(begun) = begun {
        if let Ok(time) = begun.elapsed(rt) {
            let _ = times.push(nanos_of(time));
        }
    }
}

/// Sends all messages of a thread with one reference.
fn send_each<R: Wait + Clock>(
    rt: &R,
    alloc: Global,
    table: &Table,
    seat: &mut Seat,
    mut sock: SockRef,
    number: u8,
    load: Load,
    times: &mut Vec<u64>,
) -> SockRef
    requires holding { IsHolding table.now.rule.table.shared.table_id table.now.rule.plan sock.id.0 seat.old }
    requires room { HasRoomFor load.count seat.old.me.0 }
    requires load { IsLoad table.now.rule.plan load }
    ensures { IsHolding table.now.rule.table.shared.table_id table.now.rule.plan result.id.0 seat.new }
{
    let mut pool = BlockPool::new(alloc);
    'sends: for count in 0..load.count {
        let begun = now(rt, load.timed);
        let Some(msg) = letter(alloc, &mut pool, number, count) else {
            return sock;
        };
        sock = send(rt, table, seat, sock, msg);
        note(rt, begun, times);
    }
    sock
}

/// The work of a thread.
pub fn send_all<R: Wait + Clock>(
    rt: &R,
    alloc: Global,
    table: &Table,
    sender: Sender,
    load: Load,
) -> Sent
    requires sender { MaySend table.now.rule.table.shared.table_id table.now.rule.plan sender }
    requires load { IsLoad table.now.rule.plan load }
    ensures { IsSpent table.now.rule.table.shared.table_id table.now.rule.plan result.seat }
{
    let Sender {
        mut seat,
        id,
        number,
    } = sender;
    let mut times = Vec::new(alloc);
    let Ok(sock) = table.add_reference(&mut seat, id) else {
        return Sent { seat, times };
    };
    let sock = send_each(rt, alloc, table, &mut seat, sock, number, load, &mut times);
    table.release(&mut seat, sock);
    Sent { seat, times }
}
