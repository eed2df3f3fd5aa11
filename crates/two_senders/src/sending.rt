// A thread that sends messages through one socket, one after another.
ghost use Rattle.std.specs.Prelude.{◌≡◌, ◌+◌, ◌*◌, ◌<◌, ◌≤◌, [], IfOk, IfErr, IfSome, length};
ghost use Rattle.message_parts.specs.Parcels.{parcel_of};
ghost use Rattle.sock_rule.specs.Shows.{heading_of};
ghost use Rattle.sock_rule.specs.SocketSeatSplits.{IsSeat};
ghost use Rattle.write_chain.specs.SendingIntoChain.{HasRoom};
ghost use Rattle.write_chain.specs.WritingRightInHand.{MayBegin, MayGoOn, Begins};
ghost use Rattle.write_chain.specs.ReadyToSend.{HoldsOne, sock_of};
ghost use Rattle.chain_orders.specs.SentMessages.{HasSent, SameLists, SentOneMore};
ghost use Rattle.two_senders.specs.SentTexts.{heading_at, messages, IsShared, IsHolding, MaySend, HasDone};

use crossbeam_utils::Backoff;
use message_parts::Parcel;
use sock_io::Out;
use sock_message::{BlockPool, Message};
use sock_rule::{Letter, SockSeat};
use sock_table::{SockRef, SockTable};
use sock_words::{Label, SocketId};
use std::alloc::Global;
use std::sync::Wait;
use write_chain::{Kept, Once, Refused, Started, WriteRight, keep_write, start, write_once};

/// So many texts of a thread there may be.
pub const MOST: usize = 16_384;

/// A thread's seat, and how many of its texts were accepted.
#[derive(Drop)]
pub struct Sent<O: Out> {
    pub seat: SockSeat<O>,
    pub count: usize,
}

/// The message of a text.
fn letter(
    alloc: Global,
    pool: &mut BlockPool,
    thread: u16,
    number: u32,
    text: &[u8],
) -> Option<Letter>
    requires thread { thread < 2 }
    requires number { number < 16384 }
    ensures heading { IfSome result (λ m. heading_of m ≡ heading_at thread number) }
    ensures bytes { IfSome result (λ m. (parcel_of m.bytes).bytes ≡ text.now) }
    ensures place { IfSome result (λ m. m.label.place < 32768) }
{
    let Ok(bytes) = Message::new(alloc, pool, text) else {
        return None;
    };
    let label = Label {
        client: thread,
        operation: 1,
        attempt: 0,
        place: 2 * number + u32::from(thread),
    };
    Some(Letter {
        bytes: Parcel::Message(bytes),
        label,
        owner: 0,
    })
}

/// The message is accepted; where each request is taken, once one is free. The reference comes back where the socket was failed.
fn hand_in<O: Out, R: Wait>(
    rt: &R,
    table: &SockTable<O>,
    seat: &mut SockSeat<O>,
    mut sock: SockRef,
    mut msg: Letter,
) -> Result<Started<O>, SockRef>
    requires holding { IsHolding table.now.rule.table.shared.table_id table.now.rule.plan sock.id.0 seat.old }
    requires room { HasRoom seat.old.me.0 }
    requires label { msg.label.place < 8 * table.now.rule.plan.operations }
    ensures seat { IsSeat table.now.rule.table.shared.table_id table.now.rule.plan seat.new }
    ensures begins { IfOk result (λ s. Begins table.now.rule.plan (sock_of s) s seat.new.me × HoldsOne table.now.rule.plan (sock_of s).id.0 seat.new.me.0) }
    ensures holding { IfErr result (λ s. IsHolding table.now.rule.table.shared.table_id table.now.rule.plan s.id.0 seat.new) }
    ensures sent { IfOk result (λ _. SentOneMore table.now.rule.plan (heading_of msg) (parcel_of msg.bytes).bytes seat.old.me.0 seat.new.me.0) }
    ensures none { IfErr result (λ _. SameLists seat.old.me.0 seat.new.me.0) }
{
    let backoff = Backoff::new();
    'tries: for _ in rt.forever() {
        match start(table, seat, sock, msg) {
            Ok(started) => return Ok(started),
            Err(Refused::Failed(back, _, _)) => return Err(back),
            Err(Refused::Full(back, again)) => {
                sock = back;
                msg = again;
                backoff.snooze();
            }
        }
    }
    unreachable!()
}

/// Writes until the head is empty. What is dropped is dropped.
fn write_on<O: Out, R: Wait>(
    rt: &R,
    table: &SockTable<O>,
    seat: &mut SockSeat<O>,
    mut right: WriteRight<O>,
) -> SockRef
    requires seat { IsSeat table.now.rule.table.shared.table_id table.now.rule.plan seat.old }
    requires may { MayGoOn table.now.rule.plan table.now.rule.ways.list right seat.old.me }
    requires one { HoldsOne table.now.rule.plan right.sock.id.0 seat.old.me.0 }
    ensures holding { IsHolding table.now.rule.table.shared.table_id table.now.rule.plan result.id.0 seat.new }
    ensures lists { SameLists seat.old.me.0 seat.new.me.0 }
{
    'goes: for _ in rt.forever() {
        match keep_write(table, rt, seat, right) {
            Kept::Done(sock) => return sock,
            Kept::Dropped {
                right: next,
                msg: _,
                code: _,
            } => right = next,
        }
    }
    unreachable!()
}

/// Whoever has the right writes.
fn write<O: Out, R: Wait>(
    rt: &R,
    table: &SockTable<O>,
    seat: &mut SockSeat<O>,
    right: WriteRight<O>,
) -> SockRef
    requires seat { IsSeat table.now.rule.table.shared.table_id table.now.rule.plan seat.old }
    requires may { MayBegin table.now.rule.plan right seat.old.me }
    requires one { HoldsOne table.now.rule.plan right.sock.id.0 seat.old.me.0 }
    ensures holding { IsHolding table.now.rule.table.shared.table_id table.now.rule.plan result.id.0 seat.new }
    ensures lists { SameLists seat.old.me.0 seat.new.me.0 }
{
    match write_once(table, seat, right) {
        Once::Done(sock) => sock,
        Once::Keep(right) => write_on(rt, table, seat, right),
    }
}

/// A message that was accepted is written, where this seat has to.
fn follow<O: Out, R: Wait>(
    rt: &R,
    table: &SockTable<O>,
    seat: &mut SockSeat<O>,
    started: Started<O>,
) -> SockRef
    requires seat { IsSeat table.now.rule.table.shared.table_id table.now.rule.plan seat.old }
    requires begins { Begins table.now.rule.plan (sock_of started) started seat.old.me }
    requires one { HoldsOne table.now.rule.plan (sock_of started).id.0 seat.old.me.0 }
    ensures holding { IsHolding table.now.rule.table.shared.table_id table.now.rule.plan result.id.0 seat.new }
    ensures lists { SameLists seat.old.me.0 seat.new.me.0 }
{
    match started {
        Started::Queued(sock) => sock,
        Started::Right(right) => write(rt, table, seat, right),
    }
}

/// A message is sent with the reference, which comes back: as an error where the socket was failed, and the message wasn't sent.
fn send<O: Out, R: Wait>(
    rt: &R,
    table: &SockTable<O>,
    seat: &mut SockSeat<O>,
    sock: SockRef,
    msg: Letter,
) -> Result<SockRef, SockRef>
    requires holding { IsHolding table.now.rule.table.shared.table_id table.now.rule.plan sock.id.0 seat.old }
    requires room { HasRoom seat.old.me.0 }
    requires label { msg.label.place < 8 * table.now.rule.plan.operations }
    ensures ok { IfOk result (λ s. IsHolding table.now.rule.table.shared.table_id table.now.rule.plan s.id.0 seat.new) }
    ensures err { IfErr result (λ s. IsHolding table.now.rule.table.shared.table_id table.now.rule.plan s.id.0 seat.new) }
    ensures sent { IfOk result (λ _. SentOneMore table.now.rule.plan (heading_of msg) (parcel_of msg.bytes).bytes seat.old.me.0 seat.new.me.0) }
    ensures none { IfErr result (λ _. SameLists seat.old.me.0 seat.new.me.0) }
{
    match hand_in(rt, table, seat, sock, msg) {
        Ok(started) => Ok(follow(rt, table, seat, started)),
        Err(sock) => Err(sock),
    }
}

/// Sends the texts of a thread in their order, until all were accepted, the socket was failed or memory is wanting: so many.
fn send_each<O: Out, R: Wait>(
    rt: &R,
    alloc: Global,
    table: &SockTable<O>,
    seat: &mut SockSeat<O>,
    mut sock: SockRef,
    thread: u16,
    texts: &[Vec<u8>],
) -> (SockRef, usize)
    requires holding { IsHolding table.now.rule.table.shared.table_id table.now.rule.plan sock.id.0 seat.old }
    requires new { HasSent seat.old.me.0 [] }
    requires shared { IsShared table.now.rule.plan }
    requires thread { thread < 2 }
    requires few { length texts.now ≤ 16384 }
    ensures holding { IsHolding table.now.rule.table.shared.table_id table.now.rule.plan result.0.id.0 seat.new }
    ensures sent { HasSent seat.new.me.0 (messages thread texts.now result.1) }
    ensures count { result.1 ≤ length texts.now }
{
    let mut pool = BlockPool::new(alloc);
    let all = texts.len();
    'sends: for count in 0..all {
        let Some(text) = texts.get(count) else {
            unreachable!();
        };
        let Some(msg) = letter(alloc, &mut pool, thread, count as u32, text.as_slice()) else {
            return (sock, count);
        };
        match send(rt, table, seat, sock, msg) {
            Ok(back) => sock = back,
            Err(back) => return (back, count),
        }
    }
    (sock, all)
}

/// The work of a thread.
pub fn send_all<O: Out, R: Wait>(
    rt: &R,
    alloc: Global,
    table: &SockTable<O>,
    mut seat: SockSeat<O>,
    id: SocketId,
    thread: u16,
    texts: &[Vec<u8>],
) -> Sent<O>
    requires seat { MaySend table.now.rule.table.shared.table_id table.now.rule.plan id.0 seat }
    requires shared { IsShared table.now.rule.plan }
    requires thread { thread < 2 }
    requires few { length texts.now ≤ 16384 }
    ensures done { HasDone table.now.rule.table.shared.table_id table.now.rule.plan (messages thread texts.now result.count) result.seat }
    ensures count { result.count ≤ length texts.now }
{
    let Ok(sock) = table.add_reference(&mut seat, id) else {
        return Sent { seat, count: 0 };
    };
    let (sock, count) = send_each(rt, alloc, table, &mut seat, sock, thread, texts);
    table.release(&mut seat, sock);
    Sent { seat, count }
}
