// Threads that send through one socket, on a table of their own.
ghost use Rattle.std.specs.Prelude.{◌≡◌, ◌<◌, IfSome};
ghost use Rattle.std.specs.Thread.{IsSync};
ghost use Rattle.sock_model.specs.Rule.{MOST_ACCEPTED};
ghost use Rattle.sock_open.specs.NewTableContents.{AreMade, AreNewSeats, PassesFrom};
ghost use Rattle.write_chain.specs.ReadyToSend.{IsSpent, IsFree};
ghost use Rattle.chain_bench.specs.SenderWithOneReference.{HasRoomFor, IsLoad, MaySend};
ghost use Rattle.chain_bench.specs.BenchThreads.{AreSenders, AreSpent};

use crate::out::SlowOut;
use crate::sending::{Load, Seat, Sender, Sent, Table, send_all};
use sock_open::{Made, new_table};
use sock_table::{Closed, LinkPass};
use sock_words::Plan;
use std::alloc::Global;
use std::sync::Wait;
use std::thread;
use std::thread::Threads;
use std::time::Clock;

type Pass = LinkPass<SlowOut>;

/// So many messages of a thread there may be.
const MOST: u32 = 33_554_432;

/// The threads that there may be.
#[derive(Drop)]
pub struct Senders {
    pub one: Sender,
    pub two: Sender,
    pub three: Sender,
    pub four: Sender,
}

/// What they leave.
#[derive(Drop)]
pub struct AllSent {
    pub one: Sent,
    pub two: Sent,
    pub three: Sent,
    pub four: Sent,
}

/// The link, with what it took, and how long the sends took.
#[derive(Drop)]
pub struct Told {
    pub out: SlowOut,
    pub times: Vec<u64>,
}

/// A table of one slot, one link and one name, with five seats and so many requests.
fn begin(alloc: Global, room: Vec<u8>, turns: u64, requests: u16) -> Option<Made<SlowOut>>
    ensures plan { IfSome result (λ m. m.table.rule.plan ≡ record { slots = 1; links = 1; requests = requests; names = 1; operations = 4096; seats = 5; first = 0 }) }
    ensures made { IfSome result (λ m. AreMade m.table.rule.table.shared.table_id m.table.rule.plan m.seats.items m.passes.items) }
{
    let plan = Plan {
        slots: 1,
        links: 1,
        requests,
        names: 1,
        operations: 4096,
        seats: 5,
        first: 0,
    };
    let outs = vec![in alloc; SlowOut::new(room, turns)].ok()?;
    new_table(alloc, &plan, outs).ok()
}

/// A seat of the table.
fn one_of(table: &Table, seats: &mut Vec<Seat>) -> Option<Seat>
    requires { AreNewSeats table.now.rule.table.shared.table_id table.now.rule.plan seats.old.items }
    ensures seat { IfSome result (λ s. IsFree table.now.rule.table.shared.table_id table.now.rule.plan s) }
    ensures room { IfSome result (λ s. HasRoomFor MOST_ACCEPTED s.me.0) }
    ensures left { AreNewSeats table.now.rule.table.shared.table_id table.now.rule.plan seats.new.items }
{
    let seat = seats.pop()?;
    Some(seat)
}

/// Makes the socket, under the name 0. The seat comes back.
fn born(table: &Table, mut seat: Seat, mut passes: Vec<Pass>) -> Option<Seat>
    requires seat { IsFree table.now.rule.table.shared.table_id table.now.rule.plan seat }
    requires passes { PassesFrom table.now.rule.table.shared.table_id table.now.rule.plan 0 passes.items }
    requires name { 0 < table.now.rule.plan.names }
    ensures { IfSome result (λ s. IsSpent table.now.rule.table.shared.table_id table.now.rule.plan s) }
{
    let pass = passes.pop()?;
    let Ok(id) = table.create(&mut seat, pass) else {
        return None;
    };
    table.publish(&mut seat, 0, id);
    Some(seat)
}

/// The thread of this number finds the socket there.
fn sender_of(table: &Table, mut seat: Seat, number: u8) -> Option<Sender>
    requires seat { IsFree table.now.rule.table.shared.table_id table.now.rule.plan seat }
    requires room { HasRoomFor MOST_ACCEPTED seat.me.0 }
    requires name { 0 < table.now.rule.plan.names }
    ensures { IfSome result (λ s. MaySend table.now.rule.table.shared.table_id table.now.rule.plan s) }
{
    let id = table.find(&mut seat, 0)?;
    Some(Sender { seat, id, number })
}

/// The next seat is that of the thread of this number.
fn next_sender(table: &Table, seats: &mut Vec<Seat>, number: u8) -> Option<Sender>
    requires seats { AreNewSeats table.now.rule.table.shared.table_id table.now.rule.plan seats.old.items }
    requires name { 0 < table.now.rule.plan.names }
    ensures sender { IfSome result (λ s. MaySend table.now.rule.table.shared.table_id table.now.rule.plan s) }
    ensures left { AreNewSeats table.now.rule.table.shared.table_id table.now.rule.plan seats.new.items }
{
    let seat = one_of(table, seats)?;
    sender_of(table, seat, number)
}

/// All threads that there may be.
fn senders_of(table: &Table, mut seats: Vec<Seat>) -> Option<Senders>
    requires seats { AreNewSeats table.now.rule.table.shared.table_id table.now.rule.plan seats.items }
    requires name { 0 < table.now.rule.plan.names }
    ensures { IfSome result (λ s. AreSenders table.now.rule.table.shared.table_id table.now.rule.plan s) }
{
    let one = next_sender(table, &mut seats, 1)?;
    let two = next_sender(table, &mut seats, 2)?;
    let three = next_sender(table, &mut seats, 3)?;
    let four = next_sender(table, &mut seats, 4)?;
    Some(Senders {
        one,
        two,
        three,
        four,
    })
}

/// A thread that sends nothing.
fn idle(alloc: Global, table: &Table, sender: Sender) -> Sent
    requires { MaySend table.now.rule.table.shared.table_id table.now.rule.plan sender }
    ensures { IsSpent table.now.rule.table.shared.table_id table.now.rule.plan result.seat }
{
    let Sender {
        seat,
        id: _,
        number: _,
    } = sender;
    Sent {
        seat,
        times: Vec::new(alloc),
    }
}

/// Both of them send, or the first alone.
fn by_two<R: Threads + Wait + Clock + Sync>(
    rt: &R,
    alloc: Global,
    table: &Table,
    one: Sender,
    two: Sender,
    both: bool,
    load: Load,
) -> (Sent, Sent)
    requires one { MaySend table.now.rule.table.shared.table_id table.now.rule.plan one }
    requires two { MaySend table.now.rule.table.shared.table_id table.now.rule.plan two }
    requires load { IsLoad table.now.rule.plan load }
    ensures one { IsSpent table.now.rule.table.shared.table_id table.now.rule.plan result.0.seat }
    ensures two { IsSpent table.now.rule.table.shared.table_id table.now.rule.plan result.1.seat }
{
    if !both {
        let one = send_all(rt, alloc, table, one, load);
        return (one, idle(alloc, table, two));
    }
    thread::join(
        rt,
        move || -> Sent
            requires { MaySend table.now.rule.table.shared.table_id table.now.rule.plan one × IsLoad table.now.rule.plan load }
            ensures { IsSpent table.entry.now.rule.table.shared.table_id table.entry.now.rule.plan result.seat }
        { send_all(rt, alloc, table, one, load) },
        move || -> Sent
            requires { MaySend table.now.rule.table.shared.table_id table.now.rule.plan two × IsLoad table.now.rule.plan load }
            ensures { IsSpent table.entry.now.rule.table.shared.table_id table.entry.now.rule.plan result.seat }
        { send_all(rt, alloc, table, two, load) },
    )
}

/// All four of them send, the first two, or the first alone.
fn by_all<R: Threads + Wait + Clock + Sync>(
    rt: &R,
    alloc: Global,
    table: &Table,
    senders: Senders,
    threads: u32,
    load: Load,
) -> AllSent
    requires senders { AreSenders table.now.rule.table.shared.table_id table.now.rule.plan senders }
    requires load { IsLoad table.now.rule.plan load }
    ensures { AreSpent table.now.rule.table.shared.table_id table.now.rule.plan result }
{
    let Senders {
        one,
        two,
        three,
        four,
    } = senders;
    let ((one, two), (three, four)) = if threads == 4 {
        thread::join(
            rt,
            move || -> (Sent, Sent)
                requires { IsSync R.row × MaySend table.now.rule.table.shared.table_id table.now.rule.plan one × MaySend table.now.rule.table.shared.table_id table.now.rule.plan two × IsLoad table.now.rule.plan load }
                ensures { IsSpent table.entry.now.rule.table.shared.table_id table.entry.now.rule.plan result.0.seat × IsSpent table.entry.now.rule.table.shared.table_id table.entry.now.rule.plan result.1.seat }
            { by_two(rt, alloc, table, one, two, true, load) },
            move || -> (Sent, Sent)
                requires { IsSync R.row × MaySend table.now.rule.table.shared.table_id table.now.rule.plan three × MaySend table.now.rule.table.shared.table_id table.now.rule.plan four × IsLoad table.now.rule.plan load }
                ensures { IsSpent table.entry.now.rule.table.shared.table_id table.entry.now.rule.plan result.0.seat × IsSpent table.entry.now.rule.table.shared.table_id table.entry.now.rule.plan result.1.seat }
            { by_two(rt, alloc, table, three, four, true, load) },
        )
    } else {
        let first = by_two(rt, alloc, table, one, two, threads == 2, load);
        (first, (idle(alloc, table, three), idle(alloc, table, four)))
    };
    AllSent {
        one,
        two,
        three,
        four,
    }
}

/// What others noted stands behind it, as far as there is memory.
fn gather(times: &mut Vec<u64>, others: Vec<u64>) {
    let _ = times.extend_from_slice(others.as_slice());
}

/// The table ends.
fn end(alloc: Global, table: Table, main: Seat, sent: AllSent) -> Option<Told>
    requires main { IsSpent table.rule.table.shared.table_id table.rule.plan main }
    requires sent { AreSpent table.rule.table.shared.table_id table.rule.plan sent }
    requires all { table.rule.plan.seats ≡ 5 }
{
    let AllSent {
        one,
        two,
        three,
        four,
    } = sent;
    let Ok(seats) = vec![in alloc; main, one.seat, two.seat, three.seat, four.seat] else {
        return None;
    };
    let mut times = one.times;
    gather(&mut times, two.times);
    gather(&mut times, three.times);
    gather(&mut times, four.times);
    let Ok(closed) = table.close(alloc, seats) else {
        return None;
    };
    let Closed {
        places: _,
        vrefs: _,
        mut outs,
    } = closed;
    let out = outs.pop()?;
    Some(Told { out, times })
}

/// So many sends by each of 1, 2 or 4 threads, through a table of so many requests, over a link with this room.
pub fn on_threads<R: Threads + Wait + Clock + Sync>(
    rt: &R,
    alloc: Global,
    room: Vec<u8>,
    threads: u32,
    requests: u16,
    load: Load,
) -> Option<Told> {
    if load.count > MOST {
        return None;
    }
    let Made {
        table,
        mut seats,
        passes,
    } = begin(alloc, room, load.turns, requests)?;
    let first = one_of(&table, &mut seats)?;
    let main = born(&table, first, passes)?;
    let senders = senders_of(&table, seats)?;
    let sent = by_all(rt, alloc, &table, senders, threads, load);
    end(alloc, table, main, sent)
}
