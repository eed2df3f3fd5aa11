ghost use Rattle.std.specs.Prelude.{◌≡◌, ◌<◌, IfSome};
ghost use Rattle.sock_table.specs.ClosedSocketTable.{IsDoneSeat};
ghost use Rattle.sock_table.specs.ReferenceCalls.{Knows};
ghost use Rattle.std.specs.Thread.{IsSync};
ghost use Rattle.sock_open.specs.NewTableContents.{AreMade, AreNewSeats, PassesFrom};

use sock_io::MemOut;
use sock_open::{Made, new_table};
use sock_rule::SockSeat;
use sock_table::{LinkPass, SockTable};
use sock_words::{Plan, SocketId};
use std::alloc::Global;
use std::thread;
use std::thread::Threads;

type Seat = SockSeat<MemOut>;

type Pass = LinkPass<MemOut>;

type Table = SockTable<MemOut>;

/// A table of one slot, one link and one name, with five seats.
fn begin(alloc: Global) -> Option<Made<MemOut>>
    ensures plan { IfSome result (λ m. m.table.rule.plan ≡ record { slots = 1; links = 1; requests = 0; names = 1; operations = 0; seats = 5; first = 0 }) }
    ensures made { IfSome result (λ m. AreMade m.table.rule.table.shared.table_id m.table.rule.plan m.seats.items m.passes.items) }
{
    let plan = Plan {
        slots: 1,
        links: 1,
        requests: 0,
        names: 1,
        operations: 0,
        seats: 5,
        first: 0,
    };
    let outs = vec![in alloc; MemOut::new(0)].ok()?;
    new_table(alloc, &plan, outs).ok()
}

/// A seat of the table.
fn one_of(table: &Table, seats: &mut Vec<Seat>) -> Option<Seat>
    requires { AreNewSeats table.now.rule.table.shared.table_id table.now.rule.plan seats.old.items }
    ensures seat { IfSome result (λ s. IsDoneSeat table.now.rule.table.shared.table_id table.now.rule.plan s) }
    ensures left { AreNewSeats table.now.rule.table.shared.table_id table.now.rule.plan seats.new.items }
{
    let seat = seats.pop()?;
    Some(seat)
}

/// Makes a socket of the link and publishes it under the name.
fn open(table: &Table, mut seat: Seat, mut passes: Vec<Pass>) -> Option<()>
    requires seat { IsDoneSeat table.now.rule.table.shared.table_id table.now.rule.plan seat }
    requires passes { PassesFrom table.now.rule.table.shared.table_id table.now.rule.plan 0 passes.items }
    requires name { 0 < table.now.rule.plan.names }
{
    let pass = passes.pop()?;
    let Ok(id) = table.create(&mut seat, pass) else {
        return None;
    };
    table.publish(&mut seat, 0, id);
    Some(())
}

/// Addresses the id and gives the reference back, so often: how often it got one.
fn poke(table: &Table, mut seat: Seat, id: SocketId, count: u32) -> u64
    requires seat { IsDoneSeat table.now.rule.table.shared.table_id table.now.rule.plan seat }
    requires known { Knows table.now.rule.plan seat.me.0 id.0 }
{
    let mut got = 0u64;
    for _ in 0..count {
        let Ok(sock) = table.add_reference(&mut seat, id) else {
            continue;
        };
        table.release(&mut seat, sock);
        got = got.wrapping_add(1);
    }
    got
}

/// The same with the id of the name.
fn pairs(table: &Table, mut seat: Seat, count: u32) -> u64
    requires seat { IsDoneSeat table.now.rule.table.shared.table_id table.now.rule.plan seat }
    requires name { 0 < table.now.rule.plan.names }
{
    let Some(id) = table.find(&mut seat, 0) else {
        return 0;
    };
    poke(table, seat, id, count)
}

fn by_two<R: Threads + Sync>(rt: &R, table: &Table, one: Seat, two: Seat, count: u32) -> u64
    requires one { IsDoneSeat table.now.rule.table.shared.table_id table.now.rule.plan one }
    requires two { IsDoneSeat table.now.rule.table.shared.table_id table.now.rule.plan two }
    requires name { 0 < table.now.rule.plan.names }
{
    let (a, b) = thread::join(
        rt,
        move || -> u64
            requires { IsDoneSeat table.now.rule.table.shared.table_id table.now.rule.plan one × (0 < table.now.rule.plan.names) }
        { pairs(table, one, count) },
        move || -> u64
            requires { IsDoneSeat table.now.rule.table.shared.table_id table.now.rule.plan two × (0 < table.now.rule.plan.names) }
        { pairs(table, two, count) },
    );
    a.wrapping_add(b)
}

fn by_four<R: Threads + Sync>(
    rt: &R,
    table: &Table,
    seats: (Seat, Seat, Seat, Seat),
    count: u32,
) -> u64
    requires one { IsDoneSeat table.now.rule.table.shared.table_id table.now.rule.plan seats.0 }
    requires two { IsDoneSeat table.now.rule.table.shared.table_id table.now.rule.plan seats.1 }
    requires three { IsDoneSeat table.now.rule.table.shared.table_id table.now.rule.plan seats.2 }
    requires four { IsDoneSeat table.now.rule.table.shared.table_id table.now.rule.plan seats.3 }
    requires name { 0 < table.now.rule.plan.names }
{
    let (one, two, three, four) = seats;
    let (a, b) = thread::join(
        rt,
        move || -> u64
            requires { IsSync R.row × IsDoneSeat table.now.rule.table.shared.table_id table.now.rule.plan one × IsDoneSeat table.now.rule.table.shared.table_id table.now.rule.plan two × (0 < table.now.rule.plan.names) }
        { by_two(rt, table, one, two, count) },
        move || -> u64
            requires { IsSync R.row × IsDoneSeat table.now.rule.table.shared.table_id table.now.rule.plan three × IsDoneSeat table.now.rule.table.shared.table_id table.now.rule.plan four × (0 < table.now.rule.plan.names) }
        { by_two(rt, table, three, four, count) },
    );
    a.wrapping_add(b)
}

/// By 1, 2 or 4 threads, so many pairs by each: how many references were got.
pub fn on_threads<R: Threads + Sync>(
    rt: &R,
    alloc: Global,
    threads: u32,
    count: u32,
) -> Option<u64> {
    let Made {
        table,
        mut seats,
        passes,
    } = begin(alloc)?;
    let first = one_of(&table, &mut seats)?;
    open(&table, first, passes)?;
    let one = one_of(&table, &mut seats)?;
    let two = one_of(&table, &mut seats)?;
    let three = one_of(&table, &mut seats)?;
    let four = one_of(&table, &mut seats)?;
    match threads {
        1 => Some(pairs(&table, one, count)),
        2 => Some(by_two(rt, &table, one, two, count)),
        4 => Some(by_four(rt, &table, (one, two, three, four), count)),
        _ => None,
    }
}
