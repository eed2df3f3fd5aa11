// Two threads, and the table that they share.
ghost use Rattle.std.specs.Prelude.{◌≡◌, ◌<◌, ◌≤◌, [], false, IfSome, length};
ghost use Rattle.std.specs.Option.{ForSome};
ghost use Rattle.std.specs.Thread.{IsSync};
ghost use Rattle.sock_open.specs.NewTableContents.{AreMade, AreNewSeats, PassesFrom, IsNewSeat};
ghost use Rattle.write_chain.specs.ReadyToSend.{IsFree};
ghost use Rattle.chain_orders.specs.SentMessages.{HasSent};
ghost use Rattle.two_senders.specs.SentTexts.{messages, IsShared, MaySend, HasDone, TookBoth};

use crate::sending::{Sent, send_all};
use chain_orders::messages_in_one_order;
use sock_io::Out;
use sock_open::{Made, new_table};
use sock_rule::SockSeat;
use sock_table::{Closed, LinkPass, SockTable};
use sock_words::{Plan, SocketId};
use std::alloc::Global;
use std::sync::Wait;
use std::thread;
use std::thread::Threads;

/// The link, and how many texts of each thread were accepted.
#[derive(Drop)]
pub struct Told<O: Out> {
    pub out: O,
    pub one: usize,
    pub two: usize,
}

/// A table of one slot, this link and one name, with two seats.
fn begin<O: Out>(alloc: Global, out: O) -> Option<Made<O>>
    requires fresh { ((O.state out).link ≡ 0) × ((O.state out).finished ≡ false) × ForSome (O.state out).took (λ bytes. bytes ≡ []) }
    ensures plan { IfSome result (λ m. m.table.rule.plan ≡ record { slots = 1; links = 1; requests = 8; names = 1; operations = 4096; seats = 2; first = 0 }) }
    ensures made { IfSome result (λ m. AreMade m.table.rule.table.shared.table_id m.table.rule.plan m.seats.items m.passes.items) }
{
    let plan = Plan {
        slots: 1,
        links: 1,
        requests: 8,
        names: 1,
        operations: 4096,
        seats: 2,
        first: 0,
    };
    let Ok(mut outs) = Vec::with_capacity(alloc, 1) else {
        return None;
    };
    outs.push_reserved(out);
    new_table(alloc, &plan, outs).ok()
}

/// A seat of the table.
fn one_of<O: Out>(table: &SockTable<O>, seats: &mut Vec<SockSeat<O>>) -> Option<SockSeat<O>>
    requires { AreNewSeats table.now.rule.table.shared.table_id table.now.rule.plan seats.old.items }
    ensures seat { IfSome result (λ s. IsFree table.now.rule.table.shared.table_id table.now.rule.plan s) }
    ensures new { IfSome result (λ s. HasSent s.me.0 []) }
    ensures left { AreNewSeats table.now.rule.table.shared.table_id table.now.rule.plan seats.new.items }
{
    let seat = seats.pop()?;
    Some(seat)
}

/// Makes the socket, under the name 0. The seat comes back.
fn born<O: Out>(
    table: &SockTable<O>,
    mut seat: SockSeat<O>,
    mut passes: Vec<LinkPass<O>>,
) -> Option<(SockSeat<O>, SocketId)>
    requires seat { IsFree table.now.rule.table.shared.table_id table.now.rule.plan seat }
    requires new { HasSent seat.me.0 [] }
    requires passes { PassesFrom table.now.rule.table.shared.table_id table.now.rule.plan 0 passes.items }
    requires name { 0 < table.now.rule.plan.names }
    ensures { IfSome result (λ s. MaySend table.now.rule.table.shared.table_id table.now.rule.plan s.1.0 s.0) }
{
    let pass = passes.pop()?;
    let Ok(id) = table.create(&mut seat, pass) else {
        return None;
    };
    table.publish(&mut seat, 0, id);
    Some((seat, id))
}

/// The other thread finds the socket there.
fn found<O: Out>(table: &SockTable<O>, mut seat: SockSeat<O>) -> Option<(SockSeat<O>, SocketId)>
    requires seat { IsFree table.now.rule.table.shared.table_id table.now.rule.plan seat }
    requires new { HasSent seat.me.0 [] }
    requires name { 0 < table.now.rule.plan.names }
    ensures { IfSome result (λ s. MaySend table.now.rule.table.shared.table_id table.now.rule.plan s.1.0 s.0) }
{
    let id = table.find(&mut seat, 0)?;
    Some((seat, id))
}

/// The table ends, and tells the order.
fn end<O: Out>(
    alloc: Global,
    table: SockTable<O>,
    one: Sent<O>,
    two: Sent<O>,
    _ones: &[Vec<u8>],
    _twos: &[Vec<u8>],
) -> Option<Told<O>>
    requires one { HasDone table.rule.table.shared.table_id table.rule.plan (messages 0 _ones.now one.count) one.seat }
    requires two { HasDone table.rule.table.shared.table_id table.rule.plan (messages 1 _twos.now two.count) two.seat }
    requires all { table.rule.plan.seats ≡ 2 }
    requires shared { IsShared table.rule.plan }
    ensures took { IfSome result (λ t. TookBoth O.state t.out (messages 0 _ones.now t.one) (messages 1 _twos.now t.two)) }
    ensures counts { IfSome result (λ t. (t.one ≡ one.count) × (t.two ≡ two.count)) }
{
    let Sent { seat, count: one } = one;
    let Sent {
        seat: other,
        count: two,
    } = two;
    let Ok(seats) = vec![in alloc; seat, other] else {
        return None;
    };
    messages_in_one_order(seats.as_slice());
    let Ok(closed) = table.close(alloc, seats) else {
        return None;
    };
    let Closed {
        places: _,
        vrefs: _,
        mut outs,
    } = closed;
    let out = outs.pop()?;
    Some(Told { out, one, two })
}

/// Two threads send these texts through one socket of this link, each those of its own in their order. What the link took are
/// the messages of both in one order, each thread's in its own, each whole, and then at most a proper beginning of the next; of
/// each thread's texts so many were accepted. `None` where memory is wanting.
pub fn send_both<O: Out + Send, R: Threads + Wait + Sync>(
    rt: &R,
    alloc: Global,
    out: O,
    ones: &[Vec<u8>],
    twos: &[Vec<u8>],
) -> Option<Told<O>>
    requires fresh { ((O.state out).link ≡ 0) × ((O.state out).finished ≡ false) × ForSome (O.state out).took (λ bytes. bytes ≡ []) }
    requires ones { length ones.now ≤ 16384 }
    requires twos { length twos.now ≤ 16384 }
    ensures took { IfSome result (λ t. TookBoth O.state t.out (messages 0 ones.now t.one) (messages 1 twos.now t.two)) }
    ensures counts { IfSome result (λ t. (t.one ≤ length ones.now) × (t.two ≤ length twos.now)) }
{
    let Made {
        table,
        mut seats,
        passes,
    } = begin(alloc, out)?;
    let first = one_of(&table, &mut seats)?;
    let second = one_of(&table, &mut seats)?;
    let (first, id) = born(&table, first, passes)?;
    let (second, same) = found(&table, second)?;
    let (one, two) = both(rt, alloc, &table, (first, id), (second, same), ones, twos);
    end(alloc, table, one, two, ones, twos)
}

/// Each thread sends its own.
fn both<O: Out + Send, R: Threads + Wait + Sync>(
    rt: &R,
    alloc: Global,
    table: &SockTable<O>,
    first: (SockSeat<O>, SocketId),
    second: (SockSeat<O>, SocketId),
    ones: &[Vec<u8>],
    twos: &[Vec<u8>],
) -> (Sent<O>, Sent<O>)
    requires first { MaySend table.now.rule.table.shared.table_id table.now.rule.plan first.1.0 first.0 }
    requires second { MaySend table.now.rule.table.shared.table_id table.now.rule.plan second.1.0 second.0 }
    requires shared { IsShared table.now.rule.plan }
    requires ones { length ones.now ≤ 16384 }
    requires twos { length twos.now ≤ 16384 }
    ensures one { HasDone table.now.rule.table.shared.table_id table.now.rule.plan (messages 0 ones.now result.0.count) result.0.seat × (result.0.count ≤ length ones.now) }
    ensures two { HasDone table.now.rule.table.shared.table_id table.now.rule.plan (messages 1 twos.now result.1.count) result.1.seat × (result.1.count ≤ length twos.now) }
{
    let (one, id) = first;
    let (two, same) = second;
    thread::join(
        rt,
        move || -> Sent<O>
            requires { IsSync R.row × MaySend table.now.rule.table.shared.table_id table.now.rule.plan id.0 one × IsShared table.now.rule.plan × (length ones.now ≤ 16384) }
            ensures { HasDone table.entry.now.rule.table.shared.table_id table.entry.now.rule.plan (messages 0 ones.entry.now result.count) result.seat × (result.count ≤ length ones.entry.now) }
        { send_all(rt, alloc, table, one, id, 0, ones) },
        move || -> Sent<O>
            requires { IsSync R.row × MaySend table.now.rule.table.shared.table_id table.now.rule.plan same.0 two × IsShared table.now.rule.plan × (length twos.now ≤ 16384) }
            ensures { HasDone table.entry.now.rule.table.shared.table_id table.entry.now.rule.plan (messages 1 twos.entry.now result.count) result.seat × (result.count ≤ length twos.entry.now) }
        { send_all(rt, alloc, table, two, same, 1, twos) },
    )
}
