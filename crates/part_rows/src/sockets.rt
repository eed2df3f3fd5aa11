ghost use Rattle.std.specs.Prelude.{◌≡◌, ◌+◌, ◌<◌, ◌≤◌, IfSome};
ghost use Rattle.sock_table.specs.ClosedSocketTable.{AllDone, IsDoneSeat};
ghost use Rattle.sock_table.specs.LinkPasses.{IsPass};
ghost use Rattle.sock_table.specs.ReferenceCalls.{Knows};
ghost use Rattle.sock_open.specs.NewTableContents.{AreNewSeats, PassesFrom};
ghost use Rattle.sock_words.specs.Totals.{total};

use sock_io::MemOut;
use sock_open::{Made, new_table};
use sock_rule::SockSeat;
use sock_table::{CreateFull, LinkPass, SockTable};
use sock_words::{Plan, SocketId};
use std::alloc::Global;
use std::thread;

type Seat = SockSeat<MemOut>;

type Pass = LinkPass<MemOut>;

type Table = SockTable<MemOut>;

/// One slot, link, name and seat, with four requests and three operations.
pub(crate) const ONE: Plan = Plan {
    slots: 1,
    links: 1,
    requests: 4,
    names: 1,
    operations: 3,
    seats: 1,
    first: 0,
};

/// The two passes, in the order of their links.
fn both(table: &Table, mut passes: Vec<Pass>) -> Option<(Pass, Pass)>
    requires { PassesFrom table.now.rule.table.shared.table_id table.now.rule.plan 0 passes.items }
    ensures first { IfSome result (λ r. IsPass table.now.rule.table.shared.table_id table.now.rule.plan r.0) }
    ensures second { IfSome result (λ r. IsPass table.now.rule.table.shared.table_id table.now.rule.plan r.1) }
{
    let second = passes.pop()?;
    let first = passes.pop()?;
    Some((first, second))
}

/// A table of one slot and two links, with so many seats, and the passes of its two links.
fn begin(alloc: Global, seats: u16) -> Option<(Table, Vec<Seat>, Pass, Pass)>
    requires { (1 ≤ seats) × (seats ≤ 64) }
    ensures plan { IfSome result (λ m. m.0.rule.plan ≡ record { slots = 1; links = 2; requests = 0; names = 1; operations = 0; seats = seats; first = 0 }) }
    ensures seats { IfSome result (λ m. AreNewSeats m.0.rule.table.shared.table_id m.0.rule.plan m.1.items) }
    ensures first { IfSome result (λ m. IsPass m.0.rule.table.shared.table_id m.0.rule.plan m.2) }
    ensures second { IfSome result (λ m. IsPass m.0.rule.table.shared.table_id m.0.rule.plan m.3) }
{
    let plan = Plan {
        links: 2,
        requests: 0,
        operations: 0,
        seats,
        ..ONE
    };
    let Ok(outs) = vec![in alloc; MemOut::new(0), MemOut::new(1)] else {
        return None;
    };
    let Ok(made) = new_table(alloc, &plan, outs) else {
        return None;
    };
    let Made {
        table,
        seats,
        passes,
    } = made;
    let (first, second) = both(&table, passes)?;
    Some((table, seats, first, second))
}

/// A seat of the table.
fn one_of(table: &Table, seats: &mut Vec<Seat>) -> Option<Seat>
    requires { AreNewSeats table.now.rule.table.shared.table_id table.now.rule.plan seats.old.items }
    ensures seat { IfSome result (λ s. IsDoneSeat table.now.rule.table.shared.table_id table.now.rule.plan s) }
    ensures share { IfSome result (λ s. s.me.0.share ≡ 1) }
    ensures left { AreNewSeats table.now.rule.table.shared.table_id table.now.rule.plan seats.new.items }
{
    let seat = seats.pop()?;
    Some(seat)
}

/// A socket for each of the two links, as long as there are slots: whether the first got slot 0 at version 0, and the second
/// its pass back.
fn makes_one(table: &Table, mut seat: Seat, first: Pass, second: Pass) -> bool
    requires seat { IsDoneSeat table.now.rule.table.shared.table_id table.now.rule.plan seat }
    requires first { IsPass table.now.rule.table.shared.table_id table.now.rule.plan first }
    requires second { IsPass table.now.rule.table.shared.table_id table.now.rule.plan second }
{
    let Ok(id) = table.create(&mut seat, first) else {
        return false;
    };
    let Err(CreateFull { pass }) = table.create(&mut seat, second) else {
        return false;
    };
    id.slot() == 0 && id.version() == 0 && pass.link == 1
}

#[test]
fn two_creates_on_one_slot(rt: HostRuntime) {
    let Some((table, mut seats, first, second)) = begin(rt.alloc(), 1) else {
        panic!(&rt; "no memory");
    };
    let Some(seat) = one_of(&table, &mut seats) else {
        panic!(&rt; "no seat");
    };
    assert!(&rt; makes_one(&table, seat, first, second));
}

/// Lets another seat know an id, by the name 0.
fn tell(table: &Table, from: &mut Seat, to: &mut Seat, id: SocketId) -> Option<SocketId>
    requires from { IsDoneSeat table.now.rule.table.shared.table_id table.now.rule.plan from.old }
    requires to { IsDoneSeat table.now.rule.table.shared.table_id table.now.rule.plan to.old }
    requires name { 0 < table.now.rule.plan.names }
    requires known { Knows table.now.rule.plan from.old.me.0 id.0 }
    ensures from { IsDoneSeat table.now.rule.table.shared.table_id table.now.rule.plan from.new }
    ensures to { IsDoneSeat table.now.rule.table.shared.table_id table.now.rule.plan to.new }
    ensures share { (from.new.me.0.share ≡ from.old.me.0.share) × (to.new.me.0.share ≡ to.old.me.0.share) }
    ensures told { IfSome result (λ i. Knows table.now.rule.plan to.new.me.0 i.0) }
    ensures known { Knows table.now.rule.plan from.new.me.0 id.0 }
{
    table.publish(from, 0, id);
    table.find(to, 0)
}

/// Addresses the id and gives the reference back, a thousand times: how many of the references had another link than this.
fn poke(table: &Table, mut seat: Seat, id: SocketId, link: u16) -> (Seat, u32)
    requires seat { IsDoneSeat table.now.rule.table.shared.table_id table.now.rule.plan seat }
    requires known { Knows table.now.rule.plan seat.me.0 id.0 }
    ensures seat { IsDoneSeat table.now.rule.table.shared.table_id table.now.rule.plan result.0 }
    ensures share { result.0.me.0.share ≡ seat.me.0.share }
{
    let mut strays = 0u32;
    for _ in 0..1000u32 {
        let Ok(sock) = table.add_reference(&mut seat, id) else {
            continue;
        };
        let found = table.link_of(&mut seat, &sock);
        strays = strays.wrapping_add(u32::from(found != link));
        table.release(&mut seat, sock);
    }
    (seat, strays)
}

/// Makes a socket as soon as the slot is found free.
fn renew(table: &Table, mut seat: Seat, mut pass: Pass) -> (Seat, Option<SocketId>)
    requires seat { IsDoneSeat table.now.rule.table.shared.table_id table.now.rule.plan seat }
    requires pass { IsPass table.now.rule.table.shared.table_id table.now.rule.plan pass }
    ensures seat { IsDoneSeat table.now.rule.table.shared.table_id table.now.rule.plan result.0 }
    ensures share { result.0.me.0.share ≡ seat.me.0.share }
    ensures known { IfSome result.1 (λ id. Knows table.now.rule.plan result.0.me.0 id.0) }
{
    for _ in 0..1_000_000u32 {
        match table.create(&mut seat, pass) {
            Ok(next) => return (seat, Some(next)),
            Err(CreateFull { pass: back }) => pass = back,
        }
        thread::yield_now();
    }
    (seat, None)
}

/// Fails the socket, and gives its own reference back: the link that it had.
fn end(table: &Table, mut seat: Seat, id: SocketId) -> (Seat, Option<u16>)
    requires seat { IsDoneSeat table.now.rule.table.shared.table_id table.now.rule.plan seat }
    requires known { Knows table.now.rule.plan seat.me.0 id.0 }
    ensures seat { IsDoneSeat table.now.rule.table.shared.table_id table.now.rule.plan result.0 }
    ensures share { result.0.me.0.share ≡ seat.me.0.share }
{
    let Ok(sock) = table.add_reference(&mut seat, id) else {
        return (seat, None);
    };
    let link = table.link_of(&mut seat, &sock);
    let _ = table.set_failed(&mut seat, &sock, 1500);
    table.release(&mut seat, sock);
    (seat, Some(link))
}

/// What the second thread saw.
#[derive(Drop)]
struct Renewed {
    seat: Seat,
    /// The link of the socket that it failed.
    old_link: Option<u16>,
    /// The next socket, and how many of its references had another link than that of its pass.
    next: Option<SocketId>,
    strays: u32,
}

/// Fails the socket, makes another one in its slot, and addresses that.
fn fail_and_renew(table: &Table, seat: Seat, id: SocketId, pass: Pass) -> Renewed
    requires seat { IsDoneSeat table.now.rule.table.shared.table_id table.now.rule.plan seat }
    requires known { Knows table.now.rule.plan seat.me.0 id.0 }
    requires pass { IsPass table.now.rule.table.shared.table_id table.now.rule.plan pass }
    ensures seat { IsDoneSeat table.now.rule.table.shared.table_id table.now.rule.plan result.seat }
    ensures share { result.seat.me.0.share ≡ seat.me.0.share }
{
    let link = pass.link;
    let (seat, old_link) = end(table, seat, id);
    let (seat, next) = renew(table, seat, pass);
    let Some(made) = next else {
        return Renewed {
            seat,
            old_link,
            next,
            strays: 0,
        };
    };
    let (seat, strays) = poke(table, seat, made, link);
    Renewed {
        seat,
        old_link,
        next,
        strays,
    }
}

/// Three seats of the table.
fn three_of(table: &Table, seats: &mut Vec<Seat>) -> Option<(Seat, Seat, Seat)>
    requires { AreNewSeats table.now.rule.table.shared.table_id table.now.rule.plan seats.old.items }
    ensures first { IfSome result (λ r. IsDoneSeat table.now.rule.table.shared.table_id table.now.rule.plan r.0) }
    ensures second { IfSome result (λ r. IsDoneSeat table.now.rule.table.shared.table_id table.now.rule.plan r.1) }
    ensures third { IfSome result (λ r. IsDoneSeat table.now.rule.table.shared.table_id table.now.rule.plan r.2) }
    ensures share { IfSome result (λ r. (r.0.me.0.share ≡ 1) × (r.1.me.0.share ≡ 1) × (r.2.me.0.share ≡ 1)) }
{
    let first = one_of(table, seats)?;
    let second = one_of(table, seats)?;
    let third = one_of(table, seats)?;
    Some((first, second, third))
}

/// The three seats in a list.
fn three(alloc: Global, table: &Table, one: Seat, two: Seat, other: Seat) -> Option<Vec<Seat>>
    requires one { IsDoneSeat table.now.rule.table.shared.table_id table.now.rule.plan one }
    requires two { IsDoneSeat table.now.rule.table.shared.table_id table.now.rule.plan two }
    requires other { IsDoneSeat table.now.rule.table.shared.table_id table.now.rule.plan other }
    ensures done { IfSome result (λ all. AllDone table.now.rule.table.shared.table_id table.now.rule.plan all.items) }
    ensures share { IfSome result (λ all. total (λ s. s.me.0.share) all.items ≡ one.me.0.share + (two.me.0.share + other.me.0.share)) }
{
    let Ok(all) = vec![in alloc; one, two, other] else {
        return None;
    };
    Some(all)
}

#[test]
fn an_id_reaches_only_its_life(rt: HostRuntime) {
    let alloc = rt.alloc();
    let Some((table, mut seats, first, second)) = begin(alloc, 3) else {
        panic!(&rt; "no memory");
    };
    let Some((main, mut one, mut two)) = three_of(&table, &mut seats) else {
        panic!(&rt; "no seats");
    };
    let (mut main, made) = renew(&table, main, first);
    let Some(id) = made else {
        panic!(&rt; "no slot");
    };
    let Some(of_one) = tell(&table, &mut main, &mut one, id) else {
        panic!(&rt; "no name");
    };
    let Some(of_two) = tell(&table, &mut main, &mut two, id) else {
        panic!(&rt; "no name");
    };
    let shared = &table;
    let ((one, strays), renewed) = thread::join(
        &rt,
        move || -> (Seat, u32)
            requires { IsDoneSeat shared.now.rule.table.shared.table_id shared.now.rule.plan one × Knows shared.now.rule.plan one.me.0 of_one.0 }
            ensures { IsDoneSeat shared.entry.now.rule.table.shared.table_id shared.entry.now.rule.plan result.0 × (result.0.me.0.share ≡ one.me.0.share) }
        { poke(shared, one, of_one, 0) },
        move || -> Renewed
            requires { IsDoneSeat shared.now.rule.table.shared.table_id shared.now.rule.plan two × Knows shared.now.rule.plan two.me.0 of_two.0 × IsPass shared.now.rule.table.shared.table_id shared.now.rule.plan second }
            ensures { IsDoneSeat shared.entry.now.rule.table.shared.table_id shared.entry.now.rule.plan result.seat × (result.seat.me.0.share ≡ two.me.0.share) }
        { fail_and_renew(shared, two, of_two, second) },
    );
    let Renewed {
        seat: two,
        old_link,
        next,
        strays: others,
    } = renewed;
    assert!(&rt; strays == 0 && others == 0 && old_link == Some(0));
    assert!(&rt; matches!(next, Some(next) if next.slot() == 0 && next.version() == 2));
    let Some(all) = three(alloc, &table, main, one, two) else {
        panic!(&rt; "no memory");
    };
    let Ok(closed) = table.close(alloc, all) else {
        panic!(&rt; "no memory");
    };
    let vref = closed.vrefs.first();
    assert!(&rt; matches!(vref, Some(vref) if vref.version() == 2 && vref.nref() == 1));
}
