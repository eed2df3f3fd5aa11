// The clients of a script with calls on threads, over tables of their own.
ghost use Rattle.std.specs.Prelude.{◌≡◌, ◌+◌, ◌<◌, ◌≤◌, All, IfOk, IfErr, length, map};
ghost use Rattle.corr_id.specs.IdTableOpening.{AreNew};
ghost use Rattle.sock_open.specs.NewTableContents.{AreNewSeats, PassesFrom};
ghost use Rattle.sock_open.specs.SocketTableOpening.{MayBegin};
ghost use Rattle.sock_table.specs.ClosedSocketTable.{IsRoomOf, ways_of};
ghost use Rattle.call_run.specs.Threads.{MayRunAll};
ghost use Rattle.call_run.specs.CrewOfRun.{IsLeft, IsCast, IsCrew, CrewRan, HasEnded, AreBack};

use crate::failing::end_sockets;
use crate::hiring::{Room, hire, hire_all, next_seats, room_for, rooms_for};
use crate::leaving::{Left, hand_in, hand_in_all, room_to_leave};
use crate::opened::{Opening, opened_names, openings};
use crate::worker::{Worker, run_workers};
use call_client::{Tables, Told};
use corr_id::{IdSeat, IdTable};
use seat_programs::Task;
use sock_io::{Gate, OpenGate, Out};
use sock_message::Call;
use sock_rule::SockSeat;
use sock_table::{Closed, LinkPass};
use sock_words::{PlaceWord, Vref};
use std::alloc::{AllocError, Global};
use std::collections::VecDeque;
use std::sync::Wait;
use std::thread::Threads;

/// What a run leaves: what each client told of its operations, and of the calls that it ended, that of the setup first; the place
/// words and the reference words; the writing halves, in their order; and the table of ids with the seats of the clients, in
/// their order.
#[derive(Drop)]
pub struct Ran<O: Out> {
    pub told: Vec<Vec<Told>>,
    pub ended: Vec<Vec<Told>>,
    pub places: Vec<PlaceWord>,
    pub vrefs: Vec<Vref>,
    pub outs: Vec<O>,
    pub ids: IdTable<Call>,
    pub seats: Vec<IdSeat<Call>>,
}

/// Memory was wanting. The writing halves come back, in their order.
#[derive(Drop)]
pub struct NoRun<O: Out> {
    pub outs: Vec<O>,
}

/// All that a run needs of memory before its tables are made.
#[derive(Drop)]
pub struct Cast<O: Out> {
    pub main: Room<O>,
    pub rooms: Vec<Room<O>>,
    pub workers: Vec<Worker<O>>,
    pub kit: Kit<O>,
}

/// What a run has besides its clients: the `open`s of the setup, room for the names that they open and for what is left, and
/// `last` with room for the seat that takes in all others.
#[derive(Drop)]
pub struct Kit<O: Out> {
    pub openings: Vec<Opening>,
    pub names: Vec<u16>,
    pub left: Left<O>,
    pub last: Vec<SockSeat<O>>,
}

/// Room for these clients and their setup.
pub fn prepare<O: Out>(
    alloc: Global,
    setup: VecDeque<Task>,
    clients: Vec<VecDeque<Task>>,
) -> Result<Cast<O>, AllocError>
    requires few { length clients.items ≤ 63 }
    ensures { IfOk result (IsCast setup.items (map (λ v. v.items) clients.items)) }
{
    let count = clients.len();
    let openings = openings(alloc, &setup)?;
    let names = Vec::with_capacity(alloc, openings.len())?;
    let workers = Vec::with_capacity(alloc, count)?;
    let last = Vec::with_capacity(alloc, 1)?;
    let rooms = rooms_for(alloc, clients)?;
    let main = room_for(alloc, setup)?;
    let left = room_to_leave(alloc, count + 1)?;
    let kit = Kit {
        openings,
        names,
        left,
        last,
    };
    Ok(Cast {
        main,
        rooms,
        workers,
        kit,
    })
}

/// Those that run, with room for what they leave. The setup is main's.
#[derive(Drop)]
pub struct Crew<O: Out> {
    pub main: Worker<O>,
    pub workers: Vec<Worker<O>>,
    pub kit: Kit<O>,
}

/// Each client gets its seats, and the passes of its links.
pub fn crew_of<O: Out>(
    alloc: Global,
    tables: &Tables<O>,
    mut dealt: Vec<SockSeat<O>>,
    mut ids: Vec<IdSeat<Call>>,
    mut passes: Vec<LinkPass<O>>,
    cast: Cast<O>,
) -> Crew<O>
    requires dealt { AreNewSeats tables.now.socks.rule.table.shared.table_id tables.now.socks.rule.plan dealt.items }
    requires ids { AreNew tables.now.ids.table.shared.table_id ids.items }
    requires as_many { (length dealt.items ≡ length cast.rooms.items + 1) × (length ids.items ≡ length cast.rooms.items + 1) }
    requires passes { PassesFrom tables.now.socks.rule.table.shared.table_id tables.now.socks.rule.plan 0 passes.items }
    requires links { length passes.items ≡ tables.now.socks.rule.plan.links }
    requires cast { IsCast cast.main.tasks.items (map (λ r. r.tasks.items) cast.rooms.items) cast }
    requires may { MayRunAll tables.now.socks.rule.plan tables.now.ids.plan cast.main.tasks.items (map (λ r. r.tasks.items) cast.rooms.items) }
    requires few { length cast.rooms.items ≤ 63 }
    ensures { IsCrew tables.now.socks.rule.table.shared.table_id tables.now.socks.rule.plan tables.now.ids.table.shared.table_id tables.now.ids.plan cast.main.tasks.items (map (λ r. r.tasks.items) cast.rooms.items) result }
{
    let Cast {
        main,
        rooms,
        mut workers,
        kit,
    } = cast;
    passes.reverse();
    let (seat, id_seat) = next_seats(&mut dealt, &mut ids);
    let main = hire(alloc, 0, main, seat, id_seat, &mut passes);
    hire_all(
        alloc,
        tables,
        rooms,
        &mut dealt,
        &mut ids,
        &mut passes,
        &mut workers,
    );
    Crew { main, workers, kit }
}

/// Main makes the setup. Then each client makes its operations, on a thread of its own, once it found what the setup opened.
/// When all have ended, main takes in their seats, and ends the sockets of these `open`s.
pub fn run_crew<O: Out + Send, G: Gate + Sync, R: Threads + Wait + Sync>(
    rt: &R,
    tables: &Tables<O>,
    gate: &G,
    opens: &[u16],
    crew: Crew<O>,
) -> Left<O>
    requires crew { IsCrew tables.now.socks.rule.table.shared.table_id tables.now.socks.rule.plan tables.now.ids.table.shared.table_id tables.now.ids.plan crew.main.tasks.items (map (λ w. w.tasks.items) crew.workers.items) crew }
    requires opens { All (λ o. o < tables.now.socks.rule.plan.operations) opens.now }
    ensures { CrewRan O.state tables.now.socks.rule.table.shared.table_id tables.now.socks.rule.plan tables.now.ids.table.shared.table_id tables.now.ids.plan crew.main.tasks.items (map (λ w. w.tasks.items) crew.workers.items) opens.now result }
{
    let Crew {
        mut main,
        mut workers,
        kit,
    } = crew;
    let Kit {
        openings,
        mut names,
        mut left,
        last,
    } = kit;
    main.work(rt, tables, &[], &OpenGate);
    opened_names(
        main.caller.outcomes.as_slice(),
        openings.as_slice(),
        &mut names,
    );
    run_workers(rt, tables, names.as_slice(), gate, workers.as_mut_slice());
    hand_in(main, &mut left);
    hand_in_all(workers, &mut left);
    let Left {
        seats,
        ids,
        told,
        ended,
        short,
    } = left;
    let seats = end_sockets(rt, &tables.socks, opens, seats, last);
    Left {
        seats,
        ids,
        told,
        ended,
        short,
    }
}

/// The table of sockets ends.
pub fn end<O: Out>(tables: Tables<O>, room: Closed<O>, left: Left<O>) -> Result<Ran<O>, NoRun<O>>
    requires plan { MayBegin tables.socks.rule.plan }
    requires room { IsRoomOf tables.socks.rule.plan room }
    requires done { IsLeft tables.socks.rule.table.shared.table_id tables.socks.rule.plan tables.socks.rule.plan.seats left.seats.items }
    ensures ran { IfOk result (HasEnded O.state tables.socks.rule.plan left.seats.items left tables.ids) }
    ensures back { IfErr result (λ e. AreBack O.state tables.socks.rule.plan e.outs.items) }
    ensures ways { IfOk result (λ r. ways_of O.state r.outs.items ≡ tables.socks.rule.ways.list) }
    ensures ways_back { IfErr result (λ e. ways_of O.state e.outs.items ≡ tables.socks.rule.ways.list) }
{
    let Tables { socks, ids } = tables;
    let Left {
        seats,
        ids: id_seats,
        told,
        ended,
        short,
    } = left;
    let Closed {
        places,
        vrefs,
        outs,
    } = socks.close_in(room, seats);
    if short {
        drop(ids);
        return Err(NoRun { outs });
    }
    Ok(Ran {
        told,
        ended,
        places,
        vrefs,
        outs,
        ids,
        seats: id_seats,
    })
}
