// The clients of a script with calls on threads, and beside them links that are served and read.
ghost use Rattle.std.specs.Prelude.{◌≡◌, ◌+◌, ◌++◌, ◌<◌, ◌≤◌, ◌||◌, List, All, IfOk, IfErr, length, map, vec_capacity};
ghost use Rattle.std.specs.Thread.{IsSync};
ghost use Rattle.sock_open.specs.SocketTableOpening.{MayBegin, AreFresh};
ghost use Rattle.sock_table.specs.ClosedSocketTable.{IsRoomOf, ways_of};
ghost use Rattle.link_crew.specs.LinkThreadsBesideClients.{IsReady};
ghost use Rattle.call_run.specs.Threads.{ids_of, MayRunAll, RanWith};
ghost use Rattle.call_run.specs.ReadersOfLinks.{LinkReader, AreReaders, AreLeftBy};
ghost use Rattle.call_run.specs.CrewOfRun.{IsLeft, AreLeft, IsCrew, CrewRan, AreBack};
ghost use Rattle.call_run.specs.LinksBesideClients.{AreSeated, rest_of, HaveWorked, IsLinksRoom, LinksRan, IsStage, BothEnded};
ghost use Rattle.sock_words.specs.Totals.{total};

use crate::leaving::{Left, either};
use crate::links::{Links, LinksLeft, part_all, room_for_links, seat_links, work_links};
use crate::running::{Cast, Crew, NoRun, Ran, crew_of, end, prepare, run_crew};
use call_client::{Tables, Told};
use corr_id::{IdSeat, IdTable};
use link_crew::{Beside, Frame, Rest};
use seat_programs::Task;
use sock_io::{Gate, In, Out, Peer};
use sock_message::Call;
use sock_open::{Made, NoTable, new_table};
use sock_rule::SockSeat;
use sock_table::{Closed, rooms};
use sock_words::Plan;
use std::alloc::{AllocError, Global};
use std::collections::VecDeque;
use std::sync::Wait;
use std::thread;
use std::thread::Threads;

/// What a run leaves whose links were read beside its clients: what the clients leave; what the links have besides their writing
/// halves, in their order; and of each link's reader its seat of the ids, what it told of the calls that it ended, and the
/// responses that it keeps.
#[derive(Drop)]
pub struct RanBeside<O: Out, I: In, P: Peer> {
    pub ran: Ran<O>,
    pub rests: VecDeque<Rest<I, P>>,
    pub ids: Vec<IdSeat<Call>>,
    pub told: Vec<Vec<Told>>,
    pub early: Vec<Vec<Frame>>,
}

/// Memory was wanting. The halves come back, in their order.
#[derive(Drop)]
pub struct NoneBeside<O: Out, I: In, P: Peer> {
    pub outs: Vec<O>,
    pub rests: VecDeque<Rest<I, P>>,
}

/// What such a run has before its table of sockets is made.
#[derive(Drop)]
pub struct Stage<O: Out, I: In, P: Peer> {
    pub room: Closed<O>,
    pub cast: Cast<O>,
    pub links: Links<O, I, P>,
    pub ids: IdTable<Call>,
    pub id_seats: Vec<IdSeat<Call>>,
}

fn set_stage<O: Out, I: In, P: Peer>(
    alloc: Global,
    plan: &Plan,
    slots: u16,
    setup: VecDeque<Task>,
    clients: Vec<VecDeque<Task>>,
    links: usize,
) -> Result<Stage<O, I, P>, AllocError>
    requires plan { MayBegin plan.now }
    requires slots { slots ≤ 4096 }
    requires operations { plan.now.operations ≤ 4096 }
    requires few { (length clients.items ≤ 63) × (links ≤ 64) }
    ensures { IfOk result (IsStage plan.now slots links setup.items (map (λ v. v.items) clients.items)) }
{
    let room = rooms(alloc, plan)?;
    let links = room_for_links(alloc, links)?;
    let (ids, id_seats) = IdTable::new(alloc, slots, plan.operations, plan.seats)?;
    let cast = prepare(alloc, setup, clients)?;
    Ok(Stage {
        room,
        cast,
        links,
        ids,
        id_seats,
    })
}

/// The clients run on threads of their own, and beside them each link is served and read. Where no thread can be started for the
/// links, that is done behind the clients.
fn run_both<O: Out + Send, I: In + Send, P: Peer + Send, G: Gate + Sync, R: Threads + Wait + Sync>(
    rt: &R,
    tables: &Tables<O>,
    gate: &G,
    opens: &[u16],
    calls: &[u16],
    crew: Crew<O>,
    links: Links<O, I, P>,
) -> (Left<O>, LinksLeft<O, I, P>)
    requires crew { IsCrew tables.now.socks.rule.table.shared.table_id tables.now.socks.rule.plan tables.now.ids.table.shared.table_id tables.now.ids.plan crew.main.tasks.items (map (λ w. w.tasks.items) crew.workers.items) crew }
    requires opens { All (λ o. o < tables.now.socks.rule.plan.operations) opens.now }
    requires calls { All (λ o. o < tables.now.ids.plan.operations) calls.now }
    requires seated { AreSeated tables.now.socks.rule.table.shared.table_id tables.now.socks.rule.plan tables.now.ids.table.shared.table_id 0 opens.now links.besides.items }
    requires room { IsLinksRoom (length opens.now) links.left }
    ensures ran { CrewRan O.state tables.now.socks.rule.table.shared.table_id tables.now.socks.rule.plan tables.now.ids.table.shared.table_id tables.now.ids.plan crew.main.tasks.items (map (λ w. w.tasks.items) crew.workers.items) opens.now result.0 }
    ensures read { LinksRan I.state P.state tables.now.socks.rule.table.shared.table_id tables.now.socks.rule.plan tables.now.ids.table.shared.table_id tables.now.ids.plan opens.now calls.now (map rest_of links.besides.items) result.1 }
{
    let Links { besides, mut left } = links;
    let (besides, others) = thread::join(
        rt,
        move || -> Vec<Beside<O, I, P>>
            requires { IsSync R.row × All (IsReady tables.now.socks.rule.table.shared.table_id tables.now.socks.rule.plan tables.now.ids.table.shared.table_id) besides.items × All (λ o. o < tables.now.ids.plan.operations) calls.now }
            ensures { HaveWorked I.state P.state tables.entry.now.socks.rule.table.shared.table_id tables.entry.now.socks.rule.plan tables.entry.now.ids.plan calls.entry.now besides.items result.items }
        { work_links(rt, tables, calls, besides) },
        move || -> Left<O>
            requires { IsSync R.row × IsCrew tables.now.socks.rule.table.shared.table_id tables.now.socks.rule.plan tables.now.ids.table.shared.table_id tables.now.ids.plan crew.main.tasks.items (map (λ w. w.tasks.items) crew.workers.items) crew × All (λ o. o < tables.now.socks.rule.plan.operations) opens.now }
            ensures { CrewRan O.state tables.entry.now.socks.rule.table.shared.table_id tables.entry.now.socks.rule.plan tables.entry.now.ids.table.shared.table_id tables.entry.now.ids.plan crew.main.tasks.items (map (λ w. w.tasks.items) crew.workers.items) opens.entry.now result }
        { run_crew(rt, tables, gate, opens, crew) },
    );
    part_all(besides, &mut left);
    (others, left)
}

/// The seat that is left of the clients stands behind these, in the room that is there.
fn with_seats<O: Out>(left: Left<O>, mut seats: Vec<SockSeat<O>>, short: bool) -> Left<O>
    requires alone { (length left.seats.items ≡ 1) × (length seats.items < vec_capacity seats) }
    ensures seats { result.seats.items ≡ seats.items ++ left.seats.items }
    ensures others { (result.ids ≡ left.ids) × (result.told ≡ left.told) × (result.ended ≡ left.ended) }
    ensures short { result.short ≡ (short || left.short) }
{
    let Left {
        seats: mut alone,
        ids,
        told,
        ended,
        short: lacking,
    } = left;
    let Some(last) = alone.pop() else {
        unreachable!();
    };
    seats.push_reserved(last);
    Left {
        seats,
        ids,
        told,
        ended,
        short: either(short, lacking),
    }
}

/// The table of sockets ends, with the seats of the readers before the one that is left of the clients.
fn end_both<O: Out, I: In, P: Peer>(
    tables: Tables<O>,
    room: Closed<O>,
    left: Left<O>,
    links: LinksLeft<O, I, P>,
) -> Result<RanBeside<O, I, P>, NoneBeside<O, I, P>>
    requires plan { MayBegin tables.socks.rule.plan }
    requires room { IsRoomOf tables.socks.rule.plan room }
    requires done { IsLeft tables.socks.rule.table.shared.table_id tables.socks.rule.plan tables.socks.rule.plan.seats (links.seats.items ++ left.seats.items) }
    requires alone { (length left.seats.items ≡ 1) × (length links.seats.items < vec_capacity links.seats) }
    ensures ran { IfOk result (BothEnded O.state tables.socks.rule.plan left links tables.ids) }
    ensures back { IfErr result (λ e. AreBack O.state tables.socks.rule.plan e.outs.items × (e.rests ≡ links.rests)) }
    ensures ways { IfOk result (λ r. ways_of O.state r.ran.outs.items ≡ tables.socks.rule.ways.list) }
    ensures ways_back { IfErr result (λ e. ways_of O.state e.outs.items ≡ tables.socks.rule.ways.list) }
{
    let LinksLeft {
        rests,
        seats,
        ids,
        told,
        early,
        short,
    } = links;
    let left = with_seats(left, seats, short);
    match end(tables, room, left) {
        Ok(ran) => Ok(RanBeside {
            ran,
            rests,
            ids,
            told,
            early,
        }),
        Err(NoRun { outs }) => Err(NoneBeside { outs, rests }),
    }
}

/// Runs these clients over tables of their own, main the setup before, and beside them serves and reads these links, each by a
/// reader that waits for the socket of its `open` and has seats of its own. Where no thread can be started the links are read
/// behind the clients, and a client that waits for an answer then waits for ever. Once the clients have ended the sockets of these
/// `open`s are set failed, and behind the readers the table of sockets is closed; that of ids is left open, for the calls that are
/// left.
pub fn run_beside<
    O: Out + Send,
    I: In + Send,
    P: Peer + Send,
    G: Gate + Sync,
    R: Threads + Wait + Sync,
>(
    rt: &R,
    alloc: Global,
    plan: &Plan,
    slots: u16,
    setup: VecDeque<Task>,
    clients: Vec<VecDeque<Task>>,
    opens: &[u16],
    calls: &[u16],
    outs: Vec<O>,
    rests: VecDeque<Rest<I, P>>,
    gate: &G,
) -> Result<RanBeside<O, I, P>, NoneBeside<O, I, P>>
    requires plan { MayBegin plan.now }
    requires slots { slots ≤ 4096 }
    requires operations { plan.now.operations ≤ 4096 }
    requires outs { AreFresh O.state plan.now outs.items }
    requires may { MayRunAll plan.now (ids_of plan.now slots) setup.items (map (λ v. v.items) clients.items) }
    requires seats { length rests.items + (length clients.items + 1) ≡ plan.now.seats }
    requires opens { All (λ o. o < plan.now.operations) opens.now }
    requires links { length opens.now ≡ length rests.items }
    requires calls { All (λ o. o < plan.now.operations) calls.now }
    ensures ran { IfOk result (λ r. (readers : List (LinkReader O.Out)) × RanWith O.Out O.state readers plan.now slots setup.items (map (λ v. v.items) clients.items) opens.now (map (λ v. v.items) r.ran.told.items) (map (λ v. v.items) r.ran.ended.items) r.ran.places.items r.ran.vrefs.items r.ran.outs.items (map (λ s. s.me.0) r.ran.seats.items) × AreReaders plan.now (ids_of plan.now slots) calls.now 0 opens.now readers × AreLeftBy readers (map (λ x. I.state x.inn) rests.items) (map (λ x. I.state x.inn) r.rests.items) (map (λ x. P.state x.peer) rests.items) (map (λ x. P.state x.peer) r.rests.items) r.ids.items (map (λ v. v.items) r.told.items) (map (λ v. v.items) r.early.items)) }
    ensures ids { IfOk result (λ r. (r.ran.ids.plan ≡ ids_of plan.now slots) × AreLeft r.ran.ids.table.shared.table_id (r.ran.seats.items ++ r.ids.items) × (total (λ s. s.me.0.share) (r.ran.seats.items ++ r.ids.items) ≡ r.ran.ids.plan.seats)) }
    ensures back { IfErr result (λ e. AreBack O.state plan.now e.outs.items × (length e.rests.items ≡ length rests.items)) }
    ensures ways { IfOk result (λ r. ways_of O.state r.ran.outs.items ≡ ways_of O.state outs.items) }
    ensures ways_back { IfErr result (λ e. ways_of O.state e.outs.items ≡ ways_of O.state outs.items) }
{
    let Ok(stage) = set_stage(alloc, plan, slots, setup, clients, rests.len()) else {
        return Err(NoneBeside { outs, rests });
    };
    match new_table(alloc, plan, outs) {
        Ok(
            Made {
                table,
                mut seats,
                passes,
            },
        ) => {
            let Stage {
                room,
                cast,
                mut links,
                ids,
                mut id_seats,
            } = stage;
            let tables = Tables { socks: table, ids };
            seat_links(
                alloc,
                &tables,
                opens,
                rests,
                &mut seats,
                &mut id_seats,
                &mut links.besides,
            );
            let crew = crew_of(alloc, &tables, seats, id_seats, passes, cast);
            let (left, links) = run_both(rt, &tables, gate, opens, calls, crew, links);
            end_both(tables, room, left, links)
        }
        Err(NoTable { outs }) => {
            drop(stage);
            Err(NoneBeside { outs, rests })
        }
    }
}
