// Links that are read beside the clients get their readers, and what these leave is handed in.
ghost use Rattle.std.specs.Prelude.{◌≡◌, ◌+◌, ◌<◌, ◌≤◌, All, IfOk, length, map};
ghost use Rattle.sock_open.specs.NewTableContents.{AreNewSeats};
ghost use Rattle.sock_open.specs.SocketTableOpening.{IsRoom};
ghost use Rattle.corr_id.specs.IdTableOpening.{AreNew};
ghost use Rattle.link_crew.specs.LinkThreadsBesideClients.{IsReady};
ghost use Rattle.call_run.specs.LinksBesideClients.{AreSeated, rest_of, HaveWorked, IsLinksRoom, HasMoreLinks, PartedOne, AreParted};

use crate::hiring::next_seats;
use crate::leaving::either;
use call_client::{Tables, Told};
use corr_id::IdSeat;
use link_crew::{Beside, Frame, Parted, Rest, work_all};
use sock_io::{In, Out, Peer};
use sock_message::Call;
use sock_rule::SockSeat;
use std::alloc::{AllocError, Global};
use std::collections::VecDeque;
use std::sync::Wait;
use std::thread::Threads;

/// What links leave that were read beside the clients, one of each for a link: what it has besides its writing half; and of its
/// reader the seats of both tables, what it told of the calls that it ended, and the responses that it keeps. Then whether memory
/// was wanting for any of them.
#[derive(Drop)]
pub struct LinksLeft<O: Out, I: In, P: Peer> {
    pub rests: VecDeque<Rest<I, P>>,
    pub seats: Vec<SockSeat<O>>,
    pub ids: Vec<IdSeat<Call>>,
    pub told: Vec<Vec<Told>>,
    pub early: Vec<Vec<Frame>>,
    pub short: bool,
}

/// Links with their readers, and room for what they leave.
#[derive(Drop)]
pub struct Links<O: Out, I: In, P: Peer> {
    pub besides: Vec<Beside<O, I, P>>,
    pub left: LinksLeft<O, I, P>,
}

fn room_left<O: Out, I: In, P: Peer>(
    alloc: Global,
    count: usize,
) -> Result<LinksLeft<O, I, P>, AllocError>
    requires { count ≤ 64 }
    ensures { IfOk result (IsLinksRoom count) }
{
    Ok(LinksLeft {
        rests: VecDeque::with_capacity(alloc, count)?,
        seats: Vec::with_capacity(alloc, count + 1)?,
        ids: Vec::with_capacity(alloc, count)?,
        told: Vec::with_capacity(alloc, count)?,
        early: Vec::with_capacity(alloc, count)?,
        short: false,
    })
}

/// Room for so many links, and for what they leave.
pub fn room_for_links<O: Out, I: In, P: Peer>(
    alloc: Global,
    count: usize,
) -> Result<Links<O, I, P>, AllocError>
    requires { count ≤ 64 }
    ensures besides { IfOk result (λ r. IsRoom count r.besides) }
    ensures left { IfOk result (λ r. IsLinksRoom count r.left) }
{
    let besides = Vec::with_capacity(alloc, count)?;
    let left = room_left(alloc, count)?;
    Ok(Links { besides, left })
}

/// Each of these links gets a reader with a seat of both tables, that waits for the socket of its `open`.
pub fn seat_links<O: Out, I: In, P: Peer>(
    alloc: Global,
    tables: &Tables<O>,
    opens: &[u16],
    mut rests: VecDeque<Rest<I, P>>,
    seats: &mut Vec<SockSeat<O>>,
    ids: &mut Vec<IdSeat<Call>>,
    besides: &mut Vec<Beside<O, I, P>>,
)
    requires seats { AreNewSeats tables.now.socks.rule.table.shared.table_id tables.now.socks.rule.plan seats.old.items }
    requires ids { AreNew tables.now.ids.table.shared.table_id ids.old.items }
    requires enough { (length opens.now ≤ length seats.old.items) × (length opens.now ≤ length ids.old.items) }
    requires links { length opens.now ≡ length rests.items }
    requires few { length opens.now ≤ 64 }
    requires room { IsRoom (length opens.now) besides.old }
    ensures seated { AreSeated tables.now.socks.rule.table.shared.table_id tables.now.socks.rule.plan tables.now.ids.table.shared.table_id 0 opens.now besides.new.items }
    ensures rests { map rest_of besides.new.items ≡ rests.items }
    ensures seats { AreNewSeats tables.now.socks.rule.table.shared.table_id tables.now.socks.rule.plan seats.new.items }
    ensures ids { AreNew tables.now.ids.table.shared.table_id ids.new.items }
    ensures left { (length seats.new.items + length opens.now ≡ length seats.old.items) × (length ids.new.items + length opens.now ≡ length ids.old.items) }
{
    let mut link = 0u16;
    'links: for operation in opens {
        let Some(rest) = rests.pop_front() else {
            unreachable!();
        };
        let (seat, id_seat) = next_seats(seats, ids);
        let Rest { inn, peer } = rest;
        let beside = Beside::new(alloc, seat, id_seat, link, *operation, inn, peer);
        besides.push_reserved(beside);
        link += 1;
    }
}

/// Each is served and read, as far as threads can be started on threads of their own.
pub fn work_links<O: Out + Send, I: In + Send, P: Peer + Send, R: Threads + Wait + Sync>(
    rt: &R,
    tables: &Tables<O>,
    calls: &[u16],
    mut links: Vec<Beside<O, I, P>>,
) -> Vec<Beside<O, I, P>>
    requires ready { All (IsReady tables.now.socks.rule.table.shared.table_id tables.now.socks.rule.plan tables.now.ids.table.shared.table_id) links.items }
    requires calls { All (λ o. o < tables.now.ids.plan.operations) calls.now }
    ensures { HaveWorked I.state P.state tables.now.socks.rule.table.shared.table_id tables.now.socks.rule.plan tables.now.ids.plan calls.now links.items result.items }
{
    work_all(rt, &tables.socks, &tables.ids, calls, links.as_mut_slice());
    links
}

/// What a link leaves.
fn part_one<O: Out, I: In, P: Peer>(beside: Beside<O, I, P>, left: &mut LinksLeft<O, I, P>)
    requires { HasMoreLinks 1 left.old }
    ensures { PartedOne beside left.old left.new }
{
    let unwell = either(beside.unserved, beside.unread);
    let Parted { peer, inn, spent } = beside.part();
    left.rests.push_back_reserved(Rest { inn, peer });
    left.seats.push_reserved(spent.seat);
    left.ids.push_reserved(spent.ids);
    left.told.push_reserved(spent.outcomes);
    left.early.push_reserved(spent.early);
    left.short = either(left.short, unwell);
}

/// What each of them leaves, in their order.
pub fn part_all<O: Out, I: In, P: Peer>(
    besides: Vec<Beside<O, I, P>>,
    left: &mut LinksLeft<O, I, P>,
)
    requires { IsLinksRoom (length besides.items) left.old }
    ensures { AreParted besides.items left.new }
{
    'parts: for beside in besides {
        part_one(beside, left);
    }
}
