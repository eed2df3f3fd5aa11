// A link beside the clients: one thread serves its other end, and one reads it.
ghost use Rattle.std.specs.Prelude.{◌≡◌, ◌<◌, ℕ, [], false, All, length, slice_index_or};
ghost use Rattle.link_crew.specs.LinkThreadsBesideClients.{MayRead, HasRead, IsReady, HasWorked};
ghost use Rattle.link_crew.specs.ServingOtherEnd.{ServedToEnd};

use crate::serving::serve_to_end;
use corr_id::{IdSeat, IdTable};
use rpc_reader::{Reader, Spent};
use sock_io::{In, Out, Peer};
use sock_message::Call;
use sock_rule::SockSeat;
use sock_table::SockTable;
use std::alloc::Global;
use std::sync::Wait;
use std::thread;
use std::thread::{Threads, join_mut};

/// A link as it is served and read beside the clients: its other end, its reading half, its reader, and the `open` for whose
/// socket that waits. Then whether memory was wanting for either.
#[derive(Drop)]
pub struct Beside<O: Out, I: In, P: Peer> {
    pub peer: P,
    pub inn: I,
    pub reader: Reader<O>,
    pub operation: u16,
    pub unserved: bool,
    pub unread: bool,
}

/// What a link has besides its writing half.
#[derive(Drop)]
pub struct Rest<I: In, P: Peer> {
    pub inn: I,
    pub peer: P,
}

/// What is left of it: the other end and the reading half, and what its reader leaves.
#[derive(Drop)]
pub struct Parted<O: Out, I: In, P: Peer> {
    pub peer: P,
    pub inn: I,
    pub spent: Spent<O>,
}

// The link is read on a thread of its own while its other end is served here, and where no thread can be started, behind that. It
// answers whether memory was wanting, for the first and for the second.
fn read_and_serve<O: Out + Send, I: In + Send, P: Peer + Send, R: Threads + Wait + Sync>(
    rt: &R,
    socks: &SockTable<O>,
    ids: &IdTable<Call>,
    operation: u16,
    calls: &[u16],
    reader: &mut Reader<O>,
    inn: &mut I,
    peer: &mut P,
) -> (bool, bool)
    requires may { MayRead socks.now.rule.table.shared.table_id socks.now.rule.plan ids.now.table.shared.table_id operation reader.old }
    requires calls { All (λ o. o < ids.now.plan.operations) calls.now }
    ensures read { HasRead socks.now.rule.table.shared.table_id socks.now.rule.plan ids.now.plan calls.now operation result.0 reader.old reader.new (I.state inn.old) (I.state inn.new) }
    ensures served { ServedToEnd result.1 (P.state peer.old) (P.state peer.new) }
{
    join_mut(
        rt,
        &mut || -> bool
            requires { MayRead socks.now.rule.table.shared.table_id socks.now.rule.plan ids.now.table.shared.table_id operation reader.now × All (λ o. o < ids.now.plan.operations) calls.now }
            ensures { HasRead socks.entry.now.rule.table.shared.table_id socks.entry.now.rule.plan ids.entry.now.plan calls.entry.now operation result reader.entry.now reader.exit.now (I.state inn.entry.now) (I.state inn.exit.now) }
        {
            reader
                .run(rt, socks, ids, operation, calls, inn, false)
                .is_err()
        },
        &mut || -> bool
            ensures { ServedToEnd result (P.state peer.entry.now) (P.state peer.exit.now) }
        { serve_to_end(rt, peer).is_err() },
    )
}

impl<O: Out + Send, I: In + Send, P: Peer + Send> Beside<O, I, P> {
    /// Serves its other end, and reads it.
    pub fn work<R: Threads + Wait + Sync>(
        &mut self,
        rt: &R,
        socks: &SockTable<O>,
        ids: &IdTable<Call>,
        calls: &[u16],
    )
        requires ready { IsReady socks.now.rule.table.shared.table_id socks.now.rule.plan ids.now.table.shared.table_id self.old }
        requires calls { All (λ o. o < ids.now.plan.operations) calls.now }
        ensures { HasWorked I.state P.state socks.now.rule.table.shared.table_id socks.now.rule.plan ids.now.plan calls.now self.old self.new }
    {
        let (unread, unserved) = read_and_serve(
            rt,
            socks,
            ids,
            self.operation,
            calls,
            &mut self.reader,
            &mut self.inn,
            &mut self.peer,
        );
        self.unread = unread;
        self.unserved = unserved;
    }
}

impl<O: Out, I: In, P: Peer> Beside<O, I, P> {
    /// The link of this number, that waits for its socket. It takes no memory.
    pub fn new(
        alloc: Global,
        seat: SockSeat<O>,
        ids: IdSeat<Call>,
        link: u16,
        operation: u16,
        inn: I,
        peer: P,
    ) -> Self
        ensures ends { (result.inn ≡ inn) × (result.peer ≡ peer) }
        ensures seats { (result.reader.seat ≡ seat) × (result.reader.calls.seat ≡ ids) }
        ensures numbers { (result.reader.link ≡ link) × (result.operation ≡ operation) }
        ensures empty { (result.reader.calls.early.items ≡ []) × (result.reader.calls.told.items ≡ []) × (result.reader.calls.starved ≡ false) }
    {
        Beside {
            peer,
            inn,
            reader: Reader::new(alloc, seat, ids, link),
            operation,
            unserved: false,
            unread: false,
        }
    }

    /// What is left of it.
    pub fn part(self) -> Parted<O, I, P>
        ensures ends { (result.inn ≡ self.inn) × (result.peer ≡ self.peer) }
        ensures spent { (result.spent.seat ≡ self.reader.seat) × (result.spent.ids ≡ self.reader.calls.seat) × (result.spent.outcomes ≡ self.reader.calls.told) × (result.spent.early ≡ self.reader.calls.early) }
    {
        Parted {
            peer: self.peer,
            inn: self.inn,
            spent: self.reader.spent(),
        }
    }
}

/// Each of these, as far as threads can be started on threads of their own: two for each link.
pub fn work_all<O: Out + Send, I: In + Send, P: Peer + Send, R: Threads + Wait + Sync>(
    rt: &R,
    socks: &SockTable<O>,
    ids: &IdTable<Call>,
    calls: &[u16],
    links: &mut [Beside<O, I, P>],
)
    requires ready { All (IsReady socks.now.rule.table.shared.table_id socks.now.rule.plan ids.now.table.shared.table_id) links.old }
    requires calls { All (λ o. o < ids.now.plan.operations) calls.now }
    ensures each { (i : ℕ) (d : _) → i < length links.old → HasWorked I.state P.state socks.now.rule.table.shared.table_id socks.now.rule.plan ids.now.plan calls.now (slice_index_or links.old i d) (slice_index_or links.new i d) }
    ensures length { length links.new ≡ length links.old }
{
    let count = links.len().max(1);
    thread::for_each_mut(
        rt,
        links,
        count,
        &|_, link: &mut Beside<O, I, P>|
            requires { IsReady socks.now.rule.table.shared.table_id socks.now.rule.plan ids.now.table.shared.table_id link.now × All (λ o. o < ids.now.plan.operations) calls.now }
            ensures { HasWorked I.state P.state socks.entry.now.rule.table.shared.table_id socks.entry.now.rule.plan ids.entry.now.plan calls.entry.now link.entry.now link.exit.now }
        { link.work(rt, socks, ids, calls) },
    );
}
