// The table of words and homes, and its seats.
ghost use Rattle.std.specs.Prelude.{◌≡◌, ◌+◌, ◌*◌, ◌<◌, [], IfOk, IfErr, length};
ghost use Rattle.sock_model.specs.SocketTableLayout.{all_words, next_index, place_index};
ghost use Rattle.sock_model.specs.ViewsOfSplitSeats.{joined, lighter};
ghost use Rattle.sock_rule.specs.OnTable.{opener};
ghost use Rattle.sock_rule.specs.Shows.{shows_in, SaysWays};
ghost use Rattle.sock_rule.specs.SocketSeatSplits.{IsNew, IsSeat, MayGive, giving, given, passed, IsDone};

use crate::homes::SockHome;
use crate::key::{TableKey, Ways};
use crate::plays::{Give, PassOut, SockRule, TakeIn};
use atomic_table::{Refused, Seat, Table};
use ghosts::Ghosts;
use sock_io::Out;
use sock_model::{Plan, View};
use std::alloc::Global;

pub type SockSeat<O> = Seat<SockHome<O>, View>;

/// The words and homes of the sockets, on which each seat steps through a `&`.
#[derive(Drop)]
pub struct RuleTable<O: Out> {
    pub table: Table<SockHome<O>, View, TableKey, SockRule, Global>,
    pub plan: Plan,
    pub ways: Ways,
    pub ghost sized: { table.shared.table_id.words ≡ all_words plan },
    pub ghost housed: { table.shared.table_id.slots ≡ plan.requests + plan.links },
    pub ghost planned: { table.shared.key.plan ≡ plan },
    pub ghost keyed: { table.shared.key.ways.list ≡ ways.list },
    pub ghost each_way: { length ways.list ≡ plan.links },
    pub ghost some_slots: { 0 < plan.slots },
}

impl<O: Out> RuleTable<O> {
    /// A table of these words and homes. Its first seat stands for all, and has all passes.
    pub fn open(
        alloc: Global,
        plan: Plan,
        ways: Ways,
        words: &[u64],
        homes: Vec<SockHome<O>>,
    ) -> Result<(RuleTable<O>, SockSeat<O>), Refused<SockHome<O>, Global>>
        requires new { IsNew (shows_in plan ways.list) plan words.now homes.items }
        requires ways { length ways.list ≡ plan.links }
        requires slots { 0 < plan.slots }
        ensures ok { IfOk result (λ t. (t.0.plan ≡ plan) × (t.1.table_id ≡ t.0.table.shared.table_id) × (t.1.me ≡ (opener plan, []))) }
        ensures ways { IfOk result (λ t. t.0.ways.list ≡ ways.list) }
        ensures err { IfErr result (λ r. r.slots.items ≡ homes.items) }
    {
        let key = TableKey { plan, ways };
        let (table, seat) = Table::new(alloc, words, homes, &key)?;
        let TableKey { plan, ways } = key;
        Ok((RuleTable { table, plan, ways }, seat))
    }

    /// The ways of the links, as a step is told them.
    pub fn said(&self) -> SockHome<O>
        ensures { SaysWays self.now.ways.list result }
    {
        SockHome::Ways(Ghosts::of(&self.ways))
    }

    /// A new seat.
    pub fn give(&self, seat: &mut SockSeat<O>) -> SockSeat<O>
        requires seat { IsSeat self.now.table.shared.table_id self.now.plan seat.old }
        requires may { MayGive seat.old.me.0 }
        ensures seat { IsSeat self.now.table.shared.table_id self.now.plan seat.new }
        ensures new { IsSeat self.now.table.shared.table_id self.now.plan result }
        ensures view { (seat.new.me ≡ (giving seat.old.me.0, seat.old.me.1)) × (result.me ≡ (given seat.old.me.0, [])) }
    {
        self.table.shared.split_seat::<Give>(seat)
    }

    /// A seat of its own for the pass that stands first.
    pub fn pass_out(&self, seat: &mut SockSeat<O>) -> SockSeat<O>
        requires seat { IsSeat self.now.table.shared.table_id self.now.plan seat.old }
        requires spare { 0 < seat.old.me.0.spare }
        ensures seat { IsSeat self.now.table.shared.table_id self.now.plan seat.new }
        ensures pass { result.table_id ≡ self.now.table.shared.table_id }
        ensures view { (seat.new.me ≡ (lighter seat.old.me.0, seat.old.me.1)) × (result.me ≡ (passed seat.old.me.0, [])) }
    {
        self.table.shared.split_seat::<PassOut>(seat)
    }

    /// The seat `from` has no reference, right or link. Its passes, its notes and its lists are added to those of `seat`.
    pub fn take_in(&self, seat: &mut SockSeat<O>, from: SockSeat<O>)
        requires seat { IsSeat self.now.table.shared.table_id self.now.plan seat.old }
        requires from { (from.table_id ≡ self.now.table.shared.table_id) × (from.me.1 ≡ []) }
        requires done { IsDone self.now.plan from.me.0 }
        ensures seat { IsSeat self.now.table.shared.table_id self.now.plan seat.new }
        ensures view { seat.new.me ≡ (joined seat.old.me.0 from.me.0, seat.old.me.1) }
    {
        self.table.shared.join_seat::<TakeIn>(seat, from);
    }

    // The index of a request's next word.
    pub(crate) fn next_index(&self, request: u16) -> usize
        requires request { request < self.now.plan.requests }
        ensures { result ≡ next_index self.now.plan request }
    {
        sock_model::next_index(&self.plan, request)
    }

    // That of a label's place word.
    pub(crate) fn place_index(&self, place: u32) -> usize
        requires place { place < 8 * self.now.plan.operations }
        ensures { result ≡ place_index self.now.plan place }
    {
        sock_model::place_index(&self.plan, place)
    }
}
