// L1 and L2 of links that nobody has a right to write. While such a link is in hand, the seat notes where its half has faults. A link comes out of its home by an
// exchange of 0 for 0, which takes the slot's turn and is told the ways of the links, and a plain move, and goes back by a plain move and a load that gives the turn back.
ghost use Rattle.std.specs.Prelude.{◌≡◌, ◌+◌, ◌<◌, true, [], ◌∷◌};
ghost use Rattle.atomic_table.specs.Table.{rest};
ghost use Rattle.sock_model.specs.ChainRows.{with_hand, without_hand, spent_hand};
ghost use Rattle.sock_rule.specs.declared.homes.SockHome.TheVariants.{Empty, Link};
ghost use Rattle.sock_rule.specs.OnKey.{LinkOnTop};
ghost use Rattle.sock_rule.specs.SocketSeatSplits.{IsSeat};
ghost use Rattle.sock_rule.specs.LinkFaultNotes.{fault_found, fault_left, noting_end, CameOut};
ghost use Rattle.sock_rule.specs.LinksInHand.{hand_of, Recycles};

use crate::homes::{LinkHome, SockHome};
use crate::plays::{PutLink, SpendPass, TakeLast};
use crate::table::{RuleTable, SockSeat};
use sock_io::Out;
use sock_model::link_index;

impl<O: Out> RuleTable<O> {
    /// L1 of whoever recycled slot `at`, of the link of the life that ended.
    #[inline(always)]
    pub fn take_last_link(&self, seat: &mut SockSeat<O>, at: u16, link: u16) -> LinkHome<O>
        requires seat { IsSeat self.now.table.shared.table_id self.now.plan seat.old }
        requires slot { at < self.now.plan.slots }
        requires recycled { Recycles at link seat.old.me.0 }
        requires empty { seat.old.me.0.hands ≡ [] }
        ensures seat { IsSeat self.now.table.shared.table_id self.now.plan seat.new }
        ensures view { seat.new.me ≡ (fault_found (O.state result.out).faults 0 link (with_hand seat.old.me.0 (hand_of link result.took.list result.next)), (self.now.plan.requests + link, Empty) ∷ seat.old.me.1) }
        ensures came { CameOut self.now.plan self.now.ways.list link seat.old.me.0 (O.state result.out) }
    {
        let said = self.said();
        let shared = &self.table.shared;
        shared.compare_exchange_with::<TakeLast>(seat, link_index(at as u32), 0, 0, &said);
        drop(said);
        self.take_link_home(seat, link)
    }

    /// L1 of a link whose pass gets no socket: the pass is spent.
    #[inline(always)]
    pub fn spend_pass(&self, seat: &mut SockSeat<O>, link: u16) -> LinkHome<O>
        requires seat { IsSeat self.now.table.shared.table_id self.now.plan seat.old }
        requires pass { seat.old.me.0.passes ≡ link ∷ [] }
        ensures seat { IsSeat self.now.table.shared.table_id self.now.plan seat.new }
        ensures view { seat.new.me ≡ (fault_found (O.state result.out).faults 0 link (spent_hand seat.old.me.0 (hand_of link result.took.list result.next)), (self.now.plan.requests + link, Empty) ∷ seat.old.me.1) }
        ensures came { CameOut self.now.plan self.now.ways.list link seat.old.me.0 (O.state result.out) }
    {
        let said = self.said();
        let shared = &self.table.shared;
        shared.compare_exchange_with::<SpendPass>(seat, 0, 0, 0, &said);
        drop(said);
        self.take_link_home(seat, link)
    }

    /// L2: the link in hand goes home finished, with what it took. The seat notes at slot `at` that it did.
    #[inline(always)]
    pub fn put_link(&self, seat: &mut SockSeat<O>, at: u16, link: u16, home: LinkHome<O>)
        requires seat { IsSeat self.now.table.shared.table_id self.now.plan seat.old }
        requires slot { at < self.now.plan.slots }
        requires finished { (O.state home.out).finished ≡ true }
        requires top { seat.old.me.1 ≡ (self.now.plan.requests + link, Empty) ∷ rest seat.old.me.1 }
        requires hand { seat.old.me.0.hands ≡ hand_of link home.took.list home.next ∷ [] }
        requires came { CameOut self.now.plan self.now.ways.list link seat.old.me.0 (O.state home.out) }
        ensures seat { IsSeat self.now.table.shared.table_id self.now.plan seat.new }
        ensures view { seat.new.me ≡ (noting_end self.now.plan at link (fault_left (O.state home.out).faults link (without_hand seat.old.me.0 link)), rest seat.old.me.1) }
    {
        let home_index = self.plan.requests as usize + link as usize;
        self.lay_home(seat, home_index, home);
        self.table
            .shared
            .load::<PutLink>(seat, link_index(at as u32));
    }

    // The link of this number comes out of its home, which the seat has in hand.
    #[inline(always)]
    pub(crate) fn take_link_home(&self, seat: &mut SockSeat<O>, link: u16) -> LinkHome<O>
        requires seat { seat.old.table_id ≡ self.now.table.shared.table_id }
        requires home { LinkOnTop (self.now.plan.requests + link) seat.old.me }
        ensures seat { seat.new.table_id ≡ seat.old.table_id }
        ensures home { seat.old.me.1 ≡ (self.now.plan.requests + link, Link result) ∷ rest seat.old.me.1 }
        ensures view { seat.new.me ≡ (seat.old.me.0, (self.now.plan.requests + link, Empty) ∷ rest seat.old.me.1) }
    {
        let home_index = self.plan.requests as usize + link as usize;
        self.take_home(seat, home_index)
    }

    // The link comes out of the home that the seat has in hand, which is empty then.
    #[inline(always)]
    pub(crate) fn take_home(&self, seat: &mut SockSeat<O>, slot: usize) -> LinkHome<O>
        requires seat { seat.old.table_id ≡ self.now.table.shared.table_id }
        requires home { LinkOnTop slot seat.old.me }
        ensures seat { seat.new.table_id ≡ seat.old.table_id }
        ensures home { seat.old.me.1 ≡ (slot, Link result) ∷ rest seat.old.me.1 }
        ensures view { seat.new.me ≡ (seat.old.me.0, (slot, Empty) ∷ rest seat.old.me.1) }
    {
        let value = self.table.shared.exchange(seat, slot, SockHome::Empty);
        let SockHome::Link(home) = value else {
            unreachable!();
        };
        home
    }

    // The link goes into the empty home that the seat has in hand.
    #[inline(always)]
    pub(crate) fn lay_home(&self, seat: &mut SockSeat<O>, slot: usize, home: LinkHome<O>)
        requires seat { seat.old.table_id ≡ self.now.table.shared.table_id }
        requires top { seat.old.me.1 ≡ (slot, Empty) ∷ rest seat.old.me.1 }
        ensures seat { seat.new.table_id ≡ seat.old.table_id }
        ensures view { seat.new.me ≡ (seat.old.me.0, (slot, Link home) ∷ rest seat.old.me.1) }
    {
        let place = self.table.shared.exchange(seat, slot, SockHome::Link(home));
        let SockHome::Empty = place else {
            unreachable!();
        };
        drop(place);
    }
}
