// The steps of whoever sends a message.
ghost use Rattle.std.specs.Prelude.{◌≡◌, ◌*◌, ◌/◌, ◌%◌, ◌<◌, ◌≤◌, ℕ, [], ◌↔◌, IsTrue, IfSome};
ghost use Rattle.atomic_table.specs.Table.{rest};
ghost use mathlib.Core.Option.{some};
ghost use lib.ListN.{get_elem?};
ghost use Rattle.sock_model.specs.declared.chain.Claim.{Claim};
ghost use Rattle.sock_model.specs.declared.chain.Loose.{Loose};
ghost use Rattle.sock_model.specs.MarkWeights.{is_hold, is_met};
ghost use Rattle.sock_model.specs.SlotRows.{marks_of, met_link};
ghost use Rattle.sock_model.specs.ChainRows.{with_claim, ready_claim, without_loose};
ghost use Rattle.message_parts.specs.Parcels.{parcel_of};
ghost use Rattle.sock_rule.specs.SocketSeatSplits.{IsSeat};
ghost use Rattle.sock_rule.specs.Shows.{heading_of};
ghost use Rattle.sock_rule.specs.SendingOnRequestWords.{Asked, Claims, OnTop, filled_for, MaySwap, Swapped};

use crate::homes::{Letter, SockHome};
use crate::plays::{ClaimRequest, Connect, FillHome, SwapHead, Unconnect};
use crate::table::{RuleTable, SockSeat};
use sock_io::Out;
use sock_model::{head_index, link_index, request_index};
use sock_words::{Step, Ticket, UNCONNECTED};

impl<O: Out> RuleTable<O> {
    /// C1, fetch_or of bit 0 of a request word: the request is claimed where the bit was clear, and its home comes with it.
    #[inline(always)]
    pub fn claim_request(&self, seat: &mut SockSeat<O>, at: u16) -> Step
        requires seat { IsSeat self.now.table.shared.table_id self.now.plan seat.old }
        requires request { at < self.now.plan.requests }
        requires unclaimed { seat.old.me.0.claims ≡ [] }
        ensures seat { IsSeat self.now.table.shared.table_id self.now.plan seat.new }
        ensures asked { Asked self.now.plan at result.found seat.old.me seat.new.me }
        ensures won { IsTrue result.won ↔ (result.found % 2 ≡ 0) }
    {
        let index = request_index(&self.plan, at);
        let found = self.table.shared.fetch_or::<ClaimRequest>(seat, index, 1);
        chain_core::claim_request(found)
    }

    /// A request that seemed free at a look, from this one on and then from the first. It may be taken by now.
    #[inline(always)]
    pub fn likely_request(&self, from: u16) -> Option<u16>
        requires from { from ≤ self.now.plan.requests }
        ensures { IfSome result (λ at. at < self.now.plan.requests) }
    {
        for at in from..self.plan.requests {
            if self.seems_free(at) {
                return Some(at);
            }
        }
        for at in 0..from {
            if self.seems_free(at) {
                return Some(at);
            }
        }
        None
    }

    // Whether a request is free at a look.
    #[inline(always)]
    fn seems_free(&self, at: u16) -> bool
        requires request { at < self.now.plan.requests }
    {
        let index = request_index(&self.plan, at);
        self.table.shared.peek(index) % 2 == 0
    }

    /// M1: the message goes into the home of the request that the seat claimed, for the link of the life that it holds in
    /// slot `slot`, which is the answer.
    #[inline(always)]
    pub fn put_msg(&self, seat: &mut SockSeat<O>, at: u16, slot: u16, msg: Letter) -> u64
        requires seat { IsSeat self.now.table.shared.table_id self.now.plan seat.old }
        requires request { at < self.now.plan.requests }
        requires slot { slot < self.now.plan.slots }
        requires claimed { (c : Claim) × Claims c seat.old.me.0 × (c.request ≡ at) }
        requires held { (h : ℕ) × (0 < marks_of (is_hold h) slot seat.old.me.0) }
        requires home { OnTop at seat.old.me }
        requires label { msg.label.place < 8 * self.now.plan.operations }
        ensures seat { IsSeat self.now.table.shared.table_id self.now.plan seat.new }
        ensures view { (c : Claim) (h : ℕ) → Claims c seat.old.me.0 → 0 < marks_of (is_hold h) slot seat.old.me.0 → seat.new.me ≡ (with_claim (met_link slot h result seat.old.me.0) (filled_for c result (heading_of msg) (parcel_of msg.bytes).bytes), rest seat.old.me.1) }
        ensures link { result < self.now.plan.links }
        ensures met { (h k : ℕ) → 0 < marks_of (is_hold h) slot seat.old.me.0 → 0 < marks_of (is_met h k) slot seat.old.me.0 → result ≡ k }
    {
        let home_index = at as usize;
        let old = self
            .table
            .shared
            .exchange(seat, home_index, SockHome::Message(msg));
        drop(old);
        let index = link_index(slot as u32);
        self.table.shared.load::<FillHome>(seat, index)
    }

    /// C7, store of `UNCONNECTED` into the own next word.
    #[inline(always)]
    pub fn unconnect(&self, seat: &mut SockSeat<O>, at: u16)
        requires seat { IsSeat self.now.table.shared.table_id self.now.plan seat.old }
        requires request { at < self.now.plan.requests }
        requires claimed { (c : Claim) × Claims c seat.old.me.0 × (c.request ≡ at) }
        ensures seat { IsSeat self.now.table.shared.table_id self.now.plan seat.new }
        ensures view { (c : Claim) → Claims c seat.old.me.0 → seat.new.me ≡ (with_claim seat.old.me.0 (ready_claim c), seat.old.me.1) }
    {
        let index = self.next_index(at);
        self.table
            .shared
            .store::<Unconnect>(seat, index, UNCONNECTED);
    }

    /// C2, swap of the head with the own ticket: the message is accepted.
    #[inline(always)]
    pub fn swap_head(&self, seat: &mut SockSeat<O>, at: u16, own: Ticket) -> Step
        requires seat { IsSeat self.now.table.shared.table_id self.now.plan seat.old }
        requires slot { at < self.now.plan.slots }
        requires may { MaySwap self.now.plan seat.old.me.0 at own.0 }
        ensures seat { IsSeat self.now.table.shared.table_id self.now.plan seat.new }
        ensures view { (c : Claim) → Claims c seat.old.me.0 → Swapped c result.found seat.old.me seat.new.me }
    {
        let index = head_index(at as u32);
        let found = self.table.shared.swap::<SwapHead>(seat, index, own.0);
        chain_core::swap_head(found, own)
    }

    /// C3, store of the ticket that was found in the head into the own next word.
    #[inline(always)]
    pub fn connect(&self, seat: &mut SockSeat<O>, at: u16, before: Ticket)
        requires seat { IsSeat self.now.table.shared.table_id self.now.plan seat.old }
        requires request { at < self.now.plan.requests }
        requires loose { (n : ℕ) × (l : Loose) × (get_elem? seat.old.me.0.loose n ≡ some l) × (l.request ≡ at) × (l.before ≡ before.0) }
        ensures seat { IsSeat self.now.table.shared.table_id self.now.plan seat.new }
        ensures view { seat.new.me ≡ (without_loose seat.old.me.0 at, seat.old.me.1) }
    {
        let index = self.next_index(at);
        self.table.shared.store::<Connect>(seat, index, before.0);
    }
}
