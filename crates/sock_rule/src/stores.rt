// The steps on the link, the head and the code of a slot.
ghost use Rattle.std.specs.Prelude.{◌≡◌, ◌≢◌, ◌-◌, ◌<◌, ◌==◌, cond, ℕ};
ghost use Rattle.sock_model.specs.MarkWeights.{only, is_stage, is_hold, is_recycled, is_coding, is_told, is_met};
ghost use Rattle.sock_model.specs.SlotRows.{marks_of, linked, met_link, staged, coded, told_code};
ghost use Rattle.sock_rule.specs.SocketSeatSplits.{IsSeat};
ghost use Rattle.sock_words.specs.Totals.{total};

use crate::plays::{ClearCode, MeetLast, MeetLink, ReadCode, ResetHead, StoreCode, StoreLink};
use crate::table::{RuleTable, SockSeat};
use sock_io::Out;
use sock_model::{code_index, head_index, link_index};
use sock_words::Ticket;

impl<O: Out> RuleTable<O> {
    /// S1: the claimed slot gets the link of a pass, which is spent.
    pub fn store_link(&self, seat: &mut SockSeat<O>, at: u16, link: u16)
        requires seat { IsSeat self.now.table.shared.table_id self.now.plan seat.old }
        requires slot { at < self.now.plan.slots }
        requires claimed { 0 < marks_of (is_stage 0 0) at seat.old.me.0 }
        requires pass { 0 < total (only link) seat.old.me.0.passes }
        ensures seat { IsSeat self.now.table.shared.table_id self.now.plan seat.new }
        ensures view { seat.new.me ≡ (linked at link seat.old.me.0, seat.old.me.1) }
    {
        let index = link_index(at as u32);
        self.table
            .shared
            .store::<StoreLink>(seat, index, link as u64);
    }

    /// S2: the link of a life that the seat holds.
    pub fn load_link(&self, seat: &mut SockSeat<O>, at: u16) -> u64
        requires seat { IsSeat self.now.table.shared.table_id self.now.plan seat.old }
        requires slot { at < self.now.plan.slots }
        requires held { (h : ℕ) × (0 < marks_of (is_hold h) at seat.old.me.0) }
        ensures seat { IsSeat self.now.table.shared.table_id self.now.plan seat.new }
        ensures view { (h : ℕ) → 0 < marks_of (is_hold h) at seat.old.me.0 → seat.new.me ≡ (met_link at h result seat.old.me.0, seat.old.me.1) }
        ensures same { (h k : ℕ) → 0 < marks_of (is_hold h) at seat.old.me.0 → 0 < marks_of (is_met h k) at seat.old.me.0 → result ≡ k }
        ensures inside { result < self.now.plan.links }
    {
        let index = link_index(at as u32);
        self.table.shared.load::<MeetLink>(seat, index)
    }

    /// S2 of whoever recycled the slot: the link of the life that ended.
    pub fn load_last_link(&self, seat: &mut SockSeat<O>, at: u16) -> u64
        requires seat { IsSeat self.now.table.shared.table_id self.now.plan seat.old }
        requires slot { at < self.now.plan.slots }
        requires recycled { (w : ℕ) × (0 < marks_of (is_recycled w) at seat.old.me.0) }
        ensures seat { IsSeat self.now.table.shared.table_id self.now.plan seat.new }
        ensures view { (w : ℕ) → 0 < marks_of (is_recycled w) at seat.old.me.0 → seat.new.me ≡ (met_link at (w - 2) result seat.old.me.0, seat.old.me.1) }
        ensures inside { result < self.now.plan.links }
    {
        let index = link_index(at as u32);
        self.table.shared.load::<MeetLast>(seat, index)
    }

    /// S3: the head of a claimed slot is idle, without a ticket.
    pub fn reset_head(&self, seat: &mut SockSeat<O>, at: u16)
        requires seat { IsSeat self.now.table.shared.table_id self.now.plan seat.old }
        requires slot { at < self.now.plan.slots }
        requires claimed { (k : ℕ) × (0 < marks_of (is_stage 1 k) at seat.old.me.0) }
        ensures seat { IsSeat self.now.table.shared.table_id self.now.plan seat.new }
        ensures view { (k : ℕ) → 0 < marks_of (is_stage 1 k) at seat.old.me.0 → seat.new.me ≡ (staged at 1 k 2 seat.old.me.0, seat.old.me.1) }
    {
        let index = head_index(at as u32);
        self.table
            .shared
            .store::<ResetHead>(seat, index, Ticket::IDLE.0);
    }

    /// S4 of 0: a claimed slot has no code.
    pub fn wipe_code(&self, seat: &mut SockSeat<O>, at: u16)
        requires seat { IsSeat self.now.table.shared.table_id self.now.plan seat.old }
        requires slot { at < self.now.plan.slots }
        requires claimed { (k : ℕ) × (0 < marks_of (is_stage 2 k) at seat.old.me.0) }
        ensures seat { IsSeat self.now.table.shared.table_id self.now.plan seat.new }
        ensures view { (k : ℕ) → 0 < marks_of (is_stage 2 k) at seat.old.me.0 → seat.new.me ≡ (staged at 2 k 3 seat.old.me.0, seat.old.me.1) }
    {
        let index = code_index(at as u32);
        self.table.shared.store::<ClearCode>(seat, index, 0);
    }

    /// S4: the code of the life that the seat failed.
    pub fn store_code(&self, seat: &mut SockSeat<O>, at: u16, code: u16)
        requires seat { IsSeat self.now.table.shared.table_id self.now.plan seat.old }
        requires slot { at < self.now.plan.slots }
        requires coding { (h : ℕ) × (0 < marks_of (is_coding h) at seat.old.me.0) }
        requires code { code ≢ 0 }
        requires small { code < 4096 }
        ensures seat { IsSeat self.now.table.shared.table_id self.now.plan seat.new }
        ensures view { (h : ℕ) → 0 < marks_of (is_coding h) at seat.old.me.0 → seat.new.me ≡ (coded at h code seat.old.me.0, seat.old.me.1) }
    {
        let index = code_index(at as u32);
        self.table
            .shared
            .store::<StoreCode>(seat, index, code as u64);
    }

    /// S5: the code of a life that the seat holds, or 0 where none was stored yet.
    pub fn load_code(&self, seat: &mut SockSeat<O>, at: u16) -> u64
        requires seat { IsSeat self.now.table.shared.table_id self.now.plan seat.old }
        requires slot { at < self.now.plan.slots }
        requires held { (h : ℕ) × (0 < marks_of (is_hold h) at seat.old.me.0) }
        ensures seat { IsSeat self.now.table.shared.table_id self.now.plan seat.new }
        ensures view { (h : ℕ) → 0 < marks_of (is_hold h) at seat.old.me.0 → seat.new.me ≡ (cond (result == 0) seat.old.me.0 (told_code at h result seat.old.me.0), seat.old.me.1) }
        ensures same { (h d : ℕ) → 0 < marks_of (is_hold h) at seat.old.me.0 → 0 < marks_of (is_told h d) at seat.old.me.0 → result ≡ d }
        ensures small { result < 4096 }
    {
        let index = code_index(at as u32);
        self.table.shared.load::<ReadCode>(seat, index)
    }
}
