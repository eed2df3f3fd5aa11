// The steps of whoever writes a link.
ghost use Rattle.std.specs.Prelude.{◌≡◌, ◌+◌, ◌*◌, ◌/◌, ◌<◌, ℕ, false, true, ◌∷◌};
ghost use Rattle.atomic_table.specs.Table.{rest};
ghost use Rattle.sock_model.specs.declared.chain.Right.{Right};
ghost use Rattle.sock_model.specs.declared.chain.Stage.TheVariants.{Writes, Reversing, ReversesNext};
ghost use Rattle.sock_model.specs.ChainRows.{with_right, placed_right, dropped_right, freed_right, turned_right};
ghost use Rattle.sock_rule.specs.NotesBesideRows.{dropped_at};
ghost use Rattle.sock_model.specs.SocketTableLayout.{place_index};
ghost use Rattle.sock_rule.specs.declared.homes.SockHome.TheVariants.{Empty};
ghost use Rattle.sock_rule.specs.SocketSeatSplits.{IsSeat};
ghost use Rattle.sock_rule.specs.LinkFaultNotes.{faults_of, fault_found, noting_fault, CameOut};
ghost use Rattle.sock_rule.specs.Shows.{way_at};
ghost use Rattle.sock_rule.specs.HoldingWriteRight.{Rights, LinkAtHome, MayTakeMsg, TookMsg, MayLookToWrite, LookedToWrite, MayStorePlace, MayDropPlace, MayFreeRequest, MayEmptyHead, Emptied, MayReadOn, ReadOn, MayReadBack, ReadBack, MayTurnNext};
ghost use Rattle.sock_words.specs.PackedWords.{HasRequest, IDLE, place_word, ticket_request, ticket_generation};

use crate::homes::{Letter, LinkHome, SockHome};
use crate::plays::{
    DropPlace, EmptyHead, FreeRequest, LookToWrite, NoteFault, PutOwn, ReadNext, ReverseNext,
    StorePlace, TakeLetter, TakeOwn,
};
use crate::table::{RuleTable, SockSeat};
use sock_io::Out;
use sock_model::{head_index, link_index, ref_index, request_index};
use sock_words::{PlaceWord, Step, Ticket};

impl<O: Out> RuleTable<O> {
    /// L1 of the link that the seat has the right to write. Where its half has faults, the seat notes that in slot `at`.
    #[inline(always)]
    pub fn take_link(&self, seat: &mut SockSeat<O>, at: u16, link: u16) -> LinkHome<O>
        requires seat { IsSeat self.now.table.shared.table_id self.now.plan seat.old }
        requires slot { at < self.now.plan.slots }
        requires home { LinkAtHome link seat.old.me.0 }
        ensures seat { IsSeat self.now.table.shared.table_id self.now.plan seat.new }
        ensures view { (r : Right) → Rights r seat.old.me.0 → seat.new.me ≡ (fault_found (O.state result.out).faults at link (with_right seat.old.me.0 (record r { at_home = false })), (self.now.plan.requests + link, Empty) ∷ seat.old.me.1) }
        ensures took { (r : Right) → Rights r seat.old.me.0 → (result.took.list ≡ r.sent) × (result.next ≡ r.places) }
        ensures came { CameOut self.now.plan self.now.ways.list link seat.old.me.0 (O.state result.out) }
        ensures unfinished { (O.state result.out).finished ≡ false }
    {
        let said = self.said();
        let shared = &self.table.shared;
        shared.compare_exchange_with::<TakeOwn>(seat, link_index(at as u32), 0, 0, &said);
        drop(said);
        self.take_link_home(seat, link)
    }

    /// The seat notes that a fault of the link in hand came.
    #[inline(always)]
    pub fn note_fault(&self, seat: &mut SockSeat<O>, at: u16)
        requires seat { IsSeat self.now.table.shared.table_id self.now.plan seat.old }
        requires slot { at < self.now.plan.slots }
        requires hand { (r : Right) × Rights r seat.old.me.0 × (r.at_home ≡ false) }
        ensures seat { IsSeat self.now.table.shared.table_id self.now.plan seat.new }
        ensures view { (r : Right) → Rights r seat.old.me.0 → seat.new.me ≡ (noting_fault at r.link seat.old.me.0, seat.old.me.1) }
    {
        let index = link_index(at as u32);
        self.table.shared.load::<NoteFault>(seat, index);
    }

    /// M2: the message of the ticket comes out of its home.
    #[inline(always)]
    pub fn take_msg(&self, seat: &mut SockSeat<O>, now: Ticket) -> Letter
        requires seat { IsSeat self.now.table.shared.table_id self.now.plan seat.old }
        requires may { MayTakeMsg now.0 seat.old.me.0 }
        requires ticket { (HasRequest now.0) × (now.0 < IDLE) }
        ensures seat { IsSeat self.now.table.shared.table_id self.now.plan seat.new }
        ensures view { (r : Right) → Rights r seat.old.me.0 → TookMsg r now.0 result Empty seat.old.me seat.new.me }
        ensures label { result.label.place < 8 * self.now.plan.operations }
        ensures few { (r : Right) → Rights r seat.old.me.0 → r.places < 4294967295 }
    {
        self.table.shared.load::<TakeLetter>(seat, 0);
        let home_index = now.request() as usize;
        let value = self
            .table
            .shared
            .exchange(seat, home_index, SockHome::Empty);
        let SockHome::Message(msg) = value else {
            unreachable!();
        };
        msg
    }

    /// A8 of whoever writes the link of the life in slot `at`: where that is live, its right is clean.
    #[inline(always)]
    pub fn look_to_write(&self, seat: &mut SockSeat<O>, at: u16) -> Step
        requires seat { IsSeat self.now.table.shared.table_id self.now.plan seat.old }
        requires may { MayLookToWrite self.now.plan at seat.old.me.0 }
        ensures seat { IsSeat self.now.table.shared.table_id self.now.plan seat.new }
        ensures view { (r : Right) → Rights r seat.old.me.0 → LookedToWrite r at result.found seat.old.me seat.new.me }
    {
        let index = ref_index(at as u32);
        let found = self.table.shared.load::<LookToWrite>(seat, index);
        ref_core::look_word(found)
    }

    /// P1 of a message that its link took whole.
    #[inline(always)]
    pub fn store_place(&self, seat: &mut SockSeat<O>, at: u32, value: PlaceWord)
        requires seat { IsSeat self.now.table.shared.table_id self.now.plan seat.old }
        requires may { (k places : ℕ) × MayStorePlace self.now.plan at k places seat.old.me.0 × (value.0 ≡ place_word false k places) }
        ensures seat { IsSeat self.now.table.shared.table_id self.now.plan seat.new }
        ensures view { (r : Right) (now : ℕ) → Rights r seat.old.me.0 → r.stage ≡ Writes now → seat.new.me ≡ (with_right seat.old.me.0 (placed_right r now), seat.old.me.1) }
    {
        let index = self.place_index(at);
        self.table.shared.store::<StorePlace>(seat, index, value.0);
    }

    /// P1 with the dropped bit, of a message in hand: its link lies in the home of the request meanwhile.
    #[inline(always)]
    pub fn drop_place(
        &self,
        seat: &mut SockSeat<O>,
        at: u32,
        value: PlaceWord,
        now: Ticket,
        home: LinkHome<O>,
    ) -> LinkHome<O>
        requires seat { IsSeat self.now.table.shared.table_id self.now.plan seat.old }
        requires may { (k places : ℕ) × MayDropPlace self.now.plan at k places home.took.list seat.old.me.0 × (value.0 ≡ place_word true k places) }
        requires ticket { (HasRequest now.0) × (now.0 < IDLE) }
        requires top { seat.old.me.1 ≡ (ticket_request now.0, Empty) ∷ rest seat.old.me.1 }
        ensures seat { IsSeat self.now.table.shared.table_id self.now.plan seat.new }
        ensures view { (r : Right) (n : ℕ) → Rights r seat.old.me.0 → r.stage ≡ Writes n → seat.new.me ≡ (dropped_at (place_index self.now.plan at) value.0 r.heading (with_right seat.old.me.0 (dropped_right r n home.took.list)), seat.old.me.1) }
        ensures home { result ≡ home }
    {
        let home_index = now.request() as usize;
        self.lay_home(seat, home_index, home);
        let index = self.place_index(at);
        self.table.shared.store::<DropPlace>(seat, index, value.0);
        self.take_home(seat, home_index)
    }

    /// C8: the request of a message that has its place is free again, and its home is back.
    #[inline(always)]
    pub fn free_request(&self, seat: &mut SockSeat<O>, now: Ticket)
        requires seat { IsSeat self.now.table.shared.table_id self.now.plan seat.old }
        requires may { MayFreeRequest now.0 seat.old.me }
        requires ticket { (HasRequest now.0) × (ticket_request now.0 < self.now.plan.requests) }
        requires young { ticket_generation now.0 < 140737488355327 }
        ensures seat { IsSeat self.now.table.shared.table_id self.now.plan seat.new }
        ensures view { (r : Right) → Rights r seat.old.me.0 → seat.new.me ≡ (with_right seat.old.me.0 (freed_right r), rest seat.old.me.1) }
    {
        let index = request_index(&self.plan, now.request());
        let next = 2 * (now.generation() + 1);
        self.table.shared.store::<FreeRequest>(seat, index, next);
    }

    /// The request of a message that has its place stays taken where its generation is the last one. Its home is back.
    #[inline(always)]
    pub fn retire_request(&self, seat: &mut SockSeat<O>, now: Ticket)
        requires seat { IsSeat self.now.table.shared.table_id self.now.plan seat.old }
        requires may { MayFreeRequest now.0 seat.old.me }
        requires last { ticket_generation now.0 ≡ 140737488355327 }
        ensures seat { IsSeat self.now.table.shared.table_id self.now.plan seat.new }
        ensures view { (r : Right) → Rights r seat.old.me.0 → seat.new.me ≡ (with_right seat.old.me.0 (freed_right r), rest seat.old.me.1) }
    {
        self.table.shared.load::<FreeRequest>(seat, 0);
    }

    /// L2 of the link that the seat has the right to write. Its half has faults where the seat noted one.
    #[inline(always)]
    pub fn put_own_link(&self, seat: &mut SockSeat<O>, link: u16, home: LinkHome<O>)
        requires seat { IsSeat self.now.table.shared.table_id self.now.plan seat.old }
        requires inside { link < self.now.plan.links }
        requires top { seat.old.me.1 ≡ (self.now.plan.requests + link, Empty) ∷ rest seat.old.me.1 }
        requires right { (r : Right) × Rights r seat.old.me.0 × (r.link ≡ link) × (r.at_home ≡ false) × (home.took.list ≡ r.sent) × (home.next ≡ r.places) }
        requires link { ((O.state home.out).link ≡ link) × ((O.state home.out).finished ≡ false) }
        requires way { (O.state home.out).way ≡ way_at self.now.ways.list link }
        requires noted { 0 < faults_of link seat.old.me.0 → 0 < (O.state home.out).faults }
        ensures seat { IsSeat self.now.table.shared.table_id self.now.plan seat.new }
        ensures view { (r : Right) → Rights r seat.old.me.0 → seat.new.me ≡ (with_right seat.old.me.0 (record r { at_home = true }), rest seat.old.me.1) }
    {
        let home_index = self.plan.requests as usize + link as usize;
        self.lay_home(seat, home_index, home);
        self.table.shared.load::<PutOwn>(seat, 0);
    }

    /// C4, compare_exchange of the head from the last ticket to idle with it: the right is given up, or a newer ticket
    /// was found.
    #[inline(always)]
    pub fn empty_head(&self, seat: &mut SockSeat<O>, at: u16, last: Ticket) -> Step
        requires seat { IsSeat self.now.table.shared.table_id self.now.plan seat.old }
        requires may { MayEmptyHead self.now.plan at last.0 seat.old.me.0 }
        requires ticket { last.0 < IDLE }
        ensures seat { IsSeat self.now.table.shared.table_id self.now.plan seat.new }
        ensures view { (r : Right) → Rights r seat.old.me.0 → Emptied r last.0 result.found seat.old.me seat.new.me }
    {
        let index = head_index(at as u32);
        let old = last.0;
        let new = old + Ticket::IDLE.0;
        let found = self
            .table
            .shared
            .compare_exchange::<EmptyHead>(seat, index, old, new);
        chain_core::empty_head(found, last)
    }

    /// C5 after a message has its place: the ticket of the one that follows.
    #[inline(always)]
    pub fn read_on(&self, seat: &mut SockSeat<O>, now: Ticket) -> u64
        requires seat { IsSeat self.now.table.shared.table_id self.now.plan seat.old }
        requires may { MayReadOn now.0 seat.old.me.0 }
        requires ticket { (HasRequest now.0) × (ticket_request now.0 < self.now.plan.requests) }
        ensures seat { IsSeat self.now.table.shared.table_id self.now.plan seat.new }
        ensures view { (r : Right) → Rights r seat.old.me.0 → ReadOn r now.0 result seat.old.me seat.new.me }
    {
        let index = self.next_index(now.request());
        self.table.shared.load::<ReadNext>(seat, index)
    }

    /// C5 on the walk, which waits while it finds `UNCONNECTED`.
    #[inline(always)]
    pub fn read_back(&self, seat: &mut SockSeat<O>, at: Ticket) -> u64
        requires seat { IsSeat self.now.table.shared.table_id self.now.plan seat.old }
        requires may { MayReadBack at.0 seat.old.me.0 }
        requires ticket { (HasRequest at.0) × (ticket_request at.0 < self.now.plan.requests) }
        ensures seat { IsSeat self.now.table.shared.table_id self.now.plan seat.new }
        ensures view { (r : Right) (top after : ℕ) → Rights r seat.old.me.0 → r.stage ≡ Reversing top at.0 after → ReadBack r top at.0 after result seat.old.me seat.new.me }
    {
        let index = self.next_index(at.request());
        self.table.shared.load::<ReadNext>(seat, index)
    }

    /// C6, store of the successor, or 0, into the next word at which the walk stands.
    #[inline(always)]
    pub fn reverse_next(&self, seat: &mut SockSeat<O>, at: Ticket, value: u64)
        requires seat { IsSeat self.now.table.shared.table_id self.now.plan seat.old }
        requires may { MayTurnNext at.0 value seat.old.me.0 }
        requires ticket { (HasRequest at.0) × (ticket_request at.0 < self.now.plan.requests) }
        ensures seat { IsSeat self.now.table.shared.table_id self.now.plan seat.new }
        ensures view { (r : Right) (top after before : ℕ) → Rights r seat.old.me.0 → r.stage ≡ ReversesNext top at.0 after before → seat.new.me ≡ (with_right seat.old.me.0 (turned_right r top at.0 before), seat.old.me.1) }
    {
        let index = self.next_index(at.request());
        self.table.shared.store::<ReverseNext>(seat, index, value);
    }
}
