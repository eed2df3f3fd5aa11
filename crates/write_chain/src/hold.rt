// Whoever has the right writes the link: steps that both calls make.
ghost use Rattle.std.specs.Prelude.{◌≡◌, ◌≢◌, ◌<◌, ℕ, [], ◌∷◌, true, false};
ghost use Rattle.atomic_table.specs.Table.{rest};
ghost use Rattle.sock_words.specs.PackedWords.{socket_id_slot, ticket_request};
ghost use Rattle.sock_model.specs.declared.chain.Right.{Right};
ghost use Rattle.sock_model.specs.declared.chain.Stage.{Stage};
ghost use Rattle.sock_model.specs.declared.chain.Stage.TheVariants.{Writes, Placed, Empties};
ghost use Rattle.sock_model.specs.ChainRows.{with_right, freed_right};
ghost use Rattle.message_parts.specs.Parcels.{outgoing_of};
ghost use Rattle.sock_rule.specs.declared.homes.SockHome.TheVariants.{Empty};
ghost use Rattle.sock_rule.specs.SocketSeatSplits.{IsSeat};
ghost use Rattle.sock_rule.specs.ChainPlays.{IsTicket};
ghost use Rattle.sock_rule.specs.HoldingWriteRight.{Rights, MayFreeRequest};
ghost use Rattle.write_chain.specs.NotingWhileWriting.{Faulted, KeepsMessage, Wrote};
ghost use Rattle.write_chain.specs.WritingRightInHand.{MayBegin, Stands, HasLink, HasRest, HasPart, IsClean, HasWhole, FoundDead, GoesBy, IsLast, OnceBy, OnceTried, TriedBy, TriedFaults, JustLooked, TriedOnce, TriedPut, PutOrWhole, LeftAll, IsDead, IsKeep};
ghost use Rattle.write_chain.specs.declared.right.LinkCall.TheVariants as call;
ghost use Rattle.write_chain.specs.Puts.{Called};

use crate::hand::called;
use crate::right::{Doing, HeldChain, InHand, LinkCall, LinkInHand, WriteRight};
use ghosts::Ghosts;
use sock_io::{Out, Put};
use sock_rule::{Letter, SockSeat};
use sock_table::{SockRef, SockTable};
use sock_words::{EFAILEDSOCKET, PlaceWord, Ticket, Vref};

/// A request of this generation isn't freed: its tickets are used up.
const LAST_GENERATION: u64 = 140_737_488_355_327;

/// What a first put leaves: the right is given up with the last message, or there is more to write.
pub enum Once<O: Out> {
    Done(SockRef),
    Keep(WriteRight<O>),
}

/// What a look and a put left of a message.
#[derive(Drop)]
pub enum Tried<O: Out> {
    /// The look found the socket failed, and nothing was put.
    Dead(InHand<O>),
    /// The link took the rest of it.
    Whole(InHand<O>),
    /// It goes on by this.
    Goes(Doing<O>),
}

/// The slot of a socket.
#[inline(always)]
pub fn slot_at<O: Out>(table: &SockTable<O>, sock: &SockRef) -> u16
    requires inside { socket_id_slot sock.now.id.0 < table.now.rule.plan.slots }
    ensures slot { result ≡ socket_id_slot sock.now.id.0 }
{
    let slots = table.rule.plan.slots;
    let slot = sock.id.slot();
    prove!(slot < slots as u32);
    slot as u16
}

/// C8: the request of a message that has its place is free again, unless its generation is the last one.
#[inline(always)]
pub fn give_request_back<O: Out>(table: &SockTable<O>, seat: &mut SockSeat<O>, now: Ticket)
    requires seat { IsSeat table.now.rule.table.shared.table_id table.now.rule.plan seat.old }
    requires may { MayFreeRequest now.0 seat.old.me }
    requires ticket { IsTicket table.now.rule.plan now.0 }
    ensures seat { IsSeat table.now.rule.table.shared.table_id table.now.rule.plan seat.new }
    ensures view { (r : Right) → Rights r seat.old.me.0 → seat.new.me ≡ (with_right seat.old.me.0 (freed_right r), rest seat.old.me.1) }
{
    if now.generation() < LAST_GENERATION {
        table.rule.free_request(seat, now);
    } else {
        table.rule.retire_request(seat, now);
    }
}

impl<O: Out> HeldChain<'_, O> {
    /// The link that the seat may write comes into hand. Where its half has faults the seat notes that.
    #[inline(always)]
    pub fn fetch_link(&self, seat: &mut SockSeat<O>, link: u16) -> LinkInHand<O>
        requires seat { IsSeat self.now.table.now.rule.table.shared.table_id self.now.table.now.rule.plan seat.old }
        requires may { (last : ℕ) × (stage : Stage) × Stands self.now.table.now.rule.plan self.now.sock.id.0 last stage link seat.old.me }
        ensures seat { IsSeat self.now.table.now.rule.table.shared.table_id self.now.table.now.rule.plan seat.new }
        ensures has { (last : ℕ) (stage : Stage) → Stands self.now.table.now.rule.plan self.now.sock.id.0 last stage link seat.old.me → HasLink self.now.table.now.rule.plan self.now.table.now.rule.ways.list self.now.sock.id.0 last stage [] result seat.new.me }
        ensures wrote { Wrote O.state self.now.sock.id.0 seat.old.me.0 seat.new.me.0 }
    {
        let slot = slot_at(self.table, &self.sock);
        let home = self.table.rule.take_link(seat, slot, link);
        LinkInHand { link, home }
    }

    /// M2: the message of the ticket comes into hand with its link.
    #[inline(always)]
    pub fn take_next(&self, seat: &mut SockSeat<O>, link: LinkInHand<O>, now: Ticket) -> InHand<O>
        requires seat { IsSeat self.now.table.now.rule.table.shared.table_id self.now.table.now.rule.plan seat.old }
        requires may { HasLink self.now.table.now.rule.plan self.now.table.now.rule.ways.list self.now.sock.id.0 self.now.last.0 (Writes now.0) [] link seat.old.me × IsTicket self.now.table.now.rule.plan now.0 }
        ensures seat { IsSeat self.now.table.now.rule.table.shared.table_id self.now.table.now.rule.plan seat.new }
        ensures hand { HasPart self.now.table.now.rule.plan self.now.table.now.rule.ways.list self.now.sock.id.0 self.now.last.0 result seat.new.me }
        ensures now { result.now.0 ≡ now.0 }
        ensures calls { result.calls.list ≡ [] }
        ensures others { seat.new.me.0 ≡ record seat.old.me.0 { rights = seat.new.me.0.rights } }
    {
        let LinkInHand { link: number, home } = link;
        let Letter {
            bytes,
            label,
            owner,
        } = self.table.rule.take_msg(seat, now);
        let came = Ghosts::of(&home.out);
        let calls = Ghosts::of(&now);
        InHand {
            link: number,
            home,
            now,
            bytes: bytes.begin(),
            label,
            owner,
            came,
            calls,
        }
    }

    /// A message has its place: its request is given back, and the next one follows, or the head.
    #[inline(always)]
    pub fn go_past(&self, seat: &mut SockSeat<O>, link: LinkInHand<O>, now: Ticket) -> Doing<O>
        requires seat { IsSeat self.now.table.now.rule.table.shared.table_id self.now.table.now.rule.plan seat.old }
        requires may { HasLink self.now.table.now.rule.plan self.now.table.now.rule.ways.list self.now.sock.id.0 self.now.last.0 (Placed now.0) ((ticket_request now.0, Empty) ∷ []) link seat.old.me × IsTicket self.now.table.now.rule.plan now.0 }
        ensures seat { IsSeat self.now.table.now.rule.table.shared.table_id self.now.table.now.rule.plan seat.new }
        ensures goes { GoesBy self.now.table.now.rule.plan self.now.table.now.rule.ways.list self.now.sock.id.0 self.now.last.0 result seat.new.me }
        ensures last { now.0 ≡ self.now.last.0 → IsLast result }
        ensures message { KeepsMessage seat.old.me.0 seat.new.me.0 }
        ensures others { seat.new.me.0 ≡ record seat.old.me.0 { rights = seat.new.me.0.rights } }
    {
        if now.0 == self.last.0 {
            give_request_back(self.table, seat, now);
            return Doing::Last(link);
        }
        let found = self.table.rule.read_on(seat, now);
        give_request_back(self.table, seat, now);
        Doing::Next(link, Ticket(found))
    }

    /// The link took the whole message: it gets its place.
    #[inline(always)]
    pub fn place(&self, seat: &mut SockSeat<O>, hand: InHand<O>) -> Doing<O>
        requires seat { IsSeat self.now.table.now.rule.table.shared.table_id self.now.table.now.rule.plan seat.old }
        requires may { HasWhole self.now.table.now.rule.plan self.now.table.now.rule.ways.list self.now.sock.id.0 self.now.last.0 hand seat.old.me }
        ensures seat { IsSeat self.now.table.now.rule.table.shared.table_id self.now.table.now.rule.plan seat.new }
        ensures goes { GoesBy self.now.table.now.rule.plan self.now.table.now.rule.ways.list self.now.sock.id.0 self.now.last.0 result seat.new.me }
        ensures last { hand.now.0 ≡ self.now.last.0 → IsLast result }
        ensures others { seat.new.me.0 ≡ record seat.old.me.0 { rights = seat.new.me.0.rights } }
    {
        let InHand {
            link,
            mut home,
            now,
            bytes,
            label,
            owner: _,
            came: _,
            calls: _,
        } = hand;
        drop(bytes);
        let place = PlaceWord::pack(false, link, home.next);
        self.table.rule.store_place(seat, label.place, place);
        home.count_place();
        self.go_past(seat, LinkInHand { link, home }, now)
    }

    /// All that was noted has its place: the link goes home, and the head is tried.
    #[inline(always)]
    pub fn leave(self, seat: &mut SockSeat<O>, link: LinkInHand<O>) -> Once<O>
        requires seat { IsSeat self.table.now.rule.table.shared.table_id self.table.now.rule.plan seat.old }
        requires may { HasLink self.table.now.rule.plan self.table.now.rule.ways.list self.sock.id.0 self.last.0 Empties [] link seat.old.me }
        ensures seat { IsSeat self.entry.table.now.rule.table.shared.table_id self.entry.table.now.rule.plan seat.new }
        ensures once { OnceBy self.entry.table.now.rule.plan self.entry.table.now.rule.ways.list self.entry.sock result seat.new.me }
        ensures left { LeftAll result }
        ensures others { seat.new.me.0 ≡ record seat.old.me.0 { rights = seat.new.me.0.rights } }
    {
        let HeldChain { table, sock, last } = self;
        let LinkInHand { link: number, home } = link;
        let slot = slot_at(table, &sock);
        table.rule.put_own_link(seat, number, home);
        let step = table.rule.empty_head(seat, slot, last);
        if step.found == last.0 {
            return Once::Done(sock);
        }
        Once::Keep(WriteRight {
            sock,
            last,
            doing: Doing::Reversing(number, Ticket(step.found)),
        })
    }

    /// A8: whether the socket lives. Then the right is clean, and one put may follow.
    #[inline(always)]
    pub fn look(&self, seat: &mut SockSeat<O>, hand: &mut InHand<O>) -> bool
        requires seat { IsSeat self.now.table.now.rule.table.shared.table_id self.now.table.now.rule.plan seat.old }
        requires may { HasPart self.now.table.now.rule.plan self.now.table.now.rule.ways.list self.now.sock.id.0 self.now.last.0 hand.old seat.old.me }
        ensures seat { IsSeat self.now.table.now.rule.table.shared.table_id self.now.table.now.rule.plan seat.new }
        ensures looked { JustLooked hand.old hand.new }
        ensures called { Called (call.Looked result) hand.old hand.new }
        ensures live { result ≡ true → IsClean self.now.table.now.rule.plan self.now.table.now.rule.ways.list self.now.sock.id.0 self.now.last.0 hand.new seat.new.me }
        ensures stays { FoundDead self.now.sock.id.0 seat.old.me.0 → result ≡ false }
        ensures dead { result ≡ false → HasPart self.now.table.now.rule.plan self.now.table.now.rule.ways.list self.now.sock.id.0 self.now.last.0 hand.new seat.new.me × FoundDead self.now.sock.id.0 seat.new.me.0 }
        ensures wrote { Wrote O.state self.now.sock.id.0 seat.old.me.0 seat.new.me.0 }
    {
        let slot = slot_at(self.table, &self.sock);
        let step = self.table.rule.look_to_write(seat, slot);
        let found = Vref(step.found);
        let live = !found.is_failed();
        hand.calls = called(&hand.calls, LinkCall::Looked(live));
        live
    }

    /// The link failed, which the seat notes: so does the socket, unless it was failed before. As bRPC's `Socket::SetFailed` behind a
    /// write that failed (socket.cpp).
    #[inline(always)]
    pub fn fail_link(&self, seat: &mut SockSeat<O>, _hand: &InHand<O>)
        requires seat { IsSeat self.now.table.now.rule.table.shared.table_id self.now.table.now.rule.plan seat.old }
        requires may { HasRest self.now.table.now.rule.plan self.now.table.now.rule.ways.list self.now.sock.id.0 self.now.last.0 _hand.now seat.old.me }
        requires fault { Faulted O.state _hand.now.link }
        requires rose { 0 < (O.state _hand.now.home.out).faults }
        ensures seat { IsSeat self.now.table.now.rule.table.shared.table_id self.now.table.now.rule.plan seat.new }
        ensures has { HasPart self.now.table.now.rule.plan self.now.table.now.rule.ways.list self.now.sock.id.0 self.now.last.0 _hand.entry.now seat.new.me }
        ensures dead { FoundDead self.now.sock.id.0 seat.new.me.0 }
        ensures wrote { Wrote O.state self.now.sock.id.0 seat.old.me.0 seat.new.me.0 }
    {
        let slot = slot_at(self.table, &self.sock);
        self.table.rule.note_fault(seat, slot);
        let failed = self.table.set_failed(seat, &self.sock, EFAILEDSOCKET);
        drop(failed);
    }

    /// One put of what is left of a message, which spends the look before it.
    #[inline(always)]
    pub fn put_piece(&self, seat: &mut SockSeat<O>, mut hand: InHand<O>) -> Tried<O>
        requires seat { IsSeat self.now.table.now.rule.table.shared.table_id self.now.table.now.rule.plan seat.old }
        requires may { IsClean self.now.table.now.rule.plan self.now.table.now.rule.ways.list self.now.sock.id.0 self.now.last.0 hand seat.old.me × ((outgoing_of hand.bytes).left ≢ []) }
        ensures seat { IsSeat self.now.table.now.rule.table.shared.table_id self.now.table.now.rule.plan seat.new }
        ensures tried { TriedBy self.now.table.now.rule.plan self.now.table.now.rule.ways.list self.now.sock.id.0 self.now.last.0 hand.now.0 result seat.new.me }
        ensures put { TriedPut hand result }
        ensures faults { TriedFaults (O.state hand.home.out).faults self.now.sock.id.0 result seat.new.me.0 }
        ensures wrote { Wrote O.state self.now.sock.id.0 seat.old.me.0 seat.new.me.0 }
    {
        let put = hand.put();
        if hand.bytes.is_whole_taken() {
            return Tried::Whole(hand);
        }
        match put {
            Put::Took(_) => Tried::Goes(Doing::Puts(hand)),
            Put::Again => Tried::Goes(Doing::Waits(hand)),
            Put::Failed => {
                self.fail_link(seat, &hand);
                Tried::Goes(Doing::Puts(hand))
            }
        }
    }

    /// One put, where bytes are left.
    #[inline(always)]
    pub fn put_or_place(&self, seat: &mut SockSeat<O>, hand: InHand<O>) -> Tried<O>
        requires seat { IsSeat self.now.table.now.rule.table.shared.table_id self.now.table.now.rule.plan seat.old }
        requires may { IsClean self.now.table.now.rule.plan self.now.table.now.rule.ways.list self.now.sock.id.0 self.now.last.0 hand seat.old.me }
        ensures seat { IsSeat self.now.table.now.rule.table.shared.table_id self.now.table.now.rule.plan seat.new }
        ensures tried { TriedBy self.now.table.now.rule.plan self.now.table.now.rule.ways.list self.now.sock.id.0 self.now.last.0 hand.now.0 result seat.new.me }
        ensures put { PutOrWhole hand result }
        ensures faults { TriedFaults (O.state hand.home.out).faults self.now.sock.id.0 result seat.new.me.0 }
        ensures wrote { Wrote O.state self.now.sock.id.0 seat.old.me.0 seat.new.me.0 }
    {
        if hand.bytes.is_whole_taken() {
            return Tried::Whole(hand);
        }
        self.put_piece(seat, hand)
    }

    /// A look, and one put where the socket lives. Where the link fails the socket is failed, so that nothing is put any more.
    #[inline(always)]
    pub fn try_put(&self, seat: &mut SockSeat<O>, mut hand: InHand<O>) -> Tried<O>
        requires seat { IsSeat self.now.table.now.rule.table.shared.table_id self.now.table.now.rule.plan seat.old }
        requires may { HasPart self.now.table.now.rule.plan self.now.table.now.rule.ways.list self.now.sock.id.0 self.now.last.0 hand seat.old.me }
        ensures seat { IsSeat self.now.table.now.rule.table.shared.table_id self.now.table.now.rule.plan seat.new }
        ensures tried { TriedBy self.now.table.now.rule.plan self.now.table.now.rule.ways.list self.now.sock.id.0 self.now.last.0 hand.now.0 result seat.new.me }
        ensures once { TriedOnce hand result }
        ensures stays { FoundDead self.now.sock.id.0 seat.old.me.0 → IsDead hand result }
        ensures faults { TriedFaults (O.state hand.home.out).faults self.now.sock.id.0 result seat.new.me.0 }
        ensures wrote { Wrote O.state self.now.sock.id.0 seat.old.me.0 seat.new.me.0 }
    {
        if self.look(seat, &mut hand) {
            return self.put_or_place(seat, hand);
        }
        Tried::Dead(hand)
    }

    /// The link and the first message come into hand.
    #[inline(always)]
    pub fn take_up(&self, seat: &mut SockSeat<O>) -> InHand<O>
        requires seat { IsSeat self.now.table.now.rule.table.shared.table_id self.now.table.now.rule.plan seat.old }
        requires may { (link : ℕ) × Stands self.now.table.now.rule.plan self.now.sock.id.0 self.now.last.0 (Writes self.now.last.0) link seat.old.me }
        ensures seat { IsSeat self.now.table.now.rule.table.shared.table_id self.now.table.now.rule.plan seat.new }
        ensures hand { HasPart self.now.table.now.rule.plan self.now.table.now.rule.ways.list self.now.sock.id.0 self.now.last.0 result seat.new.me }
        ensures now { result.now.0 ≡ self.now.last.0 }
        ensures calls { result.calls.list ≡ [] }
        ensures wrote { Wrote O.state self.now.sock.id.0 seat.old.me.0 seat.new.me.0 }
    {
        let slot = slot_at(self.table, &self.sock);
        let links = self.table.rule.plan.links;
        let found = self.table.rule.load_link(seat, slot);
        prove!(found < links as u64);
        let link = self.fetch_link(seat, found as u16);
        self.take_next(seat, link, self.last)
    }

    /// The head is tried once nothing is left to write.
    #[inline(always)]
    pub fn leave_last(self, seat: &mut SockSeat<O>, doing: Doing<O>) -> Once<O>
        requires seat { IsSeat self.table.now.rule.table.shared.table_id self.table.now.rule.plan seat.old }
        requires may { GoesBy self.table.now.rule.plan self.table.now.rule.ways.list self.sock.id.0 self.last.0 doing seat.old.me }
        requires last { IsLast doing }
        ensures seat { IsSeat self.entry.table.now.rule.table.shared.table_id self.entry.table.now.rule.plan seat.new }
        ensures once { OnceBy self.entry.table.now.rule.plan self.entry.table.now.rule.ways.list self.entry.sock result seat.new.me }
        ensures left { LeftAll result }
        ensures others { seat.new.me.0 ≡ record seat.old.me.0 { rights = seat.new.me.0.rights } }
    {
        let Doing::Last(link) = doing else {
            unreachable!();
        };
        self.leave(seat, link)
    }
}

/// One look of whoever has the right, and one put of the message that `start` accepted exactly where the look found the socket
/// live. Done exactly where the link took it whole and the head was emptied.
/// The write in place of bRPC's `Socket::StartWrite` (io.md, socket.cpp).
#[inline(always)]
pub fn write_once<O: Out>(
    table: &SockTable<O>,
    seat: &mut SockSeat<O>,
    right: WriteRight<O>,
) -> Once<O>
    requires seat { IsSeat table.now.rule.table.shared.table_id table.now.rule.plan seat.old }
    requires may { MayBegin table.now.rule.plan right seat.old.me }
    ensures seat { IsSeat table.now.rule.table.shared.table_id table.now.rule.plan seat.new }
    ensures once { OnceBy table.now.rule.plan table.now.rule.ways.list right.sock result seat.new.me }
    ensures tried { OnceTried result }
    ensures stays { FoundDead right.sock.id.0 seat.old.me.0 → IsKeep result }
    ensures wrote { Wrote O.state right.sock.id.0 seat.old.me.0 seat.new.me.0 }
{
    let WriteRight {
        sock,
        last,
        doing: _,
    } = right;
    let chain = HeldChain { table, sock, last };
    let hand = chain.take_up(seat);
    match chain.try_put(seat, hand) {
        Tried::Dead(hand) => Once::Keep(chain.with(Doing::Puts(hand))),
        Tried::Whole(hand) => {
            let doing = chain.place(seat, hand);
            chain.leave_last(seat, doing)
        }
        Tried::Goes(doing) => Once::Keep(chain.with(doing)),
    }
}
