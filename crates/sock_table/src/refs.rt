// References: addressing an id, and giving a reference back.
ghost use Rattle.std.specs.Prelude.{◌≡◌, ◌≢◌, ◌-◌, ◌%◌, ◌<◌, true, false, [], ◌∷◌, List, IfOk, IfErr};
ghost use Rattle.sock_words.specs.PackedWords.{socket_id_version, socket_id_slot, vref_version, vref_nref};
ghost use Rattle.sock_model.specs.declared.marks.Mark.{Mark};
ghost use Rattle.sock_model.specs.declared.marks.Mark.TheVariants.{Hold, Zero};
ghost use Rattle.sock_model.specs.MarkWeights.{is_ref, is_zero, is_any_coding};
ghost use Rattle.sock_model.specs.SlotRows.{marks_of};
ghost use Rattle.sock_rule.specs.SocketSeatSplits.{IsSeat};
ghost use Rattle.sock_rule.specs.MarksComeAndGo.{Became, Goes};
ghost use Rattle.sock_table.specs.ReferenceCalls.{IsBetween, Rests, EndedBy, GaveBack, MayAddress};
ghost use Rattle.sock_table.specs.ReferenceAnswers.{is_freed, IfLive, NoneLater, Holds, Held, GoneFrom, LookedAt, LinkOf, CodeOf, FailedBy, FoundFailed};
ghost use Rattle.sock_model.specs.ChainStepConditions.{KeepsRights};

use crate::table::SockTable;
use sock_io::Out;
use sock_rule::SockSeat;
use sock_words::{SocketId, Vref};

/// The last version with which a slot is given again.
const LAST_VERSION: u32 = 4_294_967_292;

/// A reference to a socket. It is given back by `release`.
/// bRPC's `SocketUniquePtr` (memory_management.md).
pub struct SockRef {
    pub id: SocketId,
}

impl SockRef {
    /// The id that was addressed.
    pub fn id(&self) -> SocketId
        ensures { result ≡ self.now.id }
    {
        self.id
    }
}

/// The id names no socket any more: the word that was found has another version.
#[derive(Drop)]
pub struct Gone {
    pub found: Vref,
}

/// The socket had been failed before: the word that was found.
#[derive(Drop)]
pub struct Already {
    pub found: Vref,
}

/// Whether a socket lives.
#[derive(Drop)]
pub enum Look {
    Live,
    Failed(Vref),
}

/// Whether the slot was recycled with the reference.
#[derive(Drop)]
pub enum Released {
    Freed,
    Kept,
}

impl<O: Out> SockTable<O> {
    /// The one exchange of whoever took the references to 0 at an odd version. Who wins it recycles the slot: it ends the
    /// writing half of its link, and gives the slot free unless its versions are used up.
    /// bRPC's `OnRecycle` and the giving back of the slot (versioned_ref_with_id.h).
    pub fn end_life(&self, seat: &mut SockSeat<O>, at: u16, from: Vref) -> bool
        requires seat { IsSeat self.now.rule.table.shared.table_id self.now.rule.plan seat.old }
        requires slot { at < self.now.rule.plan.slots }
        requires from { (vref_version from.0 < 4294967295) × (vref_version from.0 % 2 ≡ 1) × (vref_nref from.0 ≡ 0) }
        requires zero { 0 < marks_of (is_zero (vref_version from.0)) at seat.old.me.0 }
        requires empty { seat.old.me.0.hands ≡ [] }
        ensures seat { IsSeat self.now.rule.table.shared.table_id self.now.rule.plan seat.new }
        ensures marks { (notes : List Mark) × Became at seat.old.me.0 seat.new.me.0 notes (Zero (vref_version from.0) ∷ []) × EndedBy self.now.rule.plan result (vref_version from.0) notes }
        ensures slots { seat.new.me.1 ≡ seat.old.me.1 }
    {
        let step = self.rule.recycle(seat, at, from);
        if step.found != from.0 {
            return false;
        }
        let links = self.rule.plan.links;
        let found = self.rule.load_last_link(seat, at);
        prove!(found < links as u64);
        let link = found as u16;
        let mut home = self.rule.take_last_link(seat, at, link);
        home.finish();
        self.rule.put_link(seat, at, link, home);
        if from.version() < LAST_VERSION {
            self.rule.free_slot(seat, at);
        }
        true
    }

    /// A reference goes: to the word alone where the seat has one, else to a life that it holds. True where the slot's life
    /// ended with it.
    /// bRPC's `Dereference` (versioned_ref_with_id.h).
    pub fn give_back(&self, seat: &mut SockSeat<O>, at: u16) -> bool
        requires seat { IsSeat self.now.rule.table.shared.table_id self.now.rule.plan seat.old }
        requires slot { at < self.now.rule.plan.slots }
        requires some { (m : Mark) × Goes at seat.old.me.0 m }
        requires coded { marks_of is_any_coding at seat.old.me.0 ≡ 0 }
        requires rights { KeepsRights at seat.old.me.0 }
        requires empty { seat.old.me.0.hands ≡ [] }
        ensures seat { IsSeat self.now.rule.table.shared.table_id self.now.rule.plan seat.new }
        ensures back { (m : Mark) → Goes at seat.old.me.0 m → GaveBack at seat.old.me.0 seat.new.me.0 m result }
        ensures kept { 1 < marks_of is_ref at seat.old.me.0 → result ≡ false }
        ensures slots { seat.new.me.1 ≡ seat.old.me.1 }
    {
        let step = self.rule.sub_ref(seat, at);
        let left = Vref(step.next);
        if left.nref() != 0 {
            return false;
        }
        if left.version() % 2 == 0 {
            return false;
        }
        self.end_life(seat, at, left)
    }

    /// A reference to the socket of this id, where it is the slot's still.
    /// bRPC's `Address` (versioned_ref_with_id.h, memory_management.md).
    pub fn add_reference(&self, seat: &mut SockSeat<O>, id: SocketId) -> Result<SockRef, Gone>
        requires seat { IsSeat self.now.rule.table.shared.table_id self.now.rule.plan seat.old }
        requires may { MayAddress self.now.rule.plan seat.old.me.0 id.0 }
        requires between { IsBetween self.now.rule.plan seat.old.me.0 }
        ensures seat { IsSeat self.now.rule.table.shared.table_id self.now.rule.plan seat.new }
        ensures held { IfOk result (λ r. (r.id ≡ id) × Held id.0 seat.old.me.0 seat.new.me.0) }
        ensures gone { IfErr result (λ e. GoneFrom id.0 e.found.0 seat.old.me.0 seat.new.me.0) }
        ensures stays { IfOk result (λ _. NoneLater id.0 seat.old.me.0) }
        ensures between { IsBetween self.now.rule.plan seat.new.me.0 }
        ensures slots { seat.new.me.1 ≡ seat.old.me.1 }
    {
        let slots = self.rule.plan.slots;
        let slot = id.slot();
        prove!(slot < slots as u32);
        let at = slot as u16;
        let step = self.rule.add_ref(seat, at);
        let found = Vref(step.found);
        if found.version() == id.version() {
            return Ok(SockRef { id });
        }
        self.give_back(seat, at);
        Err(Gone { found })
    }

    /// The reference is given back. Freed exactly where this seat's exchange recycled the slot.
    pub fn release(&self, seat: &mut SockSeat<O>, sock: SockRef) -> Released
        requires seat { IsSeat self.now.rule.table.shared.table_id self.now.rule.plan seat.old }
        requires held { Holds self.now.rule.plan seat.old.me.0 sock.id.0 }
        requires between { IsBetween self.now.rule.plan seat.old.me.0 }
        ensures seat { IsSeat self.now.rule.table.shared.table_id self.now.rule.plan seat.new }
        ensures back { GaveBack (socket_id_slot sock.id.0) seat.old.me.0 seat.new.me.0 (Hold (socket_id_version sock.id.0)) (is_freed result) }
        ensures between { IsBetween self.now.rule.plan seat.new.me.0 }
        ensures slots { seat.new.me.1 ≡ seat.old.me.1 }
    {
        let SockRef { id } = sock;
        let slots = self.rule.plan.slots;
        let slot = id.slot();
        prove!(slot < slots as u32);
        if self.give_back(seat, slot as u16) {
            Released::Freed
        } else {
            Released::Kept
        }
    }

    /// Whether the socket lives, by the version of its word.
    pub fn look(&self, seat: &mut SockSeat<O>, sock: &SockRef) -> Look
        requires seat { IsSeat self.now.rule.table.shared.table_id self.now.rule.plan seat.old }
        requires held { Holds self.now.rule.plan seat.old.me.0 sock.now.id.0 }
        requires between { IsBetween self.now.rule.plan seat.old.me.0 }
        ensures seat { IsSeat self.now.rule.table.shared.table_id self.now.rule.plan seat.new }
        ensures live { LookedAt result sock.now.id.0 seat.old.me.0 seat.new.me.0 }
        ensures stays { IfLive result (NoneLater sock.now.id.0 seat.old.me.0) }
        ensures between { IsBetween self.now.rule.plan seat.new.me.0 }
        ensures slots { seat.new.me.1 ≡ seat.old.me.1 }
    {
        let slots = self.rule.plan.slots;
        let slot = sock.id.slot();
        prove!(slot < slots as u32);
        let step = self.rule.look_word(seat, slot as u16);
        let found = Vref(step.found);
        if found.version() == sock.id.version() {
            Look::Live
        } else {
            Look::Failed(found)
        }
    }

    /// The link of the socket: that of the pass with which its life was made.
    pub fn link_of(&self, seat: &mut SockSeat<O>, sock: &SockRef) -> u16
        requires seat { IsSeat self.now.rule.table.shared.table_id self.now.rule.plan seat.old }
        requires held { Holds self.now.rule.plan seat.old.me.0 sock.now.id.0 }
        ensures seat { IsSeat self.now.rule.table.shared.table_id self.now.rule.plan seat.new }
        ensures link { LinkOf self.now.rule.plan result sock.now.id.0 seat.old.me.0 seat.new.me.0 }
        ensures between { IsBetween self.now.rule.plan seat.old.me.0 → IsBetween self.now.rule.plan seat.new.me.0 }
        ensures slots { seat.new.me.1 ≡ seat.old.me.1 }
    {
        let slots = self.rule.plan.slots;
        let slot = sock.id.slot();
        prove!(slot < slots as u32);
        let links = self.rule.plan.links;
        let found = self.rule.load_link(seat, slot as u16);
        prove!(found < links as u64);
        found as u16
    }

    /// The code with which the socket was failed, or 0 where none was stored yet.
    pub fn code(&self, seat: &mut SockSeat<O>, sock: &SockRef) -> u16
        requires seat { IsSeat self.now.rule.table.shared.table_id self.now.rule.plan seat.old }
        requires held { Holds self.now.rule.plan seat.old.me.0 sock.now.id.0 }
        ensures seat { IsSeat self.now.rule.table.shared.table_id self.now.rule.plan seat.new }
        ensures code { CodeOf result sock.now.id.0 seat.old.me.0 seat.new.me.0 }
        ensures small { result < 4096 }
        ensures between { IsBetween self.now.rule.plan seat.old.me.0 → IsBetween self.now.rule.plan seat.new.me.0 }
        ensures slots { seat.new.me.1 ≡ seat.old.me.1 }
    {
        let slots = self.rule.plan.slots;
        let slot = sock.id.slot();
        prove!(slot < slots as u32);
        let found = self.rule.load_code(seat, slot as u16);
        prove!(found < 4096);
        found as u16
    }

    /// Fails the socket, with a code from 1 to 4,095, also of a seat that has rights to write. Already exactly where it had
    /// been failed.
    /// bRPC's `SetFailed` (versioned_ref_with_id.h, socket.cpp).
    pub fn set_failed(
        &self,
        seat: &mut SockSeat<O>,
        sock: &SockRef,
        code: u16,
    ) -> Result<(), Already>
        requires seat { IsSeat self.now.rule.table.shared.table_id self.now.rule.plan seat.old }
        requires held { Holds self.now.rule.plan seat.old.me.0 sock.now.id.0 }
        requires room { marks_of is_ref (socket_id_slot sock.now.id.0) seat.old.me.0 < 65540 }
        requires rests { Rests self.now.rule.plan seat.old.me.0 }
        requires code { code ≢ 0 }
        requires small { code < 4096 }
        ensures seat { IsSeat self.now.rule.table.shared.table_id self.now.rule.plan seat.new }
        ensures ok { IfOk result (λ _. FailedBy sock.now.id.0 code seat.old.me.0 seat.new.me.0) }
        ensures err { IfErr result (λ e. FoundFailed sock.now.id.0 e.found.0 seat.old.me.0 seat.new.me.0) }
        ensures stays { IfOk result (λ _. NoneLater sock.now.id.0 seat.old.me.0) }
        ensures rests { Rests self.now.rule.plan seat.new.me.0 }
        ensures rights { seat.new.me.0.rights ≡ seat.old.me.0.rights }
        ensures slots { seat.new.me.1 ≡ seat.old.me.1 }
    {
        let slots = self.rule.plan.slots;
        let slot = sock.id.slot();
        prove!(slot < slots as u32);
        let at = slot as u16;
        let step = self.rule.set_odd(seat, at);
        let found = Vref(step.found);
        if found.version() != sock.id.version() {
            return Err(Already { found });
        }
        self.rule.store_code(seat, at, code);
        self.give_back(seat, at);
        Ok(())
    }
}
