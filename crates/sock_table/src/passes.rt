// The passes of links, and the sockets that they become.
ghost use Rattle.std.specs.Prelude.{◌≡◌, ◌<◌, ℕ, IfOk, IfErr};
ghost use Rattle.sock_words.specs.PackedWords.{socket_id_version, socket_id_slot};
ghost use Rattle.sock_model.specs.MarkWeights.{is_known, is_tried};
ghost use Rattle.sock_model.specs.SlotRows.{marks_of};
ghost use Rattle.sock_rule.specs.SocketSeatSplits.{IsSeat};
ghost use Rattle.sock_table.specs.ReferenceCalls.{IsBetween, SameTokens, FinishedLink};
ghost use Rattle.sock_table.specs.LinkPasses.{IsPass, Claimed, Made, TriedTo, Created};
ghost use Rattle.sock_table.specs.ClosedSocketTable.{IsDoneSeat};
ghost use Rattle.sock_model.specs.ViewsOfSplitSeats.{joined};

use crate::table::SockTable;
use sock_io::Out;
use sock_rule::SockSeat;
use sock_words::{SocketId, Vref};

/// The right to make one socket of a link. It is a seat that has nothing but this pass.
#[derive(Drop)]
pub struct LinkPass<O: Out> {
    pub seat: SockSeat<O>,
    pub link: u16,
}

impl<O: Out> LinkPass<O> {
    /// Its link.
    pub fn link(&self) -> u16
        ensures { result ≡ self.now.link }
    {
        self.link
    }
}

/// Each slot's tag was found taken. The pass comes back.
#[derive(Drop)]
pub struct CreateFull<O: Out> {
    pub pass: LinkPass<O>,
}

impl<O: Out> SockTable<O> {
    /// Makes the life of a slot that the seat claimed.
    fn make(&self, seat: &mut SockSeat<O>, at: u16, pass: LinkPass<O>) -> SocketId
        requires seat { IsSeat self.now.rule.table.shared.table_id self.now.rule.plan seat.old }
        requires slot { at < self.now.rule.plan.slots }
        requires pass { IsPass self.now.rule.table.shared.table_id self.now.rule.plan pass }
        requires claimed { Claimed at seat.old.me.0 }
        ensures seat { IsSeat self.now.rule.table.shared.table_id self.now.rule.plan seat.new }
        ensures made { Made self.now.rule.plan at result.0 pass.link seat.old.me.0 seat.new.me.0 }
        ensures slots { seat.new.me.1 ≡ seat.old.me.1 }
    {
        let LinkPass { seat: from, link } = pass;
        self.rule.take_in(seat, from);
        self.rule.store_link(seat, at, link);
        self.rule.reset_head(seat, at);
        self.rule.wipe_code(seat, at);
        let step = self.rule.birth(seat, at);
        let version = Vref(step.found).version();
        SocketId::pack(version, u32::from(at))
    }

    /// A socket in the first slot that is found free.
    /// bRPC's `Create` (versioned_ref_with_id.h).
    pub fn create(
        &self,
        seat: &mut SockSeat<O>,
        pass: LinkPass<O>,
    ) -> Result<SocketId, CreateFull<O>>
        requires seat { IsSeat self.now.rule.table.shared.table_id self.now.rule.plan seat.old }
        requires pass { IsPass self.now.rule.table.shared.table_id self.now.rule.plan pass }
        requires between { IsBetween self.now.rule.plan seat.old.me.0 }
        ensures seat { IsSeat self.now.rule.table.shared.table_id self.now.rule.plan seat.new }
        ensures made { IfOk result (λ id. (socket_id_slot id.0 < self.now.rule.plan.slots) × (0 < marks_of (is_known (socket_id_version id.0)) (socket_id_slot id.0) seat.new.me.0)) }
        ensures created { IfOk result (λ id. Created id.0 pass.link seat.old.me.0 seat.new.me.0) }
        ensures tried { IfErr result (λ _. TriedTo self.now.rule.plan.slots seat.old.me.0 seat.new.me.0) }
        ensures full { IfErr result (λ e. (e.pass ≡ pass) × ((i : ℕ) → i < self.now.rule.plan.slots → 0 < marks_of is_tried i seat.new.me.0)) }
        ensures between { IsBetween self.now.rule.plan seat.new.me.0 }
        ensures same { SameTokens self.now.rule.plan seat.old.me.0 seat.new.me.0 }
        ensures slots { seat.new.me.1 ≡ seat.old.me.1 }
    {
        for at in 0..self.rule.plan.slots {
            let step = self.rule.claim_slot(seat, at);
            if step.won {
                return Ok(self.make(seat, at, pass));
            }
        }
        Err(CreateFull { pass })
    }

    /// Ends the writing half of a link that no socket got. The seat notes that it is finished.
    pub fn finish_link(&self, seat: &mut SockSeat<O>, pass: LinkPass<O>)
        requires seat { IsSeat self.now.rule.table.shared.table_id self.now.rule.plan seat.old }
        requires pass { IsPass self.now.rule.table.shared.table_id self.now.rule.plan pass }
        requires between { IsBetween self.now.rule.plan seat.old.me.0 }
        ensures seat { IsSeat self.now.rule.table.shared.table_id self.now.rule.plan seat.new }
        ensures between { IsBetween self.now.rule.plan seat.new.me.0 }
        ensures same { SameTokens self.now.rule.plan seat.old.me.0 seat.new.me.0 }
        ensures finished { FinishedLink self.now.rule.plan pass.link seat.old.me.0 seat.new.me.0 }
        ensures slots { seat.new.me.1 ≡ seat.old.me.1 }
    {
        let LinkPass { seat: from, link } = pass;
        self.rule.take_in(seat, from);
        let mut home = self.rule.spend_pass(seat, link);
        home.finish();
        self.rule.put_link(seat, 0, link, home);
    }

    /// Joins the two seats. What `from` has seen `seat` has seen then, and each of its lists is kept by itself.
    pub fn take_in(&self, seat: &mut SockSeat<O>, from: SockSeat<O>)
        requires seat { IsSeat self.now.rule.table.shared.table_id self.now.rule.plan seat.old }
        requires from { IsDoneSeat self.now.rule.table.shared.table_id self.now.rule.plan from }
        ensures seat { IsSeat self.now.rule.table.shared.table_id self.now.rule.plan seat.new }
        ensures joined { seat.new.me ≡ (joined seat.old.me.0 from.me.0, seat.old.me.1) }
        ensures between { IsBetween self.now.rule.plan seat.old.me.0 → IsBetween self.now.rule.plan from.me.0 → IsBetween self.now.rule.plan seat.new.me.0 }
    {
        self.rule.take_in(seat, from);
    }
}
