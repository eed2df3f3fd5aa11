// An attempt of a call.
ghost use Rattle.std.specs.Prelude.{◌+◌, ◌*◌, ◌<◌, ◌≤◌, ℕ};
ghost use Rattle.sock_words.specs.PackedWords.{socket_id_slot};
ghost use Rattle.sock_model.specs.MarkWeights.{is_ref};
ghost use Rattle.sock_model.specs.SlotRows.{marks_of};
ghost use Rattle.sock_table.specs.ReferenceAnswers.{Holds};
ghost use Rattle.sock_table.specs.ReferenceCalls.{Knows};
ghost use Rattle.write_chain.specs.SendingIntoChain.{HasRoom};
ghost use Rattle.call_errors.specs.rpc_client.specs.SeatBetweenOperations.{Idle, MayAct, AtRest};
ghost use Rattle.call_errors.specs.rpc_client.specs.AcceptedClientMessages.{OwnList};
ghost use Rattle.call_errors.specs.rpc_client.specs.SendingOutcomes.{RefusedHolds};
ghost use Rattle.call_errors.specs.ClientBooks.{stand_of, HasNoLock, KeepsSeat};
ghost use Rattle.call_errors.specs.PostedErrors.{PostedBy};
ghost use Rattle.call_writes.specs.MessageFateBesideCalls.{Rested};
ghost use Rattle.call_attempts.specs.ClientAtBothTables.{both, IsCallId};
ghost use Rattle.call_attempts.specs.Attempting.{RefusedFor, DeliveredBy, AttemptedBy};

use crate::call_tables::CallTables;
use call_errors::{CallSeat, post_error};
use call_writes::SharedTables;
use sock_io::Out;
use sock_rule::{Letter, SockSeat};
use sock_table::SockRef;
use sock_words::{EFAILEDSOCKET, EREQUESTS, SocketId};
use std::sync::Wait;
use write_chain::{Refused, start};

impl<O: Out, R: Wait> CallTables<'_, O, R> {
    /// The frame of an attempt doesn't go out: that is posted to its call by this code.
    pub fn post_for(&self, calls: &mut CallSeat, msg: Letter, code: u16)
        requires ids { HasNoLock self.now.tables.now.ids.table.shared.table_id calls.old }
        requires code { (1 ≤ code) × (code ≤ 4095) }
        ensures keeps { KeepsSeat self.now.tables.now.ids.table.shared.table_id calls.old calls.new }
        ensures posted { PostedBy self.now.tables.now.ids.plan.slots (stand_of calls.old) msg.owner code (Some msg.label.attempt) (stand_of calls.new) }
    {
        let attempt = Some(msg.label.attempt);
        post_error(self.rt, &self.tables.ids, calls, msg.owner, code, attempt);
        drop(msg);
    }

    // A frame that was refused: that is posted to its call, and then the reference is given back.
    fn refuse_frame(&self, seat: &mut SockSeat<O>, calls: &mut CallSeat, refused: Refused)
        requires idle { Idle self.now.tables.now.socks.rule.table.shared.table_id self.now.tables.now.socks.rule.plan seat.old }
        requires held { RefusedHolds self.now.tables.now.socks.rule.plan refused seat.old.me.0 }
        requires ids { HasNoLock self.now.tables.now.ids.table.shared.table_id calls.old }
        ensures rest { AtRest self.now.tables.now.socks.rule.table.shared.table_id self.now.tables.now.socks.rule.plan seat.old seat.new }
        ensures keeps { KeepsSeat self.now.tables.now.ids.table.shared.table_id calls.old calls.new }
        ensures by { RefusedFor self.now.tables.now.ids.plan refused (both seat.old.me.0 calls.old) (both seat.new.me.0 calls.new) }
    {
        match refused {
            Refused::Failed(sock, msg, _) => {
                self.post_for(calls, msg, EFAILEDSOCKET);
                self.tables.socks.release(seat, sock);
            }
            Refused::Full(sock, msg) => {
                self.post_for(calls, msg, EREQUESTS);
                self.tables.socks.release(seat, sock);
            }
        }
    }

    // A frame is sent to a socket to which the seat has a reference, which it gives back.
    fn deliver(&self, seat: &mut SockSeat<O>, calls: &mut CallSeat, sock: SockRef, msg: Letter)
        requires idle { Idle self.now.tables.now.socks.rule.table.shared.table_id self.now.tables.now.socks.rule.plan seat.old }
        requires held { Holds self.now.tables.now.socks.rule.plan seat.old.me.0 sock.id.0 }
        requires few { marks_of is_ref (socket_id_slot sock.id.0) seat.old.me.0 < 65540 }
        requires room { HasRoom seat.old.me.0 }
        requires label { msg.label.place < 8 * self.now.tables.now.socks.rule.plan.operations }
        requires ids { HasNoLock self.now.tables.now.ids.table.shared.table_id calls.old }
        ensures idle { Idle self.now.tables.now.socks.rule.table.shared.table_id self.now.tables.now.socks.rule.plan seat.new }
        ensures keeps { KeepsSeat self.now.tables.now.ids.table.shared.table_id calls.old calls.new }
        ensures by { DeliveredBy O.state self.now.tables.now.socks.rule.plan self.now.tables.now.ids.plan sock.id msg (both seat.old.me.0 calls.old) (both seat.new.me.0 calls.new) }
    {
        match start(&self.tables.socks, seat, sock, msg) {
            Ok(started) => {
                let on = SharedTables {
                    rt: self.rt,
                    socks: &self.tables.socks,
                    ids: &self.tables.ids,
                };
                on.see_through(seat, calls, started);
            }
            Err(refused) => self.refuse_frame(seat, calls, refused),
        }
    }

    /// An attempt of a call over the socket with this id: the link is stored in the word of the call's operation before the frame is
    /// started. Where the socket is gone or fails, or each request is taken, that is posted to the call.
    /// bRPC's `Controller::IssueRPC`.
    pub(crate) fn attempt(
        &self,
        seat: &mut SockSeat<O>,
        calls: &mut CallSeat,
        to: SocketId,
        msg: Letter,
    )
        requires may { MayAct self.now.tables.now.socks.rule.table.shared.table_id self.now.tables.now.socks.rule.plan seat.old }
        requires known { Knows self.now.tables.now.socks.rule.plan seat.old.me.0 to.0 }
        requires room { HasRoom seat.old.me.0 }
        requires ids { HasNoLock self.now.tables.now.ids.table.shared.table_id calls.old }
        requires operation { msg.label.operation < self.now.tables.now.ids.plan.operations }
        requires id { IsCallId self.now.tables.now.ids.plan msg.owner }
        requires label { msg.label.place < 8 * self.now.tables.now.socks.rule.plan.operations }
        ensures rested { Rested self.now.tables.now.socks.rule.table.shared.table_id self.now.tables.now.socks.rule.plan self.now.tables.now.ids.table.shared.table_id seat.old seat.new calls.old calls.new }
        ensures by { AttemptedBy O.state self.now.tables.now.socks.rule.plan self.now.tables.now.ids.plan to msg (both seat.old.me.0 calls.old) (both seat.new.me.0 calls.new) }
        ensures own { (n : ℕ) → OwnList n seat.old.me.0 → OwnList (n + 1) seat.new.me.0 }
    {
        match self.tables.socks.add_reference(seat, to) {
            Ok(sock) => {
                let slots = self.tables.ids.plan.slots;
                prove!(msg.owner / 4_294_967_296 < slots as u64);
                let link = self.tables.socks.link_of(seat, &sock);
                let links = self.tables.socks.rule.plan.links;
                prove!(link < links);
                self.tables.ids.set_at(
                    &mut calls.seat,
                    msg.label.operation,
                    msg.owner,
                    link,
                    msg.label.attempt,
                );
                self.deliver(seat, calls, sock, msg);
            }
            Err(_gone) => self.post_for(calls, msg, EFAILEDSOCKET),
        }
    }
}
