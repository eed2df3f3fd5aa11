// Messages of clients that have calls.
ghost use Rattle.std.specs.Prelude.{◌≡◌, ◌*◌, ◌<◌, []};
ghost use Rattle.sock_rule.specs.SocketSeatSplits.{IsSeat};
ghost use Rattle.write_chain.specs.SendingIntoChain.{HasRoom};
ghost use Rattle.write_chain.specs.WritingRightInHand.{GaveUp, Begins};
ghost use Rattle.call_errors.specs.rpc_client.specs.SeatBetweenOperations.{Idle, MayAct};
ghost use Rattle.call_errors.specs.ClientBooks.{stand_of, HasNoLock, KeepsSeat};
ghost use Rattle.call_writes.specs.Draining.{Drained};
ghost use Rattle.call_writes.specs.MessageFateBesideCalls.{SeenCalling, SentCalling, Rested};
ghost use Rattle.write_chain.specs.ReadyToSend.{sock_of};

use crate::shared_tables::SharedTables;
use call_errors::{CallSeat, Reached, find_socket, refuse};
use sock_io::Out;
use sock_rule::{Letter, SockSeat};
use sock_table::SockRef;
use sock_words::Outcome;
use std::sync::Wait;
use write_chain::{Once, Started, start, write_once};

impl<O: Out, R: Wait> SharedTables<'_, O, R> {
    /// A message that was accepted is written, with all that comes meanwhile, where this seat has the right. The code of each message
    /// of a call that is dropped is posted to the call, as soon as the message was dropped.
    /// bRPC's `Socket::StartWrite` and `KeepWrite` behind the exchange, with `ReleaseAllFailedWriteRequests` (socket.cpp).
    fn write_if(&self, seat: &mut SockSeat<O>, calls: &mut CallSeat, started: Started<O>) -> SockRef
        requires seat { IsSeat self.now.socks.now.rule.table.shared.table_id self.now.socks.now.rule.plan seat.old }
        requires begins { Begins self.now.socks.now.rule.plan (sock_of started) started seat.old.me }
        requires ids { HasNoLock self.now.ids.now.table.shared.table_id calls.old }
        ensures seat { IsSeat self.now.socks.now.rule.table.shared.table_id self.now.socks.now.rule.plan seat.new }
        ensures gave { (result ≡ sock_of started) × GaveUp self.now.socks.now.rule.plan (sock_of started).id.0 seat.new.me }
        ensures keeps { KeepsSeat self.now.ids.now.table.shared.table_id calls.old calls.new }
        ensures drained { Drained O.state self.now.socks.now.rule.plan self.now.ids.now.plan.slots (sock_of started).id.0 seat.old.me.0 (stand_of calls.old) seat.new.me.0 (stand_of calls.new) }
    {
        match started {
            Started::Queued(sock) => sock,
            Started::Right(right) => match write_once(self.socks, seat, right) {
                Once::Done(sock) => sock,
                Once::Keep(right) => self.drain(seat, calls, right),
            },
        }
    }

    /// A message that was accepted: whoever has the right writes, calls are told what was dropped, and the reference is given back.
    pub fn see_through(&self, seat: &mut SockSeat<O>, calls: &mut CallSeat, started: Started<O>)
        requires seat { IsSeat self.now.socks.now.rule.table.shared.table_id self.now.socks.now.rule.plan seat.old }
        requires begins { Begins self.now.socks.now.rule.plan (sock_of started) started seat.old.me }
        requires claims { (seat.old.me.0.claims ≡ []) × (seat.old.me.0.loose ≡ []) }
        requires ids { HasNoLock self.now.ids.now.table.shared.table_id calls.old }
        ensures idle { Idle self.now.socks.now.rule.table.shared.table_id self.now.socks.now.rule.plan seat.new }
        ensures keeps { KeepsSeat self.now.ids.now.table.shared.table_id calls.old calls.new }
        ensures by { SeenCalling O.state self.now.socks.now.rule.plan self.now.ids.now.plan.slots (sock_of started).id.0 seat.old.me.0 (stand_of calls.old) seat.new.me.0 (stand_of calls.new) }
    {
        let sock = self.write_if(seat, calls, started);
        self.socks.release(seat, sock);
    }

    /// A message is sent to the socket of the name: what became of it, unless it was accepted. Where this seat writes, calls are told
    /// what was dropped. The reference to the socket is given back.
    /// bRPC's `Socket::Write` (io.md), whose writer goes on by itself where it has the right.
    pub fn send(
        &self,
        seat: &mut SockSeat<O>,
        calls: &mut CallSeat,
        name: u16,
        msg: Letter,
    ) -> Option<Outcome>
        requires may { MayAct self.now.socks.now.rule.table.shared.table_id self.now.socks.now.rule.plan seat.old }
        requires name { name < self.now.socks.now.rule.plan.names }
        requires room { HasRoom seat.old.me.0 }
        requires label { msg.label.place < 8 * self.now.socks.now.rule.plan.operations }
        requires ids { HasNoLock self.now.ids.now.table.shared.table_id calls.old }
        ensures rested { Rested self.now.socks.now.rule.table.shared.table_id self.now.socks.now.rule.plan self.now.ids.now.table.shared.table_id seat.old seat.new calls.old calls.new }
        ensures by { SentCalling O.state self.now.socks.now.rule.plan self.now.ids.now.plan.slots name msg result seat.old.me.0 (stand_of calls.old) seat.new.me.0 (stand_of calls.new) }
    {
        match find_socket(self.socks, seat, name) {
            Reached::Unopened => Some(Outcome::Unopened),
            Reached::Gone(found) => Some(Outcome::Gone { found }),
            Reached::Here(sock) => match start(self.socks, seat, sock, msg) {
                Ok(started) => {
                    self.see_through(seat, calls, started);
                    None
                }
                Err(refused) => Some(refuse(self.socks, seat, refused)),
            },
        }
    }
}
