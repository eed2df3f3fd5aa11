// A link is written until its head is empty, and calls are told what was dropped.
ghost use Rattle.std.specs.Prelude.{◌≡◌, ◌≤◌};
ghost use Rattle.sock_rule.specs.SocketSeatSplits.{IsSeat};
ghost use Rattle.write_chain.specs.WritingRightInHand.{MayGoOn, GaveUp};
ghost use Rattle.call_errors.specs.ClientBooks.{stand_of, HasNoLock, KeepsSeat};
ghost use Rattle.call_writes.specs.Draining.{ToldDrop, Drained};

use crate::shared_tables::SharedTables;
use call_errors::{CallSeat, post_error};
use corr_id::IdTable;
use sock_io::Out;
use sock_message::Call;
use sock_rule::SockSeat;
use sock_table::SockRef;
use std::sync::Wait;
use write_chain::{Kept, Undelivered, WriteRight, keep_write};

/// A message was dropped with this code: the code is posted to its call, for the attempt whose frame it was. Nobody is told of a
/// send.
fn tell_dropped<R: Wait>(
    rt: &R,
    ids: &IdTable<Call>,
    calls: &mut CallSeat,
    msg: &Undelivered,
    code: u16,
)
    requires ids { HasNoLock ids.now.table.shared.table_id calls.old }
    requires code { (1 ≤ code) × (code ≤ 4095) }
    ensures keeps { KeepsSeat ids.now.table.shared.table_id calls.old calls.new }
    ensures told { ToldDrop ids.now.plan.slots msg.now code (stand_of calls.old) (stand_of calls.new) }
{
    if msg.owner == 0 {
        return;
    }
    post_error(rt, ids, calls, msg.owner, code, Some(msg.label.attempt));
}

impl<O: Out, R: Wait> SharedTables<'_, O, R> {
    /// Writes until the head is empty. The call of each message that is dropped is told at once.
    pub(crate) fn drain(
        &self,
        seat: &mut SockSeat<O>,
        calls: &mut CallSeat,
        mut right: WriteRight<O>,
    ) -> SockRef
        requires seat { IsSeat self.now.socks.now.rule.table.shared.table_id self.now.socks.now.rule.plan seat.old }
        requires may { MayGoOn self.now.socks.now.rule.plan self.now.socks.now.rule.ways.list right seat.old.me }
        requires ids { HasNoLock self.now.ids.now.table.shared.table_id calls.old }
        ensures seat { IsSeat self.now.socks.now.rule.table.shared.table_id self.now.socks.now.rule.plan seat.new }
        ensures gave { (result ≡ right.sock) × GaveUp self.now.socks.now.rule.plan right.sock.id.0 seat.new.me }
        ensures keeps { KeepsSeat self.now.ids.now.table.shared.table_id calls.old calls.new }
        ensures drained { Drained O.state self.now.socks.now.rule.plan self.now.ids.now.plan.slots right.sock.id.0 seat.old.me.0 (stand_of calls.old) seat.new.me.0 (stand_of calls.new) }
    {
        'drops: for _ in self.rt.forever() {
            match keep_write(self.socks, self.rt, seat, right) {
                Kept::Done(sock) => return sock,
                Kept::Dropped {
                    right: next,
                    msg,
                    code,
                } => {
                    tell_dropped(self.rt, self.ids, calls, &msg, code);
                    drop(msg);
                    right = next;
                }
            }
        }
        unreachable!()
    }
}
