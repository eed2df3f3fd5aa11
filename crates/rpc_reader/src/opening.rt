// A reader waits for the socket of its link.
ghost use Rattle.std.specs.Prelude.{◌≡◌, ◌<◌};
ghost use Rattle.rpc_client.specs.SeatBetweenOperations.{Idle, AtRest, StaysSeen, SameRefs};
ghost use Rattle.rpc_reader.specs.ReaderSocketFailing.{OpenedBy};

use link_pauses::Pauses;
use sock_io::Out;
use sock_rule::SockSeat;
use sock_table::{Noted, SockTable};
use sock_words::SocketId;
use std::sync::Wait;

/// Waits until the socket of this `open` is noted: the id, or `None` where it got no socket.
pub fn wait_open<O: Out, R: Wait>(
    rt: &R,
    table: &SockTable<O>,
    seat: &mut SockSeat<O>,
    operation: u16,
) -> Option<SocketId>
    requires idle { Idle table.now.rule.table.shared.table_id table.now.rule.plan seat.old }
    requires operation { operation < table.now.rule.plan.operations }
    ensures rest { AtRest table.now.rule.table.shared.table_id table.now.rule.plan seat.old seat.new }
    ensures opened { OpenedBy table.now.rule.plan operation result seat.old.me.0 seat.new.me.0 }
    ensures refs { SameRefs seat.old.me.0 seat.new.me.0 }
    ensures lists { seat.new.me.0.lists ≡ seat.old.me.0.lists }
    ensures seen { StaysSeen seat.old.me.0 seat.new.me.0 }
{
    let pauses = Pauses::new();
    'waits: for _ in rt.forever() {
        match table.noted(seat, operation) {
            Noted::Id(id) => return Some(id),
            Noted::Nothing => return None,
            Noted::NotYet => pauses.pause(rt),
        }
    }
    unreachable!()
}
