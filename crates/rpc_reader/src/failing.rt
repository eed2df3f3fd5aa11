// The socket of a link whose reading has ended is set failed.
ghost use Rattle.std.specs.Prelude.{◌≡◌, ◌<◌};
ghost use Rattle.sock_table.specs.ReferenceCalls.{Knows};
ghost use Rattle.rpc_client.specs.SeatBetweenOperations.{MayAct, AtRest, StaysSeen, SameRefs};
ghost use Rattle.rpc_reader.specs.ReaderSocketFailing.{FailedBy};

use rpc_client::fail_socket;
use sock_io::Out;
use sock_rule::SockSeat;
use sock_table::SockTable;
use sock_words::SocketId;

/// The socket of this id is set failed with this code, unless it is gone.
/// bRPC's `SetFailed` (socket.cpp), as its reader calls it at the end of its input (io.md).
pub fn fail_id<O: Out>(table: &SockTable<O>, seat: &mut SockSeat<O>, id: SocketId, code: u16)
    requires may { MayAct table.now.rule.table.shared.table_id table.now.rule.plan seat.old }
    requires known { Knows table.now.rule.plan seat.old.me.0 id.0 }
    requires code { (0 < code) × (code < 4096) }
    ensures rest { AtRest table.now.rule.table.shared.table_id table.now.rule.plan seat.old seat.new }
    ensures by { FailedBy id.0 code seat.old.me.0 seat.new.me.0 }
    ensures refs { SameRefs seat.old.me.0 seat.new.me.0 }
    ensures lists { seat.new.me.0.lists ≡ seat.old.me.0.lists }
    ensures seen { StaysSeen seat.old.me.0 seat.new.me.0 }
{
    match table.add_reference(seat, id) {
        Err(_) => {}
        Ok(sock) => {
            fail_socket(table, seat, &sock, code);
            table.release(seat, sock);
        }
    }
}
