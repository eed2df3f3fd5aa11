// A client waits for the sockets that were opened before it began.
ghost use Rattle.std.specs.Prelude.{◌<◌, All, Some};
ghost use Rattle.sock_words.specs.declared.socket_id.SocketId.{SocketId};
ghost use Rattle.sock_table.specs.NamesStoredAndFound.{Found};
ghost use Rattle.call_client.specs.rpc_client.specs.SeatBetweenOperations.{Idle, AtRest};
ghost use Rattle.call_run.specs.Threads.{FoundEach};

use link_pauses::Pauses;
use sock_io::Out;
use sock_rule::SockSeat;
use sock_table::SockTable;
use std::sync::Wait;

/// Waits until the name is that of a socket.
fn wait_for<O: Out, R: Wait>(rt: &R, table: &SockTable<O>, seat: &mut SockSeat<O>, name: u16)
    requires idle { Idle table.now.rule.table.shared.table_id table.now.rule.plan seat.old }
    requires name { name < table.now.rule.plan.names }
    ensures rest { AtRest table.now.rule.table.shared.table_id table.now.rule.plan seat.old seat.new }
    ensures found { (id : SocketId) × Found table.now.rule.plan name (Some id) seat.old.me.0 seat.new.me.0 }
{
    let pauses = Pauses::new();
    'waits: for _ in rt.forever() {
        if let Some(_id) = table.find(seat, name) {
            return;
        }
        pauses.pause(rt);
    }
    unreachable!()
}

/// Waits for each of these names, one after the other.
pub fn wait_all<O: Out, R: Wait>(
    rt: &R,
    table: &SockTable<O>,
    seat: &mut SockSeat<O>,
    names: &[u16],
)
    requires idle { Idle table.now.rule.table.shared.table_id table.now.rule.plan seat.old }
    requires names { All (λ n. n < table.now.rule.plan.names) names.now }
    ensures rest { AtRest table.now.rule.table.shared.table_id table.now.rule.plan seat.old seat.new }
    ensures found { FoundEach table.now.rule.plan names.now seat.old.me.0 seat.new.me.0 }
{
    'names: for name in names {
        wait_for(rt, table, seat, *name);
    }
}
