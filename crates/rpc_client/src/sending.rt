// A message that didn't go out.
ghost use Rattle.rpc_client.specs.SeatBetweenOperations.{Idle};
ghost use Rattle.rpc_client.specs.SendingOutcomes.{RefusedHolds, RefusedAs};

use sock_io::Out;
use sock_rule::SockSeat;
use sock_table::SockTable;
use sock_words::Outcome;
use write_chain::Refused;

/// A message that was refused: the reference is given back.
pub fn refuse<O: Out>(table: &SockTable<O>, seat: &mut SockSeat<O>, refused: Refused) -> Outcome
    requires idle { Idle table.now.rule.table.shared.table_id table.now.rule.plan seat.old }
    requires held { RefusedHolds table.now.rule.plan refused seat.old.me.0 }
    ensures idle { Idle table.now.rule.table.shared.table_id table.now.rule.plan seat.new }
    ensures by { RefusedAs refused result seat.old.me.0 seat.new.me.0 }
{
    match refused {
        Refused::Failed(sock, msg, found) => {
            table.release(seat, sock);
            drop(msg);
            Outcome::Gone { found }
        }
        Refused::Full(sock, msg) => {
            table.release(seat, sock);
            drop(msg);
            Outcome::Full
        }
    }
}
