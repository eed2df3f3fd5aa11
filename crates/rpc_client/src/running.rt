// What a client does in the end.
ghost use Rattle.std.specs.Prelude.{◌≡◌, [], length};
ghost use Rattle.rpc_client.specs.SeatBetweenOperations.{Idle, AtRest};
ghost use Rattle.rpc_client.specs.HoldAndDropOutcomes.{IsHolder};
ghost use Rattle.rpc_client.specs.ToldOfOperation.{GaveFirst};

use crate::holding::{Held, give_back};
use sock_io::Out;
use sock_rule::SockSeat;
use sock_table::SockTable;

/// All references are given back, the oldest first.
pub fn give_all<O: Out>(table: &SockTable<O>, seat: &mut SockSeat<O>, held: &mut Vec<Held>)
    requires idle { Idle table.now.rule.table.shared.table_id table.now.rule.plan seat.old }
    requires holder { IsHolder table.now.rule.plan held.old.items seat.old.me.0 }
    ensures rest { AtRest table.now.rule.table.shared.table_id table.now.rule.plan seat.old seat.new }
    ensures none_ { (held.new.items ≡ []) × IsHolder table.now.rule.plan [] seat.new.me.0 }
    ensures given { GaveFirst held.old.items (length held.old.items) seat.old.me.0 seat.new.me.0 }
    ensures lists { seat.new.me.0.lists ≡ seat.old.me.0.lists }
{
    'gives: while !held.is_empty() {
        give_back(table, seat, held, 0);
    }
}
