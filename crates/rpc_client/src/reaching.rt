// From a name to a reference.
ghost use Rattle.std.specs.Prelude.{◌≡◌, ◌<◌};
ghost use Rattle.rpc_client.specs.SeatBetweenOperations.{MayAct, AtRest, StaysSeen};
ghost use Rattle.rpc_client.specs.ReachingByName.{ReachedBy, RefsBy};

use sock_io::Out;
use sock_rule::SockSeat;
use sock_table::{SockRef, SockTable};
use sock_words::Vref;

/// What a name leads to: nothing was opened under it yet, its socket is gone, or a reference.
pub enum Reached {
    Unopened,
    Gone(Vref),
    Here(SockRef),
}

/// The name is read, and its id is addressed.
/// bRPC's `Address` (versioned_ref_with_id.h): a stale id reaches nothing.
pub fn find_socket<O: Out>(table: &SockTable<O>, seat: &mut SockSeat<O>, name: u16) -> Reached
    requires may { MayAct table.now.rule.table.shared.table_id table.now.rule.plan seat.old }
    requires name { name < table.now.rule.plan.names }
    ensures rest { AtRest table.now.rule.table.shared.table_id table.now.rule.plan seat.old seat.new }
    ensures reached { ReachedBy table.now.rule.plan name result seat.old.me.0 seat.new.me.0 }
    ensures refs { RefsBy result seat.old.me.0 seat.new.me.0 }
    ensures lists { seat.new.me.0.lists ≡ seat.old.me.0.lists }
    ensures seen { StaysSeen seat.old.me.0 seat.new.me.0 }
{
    let Some(id) = table.find(seat, name) else {
        return Reached::Unopened;
    };
    match table.add_reference(seat, id) {
        Ok(sock) => Reached::Here(sock),
        Err(gone) => Reached::Gone(gone.found),
    }
}
