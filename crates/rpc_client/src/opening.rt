// A socket is made and published.
ghost use Rattle.std.specs.Prelude.{◌≡◌, ◌<◌};
ghost use Rattle.sock_table.specs.LinkPasses.{IsPass};
ghost use Rattle.rpc_client.specs.SeatBetweenOperations.{Idle, MayAct, AtRest, StaysSeen, SameRefs};
ghost use Rattle.rpc_client.specs.OpenOutcomes.{OpenedBy, GotNone};

use sock_io::Out;
use sock_rule::SockSeat;
use sock_table::{LinkPass, SockTable};
use sock_words::Outcome;

/// The operation gets no socket: the writing half of the link ends.
pub fn open_none<O: Out>(
    table: &SockTable<O>,
    seat: &mut SockSeat<O>,
    operation: u16,
    pass: LinkPass<O>,
)
    requires idle { Idle table.now.rule.table.shared.table_id table.now.rule.plan seat.old }
    requires operation { operation < table.now.rule.plan.operations }
    requires pass { IsPass table.now.rule.table.shared.table_id table.now.rule.plan pass }
    ensures rest { AtRest table.now.rule.table.shared.table_id table.now.rule.plan seat.old seat.new }
    ensures by { GotNone table.now.rule.plan operation pass.link seat.old.me seat.new.me }
    ensures refs { SameRefs seat.old.me.0 seat.new.me.0 }
    ensures lists { seat.new.me.0.lists ≡ seat.old.me.0.lists }
    ensures seen { StaysSeen seat.old.me.0 seat.new.me.0 }
{
    table.finish_link(seat, pass);
    table.note(seat, operation, None);
}

/// A socket of the pass's link is made, noted for the operation and published under the name.
pub fn open_one<O: Out>(
    table: &SockTable<O>,
    seat: &mut SockSeat<O>,
    name: u16,
    operation: u16,
    pass: LinkPass<O>,
) -> Outcome
    requires may { MayAct table.now.rule.table.shared.table_id table.now.rule.plan seat.old }
    requires name { name < table.now.rule.plan.names }
    requires operation { operation < table.now.rule.plan.operations }
    requires pass { IsPass table.now.rule.table.shared.table_id table.now.rule.plan pass }
    ensures rest { AtRest table.now.rule.table.shared.table_id table.now.rule.plan seat.old seat.new }
    ensures by { OpenedBy table.now.rule.plan name operation pass.link result seat.old.me seat.new.me }
    ensures refs { SameRefs seat.old.me.0 seat.new.me.0 }
    ensures lists { seat.new.me.0.lists ≡ seat.old.me.0.lists }
    ensures seen { StaysSeen seat.old.me.0 seat.new.me.0 }
{
    let link = pass.link();
    match table.create(seat, pass) {
        Ok(id) => {
            table.note(seat, operation, Some(id));
            table.publish(seat, name, id);
            Outcome::Opened {
                slot: id.slot(),
                version: id.version(),
                link,
            }
        }
        Err(full) => {
            open_none(table, seat, operation, full.pass);
            Outcome::SlotsFull
        }
    }
}
