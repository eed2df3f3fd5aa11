// Any number may be addressed: what stands under the name of its slot tells whether it is the id of a socket.
ghost use Rattle.std.specs.Prelude.{◌≡◌, ◌<◌, ◌≤◌, ℕ, IfOk, IfErr};
ghost use Rattle.sock_words.specs.PackedWords.{socket_id_slot};
ghost use Rattle.sock_model.specs.MarkWeights.{is_ref, is_tried};
ghost use Rattle.sock_model.specs.SlotRows.{marks_of};
ghost use Rattle.sock_rule.specs.SocketSeatSplits.{IsSeat};
ghost use Rattle.sock_table.specs.ReferenceCalls.{IsBetween, SameTokens, Knows};
ghost use Rattle.sock_table.specs.LinkPasses.{IsPass, TriedTo};
ghost use Rattle.any_id.specs.AnyNumber.{Addressed, NotAddressed, MadeAndNamed};

use sock_io::Out;
use sock_rule::SockSeat;
use sock_table::{CreateFull, LinkPass, SockRef, SockTable};
use sock_words::{SocketId, Vref};

/// Why a number has no reference.
#[derive(Drop)]
pub enum NoSocket {
    /// Under its slot stands another id, or none, or there is no such slot.
    Foreign,
    /// It was the id of a socket, whose word was found to have another version.
    Gone(Vref),
}

/// A socket in the first slot that is found free. Its id stands under its slot's name from then on.
pub fn create<O: Out>(
    table: &SockTable<O>,
    seat: &mut SockSeat<O>,
    pass: LinkPass<O>,
) -> Result<SocketId, CreateFull<O>>
    requires seat { IsSeat table.now.rule.table.shared.table_id table.now.rule.plan seat.old }
    requires pass { IsPass table.now.rule.table.shared.table_id table.now.rule.plan pass }
    requires between { IsBetween table.now.rule.plan seat.old.me.0 }
    requires named { table.now.rule.plan.slots ≤ table.now.rule.plan.names }
    ensures seat { IsSeat table.now.rule.table.shared.table_id table.now.rule.plan seat.new }
    ensures made { IfOk result (λ id. MadeAndNamed table.now.rule.plan id.0 pass.link seat.old.me seat.new.me) }
    ensures full { IfErr result (λ e. (e.pass ≡ pass) × TriedTo table.now.rule.plan.slots seat.old.me.0 seat.new.me.0) }
    ensures between { IsBetween table.now.rule.plan seat.new.me.0 }
    ensures slots { seat.new.me.1 ≡ seat.old.me.1 }
{
    let slots = table.rule.plan.slots;
    let id = table.create(seat, pass)?;
    let slot = id.slot();
    prove!(slot < slots as u32);
    table.publish(seat, slot as u16, id);
    Ok(id)
}

/// A reference to the socket that this number is the id of, whatever the number is.
/// bRPC's `Address`, to which an id that is stale or foreign does no harm (memory_management.md).
pub fn address<O: Out>(
    table: &SockTable<O>,
    seat: &mut SockSeat<O>,
    id: SocketId,
) -> Result<SockRef, NoSocket>
    requires seat { IsSeat table.now.rule.table.shared.table_id table.now.rule.plan seat.old }
    requires between { IsBetween table.now.rule.plan seat.old.me.0 }
    requires named { table.now.rule.plan.slots ≤ table.now.rule.plan.names }
    requires room { (i : ℕ) → i < table.now.rule.plan.slots → marks_of is_ref i seat.old.me.0 < 65536 }
    ensures seat { IsSeat table.now.rule.table.shared.table_id table.now.rule.plan seat.new }
    ensures addressed { IfOk result (λ r. (r.id ≡ id) × Addressed table.now.rule.plan id.0 seat.old.me.0 seat.new.me.0) }
    ensures refused { IfErr result (λ e. NotAddressed table.now.rule.plan id.0 e seat.old.me.0 seat.new.me.0) }
    ensures between { IsBetween table.now.rule.plan seat.new.me.0 }
    ensures slots { seat.new.me.1 ≡ seat.old.me.1 }
{
    let slots = table.rule.plan.slots;
    let slot = id.slot();
    if slot >= slots as u32 {
        return Err(NoSocket::Foreign);
    }
    let Some(stands) = table.find(seat, slot as u16) else {
        return Err(NoSocket::Foreign);
    };
    if stands.0 != id.0 {
        return Err(NoSocket::Foreign);
    }
    match table.add_reference(seat, id) {
        Ok(sock) => Ok(sock),
        Err(gone) => Err(NoSocket::Gone(gone.found)),
    }
}
