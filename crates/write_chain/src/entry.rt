// A message is accepted.
ghost use Rattle.std.specs.Prelude.{◌≡◌, ◌*◌, ◌%◌, ◌<◌, [], IfOk, IfErr, IfSome, IfNone};
ghost use Rattle.sock_words.specs.PackedWords.{socket_id_slot};
ghost use Rattle.sock_model.specs.declared.chain.Claim.{Claim};
ghost use Rattle.sock_model.specs.MarkWeights.{is_ref};
ghost use Rattle.sock_model.specs.SlotRows.{marks_of};
ghost use Rattle.atomic_table.specs.Table.{rest};
ghost use Rattle.message_parts.specs.Parcels.{parcel_of};
ghost use Rattle.sock_rule.specs.SocketSeatSplits.{IsSeat};
ghost use Rattle.sock_rule.specs.Shows.{heading_of};
ghost use Rattle.sock_rule.specs.SendingOnRequestWords.{Asked, Claims, OnTop};
ghost use Rattle.sock_table.specs.ReferenceAnswers.{Holds};
ghost use Rattle.write_chain.specs.SendingIntoChain.{Missed, HasRoom, MaySend, StartedWith, StartedBy, RefusedBy};
ghost use Rattle.write_chain.specs.WritingRightInHand.{Begins};

use crate::right::{Doing, WriteRight};
use sock_io::Out;
use sock_rule::{Letter, SockSeat};
use sock_table::{Look, SockRef, SockTable};
use sock_words::{Ticket, Vref};

/// A head from here on is idle.
const IDLE: u64 = Ticket::IDLE.0;

/// So many requests lie between those from which two clients look.
const REQUESTS_APART: u16 = 8;

/// What became of a message that was accepted: another seat writes it, or this one has the right to write.
pub enum Started<O: Out> {
    Queued(SockRef),
    Right(WriteRight<O>),
}

/// The socket had been failed, or each request was found taken. All comes back.
pub enum Refused {
    Failed(SockRef, Letter, Vref),
    Full(SockRef, Letter),
}

/// The message is accepted with the request `at`, which the seat claimed just now.
/// The exchange of bRPC's `Socket::StartWrite` and what precedes it (socket.cpp).
#[inline(always)]
pub fn accept<O: Out>(
    table: &SockTable<O>,
    seat: &mut SockSeat<O>,
    sock: SockRef,
    msg: Letter,
    at: u16,
    generation: u64,
) -> Started<O>
    requires seat { IsSeat table.now.rule.table.shared.table_id table.now.rule.plan seat.old }
    requires held { Holds table.now.rule.plan seat.old.me.0 sock.id.0 }
    requires request { at < table.now.rule.plan.requests }
    requires claimed { (c : Claim) × Claims c seat.old.me.0 × (c.request ≡ at) × (c.generation ≡ generation) }
    requires generation { generation < 140737488355328 }
    requires home { OnTop at seat.old.me }
    requires narrow { at < 65535 }
    requires loose { seat.old.me.0.loose ≡ [] }
    requires rights { seat.old.me.0.rights ≡ [] }
    requires room { HasRoom seat.old.me.0 }
    requires label { msg.label.place < 8 * table.now.rule.plan.operations }
    ensures seat { IsSeat table.now.rule.table.shared.table_id table.now.rule.plan seat.new }
    ensures started { StartedWith [] table.now.rule.plan sock (heading_of msg) (parcel_of msg.bytes).bytes result seat.old.me.0 seat.new.me.0 }
    ensures slots { seat.new.me.1 ≡ rest seat.old.me.1 }
{
    let slots = table.rule.plan.slots;
    let id = sock.id;
    let slot = id.slot();
    prove!(slot < slots as u32);
    let slot = slot as u16;
    table.rule.put_msg(seat, at, slot, msg);
    table.rule.unconnect(seat, at);
    let own = Ticket::pack(false, generation, at);
    let step = table.rule.swap_head(seat, slot, own);
    let found = step.found;
    if found >= IDLE {
        return Started::Right(WriteRight {
            sock,
            last: own,
            doing: Doing::First,
        });
    }
    table.rule.connect(seat, at, Ticket(found));
    Started::Queued(sock)
}

/// A request that was claimed, and its word as it was found.
#[derive(Drop)]
pub struct Claimed {
    pub at: u16,
    pub found: u64,
}

/// C1 of a request that seemed free at a look. Clients look from requests of their own on, which lie in cache lines of their own.
#[inline(always)]
fn claim_likely<O: Out>(
    table: &SockTable<O>,
    seat: &mut SockSeat<O>,
    client: u16,
) -> Option<Claimed>
    requires seat { IsSeat table.now.rule.table.shared.table_id table.now.rule.plan seat.old }
    requires unclaimed { seat.old.me.0.claims ≡ [] }
    ensures seat { IsSeat table.now.rule.table.shared.table_id table.now.rule.plan seat.new }
    ensures claimed { IfSome result (λ c. (c.at < table.now.rule.plan.requests) × (c.found % 2 ≡ 0) × Asked table.now.rule.plan c.at c.found seat.old.me seat.new.me) }
    ensures narrow { IfSome result (λ c. c.at < 65535) }
    ensures missed { IfNone result (Missed table.now.rule.plan seat.old.me seat.new.me) }
{
    let requests = table.rule.plan.requests;
    if requests == 0 {
        return None;
    }
    let from = client.wrapping_mul(REQUESTS_APART) % requests;
    let Some(at) = table.rule.likely_request(from) else {
        return None;
    };
    let step = table.rule.claim_request(seat, at);
    if !step.won {
        return None;
    }
    Some(Claimed {
        at,
        found: step.found,
    })
}

/// A message is sent to a socket. It is queued behind those of others, or this seat has the right to write.
/// bRPC's `Socket::StartWrite` up to its first write (socket.cpp, io.md): it waits for nobody.
#[inline(always)]
pub fn start<O: Out>(
    table: &SockTable<O>,
    seat: &mut SockSeat<O>,
    sock: SockRef,
    msg: Letter,
) -> Result<Started<O>, Refused>
    requires seat { IsSeat table.now.rule.table.shared.table_id table.now.rule.plan seat.old }
    requires held { Holds table.now.rule.plan seat.old.me.0 sock.id.0 }
    requires may { MaySend table.now.rule.plan seat.old.me.0 }
    requires label { msg.label.place < 8 * table.now.rule.plan.operations }
    ensures seat { IsSeat table.now.rule.table.shared.table_id table.now.rule.plan seat.new }
    ensures started { IfOk result (λ s. StartedBy table.now.rule.plan sock (heading_of msg) (parcel_of msg.bytes).bytes s seat.old.me.0 seat.new.me.0) }
    ensures refused { IfErr result (λ e. RefusedBy table.now.rule.plan sock msg e seat.old.me.0 seat.new.me.0) }
    ensures slots { seat.new.me.1 ≡ seat.old.me.1 }
    ensures begins { seat.old.me.1 ≡ [] → marks_of is_ref (socket_id_slot sock.id.0) seat.old.me.0 < 65540 → IfOk result (λ s. Begins table.now.rule.plan sock s seat.new.me) }
{
    if let Look::Failed(found) = table.look(seat, &sock) {
        return Err(Refused::Failed(sock, msg, found));
    }
    if let Some(claimed) = claim_likely(table, seat, msg.label.client) {
        let Claimed { at, found } = claimed;
        let generation = found / 2;
        return Ok(accept(table, seat, sock, msg, at, generation));
    }
    for at in 0..table.rule.plan.requests {
        let step = table.rule.claim_request(seat, at);
        if step.won {
            let generation = step.found / 2;
            return Ok(accept(table, seat, sock, msg, at, generation));
        }
    }
    Err(Refused::Full(sock, msg))
}
