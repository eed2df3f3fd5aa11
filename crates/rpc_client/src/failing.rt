// A socket is set failed.
ghost use Rattle.std.specs.Prelude.{◌≡◌, ◌≢◌, ◌<◌};
ghost use Rattle.sock_words.specs.PackedWords.{socket_id_slot};
ghost use Rattle.sock_model.specs.MarkWeights.{is_ref};
ghost use Rattle.sock_model.specs.SlotRows.{marks_of};
ghost use Rattle.sock_table.specs.ReferenceAnswers.{Holds};
ghost use Rattle.rpc_client.specs.SeatBetweenOperations.{Idle, MayAct, AtRest, StaysSeen, SameRefs};
ghost use Rattle.rpc_client.specs.FailOutcomes.{SetBy, FailedBy};

use crate::reaching::{Reached, find_socket};
use sock_io::Out;
use sock_rule::SockSeat;
use sock_table::{SockRef, SockTable};
use sock_words::Outcome;

/// A socket to which the seat has a reference is set failed.
pub fn fail_socket<O: Out>(
    table: &SockTable<O>,
    seat: &mut SockSeat<O>,
    sock: &SockRef,
    code: u16,
) -> Outcome
    requires idle { Idle table.now.rule.table.shared.table_id table.now.rule.plan seat.old }
    requires held { Holds table.now.rule.plan seat.old.me.0 sock.now.id.0 }
    requires room { marks_of is_ref (socket_id_slot sock.now.id.0) seat.old.me.0 < 65540 }
    requires code { code ≢ 0 }
    requires small { code < 4096 }
    ensures rest { AtRest table.now.rule.table.shared.table_id table.now.rule.plan seat.old seat.new }
    ensures by { SetBy sock.now.id.0 code result seat.old.me.0 seat.new.me.0 }
{
    match table.set_failed(seat, sock, code) {
        Ok(()) => Outcome::Failed,
        Err(already) => Outcome::Already {
            found: already.found,
        },
    }
}

/// The socket of the name is set failed with this code.
/// bRPC's `SetFailed` (socket.cpp). The code is 1 to 4,095.
pub fn fail_one<O: Out>(
    table: &SockTable<O>,
    seat: &mut SockSeat<O>,
    name: u16,
    code: u16,
) -> Outcome
    requires may { MayAct table.now.rule.table.shared.table_id table.now.rule.plan seat.old }
    requires name { name < table.now.rule.plan.names }
    requires code { code ≢ 0 }
    requires small { code < 4096 }
    ensures rest { AtRest table.now.rule.table.shared.table_id table.now.rule.plan seat.old seat.new }
    ensures by { FailedBy table.now.rule.plan name code result seat.old.me.0 seat.new.me.0 }
    ensures refs { SameRefs seat.old.me.0 seat.new.me.0 }
    ensures lists { seat.new.me.0.lists ≡ seat.old.me.0.lists }
    ensures seen { StaysSeen seat.old.me.0 seat.new.me.0 }
{
    match find_socket(table, seat, name) {
        Reached::Unopened => Outcome::Unopened,
        Reached::Gone(found) => Outcome::Gone { found },
        Reached::Here(sock) => {
            let outcome = fail_socket(table, seat, &sock, code);
            table.release(seat, sock);
            outcome
        }
    }
}
