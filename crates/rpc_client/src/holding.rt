// References that a client keeps.
ghost use Rattle.std.specs.Prelude.{◌≡◌, ◌+◌, ◌<◌, ◌==◌, length, vec_len, vec_capacity, position};
ghost use Rattle.sock_table.specs.ReferenceAnswers.{is_freed};
ghost use Rattle.rpc_client.specs.SeatBetweenOperations.{Idle, MayAct, AtRest, StaysSeen};
ghost use Rattle.rpc_client.specs.HoldAndDropOutcomes.{IsHolder, HeldBy, given_as, GivenBy, DroppedBy};

use crate::reaching::{Reached, find_socket};
use sock_io::Out;
use sock_rule::SockSeat;
use sock_table::{Released, SockRef, SockTable};
use sock_words::{Outcome, SocketId};

/// A reference that a client keeps, and the name by which it got it.
#[derive(Clone, Copy, Debug, Drop)]
pub struct Held {
    pub name: u16,
    pub id: SocketId,
}

/// Takes a reference, which the client keeps.
pub fn hold_one<O: Out>(
    table: &SockTable<O>,
    seat: &mut SockSeat<O>,
    held: &mut Vec<Held>,
    name: u16,
) -> Outcome
    requires may { MayAct table.now.rule.table.shared.table_id table.now.rule.plan seat.old }
    requires name { name < table.now.rule.plan.names }
    requires holder { IsHolder table.now.rule.plan held.old.items seat.old.me.0 }
    requires room { vec_len held.old < vec_capacity held.old }
    ensures rest { AtRest table.now.rule.table.shared.table_id table.now.rule.plan seat.old seat.new }
    ensures holder { IsHolder table.now.rule.plan held.new.items seat.new.me.0 }
    ensures by { HeldBy table.now.rule.plan name result held.old.items seat.old.me.0 held.new.items seat.new.me.0 }
    ensures lists { seat.new.me.0.lists ≡ seat.old.me.0.lists }
    ensures seen { StaysSeen seat.old.me.0 seat.new.me.0 }
    ensures capacity { vec_capacity held.new ≡ vec_capacity held.old }
{
    match find_socket(table, seat, name) {
        Reached::Unopened => Outcome::Unopened,
        Reached::Gone(found) => Outcome::Gone { found },
        Reached::Here(sock) => {
            let SockRef { id } = sock;
            held.push_reserved(Held { name, id });
            Outcome::Held
        }
    }
}

/// Where the first reference of this name stands.
fn place_of(held: &[Held], name: u16) -> Option<usize>
    ensures { result ≡ position (λ x. x.name == name) held.now }
{
    held.iter().position(|x| x.name == name)
}

/// Gives the reference back that the client got by this name.
pub fn drop_one<O: Out>(
    table: &SockTable<O>,
    seat: &mut SockSeat<O>,
    held: &mut Vec<Held>,
    name: u16,
) -> Outcome
    requires may { MayAct table.now.rule.table.shared.table_id table.now.rule.plan seat.old }
    requires holder { IsHolder table.now.rule.plan held.old.items seat.old.me.0 }
    ensures rest { AtRest table.now.rule.table.shared.table_id table.now.rule.plan seat.old seat.new }
    ensures holder { IsHolder table.now.rule.plan held.new.items seat.new.me.0 }
    ensures by { DroppedBy name result held.old.items seat.old.me.0 held.new.items seat.new.me.0 }
    ensures lists { seat.new.me.0.lists ≡ seat.old.me.0.lists }
    ensures seen { StaysSeen seat.old.me.0 seat.new.me.0 }
    ensures capacity { vec_capacity held.new ≡ vec_capacity held.old }
{
    let Some(at) = place_of(held.as_slice(), name) else {
        return Outcome::NotHeld;
    };
    give_back(table, seat, held, at)
}

/// What is told of a reference that was given back.
fn told_of(released: Released) -> Outcome
    ensures { result ≡ given_as (is_freed released) }
{
    match released {
        Released::Freed => Outcome::Freed,
        Released::Kept => Outcome::Kept,
    }
}

/// Gives back the reference that stands there.
pub fn give_back<O: Out>(
    table: &SockTable<O>,
    seat: &mut SockSeat<O>,
    held: &mut Vec<Held>,
    at: usize,
) -> Outcome
    requires idle { Idle table.now.rule.table.shared.table_id table.now.rule.plan seat.old }
    requires holder { IsHolder table.now.rule.plan held.old.items seat.old.me.0 }
    requires there { at < length held.old.items }
    ensures rest { AtRest table.now.rule.table.shared.table_id table.now.rule.plan seat.old seat.new }
    ensures holder { IsHolder table.now.rule.plan held.new.items seat.new.me.0 }
    ensures by { GivenBy at result held.old.items seat.old.me.0 held.new.items seat.new.me.0 }
    ensures lists { seat.new.me.0.lists ≡ seat.old.me.0.lists }
    ensures seen { StaysSeen seat.old.me.0 seat.new.me.0 }
    ensures len { vec_len held.new + 1 ≡ vec_len held.old }
    ensures capacity { vec_capacity held.new ≡ vec_capacity held.old }
{
    let gone = held.remove(at);
    let released = table.release(seat, SockRef { id: gone.id });
    told_of(released)
}
