// The sockets of a run end once all clients have ended.
ghost use Rattle.std.specs.Prelude.{◌≡◌, ◌<◌, ◌≤◌, All};
ghost use Rattle.sock_open.specs.SocketTableOpening.{IsRoom};
ghost use Rattle.sock_table.specs.ClosedSocketTable.{IsDoneSeat, AllDone};
ghost use Rattle.call_run.specs.CrewOfRun.{IsLeft};
ghost use Rattle.call_run.specs.EndingOfSockets.{EndedOne, EndedEach, EndedBehind};
ghost use Rattle.sock_words.specs.Totals.{total};

use rpc_reader::{fail_id, wait_open};
use sock_io::Out;
use sock_rule::SockSeat;
use sock_table::SockTable;
use sock_words::EEOF;
use std::sync::Wait;

/// The socket that this `open` got is set failed.
fn end_one<O: Out, R: Wait>(rt: &R, table: &SockTable<O>, seat: &mut SockSeat<O>, operation: u16)
    requires done { IsDoneSeat table.now.rule.table.shared.table_id table.now.rule.plan seat.old }
    requires operation { operation < table.now.rule.plan.operations }
    ensures done { IsDoneSeat table.now.rule.table.shared.table_id table.now.rule.plan seat.new }
    ensures share { seat.new.me.0.share ≡ seat.old.me.0.share }
    ensures ended { EndedOne table.now.rule.plan operation seat.old.me.0 seat.new.me.0 }
{
    match wait_open(rt, table, seat, operation) {
        None => {}
        Some(id) => fail_id(table, seat, id, EEOF),
    }
}

/// Those that these `open`s got, one after the other.
fn end_each<O: Out, R: Wait>(rt: &R, table: &SockTable<O>, seat: &mut SockSeat<O>, opens: &[u16])
    requires done { IsDoneSeat table.now.rule.table.shared.table_id table.now.rule.plan seat.old }
    requires opens { All (λ o. o < table.now.rule.plan.operations) opens.now }
    ensures done { IsDoneSeat table.now.rule.table.shared.table_id table.now.rule.plan seat.new }
    ensures share { seat.new.me.0.share ≡ seat.old.me.0.share }
    ensures ended { EndedEach table.now.rule.plan opens.now seat.old.me.0 seat.new.me.0 }
{
    'ends: for operation in opens {
        end_one(rt, table, seat, *operation);
    }
}

/// One seat takes in all of these, and then ends the sockets that these `open`s got: so whatever a client found was there before
/// the ending. It is left alone, in the room that is there for it.
pub fn end_sockets<O: Out, R: Wait>(
    rt: &R,
    table: &SockTable<O>,
    opens: &[u16],
    seats: Vec<SockSeat<O>>,
    mut last: Vec<SockSeat<O>>,
) -> Vec<SockSeat<O>>
    requires seats { AllDone table.now.rule.table.shared.table_id table.now.rule.plan seats.items × (1 ≤ total (λ s. s.me.0.share) seats.items) }
    requires room { IsRoom 1 last }
    requires opens { All (λ o. o < table.now.rule.plan.operations) opens.now }
    ensures left { IsLeft table.now.rule.table.shared.table_id table.now.rule.plan (total (λ s. s.me.0.share) seats.items) result.items }
    ensures ended { EndedBehind table.now.rule.plan opens.now seats.items result.items }
{
    let mut seat = table.join_seats(seats);
    end_each(rt, table, &mut seat, opens);
    last.push_reserved(seat);
    last
}
