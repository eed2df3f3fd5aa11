// The seats of the table of ids, once all that had one have ended.
ghost use Rattle.std.specs.Prelude.{◌≡◌, ◌<◌, ◌≤◌, []};
ghost use Rattle.rpc_reader.specs.ReaderIdSeat.{IsOpen};
ghost use Rattle.call_run.specs.CrewOfRun.{AreLeft};
ghost use Rattle.script_parts.specs.SeatsOfIdTable.{TookAll};
ghost use Rattle.sock_words.specs.Totals.{total};

use corr_id::{IdSeat, IdTable};
use sock_message::Call;

/// One seat that has what all of these noted, in their order.
pub fn join_all(ids: &IdTable<Call>, seats: Vec<IdSeat<Call>>) -> IdSeat<Call>
    requires seats { AreLeft ids.now.table.shared.table_id seats.items }
    requires words { 0 < ids.now.table.shared.table_id.words }
    requires some { 1 ≤ total (λ s. s.me.0.share) seats.items }
    ensures seat { IsOpen ids.now.table.shared.table_id result }
    ensures slots { result.me.1 ≡ [] }
    ensures share { result.me.0.share ≡ total (λ s. s.me.0.share) seats.items }
    ensures took { TookAll seats.items result }
{
    ids.join_seats(seats)
}
