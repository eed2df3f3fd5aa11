// S6 and S7, the words of names and of operations: 0, or one more than an id, or that there is none.
ghost use Rattle.std.specs.Prelude.{◌≡◌, ◌≢◌, ◌+◌, ◌-◌, ◌<◌, ℕ, Some, None};
ghost use mathlib.Core.Option.{some};
ghost use lib.ListN.{get_elem?};
ghost use Rattle.sock_model.specs.SocketTableLayout.{name_index, open_index};
ghost use Rattle.sock_rule.specs.NotesBesideRows.{PutAt, FoundAt, Knows, NotedBy};
ghost use Rattle.sock_rule.specs.SocketSeatSplits.{IsSeat};
ghost use Rattle.sock_words.specs.PackedWords.{NO_SOCKET, socket_id_slot};

use crate::plays::{FindId, FindName, StoreId};
use crate::table::{RuleTable, SockSeat};
use sock_io::Out;
use sock_model::{name_index, open_index};
use sock_words::{NO_SOCKET, SocketId};

impl<O: Out> RuleTable<O> {
    /// S6 into the word of a name: an id that the seat knows.
    pub fn store_name(&self, seat: &mut SockSeat<O>, name: u16, id: SocketId)
        requires seat { IsSeat self.now.table.shared.table_id self.now.plan seat.old }
        requires name { name < self.now.plan.names }
        requires known { Knows self.now.plan seat.old.me.0 id.0 }
        ensures seat { IsSeat self.now.table.shared.table_id self.now.plan seat.new }
        ensures view { PutAt (name_index self.now.plan name) (id.0 + 1) seat.old.me seat.new.me }
    {
        // So an id of one of its slots is below 2^48.
        prove!(self.plan.slots <= u16::MAX);
        let index = name_index(&self.plan, name);
        self.table.shared.store::<StoreId>(seat, index, id.0 + 1);
    }

    /// S7 of the word of a name.
    pub fn load_name(&self, seat: &mut SockSeat<O>, name: u16) -> u64
        requires seat { IsSeat self.now.table.shared.table_id self.now.plan seat.old }
        requires name { name < self.now.plan.names }
        ensures seat { IsSeat self.now.table.shared.table_id self.now.plan seat.new }
        ensures view { FoundAt (name_index self.now.plan name) result seat.old.me seat.new.me }
        ensures inside { result ≢ 0 → socket_id_slot (result - 1) < self.now.plan.slots }
        ensures stays { (k : ℕ) → get_elem? seat.old.me.0.found k ≡ some (name_index self.now.plan name) → result ≢ 0 }
    {
        let index = name_index(&self.plan, name);
        self.table.shared.load::<FindName>(seat, index)
    }

    /// S6 into the word of an operation: the id of its socket, which the seat knows.
    pub fn store_open(&self, seat: &mut SockSeat<O>, operation: u16, id: SocketId)
        requires seat { IsSeat self.now.table.shared.table_id self.now.plan seat.old }
        requires operation { operation < self.now.plan.operations }
        requires known { Knows self.now.plan seat.old.me.0 id.0 }
        ensures seat { IsSeat self.now.table.shared.table_id self.now.plan seat.new }
        ensures noted { NotedBy self.now.plan operation (Some id) seat.old.me seat.new.me }
    {
        prove!(self.plan.slots <= u16::MAX);
        let index = open_index(&self.plan, operation);
        self.table.shared.store::<StoreId>(seat, index, id.0 + 1);
    }

    /// S6 into the word of an operation that got no socket.
    pub fn store_nothing(&self, seat: &mut SockSeat<O>, operation: u16)
        requires seat { IsSeat self.now.table.shared.table_id self.now.plan seat.old }
        requires operation { operation < self.now.plan.operations }
        ensures seat { IsSeat self.now.table.shared.table_id self.now.plan seat.new }
        ensures noted { NotedBy self.now.plan operation None seat.old.me seat.new.me }
    {
        let index = open_index(&self.plan, operation);
        self.table.shared.store::<StoreId>(seat, index, NO_SOCKET);
    }

    /// S7 of the word of an operation.
    pub fn load_open(&self, seat: &mut SockSeat<O>, operation: u16) -> u64
        requires seat { IsSeat self.now.table.shared.table_id self.now.plan seat.old }
        requires operation { operation < self.now.plan.operations }
        ensures seat { IsSeat self.now.table.shared.table_id self.now.plan seat.new }
        ensures view { FoundAt (open_index self.now.plan operation) result seat.old.me seat.new.me }
        ensures inside { result ≢ 0 → result ≢ NO_SOCKET → socket_id_slot (result - 1) < self.now.plan.slots }
        ensures stays { (k : ℕ) → get_elem? seat.old.me.0.found k ≡ some (open_index self.now.plan operation) → result ≢ 0 }
    {
        let index = open_index(&self.plan, operation);
        self.table.shared.load::<FindId>(seat, index)
    }
}
