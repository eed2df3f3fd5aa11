// The words of names and of operations, by which one seat tells another of a socket.
ghost use Rattle.std.specs.Prelude.{◌≡◌, ◌+◌, ◌<◌};
ghost use Rattle.std.specs.Option.{ForSome};
ghost use Rattle.sock_model.specs.SocketTableLayout.{name_index};
ghost use Rattle.sock_rule.specs.NotesBesideRows.{PutAt};
ghost use Rattle.sock_rule.specs.SocketSeatSplits.{IsSeat};
ghost use Rattle.sock_table.specs.ReferenceCalls.{IsBetween, SameTokens, Knows};
ghost use Rattle.sock_table.specs.NamesStoredAndFound.{Found, NotedBy, NotedAs};

use crate::table::SockTable;
use sock_io::Out;
use sock_rule::SockSeat;
use sock_words::{NO_SOCKET, SocketId};

/// What is noted for an operation.
#[derive(Clone, Copy, Debug, PartialEq, Eq)]
pub enum Noted {
    NotYet,
    /// It got no socket.
    Nothing,
    Id(SocketId),
}

impl<O: Out> SockTable<O> {
    /// From now on the name is that of this id, until another is published for it.
    pub fn publish(&self, seat: &mut SockSeat<O>, name: u16, id: SocketId)
        requires seat { IsSeat self.now.rule.table.shared.table_id self.now.rule.plan seat.old }
        requires name { name < self.now.rule.plan.names }
        requires known { Knows self.now.rule.plan seat.old.me.0 id.0 }
        ensures seat { IsSeat self.now.rule.table.shared.table_id self.now.rule.plan seat.new }
        ensures published { PutAt (name_index self.now.rule.plan name) (id.0 + 1) seat.old.me seat.new.me }
        ensures between { IsBetween self.now.rule.plan seat.old.me.0 → IsBetween self.now.rule.plan seat.new.me.0 }
        ensures same { SameTokens self.now.rule.plan seat.old.me.0 seat.new.me.0 }
    {
        self.rule.store_name(seat, name, id);
    }

    /// The id that the name has at this call's one step: the last that was published for it, of all that was by then. All that
    /// this seat met before stands behind it, so no earlier one is answered. `None` only where none was published.
    pub fn find(&self, seat: &mut SockSeat<O>, name: u16) -> Option<SocketId>
        requires seat { IsSeat self.now.rule.table.shared.table_id self.now.rule.plan seat.old }
        requires name { name < self.now.rule.plan.names }
        ensures seat { IsSeat self.now.rule.table.shared.table_id self.now.rule.plan seat.new }
        ensures found { Found self.now.rule.plan name result seat.old.me.0 seat.new.me.0 }
        ensures between { IsBetween self.now.rule.plan seat.old.me.0 → IsBetween self.now.rule.plan seat.new.me.0 }
        ensures same { SameTokens self.now.rule.plan seat.old.me.0 seat.new.me.0 }
        ensures slots { seat.new.me.1 ≡ seat.old.me.1 }
    {
        // No word of an id is that of no socket.
        let slots = u64::from(self.rule.plan.slots);
        let word = self.rule.load_name(seat, name);
        if word == 0 {
            None
        } else {
            prove!((word - 1) % 4_294_967_296 < slots);
            prove!(word != NO_SOCKET);
            Some(SocketId(word - 1))
        }
    }

    /// The operation's socket is this one, or it got none.
    pub fn note(&self, seat: &mut SockSeat<O>, operation: u16, id: Option<SocketId>)
        requires seat { IsSeat self.now.rule.table.shared.table_id self.now.rule.plan seat.old }
        requires operation { operation < self.now.rule.plan.operations }
        requires known { ForSome id (λ i. Knows self.now.rule.plan seat.old.me.0 i.0) }
        ensures seat { IsSeat self.now.rule.table.shared.table_id self.now.rule.plan seat.new }
        ensures noted { NotedBy self.now.rule.plan operation id seat.old.me seat.new.me }
        ensures between { IsBetween self.now.rule.plan seat.old.me.0 → IsBetween self.now.rule.plan seat.new.me.0 }
        ensures same { SameTokens self.now.rule.plan seat.old.me.0 seat.new.me.0 }
    {
        match id {
            Some(id) => self.rule.store_open(seat, operation, id),
            None => self.rule.store_nothing(seat, operation),
        }
    }

    /// What is noted for the operation at this call's one step.
    pub fn noted(&self, seat: &mut SockSeat<O>, operation: u16) -> Noted
        requires seat { IsSeat self.now.rule.table.shared.table_id self.now.rule.plan seat.old }
        requires operation { operation < self.now.rule.plan.operations }
        ensures seat { IsSeat self.now.rule.table.shared.table_id self.now.rule.plan seat.new }
        ensures noted { NotedAs self.now.rule.plan operation result seat.old.me.0 seat.new.me.0 }
        ensures between { IsBetween self.now.rule.plan seat.old.me.0 → IsBetween self.now.rule.plan seat.new.me.0 }
        ensures same { SameTokens self.now.rule.plan seat.old.me.0 seat.new.me.0 }
        ensures slots { seat.new.me.1 ≡ seat.old.me.1 }
    {
        let word = self.rule.load_open(seat, operation);
        if word == 0 {
            Noted::NotYet
        } else if word == NO_SOCKET {
            Noted::Nothing
        } else {
            Noted::Id(SocketId(word - 1))
        }
    }
}
