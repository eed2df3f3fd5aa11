ghost use Rattle.std.specs.Prelude.{◌≡◌};
ghost use Rattle.seat_programs.specs.Asides.{kind_aside};
ghost use Rattle.seat_programs.specs.sock_message.specs.Asked.{Asked};
ghost use Rattle.call_points.specs.AsideCodeSteps.{step_of};

use id_points::{CallId, IdError};
use sock_words::{AtWord, IdWord, Kind};

/// A step aside of the table of the sockets: on the table of the call ids, by id slots, or at the reading half of a link.
/// A call that goes into its home is the one in the seat's hand.
#[derive(Clone, Copy)]
pub enum Aside {
    /// The slot's tag is claimed.
    ClaimId(u16),
    /// The call goes into its home.
    PutCall(u16),
    /// The slot gets an open id of so many versions.
    MakeId(u16, u8),
    /// The word of the `call` of this operation gets its id,
    StoreCall(u16, CallId),
    /// and is loaded.
    LoadCall(u16),
    /// The at word of a call gets the link and the number of its attempt,
    StoreAt(u16, AtWord),
    /// and is loaded.
    LoadAt(u16),
    LoadIdWord(u16),
    /// Exchanges from this word: the id is locked,
    LockId(u16, IdWord),
    /// this error is posted,
    PostId(u16, IdWord, IdError),
    /// the lock is given back, with an advance to the next attempt or without.
    UnlockId(u16, IdWord, bool),
    /// The range ends.
    EndId(u16),
    /// The slot may be claimed again.
    FreeId(u16),
    /// The call is taken out of its home.
    TakeCall(u16),
    /// So many bytes at most are taken from the reading half of this link.
    TakeBytes(u16, u32),
}

impl Aside {
    /// Its kind, as a schedule names it.
    pub fn kind(self) -> Kind
        ensures { (asked : Asked) → result ≡ kind_aside (step_of asked self) }
    {
        match self {
            Aside::ClaimId(_) => Kind::I1,
            Aside::PutCall(_) => Kind::K1,
            Aside::MakeId(_, _) => Kind::I2,
            Aside::StoreCall(_, _) | Aside::StoreAt(_, _) => Kind::T1,
            Aside::LoadCall(_) | Aside::LoadAt(_) => Kind::T2,
            Aside::LoadIdWord(_) => Kind::I7,
            Aside::LockId(_, _) => Kind::I3,
            Aside::PostId(_, _, _) => Kind::I4,
            Aside::UnlockId(_, _, _) => Kind::I5,
            Aside::EndId(_) => Kind::I6,
            Aside::FreeId(_) => Kind::I8,
            Aside::TakeCall(_) => Kind::K2,
            Aside::TakeBytes(_, _) => Kind::R1,
        }
    }
}
