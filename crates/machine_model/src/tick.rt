ghost use Rattle.std.specs.Prelude.{◌≡◌, true, false};
ghost use Rattle.machine_model.specs.Driving.{IsLast, IsOther};

use sock_words::Kind;

/// For what a seat waits.
#[derive(Clone, Copy)]
pub enum On {
    /// The next word of this ticket's request, which isn't connected yet.
    Next(u64),
    /// This call id, which another seat has locked, or whose end is waited for.
    Id(u64),
    /// The writing half of this link.
    Out(u16),
    /// The reading half of this link.
    In(u16),
    /// The socket of this `open`.
    Open(u16),
}

/// What a tick of a seat did.
#[derive(Clone, Copy)]
pub enum Tick {
    /// The seat made a step of this kind.
    Moved(Kind),
    /// The seat waits, and nothing was changed.
    Waits(On),
    /// The seat has no step left, and nothing was changed.
    Idle,
}

impl Tick {
    /// Whether the seat made a step.
    pub fn is_moved(self) -> bool
        ensures moved { result ≡ true → (kind : _) × (self ≡ Tick.Moved kind) }
        ensures still { result ≡ false → (kind : _) → self ≡ Tick.Moved kind → ⊥ }
    {
        match self {
            Tick::Moved(_) => true,
            Tick::Waits(_) | Tick::Idle => false,
        }
    }

    /// Whether the seat made a step of this kind, or none.
    pub fn is_last(self, kind: Kind) -> bool
        ensures last { result ≡ true → IsLast self kind }
        ensures other { result ≡ false → IsOther self kind }
    {
        match self {
            Tick::Moved(found) => found == kind,
            Tick::Waits(_) | Tick::Idle => true,
        }
    }
}
