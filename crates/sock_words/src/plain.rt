ghost use Rattle.std.specs.Prelude.{◌≡◌, ◌≢◌, true, false};

/// The next word of a request that isn't connected to the one before it yet (socket.cpp,
/// `WriteRequest::UNCONNECTED`).
pub const UNCONNECTED: u64 = u64::MAX;

/// The label of a message: which attempt of which operation it belongs to.
#[derive(Clone, Copy)]
pub struct Label {
    /// The client, 0 for the setup.
    pub client: u16,
    /// The operation of the client, counted from 1.
    pub operation: u16,
    /// The attempt, counted from 0; 0 for a send.
    pub attempt: u8,
    /// The number of the label's place word: in a script eight times the operation's number in the
    /// whole script, counted from 0, plus the attempt.
    pub place: u32,
}

/// What an atomic step did to one word.
#[derive(Clone, Copy)]
pub struct Step {
    /// The word found.
    pub found: u64,
    /// The word after the step.
    pub next: u64,
    /// Of a compare_exchange, whether it exchanged; of a claim, whether it found its mark clear;
    /// true for every other step.
    pub won: bool,
}

impl Step {
    /// What a compare_exchange from `from` to `next` did, which found `found`.
    pub fn exchanged(found: u64, from: u64, next: u64) -> Step
        ensures found { result.found ≡ found }
        ensures won { found ≡ from → (result.next ≡ next) × (result.won ≡ true) }
        ensures lost { found ≢ from → (result.next ≡ found) × (result.won ≡ false) }
    {
        if found == from {
            Step {
                found,
                next,
                won: true,
            }
        } else {
            Step {
                found,
                next: found,
                won: false,
            }
        }
    }
}

/// How many of each thing the shared tables have.
#[derive(Clone, Copy)]
pub struct Plan {
    /// Socket slots, at most 256.
    pub slots: u16,
    /// Links, at most 256.
    pub links: u16,
    /// Requests of the write chains, at most 4,096.
    pub requests: u16,
    /// Names of sockets, at most 64.
    pub names: u16,
    /// Operations, those of the setup included, at most 4,096.
    pub operations: u16,
    /// Seats, 1 to 64: who may step on the tables.
    pub seats: u16,
    /// The version with which each slot begins, even and at most 4,294,967,292.
    pub first: u32,
}
