ghost use Rattle.std.specs.Prelude.{◌≡◌};
ghost use Rattle.sock_words.specs.PackedWords.{ticket, ticket_idle, ticket_generation, ticket_request, FitsTicket, IsTicket, OnlyTicket};

/// A ticket: the mark of a writer's request in the head of a write chain (bRPC's io.md). It has the
/// slot of the request and the generation in which the request was claimed, so that no ticket comes
/// twice. A head that is idle keeps the last ticket beside the mark that it is idle. bRPC has the
/// request's address here; the generation and the ticket that stays are this project's own.
#[derive(Clone, Copy, PartialEq, Eq)]
pub struct Ticket(pub u64);

impl Ticket {
    /// The head of a chain that no ticket was ever put into.
    pub const IDLE: Ticket = Ticket(1 << 63);

    /// The ticket of a request slot, 0 to 65,534, in a generation below 2^47.
    pub fn pack(idle: bool, generation: u64, request: u16) -> Self
        requires { FitsTicket generation request }
        ensures word { result.0 ≡ ticket idle generation request }
        ensures parts { IsTicket result.0 idle generation request }
        ensures once { OnlyTicket result.0 idle generation request }
    {
        Ticket((u64::from(idle) << 63) + (generation << 16) + u64::from(request) + 1)
    }

    /// Whether the head is idle.
    pub fn idle(self) -> bool
        ensures { result ≡ ticket_idle self.0 }
    {
        self.0 >> 63 == 1
    }

    /// How often the request was freed before.
    pub fn generation(self) -> u64
        ensures { result ≡ ticket_generation self.0 }
    {
        (self.0 >> 16) & 0x7fff_ffff_ffff
    }

    /// The slot of the request; 0 for an idle head without any ticket, which has none.
    pub fn request(self) -> u16
        ensures { result ≡ ticket_request self.0 }
    {
        ((self.0 & 0xffff) as u16).saturating_sub(1)
    }
}
