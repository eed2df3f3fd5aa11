use script_items::{Name, Seat};
use sock_words::Kind;

/// What the schedule and the report of a run want of a line.
#[derive(Drop)]
pub enum Mark {
    /// A link is opened, by this name.
    Open(Box<Name>),
    /// The next client begins.
    Client,
    /// A message of so many bytes.
    Send(usize),
    Call,
    /// Another operation.
    Other,
    /// A line that is neither an operation nor one of the schedule.
    Apart,
    Tick { seat: Seat, ticks: u32 },
    To { seat: Seat, kind: Kind },
}
