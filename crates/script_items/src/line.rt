use crate::names::Names;
use sock_words::{Kind, OwnedBytes, Shape};

/// The name of a socket: in a script that was read, 1 to 16 letters, digits or `_`.
pub type Name = OwnedBytes;

/// Whose steps a line of the schedule asks for: a client by its number, from 1, or the reader of a
/// link by the link's number, from 0.
#[derive(Clone, Copy, Debug, PartialEq, Eq)]
pub enum Seat {
    Client(u16),
    Reader(u16),
}

/// `open NAME` with its options: a socket on a new link.
#[derive(Debug, Drop)]
pub struct OpenLine {
    pub name: Name,
    pub shape: Shape,
}

/// `send NAME HEX`: one message of 1 to 65,536 bytes.
#[derive(Debug, Drop)]
pub struct SendLine {
    pub name: Name,
    pub bytes: OwnedBytes,
}

/// `call NAME[,NAME] SERVICE.METHOD HEX [att=HEX] [retry=N]`: a call.
#[derive(Debug, Drop)]
pub struct CallLine {
    pub names: Names,
    pub service: OwnedBytes,
    pub method: OwnedBytes,
    /// The payload, of at most 65,280 bytes together with the attachment.
    pub payload: OwnedBytes,
    pub attachment: OwnedBytes,
    /// How often the call is tried again, 0 to 6.
    pub retry: u8,
}

/// `C.I`: the operation of this number, from 1, of the client of this number.
#[derive(Clone, Copy, Debug, PartialEq, Eq)]
pub struct Target {
    pub client: u64,
    pub number: u64,
}

/// What one line of a script says.
#[derive(Debug, Drop)]
pub enum Line {
    /// How many slots the sockets have, 1 to 31.
    Slots(u32),
    /// How many requests the table has room for, 1 to 4,096.
    Requests(u32),
    /// The first version of each slot, even, 0 to 4,294,967,292.
    First(u32),
    /// A socket on a new link.
    Open(OpenLine),
    /// The next client begins.
    Client,
    /// One message.
    Send(SendLine),
    /// A call.
    Call(CallLine),
    /// The time of a call runs out.
    Expire(Target),
    /// A call is waited for.
    Join(Target),
    /// A socket is set failed with a code from 1500 to 1999.
    Fail { name: Name, code: u16 },
    /// A reference to a socket is taken.
    Hold(Name),
    /// The reference is given back.
    Drop(Name),
    /// The schedule begins.
    Sched,
    /// So many ticks of a seat, 1 to 65,536.
    Tick { seat: Seat, ticks: u32 },
    /// Ticks of a seat until one moved this kind of step.
    To { seat: Seat, kind: Kind },
}
