use sock_message::{Call, Message};

/// An operation of a client, with numbers in place of the names and links of its script.
#[derive(Drop)]
pub enum Op {
    /// `open`: the name's number, the link's number.
    Open(u16, u16),
    /// `send`: the name's number, the message.
    Send(u16, Message),
    /// `call`: what is asked.
    Call(Call),
    /// `expire`, and `join`: the number of the call's operation.
    Expire(u16),
    Join(u16),
    /// `hold`: the name's number.
    Hold(u16),
    /// `drop`: the name's number.
    Drop(u16),
    /// `fail`: the name's number, the code.
    Fail(u16, u16),
}

/// An operation and its number in the whole script, counted from 0.
#[derive(Drop)]
pub struct Task {
    pub number: u16,
    pub op: Op,
}

/// How many slots, requests and id slots a table has. An `open`, a `send` and a `call` go over them.
#[derive(Clone, Copy, Debug, PartialEq, Eq)]
pub struct Sizes {
    pub slots: u16,
    pub requests: u16,
    pub ids: u16,
}
