ghost use Rattle.std.specs.Prelude.{◌≡◌, ◌≤◌};

use ghosts::Ghosts;
use message_parts::OutgoingParcel;
use sock_io::{Out, Put, Ready};
use sock_rule::LinkHome;
use sock_table::{SockRef, SockTable};
use sock_words::{Label, Ticket};

/// What whoever has a message in hand did: a look, which found the life live or not, a put, or the question whether the link
/// takes more.
#[derive(Clone, Copy, Debug)]
pub enum LinkCall {
    Looked(bool),
    Put(Put),
    Asked(Ready),
}

/// The link that is written, in hand of whoever has the right.
#[derive(Drop)]
pub struct LinkInHand<O: Out> {
    pub link: u16,
    pub home: LinkHome<O>,
}

/// The link and the message that are written, in hand of whoever has the right. For the proofs it has the half as it was when
/// the message came into hand, and what was done since, of which the last stands first.
#[derive(Drop)]
pub struct InHand<O: Out> {
    pub link: u16,
    pub home: LinkHome<O>,
    pub now: Ticket,
    pub bytes: OutgoingParcel,
    pub label: Label,
    pub owner: u64,
    pub came: Ghosts<O>,
    pub calls: Ghosts<LinkCall>,
    pub ghost numbered: { label.attempt ≤ 6 },
}

/// A message that was dropped: what its link didn't take of it, its label, whose attempt is 6 at most, and its owner, which is
/// the call's id, or 0 for a send.
#[derive(Drop)]
pub struct Undelivered {
    pub left: OutgoingParcel,
    pub label: Label,
    pub owner: u64,
    pub ghost numbered: { label.attempt ≤ 6 },
}

/// The walk from the newest ticket `top` to the one that was written last: it has come to `at`, whose successor is `after`,
/// or 0.
#[derive(Drop)]
pub struct Walk<O: Out> {
    pub link: LinkInHand<O>,
    pub top: Ticket,
    pub at: Ticket,
    pub after: u64,
}

/// How far whoever has the right has come.
#[derive(Drop)]
pub enum Doing<O: Out> {
    /// Nothing was done with it.
    First,
    /// A message has bytes left, and is put next, or dropped.
    Puts(InHand<O>),
    /// The link took nothing of it for want of a place: it is asked next.
    Waits(InHand<O>),
    /// The message of this ticket comes next.
    Next(LinkInHand<O>, Ticket),
    /// All that was noted has its place: the head is tried next.
    Last(LinkInHand<O>),
    /// The head of this link had a newer ticket, from which the walk begins.
    Reversing(u16, Ticket),
    /// The walk is on its way.
    Back(Walk<O>),
}

/// What whoever has the right goes by: the table, the socket that is written, whose reference it holds, and the last ticket.
pub struct HeldChain<'a, O: Out> {
    pub table: &'a SockTable<O>,
    pub sock: SockRef,
    pub last: Ticket,
}

/// The right to write the link of a socket, up to the message of the last ticket. It holds the reference.
pub struct WriteRight<O: Out> {
    pub sock: SockRef,
    pub last: Ticket,
    pub doing: Doing<O>,
}

impl<O: Out> HeldChain<'_, O> {
    /// The right to go on by this.
    #[inline(always)]
    pub fn with(self, doing: Doing<O>) -> WriteRight<O>
        ensures { result ≡ record { sock = self.entry.sock; last = self.entry.last; doing = doing } }
    {
        let HeldChain {
            table: _,
            sock,
            last,
        } = self;
        WriteRight { sock, last, doing }
    }
}
