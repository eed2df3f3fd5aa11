// The write chain: what the views have of it. The definitions are in specs/, and the steps that keep them in proofs/.

use sock_words::Label;

/// What stands with a message: its label, its owner, which is the call's id, or 0 for a send, and the lengths of the parts
/// by which it is put: none for a send.
pub struct Heading {
    pub label: Label,
    pub owner: u64,
    pub parts: [u32; 0],
}

/// A message that a link accepted. Its request and generation are its ticket, and `before` is the ticket of the entry before it, or 0.
pub struct Entry {
    pub link: u64,
    pub request: u64,
    pub generation: u64,
    pub before: u64,
    pub heading: Heading,
    pub bytes: [u8; 0],
}

/// What the holder of a right does next. Its numbers are tickets.
pub enum Stage {
    /// The message of `now` is the next to be taken.
    Writes(u64),
    /// The message of `now` has its place, and its request isn't free yet.
    Placed(u64),
    /// The same, and the next word of `now` was read.
    Passes(u64, u64),
    /// All that was noted is written, and the head is tried next.
    Empties,
    /// The walk from `top` has come to `at`, whose successor is `after`, or 0: top, at, after.
    Reversing(u64, u64, u64),
    /// The same, and the next word of `at` was read: top, at, after, before.
    ReversesNext(u64, u64, u64, u64),
}

/// The right to write a link, up to the ticket `last`. It is clean where its holder's look found the socket live and it dropped nothing since.
/// `sent` is what the link had taken when a message last got its place, `places` is how many of the link's messages have places, `at_home` says that the link is at home, and `taken` that the next message is in hand, whose label and bytes are kept then; of these the link took the first `put`. `turned` is how many entries the walk has turned, and `noted` how many stand up to `last`.
pub struct Right {
    pub link: u64,
    pub last: u64,
    pub stage: Stage,
    pub clean: bool,
    pub at_home: bool,
    pub taken: bool,
    pub places: u64,
    pub sent: [u8; 0],
    pub heading: Heading,
    pub bytes: [u8; 0],
    pub put: u64,
    pub turned: u64,
    pub noted: u64,
}

/// A claimed request for a message of `link`. Its home has the message where it is filled, and its next word is marked as not connected where it is ready.
pub struct Claim {
    pub link: u64,
    pub request: u64,
    pub generation: u64,
    pub filled: bool,
    pub ready: bool,
    pub heading: Heading,
    pub bytes: [u8; 0],
}

/// An entry whose next word isn't connected yet.
pub struct Loose {
    pub request: u64,
    pub before: u64,
}
