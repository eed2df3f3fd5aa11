ghost use Rattle.std.specs.Prelude.{◌≡◌, ◌≢◌, ◌↔◌, IfNone, Some, is_some, find, bytes_eq};
ghost use Rattle.sock_words.specs.KindText.{kind_text, kinds, is_kind_name};

use std::fmt;

/// A kind of atomic step, by the name that a script's `to` line gives it. The letters part the
/// steps by what they touch: A the reference word, S a socket slot's other words, C the chain of
/// requests, P a place word, M a message, L a link, W and R the calls on a link's halves, I the
/// word of a call id, T where a call's attempt went, K a call.
#[derive(Clone, Copy, Debug, PartialEq, Eq)]
pub enum Kind {
    /// Claims a socket slot: swap of its tag with 1.
    A1,
    /// Makes a socket: fetch_add 1 on the reference word.
    A2,
    /// Takes a reference: fetch_add 1 on the reference word.
    A3,
    /// Gives a reference back: fetch_sub 1 on the reference word.
    A4,
    /// Sets a socket failed: fetch_or of bit 32 of the reference word.
    A5,
    /// Recycles a socket: compare_exchange from (odd version, 0) to (version + 1, 0).
    A6,
    /// Frees a socket slot: store of 0 into its tag.
    A7,
    /// Looks at a reference word: load.
    A8,
    /// Stores the link of a socket slot.
    S1,
    /// Loads the link of a socket slot.
    S2,
    /// Stores the empty head into a socket slot.
    S3,
    /// Stores the error code of a socket slot.
    S4,
    /// Loads the error code of a socket slot.
    S5,
    /// Stores a socket id under a name or an `open`.
    S6,
    /// Loads the socket id under a name or an `open`.
    S7,
    /// Claims a request: fetch_or of its bit 0.
    C1,
    /// Puts the own ticket into the head: swap.
    C2,
    /// Connects the own request to the one found: store into its next word.
    C3,
    /// Empties the head: compare_exchange from the last ticket.
    C4,
    /// Reads a next word: load.
    C5,
    /// Turns a next word round: store of the successor, or 0.
    C6,
    /// Marks the own request unconnected: store into its next word.
    C7,
    /// Frees a request: store of the next generation.
    C8,
    /// Stores a place word.
    P1,
    /// Puts a message into its home.
    M1,
    /// Takes a message out of its home.
    M2,
    /// Takes a link out of its home.
    L1,
    /// Puts a link into its home.
    L2,
    /// Calls `put` on the link in hand.
    W1,
    /// Calls `ready` on the link in hand.
    W2,
    /// Calls `finish` on the link in hand.
    W3,
    /// Calls `take` on a reading half.
    R1,
    /// Claims a call id's slot: swap of its tag with 1.
    I1,
    /// Makes a call id: store of its word as open.
    I2,
    /// Locks a call id: compare_exchange from open to locked.
    I3,
    /// Posts an error: compare_exchange to locked, or to one more queued error.
    I4,
    /// Unlocks a call id: compare_exchange to open, or to one queued error less.
    I5,
    /// Destroys a call id: swap with the next first version, free.
    I6,
    /// Loads the word of a call id.
    I7,
    /// Frees a call id's slot: store of 0 into its tag.
    I8,
    /// Stores where a call's attempt went, or the word of a `call`.
    T1,
    /// Loads where a call's attempt went, or the word of a `call`.
    T2,
    /// Puts a call into its home.
    K1,
    /// Takes a call out of its home.
    K2,
}

impl Kind {
    /// Every kind, in the order in which they are listed.
    pub const ALL: [Kind; 44] = [
        Kind::A1,
        Kind::A2,
        Kind::A3,
        Kind::A4,
        Kind::A5,
        Kind::A6,
        Kind::A7,
        Kind::A8,
        Kind::S1,
        Kind::S2,
        Kind::S3,
        Kind::S4,
        Kind::S5,
        Kind::S6,
        Kind::S7,
        Kind::C1,
        Kind::C2,
        Kind::C3,
        Kind::C4,
        Kind::C5,
        Kind::C6,
        Kind::C7,
        Kind::C8,
        Kind::P1,
        Kind::M1,
        Kind::M2,
        Kind::L1,
        Kind::L2,
        Kind::W1,
        Kind::W2,
        Kind::W3,
        Kind::R1,
        Kind::I1,
        Kind::I2,
        Kind::I3,
        Kind::I4,
        Kind::I5,
        Kind::I6,
        Kind::I7,
        Kind::I8,
        Kind::T1,
        Kind::T2,
        Kind::K1,
        Kind::K2,
    ];

    /// The name of this kind, a letter and a digit.
    pub fn name(self) -> &'static str
        ensures { result.now ≡ kind_text self }
    {
        match self {
            Kind::A1 => "A1",
            Kind::A2 => "A2",
            Kind::A3 => "A3",
            Kind::A4 => "A4",
            Kind::A5 => "A5",
            Kind::A6 => "A6",
            Kind::A7 => "A7",
            Kind::A8 => "A8",
            Kind::S1 => "S1",
            Kind::S2 => "S2",
            Kind::S3 => "S3",
            Kind::S4 => "S4",
            Kind::S5 => "S5",
            Kind::S6 => "S6",
            Kind::S7 => "S7",
            Kind::C1 => "C1",
            Kind::C2 => "C2",
            Kind::C3 => "C3",
            Kind::C4 => "C4",
            Kind::C5 => "C5",
            Kind::C6 => "C6",
            Kind::C7 => "C7",
            Kind::C8 => "C8",
            Kind::P1 => "P1",
            Kind::M1 => "M1",
            Kind::M2 => "M2",
            Kind::L1 => "L1",
            Kind::L2 => "L2",
            Kind::W1 => "W1",
            Kind::W2 => "W2",
            Kind::W3 => "W3",
            Kind::R1 => "R1",
            Kind::I1 => "I1",
            Kind::I2 => "I2",
            Kind::I3 => "I3",
            Kind::I4 => "I4",
            Kind::I5 => "I5",
            Kind::I6 => "I6",
            Kind::I7 => "I7",
            Kind::I8 => "I8",
            Kind::T1 => "T1",
            Kind::T2 => "T2",
            Kind::K1 => "K1",
            Kind::K2 => "K2",
        }
    }

    /// The bytes of the name.
    pub fn text(self) -> &'static [u8]
        ensures { result.now ≡ kind_text self }
    {
        self.name().as_bytes()
    }

    /// The kind that has this name; none where no kind has it.
    pub fn from_text(text: &[u8]) -> Option<Kind>
        ensures found { (k : Kind) → (result ≡ Some k) ↔ (kind_text k ≡ text.now) }
        ensures none { IfNone result ((k : Kind) → kind_text k ≢ text.now) }
        ensures known { is_some result ≡ is_kind_name text.now }
    {
        Self::first_named(text)
    }

    fn first_named(text: &[u8]) -> Option<Kind>
        ensures { result ≡ find (λ k. bytes_eq text.now (kind_text k)) kinds }
    {
        Kind::ALL.iter().copied().find(|kind| text == kind.text())
    }
}

/// The name of the kind.
impl fmt::Display for Kind {
    ghost output = { λ k. Some (kind_text k) };

    fn fmt<W: fmt::Write>(&self, f: &mut fmt::Formatter<W>) -> fmt::Result {
        f.write_str(self.name())
    }
}
