use crate::chain::{Claim, Entry, Heading, Loose, Right};
use crate::marks::SlotMark;
use sock_words::Plan;

/// A word that was stored at this place of the table.
#[derive(Clone, Copy)]
pub struct StoredWord {
    pub place: usize,
    pub word: u64,
}

/// A link in hand, with what it took and how many of its messages have places.
pub struct Hand {
    pub link: u16,
    pub took: [u8; 0],
    pub next: u64,
}

/// What a seat knows. No value of it is made, and a clause reads an array as a list of any length. The first list of `stores` and of `lists` is its own, and the others are those of the seats that it took in.
pub struct View {
    /// The sizes of the table.
    pub plan: Plan,
    /// What it has and noted of the slots, in no order.
    pub marks: [SlotMark; 0],
    /// The passes that are not spent.
    pub passes: [u16; 0],
    /// How many seats may still be split off.
    pub spare: u16,
    /// For how many of the table's seats it stands: itself, those that it took in, and those that it has yet to split off.
    pub share: u16,
    /// The words that were stored for names and operations, the latest first.
    pub stores: [[StoredWord; 0]; 0],
    /// The requests that it claimed and has not exchanged.
    pub claims: [Claim; 0],
    /// Its entries whose next words are not connected.
    pub loose: [Loose; 0],
    /// Its rights to write links.
    pub rights: [Right; 0],
    /// The links in hand that belong to no right: a pass was spent for it, or its slot was recycled.
    pub hands: [Hand; 0],
    /// The places of words that it left or found other than 0 and that never become 0 again: of names, of operations, and
    /// of requests that it found taken.
    pub found: [usize; 0],
    /// What it found other than 0 at names and operations, the latest first.
    pub finds: [StoredWord; 0],
    /// What all seats had stored at names and operations, the latest first: as it was when this seat stored or found a word
    /// other than 0 there.
    pub histories: [[StoredWord; 0]; 0],
    /// The accepted entries, the earliest first.
    pub lists: [[Entry; 0]; 0],
    /// What stood with the messages that it dropped, the latest first.
    pub drops: [Heading; 0],
}
