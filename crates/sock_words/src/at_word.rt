ghost use Rattle.std.specs.Prelude.{◌≡◌, ◌↔◌, IsTrue};
ghost use Rattle.sock_words.specs.PackedWords.{at_word, no_at, at_word_first, at_word_slot, at_word_link, at_word_attempt, FitsAtWord, IsAtWord, OnlyAtWord};

/// Where the last attempt of a call went: the call id by its slot and first version, the link, and
/// the number of the attempt. A link's reader finds the calls that still wait for it by this.
#[derive(Clone, Copy, PartialEq, Eq)]
pub struct AtWord(pub u64);

impl AtWord {
    /// No attempt of the call went to a link yet.
    pub const NONE: AtWord = AtWord(0);

    /// The word of an attempt. The first version is below 2^26, the link is 0 to 65,534, and the
    /// attempt is at most 7.
    pub fn pack(first: u32, slot: u16, link: u16, attempt: u8) -> Self
        requires { FitsAtWord first link attempt }
        ensures word { result.0 ≡ at_word first slot link attempt }
        ensures parts { IsAtWord result.0 first slot link attempt }
        ensures once { OnlyAtWord result.0 first slot link attempt }
    {
        let id = (u64::from(first) << 38) + (u64::from(slot) << 22);
        AtWord(id + ((u64::from(link) + 1) << 6) + u64::from(attempt))
    }

    /// Whether no attempt went to a link yet.
    pub fn is_none(self) -> bool
        ensures { IsTrue result ↔ (self.0 ≡ no_at) }
    {
        self == AtWord::NONE
    }

    /// The first version of the call id.
    pub fn first(self) -> u32
        ensures { result ≡ at_word_first self.0 }
    {
        (self.0 >> 38) as u32
    }

    /// The slot of the call id.
    pub fn slot(self) -> u16
        ensures { result ≡ at_word_slot self.0 }
    {
        ((self.0 >> 22) & 0xffff) as u16
    }

    /// The link that the attempt went to, 0 to 65,534; 0 for `NONE`, which has none.
    pub fn link(self) -> u16
        ensures { result ≡ at_word_link self.0 }
    {
        (((self.0 >> 6) & 0xffff) as u16).saturating_sub(1)
    }

    /// The number of the attempt, counted from 0.
    pub fn attempt(self) -> u8
        ensures { result ≡ at_word_attempt self.0 }
    {
        (self.0 & 7) as u8
    }
}
