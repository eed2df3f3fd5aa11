ghost use Rattle.std.specs.Prelude.{◌≡◌};
ghost use Rattle.sock_words.specs.PackedWords.{id_word, id_word_first, id_word_state, id_word_range, id_word_attempt, id_word_oldest, id_word_second, FitsIdWord, IsIdWord, OnlyIdWord};

/// The word of a call id's slot. A call id owns a range of versions from its first one on, one
/// for the whole call and one for each attempt (bRPC's bthread_id.md). An error that comes while
/// the id is locked is queued, two at most: a code of 1 to 4,095 in the upper 12 bits and the
/// attempt in the lower 3, which are 7 for the whole call; 0 where no error is queued. That all of
/// this is one word, and that two errors are queued at most, is this project's own.
#[derive(Clone, Copy, Debug, PartialEq, Eq)]
pub struct IdWord(pub u64);

impl IdWord {
    /// The state of a slot that has no call id.
    pub const FREE: u8 = 0;

    /// The state of a call id that nobody has locked.
    pub const OPEN: u8 = 1;

    /// The state of a call id that is locked.
    pub const LOCKED: u8 = 2;

    /// The word of a slot. The first version is below 2^26, the range is 1 to 8 and is 1 where the
    /// slot is free, the current attempt is at most 7, and each queued error has 15 bits.
    pub fn pack(first: u32, state: u8, range: u8, attempt: u8, oldest: u16, second: u16) -> Self
        requires { FitsIdWord first state range attempt oldest second }
        ensures word { result.0 ≡ id_word first state range attempt oldest second }
        ensures parts { IsIdWord result.0 first state range attempt oldest second }
        ensures once { OnlyIdWord result.0 first state range attempt oldest second }
    {
        let id = (u64::from(first) << 38) + (u64::from(state) << 36) + (u64::from(range - 1) << 33);
        IdWord(id + (u64::from(attempt) << 30) + (u64::from(oldest) << 15) + u64::from(second))
    }

    /// The first version of the range; of a free slot the first version that it will have.
    pub fn first(self) -> u32
        ensures { result ≡ id_word_first self.0 }
    {
        (self.0 >> 38) as u32
    }

    /// The state: `FREE`, `OPEN` or `LOCKED`.
    pub fn state(self) -> u8
        ensures { result ≡ id_word_state self.0 }
    {
        ((self.0 >> 36) & 3) as u8
    }

    /// How many versions the call id owns, 1 to 8.
    pub fn range(self) -> u8
        ensures { result ≡ id_word_range self.0 }
    {
        ((self.0 >> 33) & 7) as u8 + 1
    }

    /// The current attempt, counted from 0.
    pub fn attempt(self) -> u8
        ensures { result ≡ id_word_attempt self.0 }
    {
        ((self.0 >> 30) & 7) as u8
    }

    /// The queued error that came first, 0 for none.
    pub fn oldest(self) -> u16
        ensures { result ≡ id_word_oldest self.0 }
    {
        ((self.0 >> 15) & 0x7fff) as u16
    }

    /// The queued error that came second, 0 for none.
    pub fn second(self) -> u16
        ensures { result ≡ id_word_second self.0 }
    {
        (self.0 & 0x7fff) as u16
    }
}
