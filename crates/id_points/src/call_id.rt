ghost use Rattle.std.specs.Prelude.{◌≡◌, ◌<◌, ◌≤◌, ◌/◌, ◌%◌};
ghost use Rattle.id_points.specs.IdsAndAttemptNumbers.{id_of, number_of};
ghost use Rattle.sock_words.specs.PackedWords.{call_id, id_slot, id_first};

use sock_words::CorrelationId;

/// The versions of call ids end below this, 2^26.
const VERSIONS: u32 = 67_108_864;

/// The id of a call: its slot in bits 32 to 63, the first version of its range in bits 0 to 31 (bthread_id.md; bRPC has a
/// pointer to the slot there). The slot is below 65,536, the version below 2^26; it is never 0, since versions begin at 1.
#[derive(Clone, Copy, Debug, PartialEq, Eq)]
pub struct CallId {
    slot: u16,
    first: u32,
}

impl CallId {
    /// The id of the range that begins at this version in this slot.
    pub fn pack(slot: u16, first: u32) -> Self
        requires { first < 67108864 }
        ensures { id_of result ≡ call_id slot first }
    {
        CallId { slot, first }
    }

    /// The id that this number is.
    pub fn from_number(number: u64) -> Self
        requires slot { id_slot number < 65536 }
        requires first { id_first number < 67108864 }
        ensures { id_of result ≡ number }
    {
        let id = CorrelationId(number);
        CallId {
            slot: id.slot() as u16,
            first: id.version(),
        }
    }

    /// The id as a number.
    pub fn number(self) -> u64
        ensures { result ≡ id_of self }
    {
        CorrelationId::pack(self.slot, self.first % VERSIONS).0
    }

    /// The slot of the id.
    pub fn slot(self) -> u16
        ensures { result ≡ id_slot (id_of self) }
    {
        self.slot
    }

    /// The first version of its range.
    pub fn first(self) -> u32
        ensures first { result ≡ id_first (id_of self) }
        ensures low { result < 67108864 }
    {
        self.first % VERSIONS
    }
}

/// The number of an attempt, counted from 0; at most 7.
#[derive(Clone, Copy, Debug, PartialEq, Eq)]
pub struct AttemptNumber(u8);

impl AttemptNumber {
    /// The attempt of this number.
    pub fn new(number: u8) -> Self
        requires { number ≤ 7 }
        ensures { number_of result ≡ number }
    {
        AttemptNumber(number)
    }

    /// Its number.
    pub fn get(self) -> u8
        ensures number { result ≡ number_of self }
        ensures few { result ≤ 7 }
    {
        self.0 % 8
    }
}
