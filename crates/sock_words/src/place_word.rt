ghost use Rattle.std.specs.Prelude.{◌≡◌, ◌<◌, ◌-◌, ◌^◌, ◌↔◌, IsTrue};
ghost use Rattle.sock_words.specs.PackedWords.{place_word, no_place, place_word_dropped, place_word_link, place_word_position, IsPlaceWord, OnlyPlaceWord};

/// Where a message stands in the order of a link, and whether it was dropped. Positions are counted
/// from 0 per link, over placed and dropped messages alike.
#[derive(Clone, Copy, PartialEq, Eq)]
pub struct PlaceWord(pub u64);

impl PlaceWord {
    /// The message was never accepted.
    pub const NONE: PlaceWord = PlaceWord(0);

    /// The word of a message at this position of this link; the position is below 2^32 - 1.
    pub fn pack(dropped: bool, link: u16, position: u32) -> Self
        requires { position < 2 ^ 32 - 1 }
        ensures word { result.0 ≡ place_word dropped link position }
        ensures parts { IsPlaceWord result.0 dropped link position }
        ensures once { OnlyPlaceWord result.0 dropped link position }
    {
        PlaceWord((u64::from(dropped) << 63) + (u64::from(link) << 32) + u64::from(position) + 1)
    }

    /// Whether the message was never accepted.
    pub fn is_none(self) -> bool
        ensures { IsTrue result ↔ (self.0 ≡ no_place) }
    {
        self == PlaceWord::NONE
    }

    /// Whether the message was dropped.
    pub fn dropped(self) -> bool
        ensures { result ≡ place_word_dropped self.0 }
    {
        self.0 >> 63 == 1
    }

    /// The link that accepted the message.
    pub fn link(self) -> u16
        ensures { result ≡ place_word_link self.0 }
    {
        ((self.0 >> 32) & 0xffff) as u16
    }

    /// The position in the link's order, counted from 0; 0 for `NONE`, which has none.
    pub fn position(self) -> u32
        ensures { result ≡ place_word_position self.0 }
    {
        ((self.0 & 0xffff_ffff) as u32).saturating_sub(1)
    }
}
