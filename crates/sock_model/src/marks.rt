/// What a seat holds or has noted of one slot. A version `h` is that of a life, a version `w` any that was found.
#[derive(Clone, Copy)]
pub enum Mark {
    // Tokens, which go again.
    /// It claimed the slot's tag, and made no life yet. The stage is 0, 1 with the link stored, 2 with the head reset
    /// too, 3 with the code reset too. The link counts from stage 1.
    Claimed(u8, u16),
    /// It recycled the slot to the version `w`, and has not freed it.
    Recycling(u32),
    /// It has a reference to the life `h`.
    Hold(u32),
    /// It added 1 to the word, and has to take it back.
    Probe,
    /// It took nref to 0 at `w`, and has its one exchange left.
    Zero(u32),
    /// Its own step failed the life `h`, and it has not stored the code.
    Coding(u32),
    /// So many bytes of its own wait: it added them to the slot's waiting word before its exchange.
    Waiting(u64),
    /// So many bytes have their place and still stand in the waiting word.
    Owed(u64),
    // Notes, which stay.
    /// It added so many bytes to the waiting word for the life `h`.
    Handed(u32, u64),
    /// It found the tag taken.
    Tried,
    /// It may address the life `h`.
    Known(u32),
    /// It made the life `h`.
    Born(u32),
    /// It found the version `w`.
    Saw(u32),
    /// Its own step failed the life `h`.
    Failer(u32),
    /// It stored this code for the life `h`, which it had failed.
    Stored(u32, u16),
    /// It found or stored this code of the life `h`.
    Told(u32, u16),
    /// Its own step ended the life `h`.
    Freer(u32),
    /// It made the life `h` with this link.
    Linked(u32, u16),
    /// It found that this is the link of the life `h`.
    Met(u32, u16),
}

/// A mark, and the slot of which it speaks.
#[derive(Clone, Copy)]
pub struct SlotMark {
    pub slot: u16,
    pub mark: Mark,
}
