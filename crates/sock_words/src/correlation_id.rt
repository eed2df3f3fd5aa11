ghost use Rattle.std.specs.Prelude.{◌≡◌};
ghost use Rattle.sock_words.specs.PackedWords.{call_id, id_slot, id_first, IsCallId};

/// What a frame's meta names a call by (baidu_std.md, `correlation_id`): the slot of the call's id in
/// bits 32 to 63, and in bits 0 to 31 a version of its range, the first for the call itself and one
/// for each attempt (bthread_id.md; bRPC has a pointer to the slot there).
#[derive(Clone, Copy, Debug, PartialEq, Eq)]
pub struct CorrelationId(pub u64);

impl CorrelationId {
    /// The id of this version in this slot.
    pub fn pack(slot: u16, version: u32) -> Self
        ensures word { result.0 ≡ call_id slot version }
        ensures parts { IsCallId result.0 slot version }
    {
        CorrelationId((u64::from(slot) << 32) + u64::from(version))
    }

    /// The slot of the call's id. What came from outside may have any number below 2^32 here.
    pub fn slot(self) -> u32
        ensures { result ≡ id_slot self.0 }
    {
        (self.0 >> 32) as u32
    }

    /// The version: the first of the range for the call, another for an attempt.
    pub fn version(self) -> u32
        ensures { result ≡ id_first self.0 }
    {
        (self.0 & 0xffff_ffff) as u32
    }
}
