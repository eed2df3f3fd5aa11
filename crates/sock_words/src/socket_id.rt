ghost use Rattle.std.specs.Prelude.{◌≡◌};
ghost use Rattle.sock_words.specs.PackedWords.{socket_id, socket_id_version, socket_id_slot, IsSocketId, OnlySocketId};

/// The word of an `open` that got no socket. One that got one stores the socket's id, plus 1.
pub const NO_SOCKET: u64 = u64::MAX;

/// The id of a socket: the slot that it lies in, and the version with which it was made there.
/// Versions of a slot never come twice, so an id names one socket for good. The layout is that of
/// bRPC's `VersionedRefWithId` (`versioned_ref_with_id.h`).
#[derive(Clone, Copy, Debug, PartialEq, Eq)]
pub struct SocketId(pub u64);

impl SocketId {
    /// The id of the socket that was made with this version in this slot.
    pub fn pack(version: u32, slot: u32) -> Self
        ensures word { result.0 ≡ socket_id version slot }
        ensures parts { IsSocketId result.0 version slot }
        ensures once { OnlySocketId result.0 version slot }
    {
        SocketId((u64::from(version) << 32) + u64::from(slot))
    }

    /// The version with which the socket was made.
    pub fn version(self) -> u32
        ensures { result ≡ socket_id_version self.0 }
    {
        (self.0 >> 32) as u32
    }

    /// The slot that the socket lies in.
    pub fn slot(self) -> u32
        ensures { result ≡ socket_id_slot self.0 }
    {
        (self.0 & 0xffff_ffff) as u32
    }
}
