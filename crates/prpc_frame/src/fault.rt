ghost use Rattle.std.specs.Prelude.{◌≡◌};
ghost use Rattle.prpc_frame.specs.declared.fault.NextFault.TheVariants.{Frame as frame_fault, NoMemory as no_memory};

use io_buf::NoMemory;
use rpc_meta::MetaFault;
use std::alloc::AllocError;

/// Why bytes don't begin as a frame does, in the order in which it is looked for (baidu_std.md).
#[derive(Clone, Copy, PartialEq, Eq, Debug)]
pub enum FrameFault {
    /// A byte of the first four differs from `PRPC`: the first such place, 0 to 3. It is told as
    /// soon as that byte is there.
    BadMagic { at: u8 },
    /// The body has more than 67,108,864 bytes by its stated size.
    TooBig { size: u32 },
    /// The stated size of the meta is above that of the body.
    MetaOver { meta: u32, body: u32 },
    /// The whole body is there, and its meta is none. It never has `NoMemory`.
    Meta(MetaFault),
    /// The attachment's size is negative or above `room`, the bytes behind the meta.
    AttachOver { size: i32, room: u32 },
}

/// Why there is no next frame.
#[derive(Clone, Copy, PartialEq, Eq, Debug)]
pub enum NextFault {
    /// The stream goes on with no frame. It is answered for good.
    Frame(FrameFault),
    /// An allocation failed. Nothing has changed.
    NoMemory,
}

impl From<FrameFault> for NextFault {
    ghost from_gives = { λ x e. e ≡ frame_fault x };

    fn from(fault: FrameFault) -> NextFault {
        NextFault::Frame(fault)
    }
}

impl From<NoMemory> for NextFault {
    ghost from_gives = { λ _ e. e ≡ no_memory };

    fn from(_error: NoMemory) -> NextFault {
        NextFault::NoMemory
    }
}

impl From<AllocError> for NextFault {
    ghost from_gives = { λ _ e. e ≡ no_memory };

    fn from(_error: AllocError) -> NextFault {
        NextFault::NoMemory
    }
}
