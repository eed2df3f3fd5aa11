ghost use Rattle.std.specs.Prelude.{◌≡◌};
ghost use Rattle.io_buf.specs.declared.fault.CutFault.TheVariants.{NoMemory as no_memory};

use io_block::NoMemory;

/// Why `cut_front` was refused, in this order.
#[derive(Clone, Copy, Debug, PartialEq, Eq)]
pub enum CutFault {
    /// More bytes were asked for than there are, which is `have`.
    Short { have: usize },
    NoMemory,
}

impl From<NoMemory> for CutFault {
    ghost from_gives = { λ _ e. e ≡ no_memory };

    fn from(_error: NoMemory) -> CutFault {
        CutFault::NoMemory
    }
}
