ghost use Rattle.std.specs.Prelude.{◌≡◌};
ghost use Rattle.rpc_meta.specs.declared.fault.MetaFault.TheVariants.{Wire, NoMemory};

use pb_wire::WireFault;
use std::alloc::AllocError;

/// Why bytes are no meta, in the order in which it is looked for.
#[derive(Clone, Copy, PartialEq, Eq, Debug)]
pub enum MetaFault {
    /// The wire form is wrong, in the meta or in a message inside it; places count from the meta's start.
    Wire(WireFault),
    /// A request has no service_name.
    NoService,
    /// A request has no method_name.
    NoMethod,
    /// There is neither a request nor a response.
    Neither,
    /// An allocation failed; it says nothing of the bytes.
    NoMemory,
}

impl From<WireFault> for MetaFault {
    ghost from_gives = { λ x e. e ≡ Wire x };

    fn from(fault: WireFault) -> MetaFault {
        MetaFault::Wire(fault)
    }
}

impl From<AllocError> for MetaFault {
    ghost from_gives = { λ _ e. e ≡ NoMemory };

    fn from(_error: AllocError) -> MetaFault {
        MetaFault::NoMemory
    }
}
