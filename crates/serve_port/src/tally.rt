// What the services of all connections come to.
ghost use Rattle.std.specs.Prelude.{◌≡◌, ◌+◌, ◌∷◌, ◌++◌, ℕ, true, [], List, Some, Err, length, IfOk, IfErr};
ghost use Rattle.brpc_model.specs.ReturnedLink.{LinkEnd};
ghost use Rattle.serve_port.specs.ServingConnections.{AnswersBy, ServedConnection, is_failing, is_faulty, is_whole};
ghost use Rattle.serve_port.specs.ServiceSteps.{AcceptedBy, IsTally};

use crate::service::{ServeFault, Service, ServiceEnd};
use sock_io::OpenFault;

impl ServiceEnd {
    /// Whether a put or a take failed.
    fn is_failing(self) -> bool
        ensures { result ≡ is_failing self }
    {
        matches!(self, ServiceEnd::PutFailed | ServiceEnd::TakeFailed)
    }

    /// Whether the bytes went on with no frame.
    fn is_faulty(self) -> bool
        ensures { result ≡ is_faulty self }
    {
        matches!(self, ServiceEnd::AtFault)
    }

    /// Whether all was read, or the most that is read.
    fn is_whole(self) -> bool
        ensures { result ≡ is_whole self }
    {
        matches!(self, ServiceEnd::AtEnd | ServiceEnd::AtLimit)
    }
}

/// How many replies were made, unless these are more than are counted; and whether a half failed, whether the bytes of a
/// connection went on with no frame, and whether all were read whole.
#[derive(Clone, Copy, Debug, PartialEq, Eq)]
pub struct Tally {
    pub frames: Option<u64>,
    pub failing: bool,
    pub faulty: bool,
    pub whole: bool,
}

impl Tally {
    /// That of no connection.
    pub fn new() -> Tally
        ensures { IsTally [] result }
    {
        Tally {
            frames: Some(0),
            failing: false,
            faulty: false,
            whole: true,
        }
    }

    /// With one connection more.
    pub fn with(self, service: Service) -> Tally
        ensures { (served : List ServedConnection) (c : LinkEnd) → IsTally served self → IsTally (served ++ (record { service = service; connection = c }) ∷ []) result }
    {
        Tally {
            frames: sum_of(self.frames, service.frames),
            failing: self.failing || service.end.is_failing(),
            faulty: self.faulty || service.end.is_faulty(),
            whole: self.whole && service.end.is_whole(),
        }
    }

    /// What serving so many connections answers, where so many were accepted.
    pub fn answer(self, accepted: Result<(), OpenFault>) -> Result<u64, ServeFault>
        ensures { (served : List ServedConnection) (count before now : ℕ) → IsTally served self → AcceptedBy count (length served) before now accepted → AnswersBy count before now served result }
    {
        match accepted {
            Ok(()) => self.outcome(true),
            Err(fault) => self.refused(fault),
        }
    }

    /// The same where one wasn't accepted.
    fn refused(self, fault: OpenFault) -> Result<u64, ServeFault>
        ensures { (served : List ServedConnection) (count before now : ℕ) → IsTally served self → AcceptedBy count (length served) before now (Err fault) → AnswersBy count before now served result }
    {
        match fault {
            OpenFault::NoMemory => self.outcome(false),
            OpenFault::Failed => Err(ServeFault::AcceptFailed),
        }
    }

    /// The same where no accept failed.
    fn outcome(self, all: bool) -> Result<u64, ServeFault>
        ensures { (served : List ServedConnection) (count before now : ℕ) → IsTally served self → now ≡ before → (all ≡ true → length served ≡ count) → AnswersBy count before now served result }
    {
        if self.failing {
            return Err(ServeFault::ConnectionFailed);
        }
        if self.faulty {
            return Err(ServeFault::FaultyFrame);
        }
        match self.frames {
            Some(frames) => self.number(all, frames),
            None => Err(ServeFault::NoMemory),
        }
    }

    /// So many replies, where all were accepted and read whole.
    fn number(self, all: bool, frames: u64) -> Result<u64, ServeFault>
        ensures ok { IfOk result (λ n. (n ≡ frames) × (all ≡ true) × (self.whole ≡ true)) }
        ensures err { IfErr result (λ e. e ≡ ServeFault.NoMemory) }
    {
        if all && self.whole {
            return Ok(frames);
        }
        Err(ServeFault::NoMemory)
    }
}

/// The sum, where it can be counted.
fn sum_of(frames: Option<u64>, more: u64) -> Option<u64>
    ensures { (sum : ℕ) → result ≡ Some sum → (n : ℕ) × (frames ≡ Some n) × (sum ≡ n + more) }
{
    frames?.checked_add(more)
}
