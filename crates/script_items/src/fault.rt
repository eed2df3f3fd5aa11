ghost use Rattle.std.specs.Prelude.{◌≡◌};
ghost use Rattle.script_items.specs.PartReaderAnswers.{both_of, lower_of};

use std::alloc::AllocError;

/// A byte other than a space or a printable ASCII character.
pub const BAD_BYTE: LineFault = LineFault::Kind(1);
/// A first word that begins no line.
pub const UNKNOWN_WORD: LineFault = LineFault::Kind(2);
/// A wrong number of words, an option that the line doesn't have, or one that is given twice.
pub const BAD_WORDS: LineFault = LineFault::Kind(3);
/// A number that is malformed or out of its range, or a seat that the script doesn't have.
pub const BAD_NUMBER: LineFault = LineFault::Kind(4);
/// Bad hexadecimal.
pub const BAD_HEX: LineFault = LineFault::Kind(5);
/// A length out of its limits.
pub const BAD_LENGTH: LineFault = LineFault::Kind(6);
/// A malformed name, service, method or kind of step.
pub const BAD_NAME: LineFault = LineFault::Kind(7);

/// Why a line wasn't read.
#[derive(Clone, Copy)]
pub enum LineFault {
    /// The line has a fault of this kind, 1 to 7, and none of a lower one.
    Kind(u8),
    /// Memory ran out.
    NoMemory,
}

impl From<AllocError> for LineFault {
    ghost use Rattle.script_items.specs.declared.fault.LineFault.TheVariants as faults;

    ghost from_gives = { λ _ e. e ≡ faults.NoMemory };

    fn from(_e: AllocError) -> Self {
        LineFault::NoMemory
    }
}

impl LineFault {
    /// The fault that counts of two in one line: the one of the lower kind. Where memory ran out,
    /// nothing is known of one of them.
    fn lower(self, other: LineFault) -> LineFault
        ensures { result ≡ lower_of self other }
    {
        match (self, other) {
            (LineFault::Kind(one), LineFault::Kind(two)) => LineFault::Kind(one.min(two)),
            _ => LineFault::NoMemory,
        }
    }
}

/// Two parts of a line that are read side by side.
pub fn both<A: Drop, B: Drop>(
    first: Result<A, LineFault>,
    second: Result<B, LineFault>,
) -> Result<(A, B), LineFault>
    ensures { result ≡ both_of first second }
{
    match (first, second) {
        (Ok(one), Ok(other)) => Ok((one, other)),
        (Err(one), Err(other)) => Err(one.lower(other)),
        (Err(fault), Ok(_)) | (Ok(_), Err(fault)) => Err(fault),
    }
}
