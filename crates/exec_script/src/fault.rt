ghost use Rattle.std.specs.Prelude.{◌≡◌, ◌++◌, OnOk};
ghost use Rattle.exec_script.specs.Scripts.{fault_text};

use script_items::push_number;
use std::alloc::AllocError;

/// A first word that begins no line, or no word at all.
pub const UNKNOWN_WORD: u8 = 1;
/// A wrong number of words.
pub const BAD_WORDS: u8 = 2;
/// A number that is malformed or out of its range.
pub const BAD_NUMBER: u8 = 3;
/// A 4,097th line.
pub const TOO_MANY: u8 = 4;

/// Why bytes weren't read as a script.
#[derive(Clone, Copy)]
pub enum ExecFault {
    /// The bytes are no script: the first faulty line, from 1, and the lowest kind of its faults, 1 to 4.
    Fault { line: u32, kind: u8 },
    /// Memory ran out.
    NoMemory,
}

impl From<AllocError> for ExecFault {
    ghost use Rattle.std.specs.Prelude.{◌≡◌};
    ghost use Rattle.exec_script.specs.declared.fault.ExecFault.TheVariants as faults;

    ghost from_gives = { λ _ e. e ≡ faults.NoMemory };

    fn from(_e: AllocError) -> Self {
        ExecFault::NoMemory
    }
}

/// Appends the line that tells where a script is faulty.
pub fn push_fault(text: &mut Vec<u8>, line: u32, kind: u8) -> Result<(), AllocError>
    ensures { OnOk result (text.new.items ≡ text.old.items ++ fault_text line kind) }
{
    text.extend_from_slice(b"exec fault line ")?;
    push_number(text, u64::from(line))?;
    text.extend_from_slice(b" kind ")?;
    push_number(text, u64::from(kind))?;
    text.extend_from_slice(b"\n")
}
