use std::alloc::AllocError;

/// Why bytes weren't read as a script.
#[derive(Clone, Copy, Debug, PartialEq, Eq)]
pub enum ScriptError {
    /// The bytes are no script: the first faulty line, from 1, and the kind of its fault, 1 to 12.
    Fault { line: u32, kind: u8 },
    /// Memory ran out.
    NoMemory,
}

impl From<AllocError> for ScriptError {
    ghost use Rattle.std.specs.Prelude.{◌≡◌};
    ghost use Rattle.script_lang.specs.declared.error.ScriptError.TheVariants as errors;

    ghost from_gives = { λ _ e. e ≡ errors.NoMemory };

    fn from(_e: AllocError) -> Self {
        ScriptError::NoMemory
    }
}
