ghost use Rattle.std.specs.Prelude.{◌≡◌, ℕ, List};

use std::marker::Model;

/// Bytes that a value owns: a message, a payload, an attachment or a name of a line of a script, or
/// what a call's response brought. Contracts see the list of them.
#[derive(Debug, Drop)]
pub struct OwnedBytes {
    bytes: Vec<u8>,
}

impl Model for OwnedBytes {
    ghost Value = { List ℕ };

    ghost view = { λ b. b.bytes.items };
}

impl OwnedBytes {
    /// These bytes.
    pub fn new(bytes: Vec<u8>) -> Self
        ensures { result ≡ bytes.items }
    {
        OwnedBytes { bytes }
    }

    /// The bytes as a slice.
    pub fn as_slice(&self) -> &[u8]
        ensures { result.now ≡ self.now }
    {
        self.bytes.as_slice()
    }
}
