ghost use Rattle.std.specs.Prelude.{◌≡◌, ◌+◌, ◌≤◌, ◌++◌, length, IfOk, IfSome};

use crate::front::{FRONT_BYTES, Front};
use std::alloc::{AllocError, Global};
use std::marker::Model;

/// So many bytes a meta carries without memory.
pub(crate) const HERE_BYTES: usize = 31;

/// Bytes that a meta carries; contracts see the list of them. Up to 31 take no memory.
#[derive(Drop)]
pub struct MetaBytes {
    // Few bytes are the first so many of these, and then there are none in memory.
    here: [u8; HERE_BYTES],
    len: u8,
    heap: Vec<u8>,
}

impl Model for MetaBytes {
    ghost use Rattle.std.specs.Prelude.{ℕ, List};

    ghost Value = { List ℕ };

    ghost use Rattle.rpc_meta.specs.HeldMetaBytes.{held_bytes, IsHeld};

    ghost view = { held_bytes };

    ghost invariant = { IsHeld };
}

impl MetaBytes {
    /// These bytes; no memory is taken.
    pub fn from_vec(bytes: Vec<u8>) -> MetaBytes
        ensures { result ≡ bytes.items }
    {
        MetaBytes {
            here: [0; HERE_BYTES],
            len: 0,
            heap: bytes,
        }
    }

    /// A copy of these bytes. Few take no memory.
    #[inline(always)]
    pub fn copy(alloc: Global, bytes: &[u8]) -> Result<MetaBytes, AllocError>
        ensures { IfOk result (λ b. b ≡ bytes.now) }
    {
        if bytes.len() <= HERE_BYTES {
            return Ok(MetaBytes::few(alloc, bytes));
        }
        let bytes = Vec::from_slice(alloc, bytes)?;
        Ok(MetaBytes::from_vec(bytes))
    }

    /// The bytes.
    pub fn as_slice(&self) -> &[u8]
        ensures { result.now ≡ self.now }
    {
        if self.heap.is_empty() {
            &self.here[..self.len as usize]
        } else {
            self.heap.as_slice()
        }
    }

    /// How many bytes there are, where they take no memory.
    #[inline(always)]
    pub(crate) fn here_len(&self) -> Option<usize>
        ensures { IfSome result (λ n. (n ≡ length self.now) × (n ≤ HERE_BYTES)) }
    {
        if !self.heap.is_empty() {
            return None;
        }
        let bytes = &self.here[..self.len as usize];
        Some(bytes.len())
    }

    /// Spells the bytes in place. Few are copied with all that is behind them, which takes one step
    /// however many they are.
    #[inline(always)]
    pub(crate) fn spell_to(&self, out: &mut Front)
        requires { length out.old + length self.now ≤ FRONT_BYTES }
        ensures { out.new ≡ out.old ++ self.now }
    {
        if self.heap.is_empty() && out.left() >= HERE_BYTES {
            out.extend_part(&self.here, self.len as usize);
        } else {
            out.extend(self.as_slice());
        }
    }

    // A copy of few bytes.
    #[inline(always)]
    fn few(alloc: Global, bytes: &[u8]) -> MetaBytes
        requires { length bytes.now ≤ HERE_BYTES }
        ensures { result ≡ bytes.now }
    {
        let mut here = [0; HERE_BYTES];
        here[..bytes.len()].copy_from_slice(bytes);
        MetaBytes {
            here,
            len: bytes.len() as u8,
            heap: Vec::new(alloc),
        }
    }
}

/// The meta of a frame.
#[derive(Drop)]
pub struct RpcMeta {
    /// What is asked for, in a request (field 1).
    pub request: Option<RequestMeta>,
    /// How it went, in a response (field 2).
    pub response: Option<ResponseMeta>,
    /// How the payload is compressed, 0 for not at all (field 3).
    pub compress_type: i32,
    /// The correlation id, as an unsigned number (field 4).
    pub correlation_id: u64,
    /// How many of the body's last bytes are the attachment (field 5).
    pub attachment_size: i32,
}

/// The request part of a meta.
#[derive(Drop)]
pub struct RequestMeta {
    /// The service's name (field 1).
    pub service: MetaBytes,
    /// The method's name (field 2).
    pub method: MetaBytes,
    /// An id for logs, as an unsigned number (field 3).
    pub log_id: Option<u64>,
}

/// The response part of a meta.
#[derive(Drop)]
pub struct ResponseMeta {
    /// The error code, 0 for success (field 1).
    pub code: i32,
    /// The error's text (field 2).
    pub text: MetaBytes,
}
