ghost use Rattle.std.specs.Prelude.{◌≡◌, ◌+◌, ◌<◌, ◌≤◌, [], ◌∷◌, ◌++◌, length, take};
ghost use Rattle.pb_wire.specs.brpc_model.specs.Wire.{varint_bytes};

use crate::meta::HERE_BYTES;
use std::marker::Model;

/// So many bytes a front has room for.
pub const FRONT_BYTES: usize = 128;

/// Few bytes, spelled one behind another in place, with no memory. Contracts see the list of them.
#[derive(Drop)]
pub struct Front {
    bytes: [u8; FRONT_BYTES],
    len: usize,
}

impl Model for Front {
    ghost use Rattle.std.specs.Prelude.{ℕ, List, take, ◌≤◌};
    ghost use Rattle.rpc_meta.specs.declared.front.TheConstants.{FRONT_BYTES};

    ghost Value = { List ℕ };

    ghost view = { λ f. take f.len f.bytes };

    ghost invariant = { λ f. f.len ≤ FRONT_BYTES };
}

impl Front {
    /// None yet.
    #[inline]
    pub fn new() -> Front
        ensures { result ≡ [] }
    {
        Front {
            bytes: [0; FRONT_BYTES],
            len: 0,
        }
    }

    /// The bytes.
    #[inline]
    pub fn as_slice(&self) -> &[u8]
        ensures { result.now ≡ self.now }
    {
        &self.bytes[..self.len]
    }

    /// Puts a byte behind the others.
    #[inline(always)]
    pub fn push(&mut self, byte: u8)
        requires { length self.old < FRONT_BYTES }
        ensures { self.new ≡ self.old ++ byte ∷ [] }
    {
        self.bytes[self.len] = byte;
        self.len += 1;
    }

    /// Puts bytes behind the others.
    #[inline(always)]
    pub fn extend(&mut self, bytes: &[u8])
        requires { length self.old + length bytes.now ≤ FRONT_BYTES }
        ensures { self.new ≡ self.old ++ bytes.now }
    {
        let end = self.len + bytes.len();
        self.bytes[self.len..end].copy_from_slice(bytes);
        self.len = end;
    }

    /// How many bytes there is room for.
    #[inline(always)]
    pub(crate) fn left(&self) -> usize
        ensures { result + length self.now ≡ FRONT_BYTES }
    {
        FRONT_BYTES - self.len
    }

    /// Puts the first n of 31 bytes behind the others, where there is room for all.
    #[inline(always)]
    pub(crate) fn extend_part(&mut self, bytes: &[u8; HERE_BYTES], n: usize)
        requires room { length self.old + HERE_BYTES ≤ FRONT_BYTES }
        requires n { n ≤ HERE_BYTES }
        ensures { self.new ≡ self.old ++ take n bytes.now }
    {
        let end = self.len + HERE_BYTES;
        self.bytes[self.len..end].copy_from_slice(bytes);
        self.len += n;
    }

    /// Puts the shortest varint of a number behind the others.
    #[inline(always)]
    pub fn put_varint(&mut self, value: u64)
        requires { length self.old + length (varint_bytes value) ≤ FRONT_BYTES }
        ensures { self.new ≡ self.old ++ varint_bytes value }
    {
        if value < 0x80 {
            self.push(value as u8);
        } else {
            self.put_long(value);
        }
    }

    // A varint of any length. So many bytes of it at most are still to come.
    #[inline(never)]
    fn put_long(&mut self, value: u64)
        requires { length self.old + length (varint_bytes value) ≤ FRONT_BYTES }
        ensures { self.new ≡ self.old ++ varint_bytes value }
    {
        let mut room = 10usize;
        let mut rest = value;
        while rest >= 0x80 {
            self.push((rest % 0x80 + 0x80) as u8);
            rest /= 0x80;
            room -= 1;
        }
        self.push(rest as u8);
    }
}
