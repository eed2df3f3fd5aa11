ghost use Rattle.std.specs.Prelude.{◌≡◌, ◌↔◌, ◌++◌, ◌≤◌, ◌<◌, ◌^◌, [], IfOk, IfSome, IsTrue, OnErr, length, option_map, take};
ghost use Rattle.std.specs.Io.{ReadsAtMost};
ghost use Rattle.std.specs.Io.KnownBytes.{ReadConsumes};
ghost use Rattle.sock_io.specs.FaultCauses.{HasCause};
ghost use Rattle.script_reasons.specs.KeptSource.{kept_of};

use sock_io::{Failed, Source};
use std::alloc::Global;

/// So many bytes are kept, as a script may have.
const MOST: usize = 1_048_576;

/// A source that keeps what was read of it, as far as it is no more than a script may have, and there is memory.
#[derive(Drop)]
pub struct Kept<S: Source + Drop> {
    pub inner: S,
    bytes: Vec<u8>,
    /// All that was read is kept.
    whole: bool,
}

impl<S: Source + Drop> Kept<S> {
    /// Over this source; it keeps nothing where it isn't to.
    pub fn new(alloc: Global, inner: S, keeps: bool) -> Self
        ensures inner { result.inner ≡ inner }
        ensures nothing { result.bytes.items ≡ [] }
        ensures whole { result.whole ≡ keeps }
    {
        Kept {
            inner,
            bytes: Vec::new(alloc),
            whole: keeps,
        }
    }

    /// What was read, where all of it is kept.
    pub fn bytes(&self) -> Option<&[u8]>
        ensures kept { option_map (λ bytes. bytes.now) result ≡ kept_of self.now }
        ensures few { IfSome result (λ bytes. length bytes.now < 2 ^ 32) }
    {
        if self.whole && self.bytes.len() <= MOST {
            Some(self.bytes.as_slice())
        } else {
            None
        }
    }

    /// Keeps a piece behind the others, or lets all go.
    fn keep(&mut self, piece: &[u8])
        ensures inner { self.new.inner ≡ self.old.inner }
        ensures kept { IsTrue self.new.whole → IsTrue self.old.whole × (self.new.bytes.items ≡ self.old.bytes.items ++ piece.now) }
    {
        if !self.whole {
            return;
        }
        let few = piece.len() <= MOST.saturating_sub(self.bytes.len());
        if !few || self.bytes.extend_from_slice(piece).is_err() {
            self.whole = false;
            self.bytes.clear();
        }
    }
}

impl<S: Source + Drop> Source for Kept<S> {
    ghost state = { λ k. S.state k.inner };

    fn read(&mut self, room: &mut [u8]) -> Result<usize, Failed>
        requires { 0 < length room.old }
        ensures bound { ReadsAtMost result room.new }
        ensures bytes { ReadConsumes (S.state self.old.inner).left (S.state self.new.inner).left result room.new }
        ensures end { IfOk result (λ n. IfSome (S.state self.old.inner).left (λ bytes. (n ≡ 0) ↔ (bytes ≡ []))) }
        ensures cause { HasCause (S.state self.old.inner).faults (S.state self.new.inner).faults result }
        ensures kept { IfOk result (λ n. IsTrue self.new.whole → IsTrue self.old.whole × (self.new.bytes.items ≡ self.old.bytes.items ++ take n room.new)) }
        ensures failed { OnErr result ((self.new.whole ≡ self.old.whole) × (self.new.bytes ≡ self.old.bytes)) }
    {
        match self.inner.read(room) {
            Ok(count) => {
                self.keep(&room[..count]);
                Ok(count)
            }
            Err(Failed) => Err(Failed),
        }
    }
}
