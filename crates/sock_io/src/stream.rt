ghost use Rattle.std.specs.Prelude.{◌≡◌, ◌↔◌, ◌<◌, ◌≤◌, [], length, IfOk, IfSome};
ghost use Rattle.std.specs.Io.{ReadsAtMost};
ghost use Rattle.std.specs.Io.KnownBytes.{ReadConsumes, WriteAppends};
ghost use Rattle.sock_io.specs.FaultCauses.{HasCause};
ghost use Rattle.sock_io.specs.SourceAndSinkState.{SourceState, SinkState};

/// A read, a write or a link failed.
#[derive(Clone, Copy, Debug, PartialEq, Eq)]
pub struct Failed;

/// Where bytes come from.
///
/// It has a count of faults that never falls: it rises where a call answers `Failed`, and stands still otherwise. A
/// count that stands at its last value, 2^64 - 1, counts as risen.
pub trait Source {
    /// What reads will give from here on, where the source tells, and its count of faults.
    ghost state: { Self → SourceState };

    /// Gives bytes into the front of the room. `Ok(0)` is the end of the input; a failed read gives nothing.
    fn read(&mut self, room: &mut [u8]) -> Result<usize, Failed>
        requires { 0 < length room.old }
        ensures bound { ReadsAtMost result room.new }
        ensures bytes { ReadConsumes (state self.old).left (state self.new).left result room.new }
        ensures end { IfOk result (λ n. IfSome (state self.old).left (λ bytes. (n ≡ 0) ↔ (bytes ≡ []))) }
        ensures cause { HasCause (state self.old).faults (state self.new).faults result };
}

/// Where bytes go. Its count of faults is as that of a source.
pub trait Sink {
    /// All that it took, where the sink tells, and its count of faults.
    ghost state: { Self → SinkState };

    /// Takes a part of the piece, from its front, 1 byte at least; a failed write takes nothing.
    fn write(&mut self, piece: &[u8]) -> Result<usize, Failed>
        requires { 0 < length piece.now }
        ensures count { IfOk result (λ n. (0 < n) × (n ≤ length piece.now)) }
        ensures bytes { WriteAppends (state self.old).contents (state self.new).contents result piece.now }
        ensures cause { HasCause (state self.old).faults (state self.new).faults result };
}
