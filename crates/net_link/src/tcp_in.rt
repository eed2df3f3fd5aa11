ghost use Rattle.std.specs.Prelude.{◌≡◌, ◌≢◌, ◌++◌, ◌∷◌, ◌<◌, [], true, length};
ghost use Rattle.sock_io.specs.LinkHalves.{TakeStep, given_of, of_take};
ghost use Rattle.net_link.specs.NetworkLinkHalves.{new_in, tcp_in};

use crate::moving::read_some;
use ghosts::Ghosts;
use sock_io::{In, Take, noted, risen};
use std::marker::Model;
use std::net::TcpStream;

/// The reading half of a link over TCP. It waits inside `take`, and so never answers `Empty`. It can't know whether the
/// other end saw the link's finish: that it ended its half is an end, and never `Closed`. Once it failed it fails at every
/// call, so that a connection that was lost isn't taken for one that was ended.
#[derive(Drop)]
pub struct TcpIn {
    stream: TcpStream,
    gave_end: bool,
    failed: bool,
    faults: u64,
    /// All bytes that it gave, for the proofs.
    given: Ghosts<u8>,
    /// All that it answered, for the proofs.
    takes: Ghosts<Take>,
}

impl Model for TcpIn {
    ghost use Rattle.std.specs.Prelude.{map};
    ghost use Rattle.sock_io.specs.LinkHalves.{of_take};
    ghost use Rattle.net_link.specs.NetworkLinkHalves.{TcpInState};

    ghost Value = { TcpInState };

    ghost view = { λ i. record { given = i.given.list; gave_end = i.gave_end; failed = i.failed; faults = i.faults; takes = map of_take i.takes.list } };
}

impl TcpIn {
    /// A half from which nothing was taken.
    pub(crate) fn new(stream: TcpStream) -> TcpIn
        ensures { result ≡ new_in }
    {
        TcpIn {
            stream,
            gave_end: false,
            failed: false,
            faults: 0,
            given: Ghosts::of(&0u8),
            takes: Ghosts::of(&0u8),
        }
    }

    /// Takes, and leaves it to the caller to note what it gave and answered.
    fn answer_take(&mut self, room: &mut [u8]) -> Take
        requires { 0 < length room.old }
        ensures step { TakeStep (tcp_in self.old) (tcp_in (record self.new { given = self.old.given ++ given_of room.new result; takes = self.old.takes ++ of_take result ∷ [] })) room.new result }
        ensures given { self.new.given ≡ self.old.given }
        ensures takes { self.new.takes ≡ self.old.takes }
        ensures never { result ≢ Take.Empty }
        ensures failed { result ≡ Take.Failed → self.new.failed ≡ true }
        ensures lost { self.old.failed ≡ true → result ≡ Take.Failed }
    {
        if self.failed {
            self.faults = risen(self.faults);
            return Take::Failed;
        }
        match read_some(&mut self.stream, room) {
            Ok(0) => {
                self.gave_end = true;
                Take::End
            }
            Ok(count) => Take::Took(count),
            Err(_) => {
                self.failed = true;
                self.faults = risen(self.faults);
                Take::Failed
            }
        }
    }

    /// Notes what was given, and that answer.
    fn note(&mut self, room: &[u8], answer: Take)
        ensures { self.new ≡ record self.old { given = self.old.given ++ given_of room.now answer; takes = self.old.takes ++ of_take answer ∷ [] } }
    {
        let given: Ghosts<u8> = Ghosts::of(&self.given);
        let behind = (given, room, answer);
        self.given = Ghosts::of(&behind);
        self.takes = noted(&self.takes, answer);
    }
}

impl In for TcpIn {
    ghost state = { tcp_in };

    fn take(&mut self, room: &mut [u8]) -> Take
        requires { 0 < length room.old }
        ensures step { TakeStep (tcp_in self.old) (tcp_in self.new) room.new result }
        ensures never { result ≢ Take.Empty }
        ensures failed { result ≡ Take.Failed → self.new.failed ≡ true }
        ensures lost { self.old.failed ≡ true → result ≡ Take.Failed }
    {
        let answer = self.answer_take(room);
        self.note(room, answer);
        answer
    }
}
