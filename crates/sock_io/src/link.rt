ghost use Rattle.std.specs.Prelude.{◌≡◌, ◌≢◌, ◌+◌, ◌<◌, ◌∷◌, ◌++◌, [], Bool, true, false, length, IfOk, IfSome, OnErr, OnOk, None, Some};
ghost use Rattle.std.specs.List.{AllByRecursion};
ghost use Rattle.brpc_model.specs.ReturnedLink.{LinkEnd};
ghost use Rattle.sock_io.specs.FaultCauses.{OpenCause};
ghost use Rattle.sock_io.specs.LinkHalves.{OutState, InState, PutStep, ReadyStep, FinishStep, TakeStep, SettleStep, IsSettled, IsNewOffer, IsFresh, IsUnused, LinkerState, MayOpen, end_of, new_pacing};
ghost use Rattle.sock_io.specs.MeetingOnOneThread.{AreEnds, IsAskedPeer, MeetOut, MeetStep};
ghost use Rattle.sock_io.specs.Peer.{PeerState, ServeStep, IsNewPeer};

use sock_words::{NoMemory, Shape};
use std::sync::Wait;

/// What a put answers.
#[derive(Clone, Copy, Debug, PartialEq, Eq)]
pub enum Put {
    /// So many bytes of the piece were taken, at least 1.
    Took(usize),
    /// Nothing was taken, for want of a place: ask `ready`.
    Again,
    /// Nothing was taken: the link failed, or the half was finished.
    Failed,
}

/// Whether a put may go on.
#[derive(Clone, Copy, Debug, PartialEq, Eq)]
pub enum Ready {
    /// After a put that answered `Again`: the next one won't.
    Now,
    /// Ask again.
    NotYet,
    /// The link failed, or the half was finished.
    Failed,
}

/// What a take answers.
#[derive(Clone, Copy, Debug, PartialEq, Eq)]
pub enum Take {
    /// So many bytes were given, at least 1.
    Took(usize),
    /// Nothing is there yet.
    Empty,
    /// The other end gave its end, and all before it was taken.
    End,
    /// The link was finished, and all that the other end gave was taken.
    Closed,
    /// The link failed.
    Failed,
}

/// The writing half of a link: a socket's file descriptor that is written without blocking. `Again` is its EAGAIN, and
/// `ready` stands for the wait until it can be written again.
///
/// It has a count of faults that never falls: it rises where a call answers `Failed`, and stands still at every other
/// answer. A count that stands at its last value, 2^64 - 1, counts as risen.
pub trait Out: Drop {
    /// Which link it is, what it took and answered, what was put through it, its count of faults, and whether it was
    /// finished.
    ghost state: { Self → OutState };

    /// Takes a part of the piece, from its front: 1 byte at least, or nothing at `Again` and `Failed`.
    fn put(&mut self, piece: &[u8]) -> Put
        requires { 0 < length piece.now }
        ensures { PutStep (state self.old) (state self.new) piece.now result };

    /// Whether a put may go on. It takes nothing.
    fn ready(&mut self) -> Ready
        ensures { ReadyStep (state self.old) (state self.new) result };

    /// Ends the writing half. Later calls of `put` and `ready` answer `Failed` and leave the count as it is, so that no
    /// program makes a fault by finishing first.
    fn finish(&mut self)
        ensures { FinishStep (state self.old) (state self.new) };

    /// All bytes that this half took, in order, where it tells them.
    fn taken(&self) -> &[u8]
        ensures { IfSome (state self.now).took (λ bytes. result.now ≡ bytes) };
}

/// The reading half of a link. Its count of faults is as that of the writing half.
pub trait In: Drop {
    /// How many bytes it gave, which they are, all that it answered, whether its other end closed its half, what that
    /// offers, and its count of faults.
    ghost state: { Self → InState };

    /// Gives bytes into the front of the room.
    fn take(&mut self, room: &mut [u8]) -> Take
        requires { 0 < length room.old }
        ensures { TakeStep (state self.old) (state self.new) room.new result };
}

/// What the other end did. A mark ends a direction: the link's finish comes in; the other end's end, or the closing of
/// its half, goes out.
#[derive(Clone, Copy, Debug, PartialEq, Eq)]
pub enum Served {
    /// A byte or a mark went in or out.
    Moved,
    /// Nothing could be moved now.
    Waiting,
    /// Nothing will be moved any more: the other end saw the link's finish, and gave its end or closed its half; or there
    /// is none.
    Done,
}

/// The other end of a link inside this process. An end without one answers `Done` at every call, and so does one whose
/// link is served by `Linker::settle`.
///
/// It takes the bytes of the link in their order and none behind the finish, and gives bytes in theirs and none behind its
/// own end. It closes its half only after the link was finished.
pub trait Peer: Drop {
    /// Whether there is an other end to serve, what it was asked to be, what it took and gave, and the marks that it saw
    /// and gave.
    ghost state: { Self → PeerState };

    /// Moves what can be moved now. An other end that finds no memory gives its end in this call and throws later bytes
    /// away, so that `NoMemory` comes once at most.
    fn serve(&mut self) -> Result<Served, NoMemory>
        ensures { ServeStep (state self.old) result (state self.new) };
}

/// How links are made.
#[derive(Clone, Copy, Debug, PartialEq, Eq)]
pub enum Mode {
    /// In memory, with the other end called by `settle`.
    Loop,
    /// Over rings, with the other end on a thread of its own.
    Ring,
    /// Over TCP, to this port of 127.0.0.1.
    Tcp(u16),
}

/// What is asked of a link.
#[derive(Clone, Copy)]
pub struct LinkSpec {
    pub mode: Mode,
    pub shape: Shape,
}

/// The two halves of a link, and its other end.
#[derive(Drop)]
pub struct Ends<O: Out, I: In, P: Peer> {
    pub out: O,
    pub inn: I,
    pub peer: P,
}

/// Why no link was opened, or no connection accepted.
#[derive(Clone, Copy, Debug, PartialEq, Eq)]
pub enum OpenFault {
    /// The count of faults rose.
    Failed,
    NoMemory,
}

/// Opens links, numbered from 0, and accepts connections; and takes both back. At most 256 of each.
///
/// Its count of faults never falls: it rises where a call answers `Failed`, and stands still otherwise.
pub trait Linker {
    ghost use Rattle.sock_io.specs.declared.link.Mode.{Mode};

    /// What was asked of each link that it opened, how many connections it accepted, the links and the connections given back,
    /// its count of faults, and whether its links are always ready.
    ghost state: { Self → LinkerState };

    type O: Out + Send;

    type I: In + Send;

    type P: Peer + Send;

    /// Whether links in this mode have other ends inside this process, and tell what these offered once they have ended and
    /// the ends are compared (`meet`), but not before: which way their bytes come is known.
    ghost tells_in: { Mode → Bool } = { λ _. false };

    /// Whether links in this mode answer each put just as the shape says that was asked for, with a half inside that takes
    /// all.
    ghost goes_by_shape: { Mode → Bool } = { λ _. false };

    /// Opens the next link, and reserves the room for its `back`.
    fn open(&mut self, spec: &LinkSpec) -> Result<Ends<Self::O, Self::I, Self::P>, OpenFault>
        requires { MayOpen (Self.state self.old).asked spec.now }
        ensures fresh { IfOk result (λ ends. IsFresh (Self.O.state ends.out) (Self.I.state ends.inn) (length (Self.state self.old).asked)) }
        ensures peer { IfOk result (λ ends. IsNewPeer (Self.P.state ends.peer)) }
        ensures offer { IfOk result (λ ends. IfSome (Self.I.state ends.inn).offer (λ o. IsNewOffer spec.now o)) }
        ensures shaped { IfOk result (λ ends. goes_by_shape spec.now.mode ≡ true → (Self.O.state ends.out).pacing ≡ Some (new_pacing spec.now)) }
        ensures one { IfOk result (λ ends. AreEnds (Self.O.state ends.out) (Self.P.state ends.peer) (Self.I.state ends.inn)) }
        ensures other { IfOk result (λ ends. IsAskedPeer spec.now (Self.P.state ends.peer)) }
        ensures tells { IfOk result (λ ends. tells_in spec.now.mode ≡ true → ((Self.I.state ends.inn).way ≢ []) × ((Self.I.state ends.inn).offer ≡ None) × ((Self.P.state ends.peer).present ≡ true)) }
        ensures always_ready { IfOk result (λ ends. (Self.state self.old).always_ready ≡ true → spec.now.mode ≡ Mode.Loop → (Self.O.state ends.out).always_ready ≡ true) }
        ensures asked { IfOk result (λ _. (Self.state self.new).asked ≡ (Self.state self.old).asked ++ spec.now ∷ []) }
        ensures refused { OnErr result ((Self.state self.new).asked ≡ (Self.state self.old).asked) }
        ensures others { Self.state self.new ≡ record (Self.state self.old) { asked = (Self.state self.new).asked; faults = (Self.state self.new).faults } }
        ensures cause { OpenCause (Self.state self.old).faults (Self.state self.new).faults result };

    /// Has a link's other end in memory answer what the link took since the last call, and close its half once the
    /// link was finished. Behind it the link is offered what belongs to all that it took. Other kinds of link do nothing
    /// here. Besides that, what is told of the halves stays as it is, also where memory is short.
    fn settle(&mut self, ends: &mut Ends<Self::O, Self::I, Self::P>) -> Result<(), NoMemory>
        ensures out { Self.O.state ends.new.out ≡ Self.O.state ends.old.out }
        ensures peer { Self.P.state ends.new.peer ≡ Self.P.state ends.old.peer }
        ensures inn { SettleStep (Self.O.state ends.old.out) (Self.I.state ends.old.inn) (Self.I.state ends.new.inn) }
        ensures settled { OnOk result (IsSettled (Self.O.state ends.old.out) (Self.I.state ends.old.inn) (Self.I.state ends.new.inn)) }
        ensures err { OnErr result ((self.new ≡ self.old) × (ends.new ≡ ends.old)) }
        ensures says { Self.state self.new ≡ Self.state self.old };

    /// Compares the ends of a link, once nobody else moves them: what its other end offers may become known by that.
    /// Besides that, what is told of the halves stays as it is. Most kinds of link do
    /// nothing here.
    fn meet(&mut self, ends: &mut Ends<Self::O, Self::I, Self::P>)
        requires { AreEnds (Self.O.state ends.old.out) (Self.P.state ends.old.peer) (Self.I.state ends.old.inn) }
        ensures out { MeetOut (Self.O.state ends.old.out) (Self.O.state ends.new.out) }
        ensures peer { Self.P.state ends.new.peer ≡ Self.P.state ends.old.peer }
        ensures inn { MeetStep (Self.O.state ends.old.out) (Self.P.state ends.old.peer) (Self.I.state ends.old.inn) (Self.I.state ends.new.inn) }
        ensures says { Self.state self.new ≡ Self.state self.old };

    /// Accepts the next connection, and reserves the room for its `done`. The first call listens on 127.0.0.1 at the
    /// port.
    fn accept(&mut self, port: u16) -> Result<(Self::O, Self::I), OpenFault>
        requires { (Self.state self.old).accepted < 256 }
        ensures fresh { IfOk result (λ halves. IsUnused (Self.O.state halves.0) (Self.I.state halves.1)) }
        ensures accepted { IfOk result (λ _. (Self.state self.new).accepted ≡ (Self.state self.old).accepted + 1) }
        ensures refused { OnErr result ((Self.state self.new).accepted ≡ (Self.state self.old).accepted) }
        ensures others { Self.state self.new ≡ record (Self.state self.old) { accepted = (Self.state self.new).accepted; faults = (Self.state self.new).faults } }
        ensures cause { OpenCause (Self.state self.old).faults (Self.state self.new).faults result };

    /// Takes a connection back, whose writing half was finished.
    fn done(&mut self, out: Self::O, inn: Self::I)
        requires fewer { length (Self.state self.old).done < (Self.state self.old).accepted }
        requires finished { (Self.O.state out).finished ≡ true }
        ensures { Self.state self.new ≡ record (Self.state self.old) { done = (Self.state self.old).done ++ end_of (Self.O.state out) (Self.I.state inn) ∷ [] } };

    /// Takes a link back, which was opened and not given back before.
    fn back(&mut self, link: u16, ends: Ends<Self::O, Self::I, Self::P>)
        requires opened { link < length (Self.state self.old).asked }
        requires own { (Self.O.state ends.out).link ≡ link }
        requires once { AllByRecursion (λ (e : LinkEnd). e.link ≢ link) (Self.state self.old).back }
        requires fewer { length (Self.state self.old).back < length (Self.state self.old).asked }
        ensures { Self.state self.new ≡ record (Self.state self.old) { back = (Self.state self.old).back ++ end_of (Self.O.state ends.out) (Self.I.state ends.inn) ∷ [] } };
}

/// Where a client may be made to wait before an operation.
pub trait Gate: Send + Sync {
    /// Returns once the client may make the operation; operations of a client are counted from 1.
    fn pass<R: Wait>(&self, rt: &R, client: u16, operation: u16);
}

/// Lets all pass at once.
#[derive(Drop)]
pub struct OpenGate;

impl Gate for OpenGate {
    fn pass<R: Wait>(&self, _rt: &R, _client: u16, _operation: u16) {}
}
