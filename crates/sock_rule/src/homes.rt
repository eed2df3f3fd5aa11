ghost use Rattle.std.specs.Prelude.{◌≡◌, ◌≢◌, ◌+◌, ◌<◌, ◌≤◌, ◌++◌, true, false, [], length};
ghost use Rattle.std.specs.Option.{ForSome};
ghost use Rattle.sock_io.specs.declared.link.Put.TheVariants.{Failed};
ghost use Rattle.sock_io.specs.declared.link.Ready.TheVariants as ready;
ghost use Rattle.sock_io.specs.FaultCauses.{Rose};
ghost use Rattle.sock_io.specs.LinkHalves.{taken_of, IsPutCount};

use crate::key::Ways;
use ghosts::Ghosts;
use message_parts::Parcel;
use sock_io::{Out, Put, Ready};
use sock_words::Label;

/// The writing half of a link, and how many of its messages have places. What it took stands beside it for the proofs,
/// since it may not tell it.
#[derive(Drop)]
pub struct LinkHome<O: Out> {
    pub out: O,
    pub next: u32,
    pub took: Ghosts<u8>,
    pub ghost tells: { ForSome (O.state out).took (λ bytes. bytes ≡ took.list) },
}

impl<O: Out> LinkHome<O> {
    /// A half that was handed in and took nothing yet.
    #[inline(always)]
    pub fn fresh(out: O) -> LinkHome<O>
        requires { ForSome (O.state out).took (λ bytes. bytes ≡ []) }
        ensures out { result.out ≡ out }
        ensures took { (result.took.list ≡ []) × (result.next ≡ 0) }
    {
        let took = Ghosts::of(&0u8);
        LinkHome { out, next: 0, took }
    }

    /// W1: the link takes a part of the piece, or nothing.
    #[inline(always)]
    pub fn put(&mut self, piece: &[u8]) -> Put
        requires { 0 < length piece.now }
        ensures took { (self.new.took.list ≡ self.old.took.list ++ taken_of piece.now result) × (self.new.next ≡ self.old.next) }
        ensures count { IsPutCount piece.now result }
        ensures link { (O.state self.new.out).link ≡ (O.state self.old.out).link }
        ensures way { (O.state self.new.out).way ≡ (O.state self.old.out).way }
        ensures finished { (O.state self.new.out).finished ≡ (O.state self.old.out).finished }
        ensures faults { result ≡ Failed → (O.state self.old.out).finished ≡ false → Rose (O.state self.old.out).faults (O.state self.new.out).faults }
        ensures kept { result ≢ Failed → (O.state self.new.out).faults ≡ (O.state self.old.out).faults }
        ensures later { (O.state self.old.out).faults ≤ (O.state self.new.out).faults }
    {
        let put = self.out.put(piece);
        let took: Ghosts<u8> = Ghosts::of(&self.took);
        let with = (took, piece, put);
        self.took = Ghosts::of(&with);
        put
    }

    /// W2: whether the link takes more.
    #[inline(always)]
    pub fn ready(&mut self) -> Ready
        ensures same { (self.new.took.list ≡ self.old.took.list) × (self.new.next ≡ self.old.next) }
        ensures link { (O.state self.new.out).link ≡ (O.state self.old.out).link }
        ensures way { (O.state self.new.out).way ≡ (O.state self.old.out).way }
        ensures finished { (O.state self.new.out).finished ≡ (O.state self.old.out).finished }
        ensures faults { result ≡ ready.Failed → (O.state self.old.out).finished ≡ false → Rose (O.state self.old.out).faults (O.state self.new.out).faults }
        ensures kept { result ≢ ready.Failed → (O.state self.new.out).faults ≡ (O.state self.old.out).faults }
        ensures later { (O.state self.old.out).faults ≤ (O.state self.new.out).faults }
    {
        self.out.ready()
    }

    /// One message more has its place.
    #[inline(always)]
    pub fn count_place(&mut self)
        requires { self.old.next < 4294967295 }
        ensures same { (self.new.took.list ≡ self.old.took.list) × (self.new.next ≡ self.old.next + 1) }
        ensures out { self.new.out ≡ self.old.out }
    {
        self.next += 1;
    }

    /// W3: the writing half ends. It took what it took.
    #[inline(always)]
    pub fn finish(&mut self)
        ensures same { (self.new.took.list ≡ self.old.took.list) × (self.new.next ≡ self.old.next) }
        ensures link { (O.state self.new.out).link ≡ (O.state self.old.out).link }
        ensures way { (O.state self.new.out).way ≡ (O.state self.old.out).way }
        ensures finished { (O.state self.new.out).finished ≡ true }
        ensures faults { (O.state self.new.out).faults ≡ (O.state self.old.out).faults }
    {
        self.out.finish();
    }
}

/// A message, or the frame of an attempt, as it lies at home until it is written: its bytes, its label, and its owner, which
/// is the call's id, or 0 for a send. A call has at most seven attempts, counted from 0.
#[derive(Drop)]
pub struct Letter {
    pub bytes: Parcel,
    pub label: Label,
    pub owner: u64,
    pub ghost numbered: { label.attempt ≤ 6 },
}

/// What a home of the table holds.
#[derive(Drop)]
pub enum SockHome<O: Out> {
    Empty,
    Link(LinkHome<O>),
    Message(Letter),
    /// It lies nowhere: a step that takes a link is told the ways of the links by it, for the proof alone.
    Ways(Ways),
}
