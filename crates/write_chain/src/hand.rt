// A message in hand goes to its link, piece by piece.
ghost use Rattle.std.specs.Prelude.{◌≡◌, ◌≢◌, ◌<◌, ◌++◌, ◌∷◌, [], false, length};
ghost use Rattle.sock_io.specs.declared.link.Put.TheVariants.{Failed};
ghost use Rattle.sock_io.specs.declared.link.Ready.TheVariants as ready;
ghost use Rattle.sock_io.specs.FaultCauses.{Rose};
ghost use Rattle.sock_io.specs.LinkHalves.{taken_of, PutStep, ReadyStep};
ghost use Rattle.write_chain.specs.declared.right.LinkCall.TheVariants as call;
ghost use Rattle.write_chain.specs.LinkCalls.{MayPut};
ghost use Rattle.write_chain.specs.Puts.{next_of, WentOn, Called};

use crate::right::{InHand, LinkCall};
use ghosts::Ghosts;
use sock_io::{Out, Put, Ready};
use sock_rule::LinkHome;

/// One call more.
#[inline(always)]
pub fn called(calls: &Ghosts<LinkCall>, call: LinkCall) -> Ghosts<LinkCall>
    ensures { result.list ≡ call ∷ calls.now.list }
{
    let before: Ghosts<LinkCall> = Ghosts::of(calls);
    let with = (before, call);
    Ghosts::of(&with)
}

/// W1: one put of this piece.
#[inline(always)]
pub fn put_once<O: Out>(home: &mut LinkHome<O>, piece: &[u8]) -> Put
    requires { 0 < length piece.now }
    ensures took { (home.new.took.list ≡ home.old.took.list ++ taken_of piece.now result) × (home.new.next ≡ home.old.next) }
    ensures step { PutStep (O.state home.old.out) (O.state home.new.out) piece.now result }
{
    let put = home.out.put(piece);
    let took: Ghosts<u8> = Ghosts::of(&home.took);
    let with = (took, piece, put);
    home.took = Ghosts::of(&with);
    put
}

/// W2: the link is asked once.
#[inline(always)]
pub fn ask_once<O: Out>(home: &mut LinkHome<O>) -> Ready
    ensures same { (home.new.took.list ≡ home.old.took.list) × (home.new.next ≡ home.old.next) }
    ensures step { ReadyStep (O.state home.old.out) (O.state home.new.out) result }
{
    home.out.ready()
}

impl<O: Out> InHand<O> {
    /// W1: the next piece of the message is put into the link, behind a look that found the life live. The put spends the look.
    #[inline(always)]
    pub fn put(&mut self) -> Put
        requires some { 0 < length (next_of self.old.bytes) }
        requires looked { MayPut self.old.calls.list }
        ensures has { WentOn self.old self.new (taken_of (next_of self.old.bytes) result) }
        ensures step { PutStep (O.state self.old.home.out) (O.state self.new.home.out) (next_of self.old.bytes) result }
        ensures called { Called (call.Put result) self.old self.new }
        ensures faults { result ≡ Failed → (O.state self.old.home.out).finished ≡ false → Rose (O.state self.old.home.out).faults (O.state self.new.home.out).faults }
        ensures kept { result ≢ Failed → (O.state self.new.home.out).faults ≡ (O.state self.old.home.out).faults }
    {
        let put = put_once(&mut self.home, self.bytes.next_piece());
        self.calls = called(&self.calls, LinkCall::Put(put));
        if let Put::Took(count) = put {
            self.bytes.take(count);
        }
        put
    }

    /// W2: whether the link takes more.
    #[inline(always)]
    pub fn ready(&mut self) -> Ready
        ensures has { WentOn self.old self.new [] }
        ensures step { ReadyStep (O.state self.old.home.out) (O.state self.new.home.out) result }
        ensures called { Called (call.Asked result) self.old self.new }
        ensures faults { result ≡ ready.Failed → (O.state self.old.home.out).finished ≡ false → Rose (O.state self.old.home.out).faults (O.state self.new.home.out).faults }
        ensures kept { result ≢ ready.Failed → (O.state self.new.home.out).faults ≡ (O.state self.old.home.out).faults }
    {
        let ready = ask_once(&mut self.home);
        self.calls = called(&self.calls, LinkCall::Asked(ready));
        ready
    }
}
