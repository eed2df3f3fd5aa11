ghost use Rattle.std.specs.Prelude.{IsTrue, ◌≡◌, ◌≢◌, ◌<◌, [], length, map};
ghost use mathlib.Core.Option.{some};
ghost use lib.ListN.{get_elem?};
ghost use Rattle.sock_io.specs.LinkHalves.{PutStep, ReadyStep, end_of};
ghost use Rattle.seat_programs.specs.BufferParts.{part};
ghost use Rattle.seat_states.specs.ProgramAtPoint.{is_whole, parts_by};
ghost use Rattle.message_parts.specs.Parcels.{outgoing_of};
ghost use Rattle.machine_model.specs.MachineSteps.{AskedAt, left_behind, taken_behind};

use message_parts::OutgoingParcel;
use seat_states::Author;
use sock_io::{Ends, In, Out, Peer, Put, Ready};

/// Whether what is written may be of this author: a `send` has no frame.
pub fn is_of(out: &OutgoingParcel, author: Author) -> bool
    ensures { IsTrue result → parts_by author (outgoing_of out.now).parts ≡ (outgoing_of out.now).parts }
{
    match (out, author) {
        (OutgoingParcel::Frame(_), Author::Send(_)) => false,
        (OutgoingParcel::Message(_), _) | (_, Author::Attempt(_)) => true,
    }
}

/// Puts what is next of a message into a link; what the link answered, and whether it took all that was left.
pub fn put_bytes<O: Out, I: In, P: Peer>(
    ends: &mut [Ends<O, I, P>],
    link: u16,
    out: &mut OutgoingParcel,
) -> (Put, bool)
    requires there { link < length ends.old }
    requires some { part (outgoing_of out.old).parts (outgoing_of out.old).left (outgoing_of out.old).taken ≢ [] }
    ensures outs { AskedAt (map (λ (e : _). O.state e.out) ends.old) (map (λ (e : _). O.state e.out) ends.new) (map (λ (e : _). end_of (O.state e.out) (I.state e.inn)) ends.old) (map (λ (e : _). end_of (O.state e.out) (I.state e.inn)) ends.new) link (λ out' out''. PutStep out' out'' (part (outgoing_of out.old).parts (outgoing_of out.old).left (outgoing_of out.old).taken) result.0) }
    ensures inns { map (λ (e : _). I.state e.inn) ends.new ≡ map (λ (e : _). I.state e.inn) ends.old }
    ensures whole { result.1 ≡ is_whole (outgoing_of out.old).left result.0 }
    ensures left { (outgoing_of out.new).left ≡ left_behind result.0 (outgoing_of out.old).left }
    ensures taken { (outgoing_of out.new).taken ≡ taken_behind result.0 (outgoing_of out.old).taken }
    ensures parts { (outgoing_of out.new).parts ≡ (outgoing_of out.old).parts }
{
    let answer = ends[usize::from(link)].out.put(out.next_piece());
    match answer {
        Put::Took(count) => {
            out.take(count);
            (answer, out.is_whole_taken())
        }
        Put::Again | Put::Failed => (answer, false),
    }
}

/// Asks a link whether it takes more.
pub fn ask_ready<O: Out, I: In, P: Peer>(ends: &mut [Ends<O, I, P>], link: u16) -> Ready
    requires { link < length ends.old }
    ensures outs { AskedAt (map (λ (e : _). O.state e.out) ends.old) (map (λ (e : _). O.state e.out) ends.new) (map (λ (e : _). end_of (O.state e.out) (I.state e.inn)) ends.old) (map (λ (e : _). end_of (O.state e.out) (I.state e.inn)) ends.new) link (λ out out'. ReadyStep out out' result) }
    ensures inns { map (λ (e : _). I.state e.inn) ends.new ≡ map (λ (e : _). I.state e.inn) ends.old }
{
    ends[usize::from(link)].out.ready()
}
