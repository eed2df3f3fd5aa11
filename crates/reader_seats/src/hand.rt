ghost use Rattle.std.specs.Prelude.{◌≡◌, ◌++◌, ◌∷◌, [], List, true, map, OnOk};
ghost use Rattle.brpc_model.specs.Frame as model;
ghost use Rattle.prpc_frame.specs.FrameMeaning.{frame_of};
ghost use Rattle.reader_seats.specs.ResponseInHand.{frame_in, is_fresh, hand_of};

use io_buf::NoMemory;
use prpc_frame::Frame;

/// The response in a reader's hand.
#[derive(Drop)]
pub enum Hand {
    Empty,
    /// One that was cut, and isn't kept.
    Response(Frame),
    /// The one at this place among those kept.
    Kept(usize),
}

/// A hand with this response, if there is one.
pub fn hand_with(frame: Option<Frame>) -> Hand
    ensures { result ≡ hand_of frame }
{
    match frame {
        Some(frame) => Hand::Response(frame),
        None => Hand::Empty,
    }
}

/// The response in hand is kept.
pub fn keep(hand: &mut Hand, kept: &mut Vec<Frame>) -> Result<(), NoMemory>
    requires { is_fresh hand.old ≡ true }
    ensures { OnOk result ((others : List model.Frame) → map frame_of kept.new.items ≡ map frame_of kept.old.items ++ frame_in others hand.old ∷ []) }
{
    if kept.reserve(1).is_err() {
        return Err(NoMemory);
    }
    if let Hand::Response(frame) = std::mem::replace(hand, Hand::Empty) {
        kept.push_reserved(frame);
    }
    Ok(())
}
