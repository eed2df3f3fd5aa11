// The place words that a closed table leaves.
ghost use Rattle.chain_orders.specs.PlacesInOrder.{PlacesMessages};

use sock_io::Out;
use sock_rule::SockSeat;

/// Where a table is closed with these seats, and the place indexes of all messages that they sent differ, the messages stand in
/// one order, each seat's in its own; the place word of each tells its position among those of its link, and whether it was
/// dropped; and the link took the first ones, those that weren't dropped, each whole, and then at most a proper beginning of the
/// next.
pub fn messages_at_their_places<O: Out>(_seats: &[SockSeat<O>])
    ensures { PlacesMessages O.state _seats.now }
{}
