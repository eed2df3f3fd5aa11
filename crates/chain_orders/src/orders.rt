// The order of messages that a closed table tells.
ghost use Rattle.chain_orders.specs.MessagesInOneOrder.{OrdersMessages};

use sock_io::Out;
use sock_rule::SockSeat;

/// Where a table is closed with these seats, and the place indexes of all messages that they sent differ, the messages stand in
/// one order, each seat's in its own, and each link took those to it in that order: each whole, then at most a proper beginning of
/// the next, and all of them unless its life was failed.
pub fn messages_in_one_order<O: Out>(_seats: &[SockSeat<O>])
    ensures { OrdersMessages O.state _seats.now }
{}
