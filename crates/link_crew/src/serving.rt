// The other end of a link, on a thread of its own.
ghost use Rattle.std.specs.Result.{is_err};
ghost use Rattle.link_crew.specs.ServingOtherEnd.{ServedToEnd};

use link_pauses::Pauses;
use sock_io::{NoMemory, Peer, Served};
use std::sync::Wait;

/// Serves the other end of a link until nothing will be moved any more. Where memory is wanting it gives its end, and then
/// throws away what comes.
pub fn serve_to_end<P: Peer, R: Wait>(rt: &R, peer: &mut P) -> Result<(), NoMemory>
    ensures { ServedToEnd (is_err result) (P.state peer.old) (P.state peer.new) }
{
    let pauses = Pauses::new();
    let mut short = false;
    'serves: for _ in rt.forever() {
        match peer.serve() {
            Ok(Served::Moved) => pauses.reset(),
            Ok(Served::Waiting) => pauses.pause(rt),
            Ok(Served::Done) => return if short { Err(NoMemory) } else { Ok(()) },
            Err(_) => short = true,
        }
    }
    unreachable!()
}
