// The ends of links are compared, once nobody else moves them.
ghost use Rattle.std.specs.Prelude.{◌≡◌, All, length};
ghost use Rattle.sock_io.specs.MeetingOnOneThread.{AreEnds};
ghost use Rattle.link_crew.specs.ComparedLinkEnds.{MetBelow};

use sock_io::{Ends, Linker};

/// The ends of each link are compared, in order: what its other end offered may become known by that.
pub fn meet_all<L: Linker>(links: &mut L, ends: &mut [Ends<L::O, L::I, L::P>])
    requires { All (λ e. AreEnds (L.O.state e.out) (L.P.state e.peer) (L.I.state e.inn)) ends.old }
    ensures ends { length ends.new ≡ length ends.old }
    ensures met { MetBelow L.O.state L.P.state L.I.state (length ends.old) ends.old ends.new }
    ensures says { L.state links.new ≡ L.state links.old }
{
    'meets: for one in ends.iter_mut() {
        links.meet(one);
    }
}
