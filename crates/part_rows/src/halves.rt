// What halves of links and their other ends answer. Nothing more is said of it, so that a row that asks often is proved soon.
ghost use Rattle.std.specs.Prelude.{◌≡◌, ◌<◌, true, length};

use sock_io::{In, Out, Peer, Put, Served, Take};

/// What the writing half answers to this piece.
pub fn put_on<O: Out>(out: &mut O, piece: &[u8]) -> Put
    requires { 0 < length piece.now }
{
    out.put(piece)
}

/// What the reading half answers.
pub fn take_of<I: In>(inn: &mut I, room: &mut [u8]) -> Take
    requires { 0 < length room.old }
{
    inn.take(room)
}

/// What the other end did; nothing where memory was wanting.
pub fn served_by<P: Peer>(peer: &mut P) -> Option<Served> {
    peer.serve().ok()
}

/// Ends the writing half.
pub fn end_of<O: Out>(out: &mut O)
    ensures { (O.state out.new).finished ≡ true }
{
    out.finish();
}
