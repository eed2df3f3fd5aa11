// A ring with one thread at each end, and a link over two of them.
ghost use Rattle.std.specs.Prelude.{◌<◌, length};

use crate::request::request_of;
use ring_link::{RingIn, RingOut, RingPeer, open_ring};
use sock_io::{Ends, In, LinkSpec, Mode, Out, Peer, Put, Served, Shape, Take};
use std::alloc::Global;
use std::sync::Wait;
use std::thread;
use std::thread::Threads;

/// A link whose other end gives its end at once, and from then on takes what comes and throws it away.
const SINK: LinkSpec = LinkSpec {
    mode: Mode::Ring,
    shape: Shape {
        piece: 65_536,
        again: 0,
        fail: 0,
        serve: true,
        end: Some(0),
    },
};

/// A link to a server.
const SERVER: LinkSpec = LinkSpec {
    mode: Mode::Ring,
    shape: Shape {
        piece: 65_536,
        again: 0,
        fail: 0,
        serve: true,
        end: None,
    },
};

/// What the writing half answers to this piece. Nothing more is said of it, nor of the others below, so that loops over them are
/// proved soon.
fn put_on<O: Out>(out: &mut O, piece: &[u8]) -> Put
    requires { 0 < length piece.now }
{
    out.put(piece)
}

/// What the reading half answers.
fn take_of<I: In>(inn: &mut I, room: &mut [u8]) -> Take
    requires { 0 < length room.old }
{
    inn.take(room)
}

/// What the other end did; nothing where memory was wanting.
fn served_by<P: Peer>(peer: &mut P) -> Option<Served> {
    peer.serve().ok()
}

/// A link of this kind.
fn link_of(alloc: Global, spec: &LinkSpec) -> Option<Ends<RingOut, RingIn, RingPeer>> {
    open_ring(alloc, spec, 0).ok()
}

/// Puts the whole piece: whether it was taken.
fn put_whole<R: Wait, O: Out>(rt: &R, out: &mut O, piece: &[u8]) -> bool {
    let mut at = 0usize;
    for _ in rt.forever() {
        if at >= piece.len() {
            return true;
        }
        match put_on(out, &piece[at..]) {
            Put::Took(count) => at = at.saturating_add(count),
            Put::Again => thread::yield_now(),
            Put::Failed => return false,
        }
    }
    false
}

/// Puts the piece so often and finishes the link: how many bytes that were.
fn put_often<R: Wait, O: Out>(rt: &R, out: O, piece: &[u8], count: u32) -> u64 {
    let mut out = out;
    let mut bytes = 0u64;
    for _ in 0..count {
        if put_whole(rt, &mut out, piece) {
            bytes = bytes.wrapping_add(piece.len() as u64);
        }
    }
    out.finish();
    bytes
}

/// Serves the other end until nothing more comes: whether memory was there.
fn serve_all<R: Wait, P: Peer>(rt: &R, peer: P) -> bool {
    let mut peer = peer;
    let mut whole = true;
    for _ in rt.forever() {
        match served_by(&mut peer) {
            Some(Served::Moved) => {}
            Some(Served::Waiting) => thread::yield_now(),
            Some(Served::Done) => return whole,
            // It gave its end, and throws away what comes.
            None => whole = false,
        }
    }
    whole
}

/// Takes until the link is closed: how many bytes came.
fn take_all<R: Wait, I: In>(rt: &R, inn: I) -> u64 {
    let mut inn = inn;
    let mut room = [0; 1_024];
    let mut bytes = 0u64;
    for _ in rt.forever() {
        match take_of(&mut inn, &mut room) {
            Take::Took(more) => bytes = bytes.wrapping_add(more as u64),
            Take::Empty => thread::yield_now(),
            Take::End | Take::Closed | Take::Failed => return bytes,
        }
    }
    bytes
}

/// Puts so many pieces of so many bytes on one thread and takes them on another: how many bytes came over.
pub fn carried<R: Threads + Wait + Sync>(
    rt: &R,
    alloc: Global,
    size: u32,
    count: u32,
) -> Option<u64> {
    let piece = vec![in alloc; 97; size as usize].ok()?;
    let Ends { out, inn: _, peer } = link_of(alloc, &SINK)?;
    let given = &piece;
    let (served, bytes) = thread::join(
        rt,
        move || serve_all(rt, peer),
        move || put_often(rt, out, given, count),
    );
    if served { Some(bytes) } else { None }
}

/// Makes so many calls with so many bytes on one thread, serves them on another, and takes the replies on a third: how many
/// bytes these have.
pub fn called<R: Threads + Wait + Sync>(
    rt: &R,
    alloc: Global,
    size: u32,
    count: u32,
) -> Option<u64> {
    let request = request_of(alloc, size).ok()?;
    let Ends { out, inn, peer } = link_of(alloc, &SERVER)?;
    let given = &request;
    let (served, (_, bytes)) = thread::join(
        rt,
        move || serve_all(rt, peer),
        move || {
            thread::join(
                rt,
                move || put_often(rt, out, given, count),
                move || take_all(rt, inn),
            )
        },
    );
    if served { Some(bytes) } else { None }
}
