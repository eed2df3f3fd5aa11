use crate::halves::{end_of, put_on, served_by, take_of};
use ring_link::{RingIn, RingOut, RingPeer, open_ring};
use sock_io::{Ends, In, LinkSpec, Mode, Out, Peer, Put, Served, Shape, Take};
use std::sync::Wait;
use std::test::Fail;
use std::thread;
use std::thread::Threads;

// A request for an echo, and the reply to it.
const REQUEST: &[u8] =
    b"PRPC\x00\x00\x00\x12\x00\x00\x00\x10\x0a\x0c\x0a\x04Echo\x12\x04Echo\x20\x02hi";

const REPLY: &[u8] = b"PRPC\x00\x00\x00\x08\x00\x00\x00\x06\x12\x02\x08\x00\x20\x02hi";

fn asked() -> LinkSpec {
    LinkSpec {
        mode: Mode::Ring,
        shape: Shape {
            piece: 64,
            serve: true,
            ..Shape::plain()
        },
    }
}

// What a link answers to the request.
fn put_request<O: Out>(out: &mut O) -> Put {
    put_on(out, REQUEST)
}

// Whether the link takes a request, once nothing else is to be done, and its other end takes that in.
fn is_asked<O: Out, I: In, P: Peer>(out: &mut O, inn: &mut I, peer: &mut P) -> bool {
    let mut room = [0; 64];
    take_of(inn, &mut room) == Take::Empty
        && served_by(peer) == Some(Served::Waiting)
        && put_request(out) == Put::Took(30)
        && served_by(peer) == Some(Served::Moved)
}

// Whether the other end gives the reply, and the link is ended then.
fn is_answered<O: Out, I: In, P: Peer>(out: &mut O, inn: &mut I, peer: &mut P) -> bool {
    let mut room = [0; 64];
    let is_given = served_by(peer) == Some(Served::Moved)
        && take_of(inn, &mut room) == Take::Took(20)
        && room.starts_with(REPLY);
    end_of(out);
    is_given && put_request(out) == Put::Failed
}

// Whether the other end sees the end, and closes its half.
fn is_closed<I: In, P: Peer>(inn: &mut I, peer: &mut P) -> bool {
    let mut room = [0; 64];
    served_by(peer) == Some(Served::Moved)
        && take_of(inn, &mut room) == Take::Empty
        && served_by(peer) == Some(Served::Done)
        && take_of(inn, &mut room) == Take::Closed
}

#[test]
fn a_request_is_answered(rt: HostRuntime) -> Result<(), Fail> {
    let ends = open_ring(rt.alloc(), &asked(), 3).ok().ok_or("memory")?;
    let Ends {
        mut out,
        mut inn,
        mut peer,
    } = ends;
    assert!(rt; is_asked(&mut out, &mut inn, &mut peer));
    assert!(rt; is_answered(&mut out, &mut inn, &mut peer));
    assert!(rt; is_closed(&mut inn, &mut peer));
    Ok(())
}

// Puts the whole piece.
fn put_whole<R: Wait, O: Out>(rt: &R, out: &mut O, piece: &[u8]) {
    let mut at = 0usize;
    for _ in rt.forever() {
        if at >= piece.len() {
            return;
        }
        match put_on(out, &piece[at..]) {
            Put::Took(count) => at = at.saturating_add(count),
            Put::Again | Put::Failed => thread::yield_now(),
        }
    }
}

// Takes until the link is closed, and answers how many bytes came.
fn take_rest<R: Wait, I: In>(rt: &R, inn: &mut I) -> usize {
    let mut room = [0; 64];
    let mut count = 0usize;
    for _ in rt.forever() {
        match take_of(inn, &mut room) {
            Take::Took(more) => count = count.saturating_add(more),
            Take::Empty => thread::yield_now(),
            Take::End | Take::Closed | Take::Failed => return count,
        }
    }
    count
}

// Sends so many requests, and answers how many bytes came back.
fn call_often<R: Wait, O: Out, I: In>(rt: &R, out: O, inn: I, calls: u32) -> usize {
    let mut out = out;
    let mut inn = inn;
    let mut room = [0; 64];
    let mut count = 0usize;
    for _ in 0..calls {
        put_whole(rt, &mut out, REQUEST);
        if let Take::Took(more) = take_of(&mut inn, &mut room) {
            count = count.saturating_add(more);
        }
    }
    end_of(&mut out);
    count.saturating_add(take_rest(rt, &mut inn))
}

// Serves until all is done.
fn serve_all<R: Wait, P: Peer>(rt: &R, peer: P) {
    let mut peer = peer;
    for _ in rt.forever() {
        match served_by(&mut peer) {
            Some(Served::Waiting) => thread::yield_now(),
            Some(Served::Done) => return,
            Some(Served::Moved) | None => {}
        }
    }
}

// One thread calls, and another serves.
fn call_across<R: Threads + Wait + Sync>(
    rt: &R,
    ends: Ends<RingOut, RingIn, RingPeer>,
    calls: u32,
) -> usize {
    let Ends { out, inn, peer } = ends;
    let (_, count) = thread::join(
        rt,
        move || serve_all(rt, peer),
        move || call_often(rt, out, inn, calls),
    );
    count
}

#[test]
fn one_thread_calls_and_another_serves(rt: HostRuntime) -> Result<(), Fail> {
    let ends = open_ring(rt.alloc(), &asked(), 0).ok().ok_or("memory")?;
    assert!(rt; call_across(&rt, ends, 3_000) == 60_000);
    Ok(())
}
