ghost use Rattle.std.specs.Prelude.{◌≡◌, ◌<◌, ◌≤◌, [], true, IfOk, length};

use crate::halves::{end_of, put_on, take_of};
use net_link::{TcpLinker, read_some, write_some};
use sock_io::{Failed, In, LinkSpec, Linker, Mode, OpenFault, Out, Put, Shape, Take};
use std::alloc::Global;
use std::io::{ErrorKind, Read, Write};
use std::net::{Ipv4Addr, Net, SocketAddr, TcpListener, TcpStream};
use std::test::Fail;
use std::thread::Threads;
use std::{io, thread};

// A link of this mode.
fn asked(mode: Mode) -> LinkSpec
    ensures { result.shape.piece ≡ 64 }
{
    LinkSpec {
        mode,
        shape: Shape {
            piece: 64,
            ..Shape::plain()
        },
    }
}

// A listener at a port that the system chooses, and that port.
fn listen<N: Net<Stream = TcpStream, Listener = TcpListener>>(
    net: &N,
) -> io::Result<(TcpListener, u16)> {
    let listener = TcpListener::bind(net, SocketAddr::from((Ipv4Addr::LOCALHOST, 0)))?;
    let port = listener.local_addr()?.port();
    Ok((listener, port))
}

// A port at which nobody listens.
fn free_port<N: Net<Stream = TcpStream, Listener = TcpListener>>(net: &N) -> io::Result<u16> {
    let (_, port) = listen(net)?;
    Ok(port)
}

// What is heard: whether it is the message, what the takes answered, and what the put of the reply did.
type Heard = (bool, Take, Take, Put);

// What is said: whether the reply came, what the put of the message answered, and what the takes did.
type Said = (bool, Put, Take, Take);

// Takes a message and its end, then replies and ends the half.
fn hear_over<O: Out, I: In>(out: &mut O, inn: &mut I) -> Heard
    ensures { (O.state out.new).finished ≡ true }
{
    let mut room = [0; 64];
    let message = take_of(inn, &mut room);
    let end = take_of(inn, &mut [0; 8]);
    let reply = put_on(out, b"reply");
    end_of(out);
    (room.starts_with(b"message"), message, end, reply)
}

// Accepts a connection and hears what comes over it.
fn hear<L: Linker>(links: &mut L, port: u16) -> Option<Heard>
    requires { ((L.state links.old).accepted ≡ 0) × ((L.state links.old).done ≡ []) }
{
    let Ok((mut out, mut inn)) = links.accept(port) else {
        return None;
    };
    let heard = hear_over(&mut out, &mut inn);
    links.done(out, inn);
    Some(heard)
}

// Puts a message and ends the link, which stays the one that it is.
fn put_message<O: Out>(out: &mut O) -> Put
    ensures { (O.state out.new).link ≡ (O.state out.old).link }
{
    let answer = out.put(b"message");
    out.finish();
    answer
}

// Takes the reply and its end.
fn take_reply<I: In>(inn: &mut I) -> (bool, Take, Take) {
    let mut room = [0; 64];
    let reply = take_of(inn, &mut room);
    let end = take_of(inn, &mut [0; 8]);
    (room.starts_with(b"reply"), reply, end)
}

// Opens a link, puts a message and ends it, and then takes the reply; nothing where nobody listens yet.
fn say<L: Linker>(links: &mut L, port: u16) -> Option<Said>
    requires { ((L.state links.old).asked ≡ []) × ((L.state links.old).back ≡ []) }
{
    let Ok(mut ends) = links.open(&asked(Mode::Tcp(port))) else {
        return None;
    };
    let message = put_message(&mut ends.out);
    let (is_reply, reply, end) = take_reply(&mut ends.inn);
    links.back(0, ends);
    Some((is_reply, message, reply, end))
}

// What is tried, as soon as somebody listens.
fn once_heard<T: Drop, F: Fn() -> Option<T>>(tried: &F) -> Option<T>
    requires { F.IsAlwaysCallable tried.now }
{
    for _ in 0..1_000_000 {
        if let Some(answer) = tried() {
            return Some(answer);
        }
        thread::yield_now();
    }
    None
}

// What one thread heard, and what another one said.
fn converse<R: Threads + Net<Stream = TcpStream, Listener = TcpListener> + Sync>(
    rt: &R,
    alloc: Global,
    port: u16,
) -> (Option<Heard>, Option<Said>) {
    thread::join(
        rt,
        move || hear(&mut TcpLinker::new(rt, alloc), port),
        move || once_heard(&|| say(&mut TcpLinker::new(rt, alloc), port)),
    )
}

#[test]
fn message_and_its_end_come_over(rt: HostRuntime) -> Result<(), Fail> {
    let port = free_port(&rt)?;
    let (heard, said) = converse(&rt, rt.alloc(), port);
    assert!(rt; heard == Some((true, Take::Took(7), Take::End, Put::Took(5))));
    assert!(rt; said == Some((true, Put::Took(7), Take::Took(5), Take::End)));
    Ok(())
}

// Whether the first link of a linker isn't opened, in this mode.
fn is_refused<L: Linker>(links: &mut L, mode: Mode) -> bool
    requires { (L.state links.old).asked ≡ [] }
{
    matches!(links.open(&asked(mode)), Err(OpenFault::Failed))
}

#[test]
fn open_fails_where_nobody_listens(rt: HostRuntime) -> Result<(), Fail> {
    let port = free_port(&rt)?;
    for mode in [Mode::Tcp(port), Mode::Loop, Mode::Ring] {
        assert!(rt; is_refused(&mut TcpLinker::new(&rt, rt.alloc()), mode));
    }
    Ok(())
}

#[test]
fn accept_fails_where_another_one_listens(rt: HostRuntime) -> Result<(), Fail> {
    let (_listener, port) = listen(&rt)?;
    let mut links = TcpLinker::new(&rt, rt.alloc());
    assert!(rt; matches!(links.accept(port), Err(OpenFault::Failed)));
    Ok(())
}

// Whether a further link to the port is refused, once the next connection was accepted there.
fn refuses_behind<L: Linker, N: Net<Stream = TcpStream, Listener = TcpListener> + Drop>(
    net: N,
    alloc: Global,
    links: &mut L,
    port: u16,
) -> Option<bool>
    requires { ((L.state links.old).accepted ≡ 0) × ((L.state links.old).done ≡ []) }
{
    let Ok((mut out, inn)) = links.accept(port) else {
        return None;
    };
    let refuses = is_refused(&mut TcpLinker::new(net, alloc), Mode::Tcp(port));
    end_of(&mut out);
    links.done(out, inn);
    Some(refuses)
}

// Whether nobody listens any more behind the last connection.
fn closes_behind_last<R: Threads + Net<Stream = TcpStream, Listener = TcpListener> + Sync>(
    rt: &R,
    alloc: Global,
    port: u16,
) -> Option<bool> {
    let (refuses, _) = thread::join(
        rt,
        move || refuses_behind(rt, alloc, &mut TcpLinker::accepting(rt, alloc, 1), port),
        move || once_heard(&|| say(&mut TcpLinker::new(rt, alloc), port)),
    );
    refuses
}

#[test]
fn nobody_listens_behind_the_last_connection(rt: HostRuntime) -> Result<(), Fail> {
    let port = free_port(&rt)?;
    assert!(rt; closes_behind_last(&rt, rt.alloc(), port) == Some(true));
    Ok(())
}

// Whether the link fails now and from now on, and is not ended.
fn is_lost<O: Out, I: In>(out: &mut O, inn: &mut I) -> bool {
    let mut room = [0; 8];
    let has_failed = take_of(inn, &mut room) == Take::Failed
        && take_of(inn, &mut room) == Take::Failed
        && put_on(out, b"message") == Put::Failed;
    end_of(out);
    has_failed
}

// The other end of the next connection goes away with bytes that it didn't read.
fn lose_next(listener: &TcpListener) -> io::Result<()> {
    let (far, _) = listener.accept()?;
    far.peek(&mut [0; 8])?;
    Ok(())
}

// The link fails then and from then on, and is not ended.
#[test]
fn lost_connection_fails(rt: HostRuntime) -> Result<(), Fail> {
    let (listener, port) = listen(&rt)?;
    let mut links = TcpLinker::new(&rt, rt.alloc());
    let Ok(mut ends) = links.open(&asked(Mode::Tcp(port))) else {
        panic!(&rt; "no link");
    };
    assert!(rt; put_on(&mut ends.out, b"message") == Put::Took(7));
    assert!(rt; lose_next(&listener).is_ok());
    assert!(rt; is_lost(&mut ends.out, &mut ends.inn));
    Ok(())
}

// Whether it opens no link that isn't to go over TCP.
fn opens_no_loop<L: Linker>(links: &mut L) -> bool
    requires { length (L.state links.old).asked < 256 }
{
    links.open(&asked(Mode::Loop)).is_err()
}

// Whether nothing more comes.
fn is_at_end(far: &mut TcpStream) -> bool {
    matches!(far.read(&mut [0; 8]), Ok(0))
}

// The linker is still there then.
#[test]
fn link_is_closed_as_it_is_given_back(rt: HostRuntime) -> Result<(), Fail> {
    let (listener, port) = listen(&rt)?;
    let mut links = TcpLinker::new(&rt, rt.alloc());
    let Ok(ends) = links.open(&asked(Mode::Tcp(port))) else {
        panic!(&rt; "no link");
    };
    let Ok((mut far, _)) = listener.accept() else {
        panic!(&rt; "no connection");
    };
    links.back(0, ends);
    assert!(rt; is_at_end(&mut far));
    assert!(rt; opens_no_loop(&mut links));
    Ok(())
}

/// A signal interrupts the first call; the second one moves what it can, the third nothing, and the fourth fails.
#[derive(Drop)]
struct Shaky {
    calls: u8,
}

impl Shaky {
    fn answer(&mut self, most: usize) -> io::Result<usize>
        ensures { IfOk result (λ n. n ≤ most) }
    {
        self.calls = self.calls.saturating_add(1);
        match self.calls {
            1 => Err(ErrorKind::Interrupted.into()),
            2 => Ok(most.min(3)),
            3 => Ok(0),
            _ => Err(ErrorKind::ConnectionReset.into()),
        }
    }
}

impl Read for Shaky {
    fn read(&mut self, buf: &mut [u8]) -> io::Result<usize> {
        self.answer(buf.len())
    }
}

impl Write for Shaky {
    fn write(&mut self, buf: &[u8]) -> io::Result<usize> {
        self.answer(buf.len())
    }

    fn flush(&mut self) -> io::Result<()> {
        Ok(())
    }
}

#[test]
fn interrupted_calls_are_made_again(rt: HostRuntime) {
    let mut reader = Shaky { calls: 0 };
    for want in [Ok(3), Ok(0), Err(Failed)] {
        assert!(rt; read_some(&mut reader, &mut [0; 4]) == want);
    }
    let mut writer = Shaky { calls: 0 };
    for want in [Ok(3), Err(Failed), Err(Failed)] {
        assert!(rt; write_some(&mut writer, b"abcd") == want);
    }
}

// How many bytes a link has room for.
const LINK_ROOM: usize = 2_097_152;

// Puts twice as many bytes as a link has room for, and tells how many were taken.
fn flood<O: Out>(out: &mut O) -> usize {
    let piece = [97; 4_096];
    let mut put = 0usize;
    for _ in 0..1_024 {
        match put_on(out, &piece) {
            Put::Took(count) => put = put.saturating_add(count),
            Put::Again | Put::Failed => return put,
        }
    }
    put
}

// Takes all that comes, and tells how many bytes came.
fn drain<I: In>(inn: &mut I) -> usize {
    let mut room = [0; 4_096];
    let mut taken = 0usize;
    for _ in 0..10_000_000 {
        match take_of(inn, &mut room) {
            Take::Took(count) => taken = taken.saturating_add(count),
            _ => return taken,
        }
    }
    taken
}

// Accepts a connection and floods it.
fn flood_next<L: Linker>(links: &mut L, port: u16) -> usize
    requires { ((L.state links.old).accepted ≡ 0) × ((L.state links.old).done ≡ []) }
{
    let Ok((mut out, inn)) = links.accept(port) else {
        return 0;
    };
    let put = flood(&mut out);
    end_of(&mut out);
    links.done(out, inn);
    put
}

// Opens a link and takes all that comes; nothing where nobody listens yet.
fn drain_one<L: Linker>(links: &mut L, port: u16) -> Option<usize>
    requires { ((L.state links.old).asked ≡ []) × ((L.state links.old).back ≡ []) }
{
    let Ok(mut ends) = links.open(&asked(Mode::Tcp(port))) else {
        return None;
    };
    let taken = drain(&mut ends.inn);
    links.back(0, ends);
    Some(taken)
}

#[test]
fn connection_takes_more_than_a_link_has_room_for(rt: HostRuntime) -> Result<(), Fail> {
    let port = free_port(&rt)?;
    let net = &rt;
    let alloc = rt.alloc();
    let (put, taken) = thread::join(
        &rt,
        move || flood_next(&mut TcpLinker::new(net, alloc), port),
        move || once_heard(&|| drain_one(&mut TcpLinker::new(net, alloc), port)),
    );
    assert!(rt; put == 2 * LINK_ROOM);
    assert!(rt; taken == Some(put));
    Ok(())
}
