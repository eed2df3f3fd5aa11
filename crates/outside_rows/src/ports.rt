//! A server and a client of the top call beside each other, over TCP on 127.0.0.1.
use crate::answer::{Answer, answered, shown};
use crate::rows::asked_in;
use net_link::TcpLinker;
use prog_link::ProgLinker;
use sock_io::OpenGate;
use std::alloc::{AllocError, Global};
use std::io;
use std::net::{Ipv4Addr, Net, SocketAddr, TcpListener, TcpStream};
use std::sync::Wait;
use std::thread::{self, Threads};
use std::time::{Clock, Duration};

/// A client that calls a server.
const SCRIPT: &[u8] = b"open a serve\nclient\ncall a Echo.Echo 6869\n";

/// The status where a link could not be opened: nobody listens at the port yet, or it is taken.
const NO_LINK: u8 = 8;

/// How many ports are tried.
const PORTS: u8 = 4;

/// How often a client asks for a server, and for how many milliseconds it waits in between.
const TRIES: u32 = 10_000;

const PAUSE: u64 = 1;

/// What the server and the client answered.
#[derive(Drop)]
struct Beside {
    server: Answer,
    client: Answer,
}

/// A port of 127.0.0.1 at which nobody listens.
fn free_port<N: Net<Stream = TcpStream, Listener = TcpListener>>(net: &N) -> io::Result<u16> {
    let listener = TcpListener::bind(net, SocketAddr::from((Ipv4Addr::LOCALHOST, 0)))?;
    let address = listener.local_addr()?;
    Ok(address.port())
}

/// What `serve PORT 1` answers.
fn serve_one<
    R: Threads + Wait + Sync + Alloc<A = Global> + Net<Stream = TcpStream, Listener = TcpListener>,
>(rt: &R, port: u16) -> Option<Answer> {
    let alloc = rt.alloc();
    let words = format!(in alloc; "serve {port} 1").ok()?;
    let asked = asked_in(alloc, words.as_str(), Vec::new(alloc)).ok()?;
    answered(rt, asked, &mut TcpLinker::new(rt, alloc), &OpenGate).ok()
}

/// What `run PORT` answers.
fn run_once<
    R: Threads + Wait + Sync + Alloc<A = Global> + Net<Stream = TcpStream, Listener = TcpListener>,
>(rt: &R, port: u16) -> Option<Answer> {
    let alloc = rt.alloc();
    let words = format!(in alloc; "run {port}").ok()?;
    let script = Vec::from_slice(alloc, SCRIPT).ok()?;
    let asked = asked_in(alloc, words.as_str(), script).ok()?;
    answered(rt, asked, &mut ProgLinker::new(rt, alloc), &OpenGate).ok()
}

/// The same, as soon as somebody listens.
fn run_once_served<
    R: Threads + Wait + Sync + Alloc<A = Global> + Net<Stream = TcpStream, Listener = TcpListener>,
    C: Clock + Sync,
>(rt: &R, clock: &C, port: u16) -> Option<Answer> {
    for _ in 0..TRIES {
        let answer = run_once(rt, port)?;
        if answer.status != NO_LINK {
            return Some(answer);
        }
        thread::sleep(clock, Duration::from_millis(PAUSE));
    }
    run_once(rt, port)
}

/// Both at once; at another port where this one was taken in between.
fn both_at_once<
    R: Threads + Wait + Sync + Alloc<A = Global> + Net<Stream = TcpStream, Listener = TcpListener>,
    C: Clock + Sync,
>(rt: &R, clock: &C) -> Option<Beside> {
    for _ in 0..PORTS {
        let port = free_port(rt).ok()?;
        let (served, ran) = thread::join(
            rt,
            move || serve_one(rt, port),
            move || run_once_served(rt, clock, port),
        );
        let (server, client) = (served?, ran?);
        if server.status != NO_LINK || client.status != NO_LINK {
            return Some(Beside { server, client });
        }
    }
    None
}

/// What both answer, the client to a script with one call.
pub fn over_ports<
    R: Threads + Wait + Sync + Alloc<A = Global> + Net<Stream = TcpStream, Listener = TcpListener>,
    C: Clock + Sync,
>(rt: &R, clock: &C) -> Result<String, AllocError> {
    let alloc = rt.alloc();
    let Some(Beside { server, client }) = both_at_once(rt, clock) else {
        return String::from_str(alloc, "no port or no memory");
    };
    let server = shown(alloc, &server)?;
    let client = shown(alloc, &client)?;
    format!(in alloc; "server {server} client {client}")
}
