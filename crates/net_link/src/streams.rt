ghost use Rattle.std.specs.Prelude.{◌≡◌, IfOk};
ghost use Rattle.net_link.specs.NetworkLinkHalves.{new_in, new_out};

use crate::tcp_in::TcpIn;
use crate::tcp_out::TcpOut;
use sock_io::Failed;
use std::net::{Ipv4Addr, Net, OpenListener, SocketAddr, TcpListener, TcpStream};

/// This machine, at a port.
fn here(port: u16) -> SocketAddr {
    SocketAddr::from((Ipv4Addr::LOCALHOST, port))
}

/// Whether a stream is connected with itself. The system may do so where nobody listens at the port, since it is free to
/// give a stream that very port.
fn is_its_own_end(stream: &TcpStream) -> bool {
    match (stream.local_addr(), stream.peer_addr()) {
        (Ok(near), Ok(far)) => near == far,
        _ => false,
    }
}

/// The two halves of a stream, as the link of this number. What is put goes out at once.
fn split(stream: TcpStream, link: u16) -> Result<(TcpOut, TcpIn), Failed>
    ensures out { IfOk result (λ halves. halves.0 ≡ new_out link) }
    ensures inn { IfOk result (λ halves. halves.1 ≡ new_in) }
{
    let _ = stream.set_nodelay(true);
    match stream.try_clone() {
        Ok(reading) => Ok((TcpOut::new(link, stream), TcpIn::new(reading))),
        Err(_) => Err(Failed),
    }
}

/// Connects to the port, as the link of this number.
pub(crate) fn connect<N: Net<Stream = TcpStream, Listener = TcpListener>>(
    net: &N,
    port: u16,
    link: u16,
) -> Result<(TcpOut, TcpIn), Failed>
    ensures out { IfOk result (λ halves. halves.0 ≡ new_out link) }
    ensures inn { IfOk result (λ halves. halves.1 ≡ new_in) }
{
    match net.connect(here(port)) {
        Ok(stream) if !is_its_own_end(&stream) => split(stream, link),
        _ => Err(Failed),
    }
}

/// Waits for the next connection; listens at the port first, where nothing listens yet.
pub(crate) fn accept<N: Net<Stream = TcpStream, Listener = TcpListener>>(
    net: &N,
    listener: &mut Option<TcpListener>,
    port: u16,
) -> Result<(TcpOut, TcpIn), Failed>
    ensures out { IfOk result (λ halves. halves.0 ≡ new_out 0) }
    ensures inn { IfOk result (λ halves. halves.1 ≡ new_in) }
{
    if listener.is_none() {
        *listener = net.bind(here(port)).ok();
    }
    match listener {
        Some(listening) => accept_from(listening),
        None => Err(Failed),
    }
}

/// Waits for the next connection of a listener.
fn accept_from(listener: &TcpListener) -> Result<(TcpOut, TcpIn), Failed>
    ensures out { IfOk result (λ halves. halves.0 ≡ new_out 0) }
    ensures inn { IfOk result (λ halves. halves.1 ≡ new_in) }
{
    match listener.accept() {
        Ok((stream, _)) => split(stream, 0),
        Err(_) => Err(Failed),
    }
}
