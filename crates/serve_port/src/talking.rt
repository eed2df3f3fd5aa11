// A connection is served to its end.
ghost use Rattle.std.specs.Prelude.{◌≡◌, true};
ghost use Rattle.sock_io.specs.LinkHalves.{IsUnused, end_of};
ghost use Rattle.rpc_server.specs.HeldByConnection.{unused};
ghost use Rattle.serve_port.specs.ServingConnections.{Serves};

use crate::answering::answer;
use crate::service::{Service, ServiceEnd};
use io_buf::BlockPool;
use link_pauses::Pauses;
use rpc_server::Conn;
use sock_io::{In, Out, Take};
use std::alloc::Global;
use std::sync::Wait;

/// So many bytes are read of a connection at most.
const MOST_BYTES: usize = 16_777_216;

/// So many are taken at once.
const ROOM_BYTES: usize = 4_096;

/// Reads to the end, and answers what comes.
fn talk<R: Wait, O: Out, I: In>(
    rt: &R,
    alloc: Global,
    pool: &mut BlockPool,
    conn: &mut Conn,
    out: &mut O,
    inn: &mut I,
) -> Service
    requires both { IsUnused (O.state out.old) (I.state inn.old) }
    requires anew { conn.old ≡ unused }
    ensures { Serves result (end_of (O.state out.new) (I.state inn.new)) }
{
    let mut room = [0u8; ROOM_BYTES];
    let mut left = MOST_BYTES;
    let pauses = Pauses::new();
    'takes: for _ in rt.forever() {
        if left == 0 {
            return service(ServiceEnd::AtLimit, conn);
        }
        let most = ROOM_BYTES.min(left);
        match inn.take(&mut room[..most]) {
            Take::Took(count) => {
                left -= count;
                pauses.reset();
                if let Err(end) = answer(rt, alloc, pool, conn, &room[..count], out) {
                    return service(end, conn);
                }
            }
            // `Closed` is for a half that was finished, which this one isn't yet
            Take::Empty | Take::Closed => pauses.pause(rt),
            Take::End => return service(ServiceEnd::AtEnd, conn),
            Take::Failed => return service(ServiceEnd::TakeFailed, conn),
        }
    }
    unreachable!()
}

/// How it ended, with the replies that the server made.
fn service(end: ServiceEnd, conn: &Conn) -> Service
    ensures { result ≡ record { end = end; frames = conn.now.made } }
{
    Service {
        end,
        frames: conn.replies(),
    }
}

/// Serves a connection that was accepted: takes what comes, in rooms of 4,096 bytes, and puts the replies to each frame that
/// became whole, until its reading half answers its end, 16,777,216 bytes came, the bytes go on with no frame, a take or a
/// put fails, or memory runs out. Then it finishes the writing half.
pub fn serve_one<R: Wait, O: Out, I: In>(rt: &R, alloc: Global, out: &mut O, inn: &mut I) -> Service
    requires { IsUnused (O.state out.old) (I.state inn.old) }
    ensures served { Serves result (end_of (O.state out.new) (I.state inn.new)) }
    ensures finished { (O.state out.new).finished ≡ true }
{
    let mut pool = BlockPool::new(alloc);
    let mut conn = Conn::new(alloc);
    let service = talk(rt, alloc, &mut pool, &mut conn, out, inn);
    out.finish();
    service
}
