// A piece that came is answered.
ghost use Rattle.std.specs.Prelude.{◌≡◌, false};
ghost use Rattle.serve_port.specs.ServiceSteps.{AnswersPiece};

use crate::putting::put_all;
use crate::service::ServiceEnd;
use io_buf::{BlockPool, IoBuf};
use loop_link::feeds;
use rpc_server::Conn;
use sock_io::Out;
use std::alloc::Global;
use std::sync::Wait;

/// Feeds the server what came, and puts the replies to the frames that became whole.
pub fn answer<R: Wait, O: Out>(
    rt: &R,
    alloc: Global,
    pool: &mut BlockPool,
    conn: &mut Conn,
    piece: &[u8],
    out: &mut O,
) -> Result<(), ServiceEnd>
    requires { (O.state out.old).finished ≡ false }
    ensures { AnswersPiece (O.state out.old) conn.old piece.now result (O.state out.new) conn.new }
{
    let mut replies = IoBuf::new(alloc);
    let Ok(faulty) = feeds(conn, pool, piece, &mut replies) else {
        drop(replies);
        return Err(ServiceEnd::NoMemory);
    };
    let put = put_all(rt, pool, &mut replies, out);
    drop(replies);
    if put.is_err() {
        return Err(ServiceEnd::PutFailed);
    }
    if faulty {
        return Err(ServiceEnd::AtFault);
    }
    Ok(())
}
