ghost use Rattle.std.specs.Prelude.{◌≡◌, [], IfOk};
ghost use Rattle.sock_io.specs.LinkHalves.{IsFresh, IsUnused};
ghost use Rattle.sock_io.specs.MeetingOnOneThread.{AreEnds, IsAskedPeer};
ghost use Rattle.sock_io.specs.Peer.{IsNewPeer};
ghost use Rattle.ring_link.specs.RingHalves.{IsNewRing, ring_in, ring_out, ring_peer};

use crate::cell::{Cell, MarkLast};
use crate::inner::Inner;
use crate::reader::RingReader;
use crate::ring_in::RingIn;
use crate::ring_out::RingOut;
use crate::ring_peer::RingPeer;
use crate::writer::RingWriter;
use rtrb::RingBuffer;
use sock_io::{Ends, LinkSpec, NoMemory};
use std::alloc::Global;

/// How many bytes lie in a ring. One place more is for the mark.
const PLACES: usize = 65_536;

// The two ends of a ring.
#[derive(Drop)]
struct Ring {
    writer: RingWriter,
    reader: RingReader,
}

fn new_ring(alloc: Global) -> Result<Ring, NoMemory>
    ensures { IfOk result (λ r. IsNewRing r.writer r.reader) }
{
    match RingBuffer::<Cell>::with_protocol::<Global, MarkLast>(alloc, PLACES + 1) {
        Ok((producer, consumer)) => Ok(Ring {
            writer: RingWriter::new(producer),
            reader: RingReader::new(consumer),
        }),
        Err(_) => Err(NoMemory),
    }
}

/// A link of this number over two rings, of which each holds 65,536 bytes and a mark. Of what is asked it uses whether the
/// other end is the server, and after how many responses that gives its end.
pub fn open_ring(
    alloc: Global,
    spec: &LinkSpec,
    link: u16,
) -> Result<Ends<RingOut, RingIn, RingPeer>, NoMemory>
    ensures fresh { IfOk result (λ ends. IsFresh (ring_out ends.out) (ring_in ends.inn) link) }
    ensures peer { IfOk result (λ ends. IsNewPeer (ring_peer ends.peer)) }
    ensures other { IfOk result (λ ends. IsAskedPeer spec.now (ring_peer ends.peer)) }
    ensures one { IfOk result (λ ends. AreEnds (ring_out ends.out) (ring_peer ends.peer) (ring_in ends.inn)) }
    ensures unused { IfOk result (λ ends. (ends.out.writer.bytes ≡ []) × (ends.inn.met ≡ [])) }
    ensures there { IfOk result (λ ends. ends.out.writer.ring ≡ ends.peer.reader.ring) }
    ensures back { IfOk result (λ ends. ends.peer.writer.ring ≡ ends.inn.reader.ring) }
    ensures places { IfOk result (λ ends. (ends.out.writer.places ≡ 65536) × (ends.peer.writer.places ≡ 65536)) }
{
    let there = new_ring(alloc)?;
    let back = match new_ring(alloc) {
        Ok(back) => back,
        Err(fault) => {
            drop(there);
            return Err(fault);
        }
    };
    let inner = match Inner::new(alloc, spec.shape.serve, spec.shape.end) {
        Ok(inner) => inner,
        Err(fault) => {
            drop(there);
            drop(back);
            return Err(fault);
        }
    };
    Ok(Ends {
        out: RingOut::new(link, there.writer),
        inn: RingIn::new(back.reader),
        peer: RingPeer::new(there.reader, back.writer, inner),
    })
}

/// The halves of a connection, whose other end gave its end at once and takes nothing.
pub(crate) fn open_connection(alloc: Global) -> Result<(RingOut, RingIn), NoMemory>
    ensures unused { IfOk result (λ halves. IsUnused (ring_out halves.0) (ring_in halves.1)) }
    ensures none { IfOk result (λ halves. halves.0.writer.bytes ≡ []) }
{
    let Ring {
        writer,
        reader: unread,
    } = new_ring(alloc)?;
    drop(unread);
    let back = match new_ring(alloc) {
        Ok(back) => back,
        Err(fault) => {
            drop(writer);
            return Err(fault);
        }
    };
    let Ring {
        writer: mut other,
        reader,
    } = back;
    other.end();
    drop(other);
    Ok((RingOut::new(0, writer), RingIn::new(reader)))
}
