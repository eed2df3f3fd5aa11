ghost use Rattle.std.specs.Prelude.{◌≡◌, Some};
ghost use Rattle.brpc_model.specs.Frame as model;
ghost use Rattle.brpc_model.specs.FrameStream.{Rest, Fault};
ghost use Rattle.brpc_model.specs.FramesText.{ending_line, fault_words};
ghost use Rattle.prpc_frame.specs.FrameMeaning.{fault_of};
ghost use Rattle.frame_print.specs.TextWrittenToSink.{Writes};
ghost use Rattle.frame_print.specs.FaultParts.{kind_of, place_of};

use crate::piece::{Piece, print_pieces};
use pb_wire::WireFault;
use prpc_frame::{FrameFault, MetaFault};
use sock_io::{Failed, Sink};

/// Writes the line of a rest of so many bytes. It takes no memory.
pub fn print_rest<K: Sink>(out: &mut K, len: usize) -> Result<(), Failed>
    ensures { Writes (K.state out.old) (K.state out.new) (ending_line (Rest len)) result }
{
    print_pieces(
        out,
        &[
            Piece::Text(b"rest "),
            Piece::Number(len as u64),
            Piece::Text(b"\n"),
        ],
    )
}

/// Writes the line of the fault of the frame that begins at a place. It takes no memory.
pub fn print_fault<K: Sink>(out: &mut K, start: usize, fault: FrameFault) -> Result<(), Failed>
    ensures { (f : model.FrameFault) → fault_of fault ≡ Some f →
        Writes (K.state out.old) (K.state out.new) (ending_line (Fault start f)) result }
{
    print_pieces(out, &[Piece::Text(b"fault "), Piece::Number(start as u64)])?;
    print_fault_words(out, fault)?;
    print_pieces(out, &[Piece::Text(b"\n")])
}

// ` KIND A` or ` KIND A B`.
fn print_fault_words<K: Sink>(out: &mut K, fault: FrameFault) -> Result<(), Failed>
    ensures { (f : model.FrameFault) → fault_of fault ≡ Some f →
        Writes (K.state out.old) (K.state out.new) (fault_words f) result }
{
    match fault {
        FrameFault::BadMagic { at } => {
            print_pieces(out, &[Piece::Text(b" 1 "), Piece::Number(u64::from(at))])
        }
        FrameFault::TooBig { size } => {
            print_pieces(out, &[Piece::Text(b" 2 "), Piece::Number(u64::from(size))])
        }
        FrameFault::MetaOver { meta, body } => {
            let (meta, body) = (
                Piece::Number(u64::from(meta)),
                Piece::Number(u64::from(body)),
            );
            print_pieces(out, &[Piece::Text(b" 3 "), meta, Piece::Text(b" "), body])
        }
        FrameFault::Meta(fault) => {
            let (kind, place) = kind_and_place(fault);
            let (kind, place) = (Piece::Number(kind), Piece::Number(place));
            print_pieces(out, &[Piece::Text(b" 4 "), kind, Piece::Text(b" "), place])
        }
        FrameFault::AttachOver { size, room } => {
            let (size, room) = (Piece::Signed(size), Piece::Number(u64::from(room)));
            print_pieces(out, &[Piece::Text(b" 5 "), size, Piece::Text(b" "), room])
        }
    }
}

// The number of a meta's fault, and its place, 0 where it has none.
fn kind_and_place(fault: MetaFault) -> (u64, u64)
    ensures kind { result.0 ≡ kind_of fault }
    ensures place { result.1 ≡ place_of fault }
{
    match fault {
        MetaFault::Wire(WireFault::Truncated { at }) => (1, at as u64),
        MetaFault::Wire(WireFault::LongVarint { at }) => (2, at as u64),
        MetaFault::Wire(WireFault::BadKey { at }) => (3, at as u64),
        MetaFault::Wire(WireFault::Group { at }) => (4, at as u64),
        MetaFault::NoService => (5, 0),
        MetaFault::NoMethod => (6, 0),
        MetaFault::Neither => (7, 0),
        // A frame's fault never has it.
        MetaFault::NoMemory => (0, 0),
    }
}
