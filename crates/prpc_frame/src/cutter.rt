ghost use Rattle.std.specs.Prelude.{◌≡◌, ◌≤◌, ℕ, List, ◌++◌, drop, true, false, IsOk, OnOk, OnErr, IfSome, MatchOption, Err};
ghost use Rattle.rpc_meta.specs.brpc_model.specs.Frame.{NoneYet, judged};
ghost use Rattle.rpc_meta.specs.brpc_model.specs.FrameStream.{stream_from};
ghost use Rattle.prpc_frame.specs.declared.fault.NextFault.TheVariants.{Frame as frame_fault};
ghost use Rattle.prpc_frame.specs.CutterAnswers.{Answers, Fed, tells_fault};
ghost use Rattle.prpc_frame.specs.Front.{LiesInFront, LeadsOn};
ghost use Rattle.prpc_frame.specs.HeldByCutter.{unfed, held_count, with_piece};
ghost use Rattle.prpc_frame.specs.CutterAnswerLeads.{Leads};

use crate::body::read_frame;
use crate::fault::{FrameFault, NextFault};
use crate::frame::Frame;
use crate::front::{FrontFrame, first_bytes, read_front};
use crate::header::read_header;
use ghosts::Ghosts;
use io_buf::{BlockPool, IoBuf, NoMemory};
use std::alloc::Global;
use std::marker::Model;

/// Cuts frames out of a stream that is fed to it in any pieces (brpc's baidu_std.md). Contracts see
/// the bytes that were fed and neither given nor let go, and whether it has answered their fault.
#[derive(Drop)]
pub struct Cutter {
    held: IoBuf,
    fault: Option<FrameFault>,
    // The bytes that have the fault, for the proofs.
    faulty: Ghosts<u8>,
    alloc: Global,
}

impl Model for Cutter {
    ghost use Rattle.prpc_frame.specs.Front.{LiesInFront, LeadsOn};
    ghost use Rattle.prpc_frame.specs.HeldByCutter.{Held, held_code};

    ghost Value = { Held };

    ghost coded = { held_code };

    ghost use Rattle.prpc_frame.specs.InsideCutter.{held_view, KeepsFault};

    ghost view = { held_view };

    ghost invariant = { KeepsFault };
}

impl Cutter {
    /// A cutter to which nothing was fed. It takes no memory.
    pub fn new(alloc: Global) -> Cutter
        ensures { result ≡ unfed }
    {
        Cutter {
            held: IoBuf::new(alloc),
            fault: None,
            faulty: Ghosts::of(&0u8),
            alloc,
        }
    }

    /// How many bytes it holds: those that were fed and neither given in a frame nor let go, which are
    /// those of the rest where `next` answers `None`; and 0 once `next` has answered a frame's fault.
    pub fn held(&self) -> usize
        ensures { result ≡ held_count self.now }
    {
        self.held.len()
    }

    /// Takes the next bytes of the stream. Once `next` has answered a frame's fault they are thrown
    /// away, and no memory is taken. After a refusal it is unchanged.
    pub fn feed(&mut self, pool: &mut BlockPool, piece: &[u8]) -> Result<(), NoMemory>
        ensures ok { OnOk result (Fed self.old.bytes piece.now self.new.bytes) }
        ensures kept { OnOk result (self.new ≡ with_piece self.old piece.now) }
        ensures told { self.old.told ≡ true → IsOk result }
        // Whatever follows, the stream is that of the bytes before and the piece.
        ensures stream { OnOk result ((at : ℕ) (more : List ℕ)
            → stream_from at (self.new.bytes ++ more) ≡ stream_from at (self.old.bytes ++ (piece.now ++ more))) }
        ensures err { OnErr result (self.new ≡ self.old) }
    {
        if self.fault.is_some() {
            return Ok(());
        }
        self.held.append_joined(pool, piece)
    }

    /// The next frame, or `None` while it isn't whole.
    ///
    /// Each fault comes as soon as the bytes that show it are there, and from then on for good: those
    /// bytes are let go. `NoMemory` changes nothing, and comes only where a frame is whole. While none is
    /// a call costs the same, however much is held, and a size that a header states reserves no room.
    pub fn next(&mut self) -> Result<Option<Frame>, NextFault>
        ensures exact { Answers (judged self.old.bytes) self.old.bytes result self.new.bytes }
        ensures told { self.new.told ≡ tells_fault result }
        ensures again { self.old.told ≡ true → tells_fault result ≡ true }
        ensures waits { judged self.old.bytes ≡ NoneYet → IsOk result }
        // In whatever pieces the stream goes on, it is this frame and the stream behind it.
        ensures stream { (at : ℕ) (more : List ℕ) → Leads at more self.old.bytes result self.new.bytes }
    {
        if let Some(fault) = self.fault {
            return Err(NextFault::Frame(fault));
        }
        let next = cut_frame(self.alloc, &mut self.held);
        if let Some(fault) = told_fault(&next) {
            self.faulty = Ghosts::of(&self.held);
            self.held = IoBuf::new(self.alloc);
            self.fault = Some(fault);
        }
        next
    }

    /// The frame at the front, where all of it lies in one piece: it is neither copied nor shared, and stays until
    /// `skip` lets it go. `None` says nothing of the bytes, and may always be answered.
    #[inline(always)]
    pub fn front(&self) -> Option<FrontFrame<'_>>
        ensures exact { IfSome result (λ frame. LiesInFront self.now frame) }
        // In whatever pieces the stream goes on, it is this frame and the stream behind it.
        ensures stream { IfSome result (λ frame. LeadsOn self.now.bytes frame) }
    {
        read_front(first_bytes(&self.held))
    }

    /// Lets the first bytes go, so many: those of the frame at the front, where `front` showed one.
    #[inline(always)]
    pub fn skip(&mut self, size: usize)
        requires { size ≤ held_count self.old }
        ensures bytes { self.new.bytes ≡ drop size self.old.bytes }
        ensures told { self.new.told ≡ self.old.told }
    {
        self.held.pop_front(size);
    }
}

// The frame's fault that is answered, if one is.
#[inline(always)]
fn told_fault(next: &Result<Option<Frame>, NextFault>) -> Option<FrameFault>
    ensures { MatchOption result (tells_fault next.now ≡ false) (λ fault. next.now ≡ Err (frame_fault fault)) }
{
    match next {
        Err(NextFault::Frame(fault)) => Some(*fault),
        Err(NextFault::NoMemory) | Ok(_) => None,
    }
}

// Cuts the frame at the front off.
#[inline(always)]
fn cut_frame(alloc: Global, held: &mut IoBuf) -> Result<Option<Frame>, NextFault>
    ensures exact { Answers (judged held.old.items) held.old.items result held.new.items }
    ensures waits { judged held.old.items ≡ NoneYet → IsOk result }
{
    let Some(sizes) = read_header(held)? else {
        return Ok(None);
    };
    let frame = read_frame(alloc, held, sizes)?;
    held.pop_front(12 + sizes.body as usize);
    Ok(Some(frame))
}
