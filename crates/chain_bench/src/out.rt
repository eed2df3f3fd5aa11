// The writing half that is measured: it keeps what it takes, and takes its time.
ghost use Rattle.std.specs.Prelude.{◌≡◌, [], None, false, true};

use sock_io::{Out, Put, Ready};
use std::hint;

/// Passes so many turns of the processor's time.
pub fn spin(turns: u64) {
    for _ in 0..turns {
        hint::spin_loop();
    }
}

/// A writing half of link 0 in memory, whose put takes the whole piece and so many turns. It tells the proofs nothing of what it
/// took: that is looked at when all is over.
#[derive(Drop)]
pub struct SlowOut {
    bytes: Vec<u8>,
    turns: u64,
    faults: u64,
    finished: bool,
}

impl SlowOut {
    /// A half that took nothing yet, with room for what comes.
    pub fn new(room: Vec<u8>, turns: u64) -> Self
        ensures { ⟦<SlowOut as Out>⟧.state result ≡ record { link = 0; took = None; put_bytes = None; way = []; faults = 0; finished = false; clear = true; always_ready = true; again = false; steady = true; whole = false; pacing = None; answers = None } }
    {
        SlowOut {
            bytes: room,
            turns,
            faults: 0,
            finished: false,
        }
    }
}

impl Out for SlowOut {
    ghost state = { λ o. record { link = 0; took = None; put_bytes = None; way = []; faults = o.faults; finished = o.finished; clear = true; always_ready = true; again = false; steady = true; whole = false; pacing = None; answers = None } };

    fn put(&mut self, piece: &[u8]) -> Put {
        if self.finished {
            return Put::Failed;
        }
        spin(self.turns);
        match self.bytes.extend_from_slice(piece) {
            Ok(()) => Put::Took(piece.len()),
            Err(_) => {
                self.faults = self.faults.saturating_add(1);
                Put::Failed
            }
        }
    }

    fn ready(&mut self) -> Ready {
        if self.finished {
            Ready::Failed
        } else {
            Ready::Now
        }
    }

    fn finish(&mut self) {
        self.finished = true;
    }

    fn taken(&self) -> &[u8] {
        self.bytes.as_slice()
    }
}
