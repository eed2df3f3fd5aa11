ghost use Rattle.std.specs.Prelude.{◌≡◌, ◌+◌, ◌%◌, ◌<◌, map, IfOk};
ghost use Rattle.brpc_model.specs.DrawnSeatsAndScripts.{drawn, drawn_state, draws, state_behind};

use std::alloc::{AllocError, Global};

/// The factor of a step of the drawn numbers.
const FACTOR: u64 = 6_364_136_223_846_793_005;

/// What a step adds.
const STEP: u64 = 1_442_695_040_888_963_407;

/// Numbers drawn from a seed, one after another: with each draw the state x becomes
/// `(x * FACTOR + STEP) mod 2^64`, and its upper 31 bits are the number drawn.
#[derive(Drop)]
pub struct Draws {
    pub state: u64,
}

impl Draws {
    /// The draws from a seed.
    pub fn new(seed: u64) -> Self
        ensures { result.state ≡ seed }
    {
        Draws { state: seed }
    }

    /// The next number, 0 to 2^31 - 1. It never fails.
    pub fn draw(&mut self) -> u64
        ensures number { result ≡ drawn self.old.state }
        ensures state { self.new.state ≡ drawn_state self.old.state }
    {
        self.state = self.state.wrapping_mul(FACTOR).wrapping_add(STEP);
        self.state >> 33
    }

    /// The next byte: a number drawn, modulo 256.
    fn byte(&mut self) -> u8
        ensures number { result ≡ drawn self.old.state % 256 }
        ensures state { self.new.state ≡ drawn_state self.old.state }
    {
        (self.draw() % 256) as u8
    }

    /// So many bytes, each 0 to 255. The error is want of memory, after which some were drawn.
    pub fn bytes(&mut self, alloc: Global, count: usize) -> Result<Vec<u8>, AllocError>
        ensures bytes { IfOk result (λ b.
            b.items ≡ map (λ d. d % 256) (draws count self.old.state)) }
        ensures state { IfOk result (λ _. self.new.state ≡ state_behind count self.old.state) }
    {
        let mut bytes = Vec::new(alloc);
        for _ in 0..count {
            let byte = self.byte();
            bytes.push(byte)?;
        }
        Ok(bytes)
    }
}
