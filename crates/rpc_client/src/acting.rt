// What a client tells.
use sock_words::Outcome;

/// The outcome of the operation of this number.
#[derive(Drop)]
pub struct Told {
    pub number: u16,
    pub outcome: Outcome,
}
