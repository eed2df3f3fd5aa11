ghost use Rattle.std.specs.Prelude.{◌≡◌, ◌≤◌, ◌*◌, [], vec_capacity, slice_index};
ghost use Rattle.sock_model.specs.SocketTableLayout.{place_index};
ghost use Rattle.seat_programs.specs.ScriptSetupToEnding.{place_words};

use sock_io::{Ends, In, Out, Peer};
use sock_model::{place_count, place_index};
use sock_words::{Outcome, PlaceWord, Plan};

/// What is left of a machine.
#[derive(Drop)]
pub struct Finished<O: Out, I: In, P: Peer> {
    /// The outcome of each operation, if it has one, in the order of the script.
    pub outcomes: Vec<Option<Outcome>>,
    /// The place of each message that was accepted, eight words for each operation.
    pub places: Vec<PlaceWord>,
    /// The links, in order of their numbers.
    pub ends: Vec<Ends<O, I, P>>,
}

/// The word of this number among the place words; 0 where the words end before it.
fn word_at(plan: &Plan, words: &[u64], number: u32) -> u64
    ensures { result ≡ slice_index words.now (place_index plan.now number) }
{
    let index = place_index(plan, number);
    if index < words.len() { words[index] } else { 0 }
}

/// The place words, into the room that was kept for them.
pub fn gather_places(places: &mut Vec<PlaceWord>, plan: &Plan, words: &[u64])
    requires none { places.old.items ≡ [] }
    requires room { 8 * plan.now.operations ≤ vec_capacity places.old }
    ensures { places.new.items ≡ place_words plan.now words.now }
{
    for number in 0..place_count(plan) {
        places.push_reserved(PlaceWord(word_at(plan, words, number)));
    }
}
