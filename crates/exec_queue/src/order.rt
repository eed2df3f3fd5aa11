// The order in which tasks were accepted, out of the words of their places.
ghost use Rattle.std.specs.Prelude.{◌≡◌, ◌*◌, ◌≤◌, ℕ, List, length, take};
ghost use Rattle.exec_queue.specs.LinesInOrder.{AreLinesOf};

use sock_words::PlaceWord;

/// What the place words tell: how many tasks were accepted, and how many of these were run.
#[derive(Clone, Copy)]
pub struct Counts {
    pub accepted: usize,
    pub ran: usize,
}

/// Puts each line at its position, where the order has that one.
pub fn put_lines(words: &[PlaceWord], order: &mut [u32]) -> Counts
    requires few { length order.old ≤ 4096 }
    requires words { 8 * length order.old ≤ length words.now }
    ensures lines { (lines : List ℕ) (kept : ℕ) → AreLinesOf words.now (length order.old) lines kept → take result.accepted order.new ≡ lines }
    ensures ran { (lines : List ℕ) (kept : ℕ) → AreLinesOf words.now (length order.old) lines kept → result.ran ≡ kept }
    ensures sized { length order.new ≡ length order.old }
    ensures accepted { result.accepted ≤ length order.old }
    ensures fewer { result.ran ≤ result.accepted }
{
    let mut counts = Counts {
        accepted: 0,
        ran: 0,
    };
    for line in 0..order.len() {
        let word = words[8 * line];
        let position = word.position() as usize;
        if !word.is_none() && position < order.len() {
            order[position] = line as u32 + 1;
            counts.accepted = counts.accepted.max(position + 1);
            if !word.dropped() {
                counts.ran = counts.ran.max(position + 1);
            }
        }
    }
    counts
}
