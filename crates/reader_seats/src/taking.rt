ghost use Rattle.std.specs.Prelude.{◌≤◌, ℕ, List};
ghost use Rattle.sock_io.specs.LinkHalves.{IsTakeCount, taken_count};
ghost use Rattle.seat_programs.specs.FoundAndChangedAside.{at_last};
ghost use Rattle.reader_points.specs.ReaderPoints.{IsTaken, FitsRoom};
ghost use Rattle.reader_seats.specs.ReaderGoesOn.{taking_of};

use reader_points::Taken;
use sock_io::Take;

/// What a take found, by what the link answered; where the run is ending, what isn't there won't come.
pub fn taken_by(answer: Take, ending: bool) -> Taken
    requires { taken_count answer ≤ 4096 }
    ensures is { (room : List ℕ) → IsTakeCount room answer → IsTaken result (at_last ending (taking_of room answer)) }
    ensures fits { (most : ℕ) → taken_count answer ≤ most → FitsRoom most result }
{
    match answer {
        Take::Took(count) => Taken::Bytes(count as u32),
        Take::Empty if !ending => Taken::Nothing,
        Take::Empty | Take::End | Take::Failed => Taken::Over,
        Take::Closed => Taken::Closed,
    }
}
