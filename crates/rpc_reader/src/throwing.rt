// What a link gives behind a frame fault.
ghost use Rattle.std.specs.Prelude.{◌≡◌, ◌+◌, ◌<◌, ◌≤◌, true, false, length};
ghost use Rattle.rpc_reader.specs.Throwing.{ThrewOnce, ThrewAway};

use crate::reading::{LIMIT, room_behind};
use link_pauses::Pauses;
use sock_io::{In, Take};
use std::sync::Wait;

// Whether as many bytes came as are read from a link.
fn is_full(total: u32) -> bool
    ensures full { result ≡ true → 16777216 ≤ total }
    ensures below { result ≡ false → total < 16777216 }
{
    total >= LIMIT
}

// One take whose bytes are thrown away: whether it was the last.
fn throw_once<I: In, R: Wait>(
    rt: &R,
    inn: &mut I,
    total: &mut u32,
    room: &mut [u8],
    ending: bool,
    pauses: &Pauses,
) -> bool
    requires { (0 < length room.old) × (total.old + length room.old ≤ 16777216) }
    ensures { ThrewOnce ending result (I.state inn.old) (I.state inn.new) total.old total.new }
{
    match inn.take(room) {
        Take::Took(count) => {
            pauses.reset();
            *total += count as u32;
            is_full(*total)
        }
        Take::Empty => {
            if ending {
                true
            } else {
                pauses.pause(rt);
                false
            }
        }
        Take::End => true,
        Take::Closed => true,
        Take::Failed => true,
    }
}

/// Behind so many bytes, what comes over the link is thrown away, until nothing will come or the limit is reached.
pub fn throw_all<I: In, R: Wait>(rt: &R, inn: &mut I, total: u32, ending: bool)
    requires { total ≤ 16777216 }
    ensures { ThrewAway ending total (I.state inn.old) (I.state inn.new) }
{
    if total >= LIMIT {
        return;
    }
    let mut total = total;
    let pauses = Pauses::new();
    let mut room = [0u8; 4096];
    'throws: for _ in rt.forever() {
        let count = room_behind(total);
        let part = &mut room[..count];
        if throw_once(rt, inn, &mut total, part, ending, &pauses) {
            return;
        }
    }
    unreachable!()
}
