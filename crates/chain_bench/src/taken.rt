// What a link took, and how long sends took.
ghost use Rattle.std.specs.Prelude.{◌≤◌};

/// The number and the thread of a message.
fn label_of(message: &[u8]) -> Option<(u64, u8)> {
    if message.len() != 32 {
        return None;
    }
    let mut number = 0u64;
    for byte in message.iter().take(8) {
        number = number.wrapping_mul(256).wrapping_add(u64::from(*byte));
    }
    let sender = message.last()?;
    Some((number, *sender))
}

/// How many messages these are: whole, and each thread's in its own order.
pub fn count_of(taken: &[u8]) -> Option<u64> {
    let mut next = [0u64; 256];
    let mut count = 0u64;
    for message in taken.chunks(32) {
        let (number, sender) = label_of(message)?;
        let own = next.get_mut(usize::from(sender))?;
        if *own != number {
            return None;
        }
        *own = own.wrapping_add(1);
        count = count.wrapping_add(1);
    }
    Some(count)
}

/// The time within which so many thousandths of the sends were done, of times in rising order.
pub fn time_at(times: &[u64], thousandths: usize) -> u64
    requires { thousandths ≤ 1000 }
{
    let place = times.len() / 1000 * thousandths;
    match times.get(place) {
        Some(time) => *time,
        None => 0,
    }
}
