ghost use Rattle.std.specs.Prelude.{◌≡◌, ◌∷◌, ◌++◌, decimal, OnOk};

use itoa::write_digits;
use std::alloc::AllocError;

/// Room for two numbers of 20 digits and a byte between them.
const ROOM: usize = 41;

/// Appends two numbers in decimal and a byte between them, all at once.
pub fn push_pair(text: &mut Vec<u8>, first: u64, mark: u8, second: u64) -> Result<(), AllocError>
    ensures { OnOk result (text.new.items ≡ text.old.items ++ (decimal first ++ mark ∷ decimal second)) }
{
    let mut room = [0; ROOM];
    let behind = write_digits(second, &mut room, ROOM);
    room[behind - 1] = mark;
    let start = write_digits(first, &mut room, behind - 1);
    text.extend_from_slice(&room[start..])?;
    Ok(())
}
