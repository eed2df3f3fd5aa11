ghost use Rattle.ring_link.specs.Cells.{IsOpen, ending_of};

use rtrb::Protocol;

/// What lies in a place of a ring: a byte, or the mark behind all bytes.
#[derive(Clone, Copy)]
pub(crate) enum Cell {
    Byte(u8),
    /// The direction was ended.
    Ended,
    /// It was closed, since the link was finished.
    Closed,
}

/// Nothing is put behind a mark.
#[derive(Clone, Copy)]
pub(crate) struct MarkLast;

impl Protocol<Cell> for MarkLast {
    ghost allows = { λ before _. IsOpen (ending_of before) };
}
