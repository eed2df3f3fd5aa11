/// What comes behind the bytes that a reading half in memory has.
#[derive(Clone, Copy, Debug, PartialEq, Eq)]
pub enum Ending {
    /// The other end may give more.
    Open,
    /// The other end gave its end.
    Ended,
    /// The link was finished, and the other end closed its half.
    Closed,
}
