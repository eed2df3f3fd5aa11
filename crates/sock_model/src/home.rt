use crate::chain::Heading;

/// What a home of the table has: each request has one, and then each link.
pub enum Home {
    Empty,
    /// The writing half that was handed in for this link, with what it took, how many of its messages have places, and whether it is finished.
    Link(u16, [u8; 0], u64, bool),
    Message(Heading, [u8; 0]),
}
