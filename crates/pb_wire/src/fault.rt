/// What is wrong with the wire form, and the place where the varint, the key or the value begins.
///
/// Places are counted from the start of the bytes that were handed in.
#[derive(Clone, Copy, PartialEq, Eq, Debug)]
pub enum WireFault {
    /// The bytes end inside a varint or a value.
    Truncated { at: usize },
    /// A varint has a tenth byte with its high bit set.
    LongVarint { at: usize },
    /// A key above 4,294,967,295, or with number 0, or with wire type 6 or 7.
    BadKey { at: usize },
    /// A key with wire type 3 or 4, the ends of a group.
    Group { at: usize },
}
