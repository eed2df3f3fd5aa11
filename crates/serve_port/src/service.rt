/// Why the service of a connection ended.
#[derive(Clone, Copy, Debug, PartialEq, Eq)]
pub enum ServiceEnd {
    /// Its reading half answered its end.
    AtEnd,
    /// So many bytes came as are read of a connection.
    AtLimit,
    /// The bytes went on with no frame.
    AtFault,
    /// A take failed.
    TakeFailed,
    /// A put failed, or the wait for one.
    PutFailed,
    NoMemory,
}

/// How the service of a connection ended, and how many replies were made.
#[derive(Clone, Copy, Debug, PartialEq, Eq)]
pub struct Service {
    pub end: ServiceEnd,
    pub frames: u64,
}

/// Why connections weren't all served whole.
#[derive(Clone, Copy, Debug, PartialEq, Eq)]
pub enum ServeFault {
    /// An accept failed.
    AcceptFailed,
    /// A put or a take of a connection failed.
    ConnectionFailed,
    /// The bytes of a connection went on with no frame.
    FaultyFrame,
    NoMemory,
}
