/// The time of the call is over: bRPC's `ERPCTIMEDOUT`.
pub const ERPCTIMEDOUT: u16 = 1008;

/// The socket was set failed by its link, or there is none: bRPC's `EFAILEDSOCKET`.
pub const EFAILEDSOCKET: u16 = 1009;

/// The other end closed the link, or gives nothing more: bRPC's `EEOF`.
pub const EEOF: u16 = 1014;

/// Memory ran out: bRPC's `EINTERNAL`.
pub const EINTERNAL: u16 = 2001;

/// What came is no response that can be read: bRPC's `ERESPONSE`.
pub const ERESPONSE: u16 = 2002;

/// Each request was found taken: this project's own.
pub const EREQUESTS: u16 = 3001;
