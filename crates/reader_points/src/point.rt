ghost use Rattle.std.specs.Prelude.{◌≡◌, ◌≤◌, ◌+◌, nat_lt};
ghost use Rattle.reader_points.specs.ReaderPoints.{count_of, room};

use call_points::{Aside, EndStep, Locker, WordStep};
use id_points::{AttemptNumber, CallId};
use seat_states::{ReleaseStep, TableStep};
use sock_words::{IdWord, SocketId};

/// How many bytes of a link are read at most, 2^24.
pub const LIMIT: u32 = 16_777_216;

/// How many bytes a reader takes at once at most.
const PIECE: u32 = 4096;

/// How many bytes came over a link, at most `LIMIT`.
#[derive(Clone, Copy)]
pub struct ByteCount(u32);

impl ByteCount {
    /// Before the first byte.
    pub const NONE: ByteCount = ByteCount(0);

    /// The count as a number.
    pub fn get(self) -> u32
        ensures count { result ≡ count_of self }
        ensures few { result ≤ 16777216 }
    {
        self.0.min(LIMIT)
    }

    /// Whether more bytes may be taken.
    pub fn is_below_limit(self) -> bool
        ensures { result ≡ nat_lt (count_of self) 16777216 }
    {
        self.get() < LIMIT
    }

    /// How many bytes may be taken next.
    pub fn room(self) -> u32
        ensures { result ≡ room self }
    {
        PIECE.min(LIMIT - self.get())
    }

    /// The count behind so many more bytes.
    pub fn plus(self, more: u32) -> ByteCount
        requires { more ≤ room self }
        ensures { count_of result ≡ count_of self + more }
    {
        ByteCount(self.get() + more)
    }
}

/// The reader of a link: the link, its socket, and how many bytes came.
#[derive(Clone, Copy)]
pub struct Reader {
    pub link: u16,
    pub socket: SocketId,
    pub total: ByteCount,
}

/// A reading that has ended, by a frame fault or not, and how many of the calls were looked at.
#[derive(Clone, Copy)]
pub struct Closing {
    pub reader: Reader,
    pub fault: bool,
    pub next: u16,
}

/// A call whose attempt of this number went over the link of a reading that has ended: an error of the attempt ends it.
#[derive(Clone, Copy)]
pub struct Lost {
    pub closing: Closing,
    pub id: CallId,
    pub attempt: AttemptNumber,
}

/// What follows the end of a call by a response.
#[derive(Clone, Copy)]
pub enum Behind {
    /// The next frame,
    Frames(Reader),
    /// or, where the response was kept and the reading has ended, the next call.
    Posts(Closing),
}

/// Where the end of a call by a response stands.
/// The id is locked, the response looked at, the range destroyed (bthread_id.md).
#[derive(Clone, Copy)]
pub enum AnswerStep {
    /// The call is taken out of its home,
    Take,
    /// and the range of the call of this operation ends.
    End(u16, EndStep),
}

/// Where the end of a call by an error stands, by whoever has its id locked, which has this word.
#[derive(Clone, Copy)]
pub enum FailStep {
    /// The call is taken out of its home,
    Take(IdWord),
    /// its range ends,
    Judge(IdWord),
    /// and the slot of the call of this operation may be claimed again.
    Free(u16),
}

/// Where the failing of a reader's socket stands.
#[derive(Clone, Copy)]
pub enum CloseStep {
    /// A reference to its life is added,
    AddRef,
    /// it is set failed,
    SetOdd,
    StoreCode,
    /// the reference that creation made is given back,
    ReleaseFirst,
    /// and then the reader's own.
    Release(ReleaseStep),
}

/// Where a reader stands in its program.
/// A reader cuts responses out of what its link gives and ends their calls by their correlation ids (io.md, baidu_std.md).
#[derive(Clone, Copy)]
pub enum ReadPoint {
    /// It has nothing left to do.
    Rest,
    /// The word of the `open` of this link and operation is waited for.
    Open(u16, u16),
    /// Bytes are taken.
    Take(Reader),
    /// The id of the response in hand is to be locked.
    Lock(Reader, Locker, WordStep),
    /// The call with this id ends with the response in hand.
    Answer(Behind, CallId, AnswerStep),
    /// The reader's socket is set failed.
    Close(Closing, CloseStep),
    /// The at word of the call of this operation is loaded,
    Load(Closing, u16),
    /// where it names the link, the error is posted to the call's id,
    Post(Lost, WordStep),
    /// and whoever gets the lock by that ends the call.
    Fail(Lost, FailStep),
    /// Behind a frame fault: so many bytes came over this link, and what comes now is thrown away.
    Discard(u16, ByteCount),
}

/// The next step of a reader.
#[derive(Clone, Copy)]
pub enum ReadStep {
    /// One on a word.
    Table(TableStep),
    /// One aside of the table of the sockets.
    Aside(Aside),
}

/// What a take found.
#[derive(Clone, Copy)]
pub enum Taken {
    /// So many bytes.
    Bytes(u32),
    /// Nothing is there yet.
    Nothing,
    /// Nothing will come: the link is at its end or failed, or the run ends.
    Over,
    /// The link was closed by its own socket.
    Closed,
}

/// How a reader goes on behind a step.
#[derive(Clone, Copy)]
pub enum ReadNext {
    Point(ReadPoint),
    /// The next frame is cut.
    Frames(Reader),
    /// The response in hand came before its range was made: it is kept, and then the next frame is cut.
    Early(Reader),
    /// The call of this operation and id ended with the response in hand.
    Answered(u16, CallId, Behind),
    /// The next call is looked at.
    Posts(Closing),
    /// The id of this call is locked and has this word: a kept response ends the call, or the error does.
    Locked(Lost, IdWord),
    /// This call, which is that of this operation, ended with the error.
    CallEnded(u16, Lost),
}
