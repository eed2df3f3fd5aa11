use crate::table_step::TableStep;
use call_points::{Aside, DecideStep, OnCall, WordStep};
use id_points::{AttemptNumber, CallId};
use sock_words::{IdWord, Outcome, SocketId, Ticket, Vref};

/// An attempt of a call: the number of its operation, its id, and the number of the attempt, counted from 0.
/// Each attempt has its version of the call's id (bthread_id.md).
#[derive(Clone, Copy)]
pub struct Attempt {
    pub operation: u16,
    pub id: CallId,
    pub number: AttemptNumber,
}

/// Who wrote a message.
#[derive(Clone, Copy)]
pub enum Author {
    /// The operation `send` of this number.
    Send(u16),
    /// An attempt of a call.
    Attempt(Attempt),
}

/// What an `open` is about: its number in the script, and the numbers of its name and its link.
#[derive(Clone, Copy)]
pub struct Opening {
    pub operation: u16,
    pub name: u16,
    pub link: u16,
}

/// Where an `open` stands, by the step that comes next.
/// bRPC's `Create` (versioned_ref_with_id.h).
#[derive(Clone, Copy)]
pub enum OpenStep {
    /// This slot is tried.
    Claim(u16),
    /// The slot is claimed, and gets its link,
    StoreLink(u16),
    /// then its idle head,
    ResetHead(u16),
    /// then the code 0,
    ClearCode(u16),
    /// and then its first reference.
    CreateLife(u16),
    /// The life of this slot and version is told in the word of the `open`,
    StoreOpen(u16, u32),
    /// and then in the word of the name.
    StoreName(u16, u32),
    /// No slot was free: the link is taken,
    TakeLink,
    /// its writing half is ended,
    FinishLink,
    /// it is put back,
    PutLink,
    /// and the word of the `open` says so.
    StoreNone,
}

/// Why a life is addressed.
#[derive(Clone, Copy)]
pub enum Aim {
    Hold {
        operation: u16,
        name: u16,
    },
    Send {
        operation: u16,
        name: u16,
    },
    Fail {
        operation: u16,
        name: u16,
        code: u16,
    },
    /// The ending of the socket of an `open`.
    End {
        operation: u16,
    },
}

/// Where the way to a life stands.
/// bRPC's `Address` (versioned_ref_with_id.h).
#[derive(Clone, Copy)]
pub enum SeekStep {
    /// The word with its id is loaded.
    Load,
    /// A reference to the life of this id is added.
    AddRef(SocketId),
}

/// A life that is held and is to be set failed, with which code; and by which operation, or by the ending.
#[derive(Clone, Copy)]
pub struct Failing {
    pub id: SocketId,
    pub code: u16,
    pub operation: Option<u16>,
}

/// Where the failing of a life stands. The word is that which the first step found.
/// bRPC's `SetFailed` (versioned_ref_with_id.h, socket.cpp).
#[derive(Clone, Copy)]
pub enum FailStep {
    SetOdd,
    StoreCode(Vref),
    /// The reference that creation made is given back.
    ReleaseFirst(Vref),
}

/// What follows a release.
#[derive(Clone, Copy)]
pub enum Continuation {
    /// The operation found another version.
    Gone { operation: u16, found: Vref },
    /// The operation `fail` is done, and had found this word.
    Failed { operation: u16, found: Vref },
    /// The operation `drop` is done.
    Dropped { operation: u16 },
    /// The operation `send` found each request taken.
    Full { operation: u16 },
    /// The message of the operation `send` was accepted.
    Sent { operation: u16 },
    /// A client goes on: it gave back what it held, or the life over which an attempt went.
    GaveBack,
    /// An attempt found another version than that of its socket.
    Unreached(Attempt),
    /// The ending of an `open` is done.
    Ended,
}

/// Where the release of a reference stands.
/// bRPC's `Dereference` (versioned_ref_with_id.h).
#[derive(Clone, Copy)]
pub enum ReleaseStep {
    SubRef,
    /// The exchange from this word is tried.
    Recycle(Vref),
    /// The slot was recycled to this version, and its link is loaded,
    LoadLink(u32),
    /// taken,
    TakeLink(u32, u16),
    /// ended,
    FinishLink(u32, u16),
    /// and put back.
    PutLink(u32, u16),
    FreeSlot,
}

/// How a release goes on behind a step.
#[derive(Clone, Copy)]
pub enum Released {
    Step(ReleaseStep),
    /// It is done, and recycled the slot or didn't.
    Done(bool),
}

/// A `send`, or an attempt of a call, that holds the life of this id.
#[derive(Clone, Copy)]
pub struct Sending {
    pub author: Author,
    pub id: SocketId,
}

/// Where a `send` or an attempt that holds a life stands, by the step that comes next.
#[derive(Clone, Copy)]
pub enum SendStep {
    /// The life's word is looked at.
    Look,
    /// This request is tried.
    Claim(u16),
    /// The request is claimed, with this ticket, and gets the message,
    PutMessage(u16, Ticket),
    /// then its next word is marked as not connected,
    Unconnect(u16, Ticket),
    /// and then the head is exchanged.
    SwapHead(u16, Ticket),
    /// The head was busy: the next word gets the ticket that was found there.
    Connect(u16, Ticket),
    /// The head was idle: the link of the life is found,
    FindLink(u16, Ticket),
    /// taken out of its home,
    TakeHome(u16, Ticket, u16),
    /// of whose messages so many have places, and then the message out of its own.
    TakeMessage(u16, Ticket, u16, u32),
}

/// Whoever writes a link: the life that it holds, its link, the ticket of the last message that it has to write, and how
/// many of the link's messages have places.
#[derive(Clone, Copy)]
pub struct Holder {
    pub id: SocketId,
    pub link: u16,
    pub last: Ticket,
    pub places: u32,
}

/// Whoever writes its link, and whose message it began with.
#[derive(Clone, Copy)]
pub struct Writer {
    pub author: Author,
    pub holder: Holder,
}

/// The message in hand: its ticket, and who sent it.
#[derive(Clone, Copy)]
pub struct MessageInHand {
    pub ticket: Ticket,
    pub author: Author,
}

/// Where whoever writes a link stands, by the step that comes next.
#[derive(Clone, Copy)]
pub enum WriteStep {
    /// The first look, before the first put.
    FirstLook(MessageInHand),
    /// A look comes before a put; whether the link answered since its last put that it takes more.
    Look(MessageInHand, bool),
    Put(MessageInHand, bool),
    /// The link took nothing of the last put, and is asked whether it takes more.
    Ask(MessageInHand),
    /// The link failed: its life is set failed.
    SetOdd(MessageInHand),
    StoreCode(MessageInHand),
    ReleaseFirst(MessageInHand),
    /// The link took the message whole: it gets its place.
    StorePlace(MessageInHand),
    /// The life failed: the message is dropped, behind a load of the error code.
    LoadCode(MessageInHand),
    DropPlace(MessageInHand, u16),
    /// The message of this ticket has its place and isn't the last: its next word is read. The call of a dropped message is
    /// told of it later.
    ReadNext(Ticket, Option<OnCall>),
    /// Its request is given back; then the call is told, and the message of the next ticket follows, if it wasn't the last
    /// one.
    Free(Ticket, Option<Ticket>, Option<OnCall>),
    /// The message of this ticket is taken out of its home.
    TakeMessage(Ticket),
    /// All have their places: the link goes home,
    PutHome,
    /// the head is tried,
    EmptyHead,
    /// and where it has this newer ticket, the link is taken again.
    TakeHome(Ticket),
    /// The walk from the first of these tickets has come to the second, whose successor is the third, or 0.
    Reversing(Ticket, Ticket, Ticket),
    /// The same, and the next word of the second was read: it had the fourth.
    ReverseNext(Ticket, Ticket, Ticket, Ticket),
    /// The walk from the first ended at the second, whose message is taken.
    TakeFirst(Ticket, Ticket),
}

/// What a client does behind the post of an error, and behind what it decided on it.
#[derive(Clone, Copy)]
pub enum AfterStep {
    /// Behind an attempt that wasn't written: it gives back the life of this slot, if it holds one, and goes on.
    Attempt(Option<u32>),
    /// Behind the operation `expire` of this number.
    Expire(u16),
    /// Behind a dropped message: whoever writes goes on with the message of the next ticket, or with the head.
    Drop(Writer, Option<Ticket>),
}

/// Where a `call` stands up to its first attempt; its id slot, and its socket.
#[derive(Clone, Copy)]
pub enum CallStep {
    /// The word of its first name is loaded.
    LoadName,
    /// This id slot is tried,
    ClaimId(u16, SocketId),
    /// the call goes into its home,
    PutCall(u16, SocketId),
    /// its id is made,
    MakeId(u16, SocketId),
    /// and told in the word of the operation.
    StoreCall(CallId, SocketId),
}

/// Where an attempt stands up to its look at the life's word.
#[derive(Clone, Copy)]
pub enum AttemptStep {
    /// A reference to the life of its socket is added,
    AddRef,
    /// its link is found,
    FindLink,
    /// and told in the at word of the call.
    StoreAt(u16),
}

/// Where a retry stands up to its attempt.
#[derive(Clone, Copy)]
pub enum RetryStep {
    /// The call's id is to be locked.
    Lock(WordStep),
    /// It has this word: the call is taken out of its home,
    TakeCall(IdWord),
    /// goes home again,
    PutCall(IdWord),
    /// and the lock is given back from this word, with an advance or without.
    Unlock(IdWord, bool),
    /// The word of the attempt's name is loaded.
    LoadName,
}

/// A retry: the call's id, the attempt that is to be tried, and the number of the name to which it goes, once it is known.
#[derive(Clone, Copy)]
pub struct Retrying {
    pub attempt: Attempt,
    pub name: u16,
}

/// Where a `join` stands: the word of the call is loaded, or the end of this id is waited for.
#[derive(Clone, Copy)]
pub enum JoinStep {
    LoadCall(u16),
    Wait(CallId),
}

/// Where a seat stands in its program.
#[derive(Clone, Copy)]
pub enum Point {
    /// It has nothing left to do.
    Rest,
    Open(Opening, OpenStep),
    Seek(Aim, SeekStep),
    Fail(Failing, FailStep),
    /// A reference to this slot is given back.
    Release(u32, Continuation, ReleaseStep),
    Send(Sending, SendStep),
    Write(Writer, WriteStep),
    /// The call in hand is begun.
    Call(CallStep),
    /// An attempt over the socket with this id.
    Attempt(Attempt, SocketId, AttemptStep),
    Post(OnCall, AfterStep, WordStep),
    Decide(OnCall, AfterStep, DecideStep),
    Retry(Retrying, RetryStep),
    /// The operation `expire` of this number, of the call of the second one.
    Expire(u16, u16),
    /// The operation `join` of this number.
    Join(u16, JoinStep),
}

/// The next step of a seat.
#[derive(Clone, Copy)]
pub enum Step {
    /// One on a word, or a move that tells nothing.
    Table(TableStep),
    /// One aside of the table of the sockets.
    Aside(Aside),
    /// The message of the seat into the home of this request, for its author.
    PutMessage(u16, Author),
    /// The message of this request is taken out of its home.
    TakeMessage(u16),
    /// This link is taken out of its home by whoever writes it,
    TakeHome(u16),
    /// and goes home with so many places.
    PutHome(u16, u32),
    /// What is next of the message in hand, of this author, is put into this link, which has answered or not since its last
    /// put that it takes more.
    PutBytes(u16, bool, Author),
    /// This link is asked whether it takes more.
    AskReady(u16),
}

/// How a seat goes on behind a step.
#[derive(Drop)]
pub enum Next {
    /// In the same operation.
    Point(Point),
    /// The operation of this number has its outcome.
    Said(u16, Outcome),
    /// The message of the operation of this number was accepted.
    Sent(u16),
    /// The operation `hold` of this number holds this life, under a name.
    Held(u16, u16, SocketId),
    /// The client goes on.
    GaveBack,
    /// The ending of an `open` is done.
    Ended,
    /// The call of this operation and id ended with this code.
    CallEnded(u16, CallId, u16, AfterStep),
    /// A retry is kept: this attempt of the call with this id,
    Kept(CallId, AttemptNumber, AfterStep),
    /// and first this error is decided on, by the word of the locked id.
    KeptWith(OnCall, AttemptNumber, IdWord, AfterStep),
}
