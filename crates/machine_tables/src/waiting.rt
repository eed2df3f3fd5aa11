ghost use Rattle.std.specs.Prelude.{◌≡◌, ◌==◌, ◌&&◌, not, true, is_some, IfSome};
ghost use Rattle.corr_core.specs.IdSlotWord.{parts};
ghost use Rattle.id_points.specs.CallIdLoopTurns.{sought_as};
ghost use Rattle.seat_programs.specs.PostPrograms.{is_sought};
ghost use Rattle.seat_states.specs.ProgramAtPoint.{Context, point_program, HasLinkAt, TellsCodeAt};
ghost use Rattle.reader_points.specs.ReaderPoints as reading;
ghost use Rattle.machine_model.specs.MachineRuns.{IsWaitingFor, sought_id};
ghost use Rattle.machine_model.specs.TickAnswersOfStep.{waits_by};

use call_points::WordStep;
use corr_core::has_version;
use id_points::{Sought, is_awaited};
use machine_model::On;
use reader_points::ReadPoint;
use seat_states::{AttemptStep, JoinStep, Point, RetryStep, WriteStep};
use sock_words::{CorrelationId, IdWord, UNCONNECTED};

/// Whether what is sought is there and locked, by the word of its slot.
fn is_locked(there: bool, word: IdWord) -> bool
    ensures { result ≡ (there && not ((parts word.0).state == 1)) }
{
    there && word.state() != IdWord::OPEN
}

/// For what a client at this point waits, if its step, which found this word, shows that it waits.
pub fn awaited(point: &Point, found: u64) -> Option<On>
    ensures waits { (a : Context) → is_some result ≡ waits_by (point_program a point.now) found }
    ensures on { (a : Context) → IfSome result (IsWaitingFor (point_program a point.now)) }
{
    let word = IdWord(found);
    match *point {
        Point::Write(_, step) => match step {
            WriteStep::Reversing(_, at, _) => {
                if found == UNCONNECTED {
                    Some(On::Next(at.0))
                } else {
                    None
                }
            }
            _ => None,
        },
        Point::Retry(retrying, step) => match step {
            RetryStep::Lock(WordStep::Read) => {
                let id = retrying.attempt.id;
                if is_locked(is_awaited(id.first(), word), word) {
                    Some(On::Id(id.number()))
                } else {
                    None
                }
            }
            RetryStep::Lock(WordStep::Exchange(_)) => None,
            _ => None,
        },
        Point::Join(_, step) => match step {
            JoinStep::Wait(id) => {
                if is_awaited(id.first(), word) {
                    Some(On::Id(id.number()))
                } else {
                    None
                }
            }
            JoinStep::LoadCall(_) => None,
        },
        _ => None,
    }
}

/// Whether what is sought in an id slot is there, by its word.
fn is_there(sought: Sought, word: IdWord) -> bool
    ensures { result ≡ is_sought (sought_as sought) (parts word.0) }
{
    match sought {
        Sought::First(first) => is_awaited(first, word),
        Sought::Version(version) => has_version(word, version),
    }
}

/// The id by which it is sought in this slot.
fn sought_id(slot: u16, sought: Sought) -> u64
    ensures { result ≡ sought_id slot (sought_as sought) }
{
    let version = match sought {
        Sought::First(first) => first,
        Sought::Version(version) => version,
    };
    CorrelationId::pack(slot, version).0
}

/// The same of a reader, behind a step on a word.
pub fn awaited_by_reader(point: ReadPoint, found: u64) -> Option<On>
    ensures waits { (a : reading.Context) → is_some result ≡ waits_by (reading.point_program a point) found }
    ensures on { (a : reading.Context) → IfSome result (IsWaitingFor (reading.point_program a point)) }
{
    let word = IdWord(found);
    match point {
        ReadPoint::Open(_, operation) => {
            if found == 0 {
                Some(On::Open(operation))
            } else {
                None
            }
        }
        ReadPoint::Lock(_, locker, step) => match step {
            WordStep::Read => {
                if is_locked(is_there(locker.sought, word), word) {
                    Some(On::Id(sought_id(locker.slot, locker.sought)))
                } else {
                    None
                }
            }
            WordStep::Exchange(_) => None,
        },
        _ => None,
    }
}

/// Whether a client at this point has nothing left to do.
pub fn is_rest(point: &Point) -> bool
    ensures { result ≡ true → point.now ≡ Point.Rest }
{
    match *point {
        Point::Rest => true,
        _ => false,
    }
}

/// Whether the link at a point fits an at word, and the code of a dropped message an error.
pub fn stands(point: &Point) -> bool
    ensures link { result ≡ true → HasLinkAt point.now }
    ensures told { result ≡ true → TellsCodeAt point.now }
{
    match *point {
        Point::Attempt(_, _, AttemptStep::StoreAt(link)) => link < u16::MAX,
        Point::Write(_, WriteStep::DropPlace(_, code)) => code < 4096,
        _ => true,
    }
}
