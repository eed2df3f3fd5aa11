ghost use Rattle.std.specs.Prelude.{◌≡◌, map};
ghost use Rattle.brpc_model.specs.Items.{is_call, is_client, is_open, is_operation};
ghost use Rattle.brpc_model.specs.Operations.{slots, requests, first_version};
ghost use Rattle.script_items.specs.LineMeaning.{item};

use crate::line::Line;

/// The slots of the sockets where a script gives none.
pub const DEFAULT_SLOTS: u32 = 31;
/// The room for requests where a script gives none.
pub const DEFAULT_REQUESTS: u32 = 4096;
/// The first version of each slot where a script gives none.
pub const DEFAULT_FIRST: u32 = 0;

/// How many slots the sockets have.
pub fn slot_count(lines: &[Line]) -> u32
    ensures { result ≡ slots (map item lines.now) }
{
    for line in lines {
        if let Line::Slots(count) = line {
            return *count;
        }
    }
    DEFAULT_SLOTS
}

/// How many requests the table has room for.
pub fn request_count(lines: &[Line]) -> u32
    ensures { result ≡ requests (map item lines.now) }
{
    for line in lines {
        if let Line::Requests(count) = line {
            return *count;
        }
    }
    DEFAULT_REQUESTS
}

/// The first version of each slot.
pub fn first_version(lines: &[Line]) -> u32
    ensures { result ≡ first_version (map item lines.now) }
{
    for line in lines {
        if let Line::First(version) = line {
            return *version;
        }
    }
    DEFAULT_FIRST
}

/// Whether the line begins the next client.
pub fn is_client(line: &Line) -> bool
    ensures { result ≡ is_client (item line.now) }
{
    matches!(line, Line::Client)
}

/// Whether the line opens a link.
pub fn is_open(line: &Line) -> bool
    ensures { result ≡ is_open (item line.now) }
{
    matches!(line, Line::Open(_))
}

/// Whether the line is a call.
pub fn is_call(line: &Line) -> bool
    ensures { result ≡ is_call (item line.now) }
{
    matches!(line, Line::Call(_))
}

/// Whether the line is an operation of a client or of the setup.
pub fn is_operation(line: &Line) -> bool
    ensures { result ≡ is_operation (item line.now) }
{
    match line {
        Line::Slots(_) | Line::Requests(_) | Line::First(_) => false,
        Line::Client | Line::Sched | Line::Tick { .. } | Line::To { .. } => false,
        Line::Open(_) | Line::Send(_) | Line::Call(_) | Line::Expire(_) => true,
        Line::Join(_) | Line::Fail { .. } | Line::Hold(_) | Line::Drop(_) => true,
    }
}
