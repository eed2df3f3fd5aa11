ghost use Rattle.std.specs.Prelude.{◌≡◌};
ghost use Rattle.script_items.specs.LineMeaning.{item};
ghost use Rattle.script_lang.specs.CountedLines.{no_counts, counted, stands_wrong, is_one_too_many, IsWithinLimits};

use script_items::Line;

/// The most clients of a script.
pub const MAX_CLIENTS: u32 = 31;
/// The most links of a script.
pub const MAX_LINKS: u32 = 31;
/// The most operations of a script, the setup's included.
pub const MAX_OPERATIONS: u32 = 4096;
/// The most lines of a schedule.
pub const MAX_TURNS: u32 = 4096;

/// What the lines so far have, as far as it decides where a line may stand and how large the
/// tables are.
#[derive(Clone, Copy, Drop)]
pub struct Counts {
    /// What the first `slots` line gives, where one came.
    pub slots: Option<u32>,
    /// What the first `requests` line gives, where one came.
    pub requests: Option<u32>,
    /// What the first `first` line gives, where one came.
    pub first: Option<u32>,
    /// Whether a line came that gives no size.
    pub others: bool,
    pub clients: u32,
    pub links: u32,
    /// The operations, the setup's included.
    pub operations: u32,
    /// The operations that are calls.
    pub calls: u32,
    /// Whether `sched` came.
    pub scheduled: bool,
    /// The lines of the schedule.
    pub turns: u32,
    /// Whether a link came that has no server.
    pub unserved: bool,
}

impl Counts {
    /// Before the first line.
    pub fn new() -> Self
        ensures { result ≡ no_counts }
    {
        Counts {
            slots: None,
            requests: None,
            first: None,
            others: false,
            clients: 0,
            links: 0,
            operations: 0,
            calls: 0,
            scheduled: false,
            turns: 0,
            unserved: false,
        }
    }

    /// Whether the line is at a wrong place behind these.
    pub fn is_misplaced(&self, line: &Line) -> bool
        ensures { result ≡ stands_wrong self.now (item line.now) }
    {
        match line {
            Line::Slots(_) => self.others || self.slots.is_some(),
            Line::Requests(_) => self.others || self.requests.is_some(),
            Line::First(_) => self.others || self.first.is_some(),
            Line::Open(_) | Line::Client | Line::Sched => self.scheduled,
            Line::Tick { .. } | Line::To { .. } => !self.scheduled,
            _ => self.clients == 0 || self.scheduled,
        }
    }

    /// Whether the line is one too many of its sort.
    pub fn is_one_too_many(&self, line: &Line) -> bool
        ensures { result ≡ is_one_too_many self.now (item line.now) }
    {
        match line {
            Line::Slots(_) | Line::Requests(_) | Line::First(_) | Line::Sched => false,
            Line::Client => self.clients >= MAX_CLIENTS,
            Line::Open(_) => self.links >= MAX_LINKS || self.operations >= MAX_OPERATIONS,
            Line::Tick { .. } | Line::To { .. } => self.turns >= MAX_TURNS,
            _ => self.operations >= MAX_OPERATIONS,
        }
    }

    /// These and one more line.
    pub fn with(self, line: &Line) -> Counts
        requires { IsWithinLimits self }
        ensures { result ≡ counted self (item line.now) }
    {
        match line {
            Line::Slots(count) => Counts {
                slots: self.slots.or(Some(*count)),
                ..self
            },
            Line::Requests(count) => Counts {
                requests: self.requests.or(Some(*count)),
                ..self
            },
            Line::First(version) => Counts {
                first: self.first.or(Some(*version)),
                ..self
            },
            Line::Open(open) => Counts {
                others: true,
                links: self.links + 1,
                operations: self.operations + 1,
                unserved: self.unserved || !open.shape.serve,
                ..self
            },
            Line::Client => Counts {
                others: true,
                clients: self.clients + 1,
                ..self
            },
            Line::Sched => Counts {
                others: true,
                scheduled: true,
                ..self
            },
            Line::Tick { .. } | Line::To { .. } => Counts {
                others: true,
                turns: self.turns + 1,
                ..self
            },
            Line::Call(_) => Counts {
                others: true,
                operations: self.operations + 1,
                calls: self.calls + 1,
                ..self
            },
            _ => Counts {
                others: true,
                operations: self.operations + 1,
                ..self
            },
        }
    }
}
