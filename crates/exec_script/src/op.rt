ghost use Rattle.std.specs.Prelude.{◌≡◌, ◌≤◌};
ghost use Rattle.exec_script.specs.Scripts.{change_of, IsChange};

/// What a task does to the accounts, which are numbered 0 to 15.
#[derive(Clone, Copy)]
pub enum Change {
    /// The amount is added to the account.
    Add { account: u8, amount: u64 },
    /// The amount is taken off the account.
    Sub { account: u8, amount: u64 },
    /// The amount is taken off one account and added to another.
    Move { from: u8, to: u8, amount: u64 },
}

/// What a line of a script asks for.
#[derive(Clone, Copy)]
pub enum Op {
    /// A task is submitted.
    Task(Change),
    /// The queue is stopped.
    Stop,
}

/// A change in plain numbers, as a task of a queue carries it.
#[derive(Clone, Copy)]
pub struct ChangeParts {
    /// 1 adds the amount to `a`, 2 takes it off `a`, 3 moves it from `a` to `b`.
    pub kind: u8,
    pub a: u8,
    /// 0 where there is no second account.
    pub b: u8,
    pub amount: u64,
}

impl Change {
    /// The change of these parts, whose kind is 1 to 3.
    pub fn of(parts: ChangeParts) -> Change
        requires some_kind { 1 ≤ parts.kind }
        requires kind { parts.kind ≤ 3 }
        requires a { parts.a ≤ 15 }
        requires b { parts.b ≤ 15 }
        ensures change { result ≡ change_of parts }
        ensures accounts { IsChange result }
    {
        let account = parts.a;
        let amount = parts.amount;
        match parts.kind {
            1 => Change::Add { account, amount },
            2 => Change::Sub { account, amount },
            _ => Change::Move {
                from: account,
                to: parts.b,
                amount,
            },
        }
    }

    /// Its parts.
    pub fn parts(self) -> ChangeParts
        requires { IsChange self }
        ensures change { change_of result ≡ self }
        ensures some_kind { 1 ≤ result.kind }
        ensures kind { result.kind ≤ 3 }
        ensures a { result.a ≤ 15 }
        ensures b { result.b ≤ 15 }
    {
        match self {
            Change::Add { account, amount } => ChangeParts {
                kind: 1,
                a: account,
                b: 0,
                amount,
            },
            Change::Sub { account, amount } => ChangeParts {
                kind: 2,
                a: account,
                b: 0,
                amount,
            },
            Change::Move { from, to, amount } => ChangeParts {
                kind: 3,
                a: from,
                b: to,
                amount,
            },
        }
    }
}
