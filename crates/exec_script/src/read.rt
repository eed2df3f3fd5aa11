ghost use Rattle.std.specs.Prelude.{◌≡◌, ◌≤◌, ◌∷◌, ◌++◌, ℕ, [], length, All, IfOk, IfErr, OnOk};
ghost use Rattle.brpc_model.specs.Text.{words};
ghost use Rattle.script_items.specs.FollowingLineWords.{HasFirst};
ghost use Rattle.exec_script.specs.Scripts.{account_in, amount_in, with_amount, with_move, with_nothing, op_of_words, op_at, script_of, with_two, IsOp};
ghost use Rattle.exec_script.specs.declared.op.Change.{Change};

use crate::fault::{BAD_NUMBER, BAD_WORDS, ExecFault, TOO_MANY, UNKNOWN_WORD};
use crate::op::{Change, Op};
use line_words::{first_line, first_word, wide_number};
use std::alloc::{AllocError, Global};
use std::marker::Model;

/// The most lines of a script.
const MAX_LINES: u32 = 4096;

/// The number of an account, 0 to 15.
fn read_account(word: &[u8]) -> Result<u8, u8>
    ensures account { result ≡ account_in word.now }
    ensures range { IfOk result (λ account. account ≤ 15) }
{
    match wide_number(word) {
        Some(account) if account <= 15 => Ok(account as u8),
        _ => Err(BAD_NUMBER),
    }
}

/// An amount of 64 bits.
fn read_amount(word: &[u8]) -> Result<u64, u8>
    ensures { result ≡ amount_in word.now }
{
    wide_number(word).ok_or(BAD_NUMBER)
}

/// The next word of a line that must have one, and what follows it.
fn next_word(line: &[u8]) -> Result<(&[u8], &[u8]), u8>
    ensures word { IfOk result (λ p. words line.now ≡ p.0.now ∷ words p.1.now) }
    ensures none { IfErr result (λ e. (e ≡ 2) × (words line.now ≡ [])) }
{
    first_word(line).ok_or(BAD_WORDS)
}

/// The end of a line that must have no more words.
fn no_more_words(line: &[u8]) -> Result<(), u8>
    ensures none { IfOk result (λ _. words line.now ≡ []) }
    ensures more { IfErr result (λ e. (e ≡ 2) × HasFirst (words line.now)) }
{
    match first_word(line) {
        None => Ok(()),
        Some(_) => Err(BAD_WORDS),
    }
}

/// `A N`.
fn read_with_amount(args: &[u8]) -> Result<(u8, u64), u8>
    ensures words { (make : ℕ → ℕ → Change) → with_amount make (words args.now) ≡ with_two make result }
    ensures account { IfOk result (λ p. p.0 ≤ 15) }
{
    let (account, args) = next_word(args)?;
    let (amount, args) = next_word(args)?;
    no_more_words(args)?;
    let account = read_account(account)?;
    let amount = read_amount(amount)?;
    Ok((account, amount))
}

/// `A B N`, behind `move`.
fn read_move(args: &[u8]) -> Result<Op, u8>
    ensures words { result ≡ with_move (words args.now) }
    ensures accounts { IfOk result IsOp }
{
    let (from, args) = next_word(args)?;
    let (to, args) = next_word(args)?;
    let (amount, args) = next_word(args)?;
    no_more_words(args)?;
    let from = read_account(from)?;
    let to = read_account(to)?;
    let amount = read_amount(amount)?;
    Ok(Op::Task(Change::Move { from, to, amount }))
}

/// What the words of a line ask for.
fn read_words(line: &[u8]) -> Result<Op, u8>
    ensures words { result ≡ op_of_words (words line.now) }
    ensures accounts { IfOk result IsOp }
{
    let Some((first, args)) = first_word(line) else {
        return Err(UNKNOWN_WORD);
    };
    if first == b"add".as_slice() {
        let (account, amount) = read_with_amount(args)?;
        Ok(Op::Task(Change::Add { account, amount }))
    } else if first == b"sub".as_slice() {
        let (account, amount) = read_with_amount(args)?;
        Ok(Op::Task(Change::Sub { account, amount }))
    } else if first == b"move".as_slice() {
        read_move(args)
    } else if first == b"stop".as_slice() {
        no_more_words(args)?;
        Ok(Op::Stop)
    } else {
        Err(UNKNOWN_WORD)
    }
}

/// What the line of this number asks for, or the lowest kind of its faults.
fn read_line(number: u32, line: &[u8]) -> Result<Op, u8>
    ensures op { result ≡ op_at number line.now }
    ensures accounts { IfOk result IsOp }
    ensures room { OnOk result (number ≤ 4096) }
{
    let op = read_words(line)?;
    if number <= MAX_LINES {
        Ok(op)
    } else {
        Err(TOO_MANY)
    }
}

/// Keeps what one more line asks for.
fn keep(ops: &mut Vec<Op>, op: Op) -> Result<(), AllocError>
    ensures { OnOk result (ops.new.items ≡ ops.old.items ++ op ∷ []) }
{
    ops.push(op)?;
    Ok(())
}

/// A script: what each line asks for. It has at most 4,096 lines.
#[derive(Drop)]
pub struct ExecScript {
    ops: Vec<Op>,
}

impl Model for ExecScript {
    ghost use Rattle.std.specs.Prelude.{List};
    ghost use Rattle.exec_script.specs.declared.op.Op.{Op};

    ghost Value = { List Op };

    ghost view = { λ s. s.ops.items };
}

impl ExecScript {
    /// The script that these bytes are.
    ///
    /// A script is lines that end with a line feed, which the last may lack; a carriage return directly before a line feed is dropped.
    /// Words are parted by spaces. Each line is `add A N`, `sub A N`, `move A B N` or `stop`: none is skipped.
    ///
    /// | kind | fault |
    /// | --- | --- |
    /// | 1 | an unknown first word, or none |
    /// | 2 | a wrong number of words |
    /// | 3 | a number that is malformed or out of its range: A and B are 0 to 15, N is 0 to 2^64 - 1 |
    /// | 4 | a 4,097th line |
    ///
    /// The first faulty line counts, and in it the lowest kind. `NoMemory` comes where memory ran out, whatever the bytes are.
    pub fn read(alloc: Global, bytes: &[u8]) -> Result<ExecScript, ExecFault>
        ensures script { IfOk result (λ script. script_of bytes.now ≡ Ok script) }
        ensures fault { (line kind : ℕ) → result ≡ Err (ExecFault.Fault line kind) → script_of bytes.now ≡ Err (line, kind) }
        ensures accounts { IfOk result (λ script. All IsOp script) }
        ensures room { IfOk result (λ script. length script ≤ 4096) }
    {
        let mut ops = Vec::new(alloc);
        let mut number = 1u32;
        let mut rest = bytes;
        while !rest.is_empty() {
            let (line, behind) = first_line(rest);
            match read_line(number, line) {
                Ok(op) => keep(&mut ops, op)?,
                Err(kind) => return Err(ExecFault::Fault { line: number, kind }),
            }
            number += 1;
            rest = behind;
        }
        Ok(ExecScript { ops })
    }

    /// What its lines ask for, in their order.
    pub fn ops(&self) -> &[Op]
        ensures { result.now ≡ self.now }
    {
        &self.ops
    }
}
