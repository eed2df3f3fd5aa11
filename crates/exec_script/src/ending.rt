ghost use Rattle.std.specs.Prelude.{◌≡◌, ◌<◌, ◌+◌, ◌++◌, ◌^◌, ◌∷◌, [], length, decimal, slice_index_or, None, OnOk};
ghost use Rattle.sock_words.specs.PrintedWords.{word};
ghost use Rattle.exec_script.specs.Endings.{answer_text, told_text, line_text, lines_text, order_text, balance_text, balances_text, ending_text};

use crate::accounts::Accounts;
use crate::told::{Answer, Told};
use script_items::{push_number, push_number_word, push_word};
use std::alloc::AllocError;

/// Appends what became of a task that was accepted.
fn push_told(text: &mut Vec<u8>, told: Option<Told>) -> Result<(), AllocError>
    ensures { OnOk result (text.new.items ≡ text.old.items ++ word (told_text told)) }
{
    match told {
        None => push_word(text, b"dropped"),
        Some(Told::Fine) => push_word(text, b"ok"),
        Some(Told::Low { have }) => {
            push_word(text, b"low")?;
            push_number_word(text, have)
        }
        Some(Told::High { have }) => {
            push_word(text, b"high")?;
            push_number_word(text, have)
        }
    }
}

/// Appends what became of a line.
fn push_answer(text: &mut Vec<u8>, answer: Answer, told: Option<Told>) -> Result<(), AllocError>
    ensures { OnOk result (text.new.items ≡ text.old.items ++ word (answer_text answer told)) }
{
    match answer {
        Answer::Accepted => push_told(text, told),
        Answer::Refused => push_word(text, b"refused"),
        Answer::Stopped => push_word(text, b"stopped"),
        Answer::Already => push_word(text, b"already"),
    }
}

/// What was told of the line behind so many, if anything was.
fn told_behind(told: &[Option<Told>], before: usize) -> Option<Told>
    ensures { result ≡ slice_index_or told.now before None }
{
    if before < told.len() {
        told[before]
    } else {
        None
    }
}

/// Appends a line for each line.
fn push_lines(
    text: &mut Vec<u8>,
    told: &[Option<Told>],
    answers: &[Answer],
) -> Result<(), AllocError>
    ensures { OnOk result (text.new.items ≡ text.old.items ++ lines_text told.now 0 answers.now) }
{
    let mut before = 0usize;
    for answer in answers {
        push_number(text, before as u64 + 1)?;
        push_answer(text, *answer, told_behind(told, before))?;
        text.push(b'\n')?;
        before += 1;
    }
    Ok(())
}

/// Appends `order` and these lines.
fn push_order(text: &mut Vec<u8>, order: &[u32]) -> Result<(), AllocError>
    ensures { OnOk result (text.new.items ≡ text.old.items ++ order_text order.now) }
{
    text.extend_from_slice(b"order")?;
    for line in order {
        push_number_word(text, u64::from(*line))?;
    }
    text.push(b'\n')?;
    Ok(())
}

/// Appends the line of an account, which has none where it is 0.
fn push_balance(text: &mut Vec<u8>, account: usize, balance: u64) -> Result<(), AllocError>
    ensures { OnOk result (text.new.items ≡ text.old.items ++ balance_text account balance) }
{
    if balance == 0 {
        return Ok(());
    }
    text.extend_from_slice(b"balance")?;
    push_number_word(text, account as u64)?;
    push_number_word(text, balance)?;
    text.push(b'\n')?;
    Ok(())
}

/// Appends a line for each account that isn't 0.
fn push_balances(text: &mut Vec<u8>, balances: &[u64]) -> Result<(), AllocError>
    ensures { OnOk result (text.new.items ≡ text.old.items ++ balances_text 0 balances.now) }
{
    let mut account = 0usize;
    for balance in balances {
        push_balance(text, account, *balance)?;
        account += 1;
    }
    Ok(())
}

/// Appends what is printed of a queue that ended: what became of each line, by what its submitter was answered and what was told of its
/// task; the lines that were accepted, in their order; the accounts that aren't 0; and `end`.
pub fn push_ending(
    text: &mut Vec<u8>,
    accounts: &Accounts,
    answers: &[Answer],
    order: &[u32],
) -> Result<(), AllocError>
    ensures { OnOk result (text.new.items ≡ text.old.items ++ ending_text accounts.now answers.now order.now) }
{
    push_lines(text, accounts.told(), answers)?;
    push_order(text, order)?;
    push_balances(text, accounts.balances())?;
    text.extend_from_slice(b"end\n")
}
