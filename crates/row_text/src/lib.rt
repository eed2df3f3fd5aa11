//! The text of a row of a file that a program answers, where it stands for more than one line.
//!
//! Shared by the programs over files of rows. It is safe; no contract says what it gives, and a wrong text would show
//! as a row that fails.
#![tactic(auto)]

use std::alloc::{AllocError, Global};

/// The text, in which `|` stands for the end of a line and `^` for a return before it, and `*N TEXT*` for N times TEXT.
pub fn expanded(alloc: Global, row: &str) -> Result<String, AllocError> {
    let mut text = String::new(alloc);
    let mut is_many = false;
    for piece in row.split('*') {
        if is_many {
            push_many(&mut text, piece)?;
        } else {
            push_lines(&mut text, piece)?;
        }
        is_many = !is_many;
    }
    Ok(text)
}

fn push_many(text: &mut String, piece: &str) -> Result<(), AllocError> {
    let Some((count, part)) = piece.split_once(" ") else {
        return Ok(());
    };
    for _ in 0..number(count) {
        push_lines(text, part)?;
    }
    Ok(())
}

fn push_lines(text: &mut String, part: &str) -> Result<(), AllocError> {
    for letter in part.chars() {
        text.push(letter_for(letter))?;
    }
    Ok(())
}

fn letter_for(letter: char) -> char {
    match letter {
        '|' => '\n',
        '^' => '\r',
        _ => letter,
    }
}

/// The number of these digits, 0 for others.
pub fn number(digits: &str) -> u32 {
    digits.parse::<u32>().unwrap_or(0)
}
