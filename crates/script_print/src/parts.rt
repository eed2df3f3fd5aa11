ghost use Rattle.std.specs.Prelude.{◌≡◌, [], ◌++◌, codes, OnOk, if◌then◌else◌};
ghost use Rattle.sock_words.specs.PrintedWords.{word};
ghost use Rattle.brpc_model.specs.ScriptText.{option_text, end_text, shape_text, seat_text, target_text};
ghost use Rattle.std.specs.List.{join_with_byte};
ghost use Rattle.script_items.specs.LineMeaning.{seat_of};

use script_items::{Names, Seat, Target, push_number, push_number_word, push_word};
use sock_words::Shape;
use std::alloc::AllocError;

/// Appends ` KEY=N`, unless the number is its default.
pub fn push_option(
    text: &mut Vec<u8>,
    key: &[u8],
    default: u32,
    number: u32,
) -> Result<(), AllocError>
    ensures { OnOk result (text.new.items ≡ text.old.items ++ option_text key.now default number) }
{
    if number == default {
        return Ok(());
    }
    push_word(text, key)?;
    text.extend_from_slice(b"=")?;
    push_number(text, u64::from(number))
}

/// Appends ` serve` where the built-in server stands behind the link.
fn push_serve(text: &mut Vec<u8>, serve: bool) -> Result<(), AllocError>
    ensures { OnOk result (text.new.items ≡ text.old.items ++ (if serve then codes " serve" else [])) }
{
    if serve {
        text.extend_from_slice(b" serve")?;
    }
    Ok(())
}

/// Appends ` end=N` where it is given.
fn push_end(text: &mut Vec<u8>, replies: Option<u32>) -> Result<(), AllocError>
    ensures { OnOk result (text.new.items ≡ text.old.items ++ end_text replies) }
{
    match replies {
        None => Ok(()),
        Some(count) => {
            text.extend_from_slice(b" end=")?;
            push_number(text, u64::from(count))
        }
    }
}

/// Appends the options of an `open` that differ from their defaults.
pub fn push_shape(text: &mut Vec<u8>, shape: &Shape) -> Result<(), AllocError>
    ensures { OnOk result (text.new.items ≡ text.old.items ++ shape_text shape.now) }
{
    push_option(text, b"piece", 65_536, shape.piece)?;
    push_option(text, b"again", 0, shape.again)?;
    push_option(text, b"fail", 0, shape.fail)?;
    push_serve(text, shape.serve)?;
    push_end(text, shape.end)
}

/// Appends a space and then one name, or two with a comma between them.
pub fn push_names(text: &mut Vec<u8>, names: &Names) -> Result<(), AllocError>
    ensures { OnOk result (text.new.items ≡ text.old.items ++ word (join_with_byte 44 names.now)) }
{
    let (first, second) = names.parts();
    push_word(text, first.as_slice())?;
    match second {
        None => Ok(()),
        Some(name) => {
            text.extend_from_slice(b",")?;
            text.extend_from_slice(name.as_slice())
        }
    }
}

/// Appends ` C.I`.
pub fn push_target(text: &mut Vec<u8>, target: &Target) -> Result<(), AllocError>
    ensures { OnOk result (text.new.items ≡ text.old.items ++ target_text target.now.client target.now.number) }
{
    push_number_word(text, target.client)?;
    text.extend_from_slice(b".")?;
    push_number(text, target.number)
}

/// Appends a space and then the seat.
pub fn push_seat(text: &mut Vec<u8>, seat: &Seat) -> Result<(), AllocError>
    ensures { OnOk result (text.new.items ≡ text.old.items ++ word (seat_text (seat_of seat.now))) }
{
    match seat {
        Seat::Client(client) => push_number_word(text, u64::from(*client)),
        Seat::Reader(link) => {
            text.extend_from_slice(b" r")?;
            push_number(text, u64::from(*link))
        }
    }
}
