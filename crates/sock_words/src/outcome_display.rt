ghost use Rattle.std.specs.Prelude.{Some};
ghost use Rattle.sock_words.specs.OutcomeText.{outcome_text};
ghost use Rattle.sock_words.specs.PrintedWords.{hex_text};

use crate::hex_digits::HexDigits;
use crate::outcome::Outcome;
use crate::owned_bytes::OwnedBytes;
use std::fmt;

impl fmt::Display for OwnedBytes {
    ghost output = { λ bytes. Some (hex_text bytes) };

    fn fmt<W: fmt::Write>(&self, f: &mut fmt::Formatter<W>) -> fmt::Result {
        let bytes = self.as_slice();
        if bytes.is_empty() {
            write!(f, "-")
        } else {
            HexDigits(bytes).fmt(f)
        }
    }
}

impl fmt::Display for Outcome {
    ghost output = { λ o. Some (outcome_text o) };

    fn fmt<W: fmt::Write>(&self, f: &mut fmt::Formatter<W>) -> fmt::Result {
        match self {
            Outcome::Opened {
                slot,
                version,
                link,
            } => write!(f, "open {slot} {version} {link}"),
            Outcome::SlotsFull => write!(f, "slots full"),
            Outcome::Unopened => write!(f, "unopened"),
            Outcome::Gone { found } => write!(f, "gone {found}"),
            Outcome::Placed { link, position } => write!(f, "placed {link} {position}"),
            Outcome::Dropped { link, position } => write!(f, "dropped {link} {position}"),
            Outcome::Full => write!(f, "full"),
            Outcome::Answered {
                id,
                payload,
                attachment,
            } => write!(f, "call {id} answered {payload} {attachment}"),
            Outcome::Peer { id, code } => write!(f, "call {id} peer {code}"),
            Outcome::CallFailed { id, code } => write!(f, "call {id} failed {code}"),
            Outcome::Held => write!(f, "held"),
            Outcome::Freed => write!(f, "freed"),
            Outcome::Kept => write!(f, "kept"),
            Outcome::NotHeld => write!(f, "not held"),
            Outcome::Failed => write!(f, "failed"),
            Outcome::Already { found } => write!(f, "already {found}"),
            Outcome::Expired => write!(f, "expired"),
            Outcome::Queued => write!(f, "queued"),
            Outcome::Late => write!(f, "late"),
            Outcome::Crowded { first, second } => write!(f, "crowded {first} {second}"),
            Outcome::Joined => write!(f, "joined"),
            Outcome::NotBegun => write!(f, "not begun"),
        }
    }
}
