//! What a run of a crowd has to tell: eight clients on threads, each with ten sends of their own to one socket.
use std::alloc::{AllocError, Global};
use std::str;

const CLIENTS: u16 = 8;

const SENDS: u16 = 10;

/// The client and the operation of a label.
fn label_of(word: &str) -> Option<(u16, u16)> {
    let mut parts = word.split('.');
    let client = parts.next()?.parse::<u16>().ok()?;
    let send = parts.next()?.parse::<u16>().ok()?;
    Some((client, send))
}

/// The labels in the order that a report tells for its link.
fn labels_in(alloc: Global, report: &str) -> Result<Vec<(u16, u16)>, AllocError> {
    let mut labels = Vec::new(alloc);
    for line in report.lines() {
        if let Some(words) = line.strip_prefix("order 0 ") {
            for word in words.split(' ') {
                if let Some(label) = label_of(word) {
                    labels.push(label)?;
                }
            }
        }
    }
    Ok(labels)
}

/// Whether those of this client are its own numbers from 1, in rising order.
fn rise_for(client: u16, labels: &[(u16, u16)]) -> bool {
    let mut last = 0u16;
    for label in labels {
        if label.0 == client {
            if label.1 != last.wrapping_add(1) {
                return false;
            }
            last = label.1;
        }
    }
    last == SENDS
}

/// Whether they are all labels of the crowd, those of each client in rising order.
fn is_whole_order(labels: &[(u16, u16)]) -> bool {
    for client in 1..=CLIENTS {
        if !rise_for(client, labels) {
            return false;
        }
    }
    labels.len() == 80
}

/// Where this label stands.
fn position_of(labels: &[(u16, u16)], client: u16, send: u16) -> usize {
    let mut position = 0usize;
    for label in labels {
        if label.0 == client && label.1 == send {
            return position;
        }
        position = position.wrapping_add(1);
    }
    position
}

/// A line for each send of a client, with its place in this order.
fn push_sends(text: &mut String, labels: &[(u16, u16)], client: u16) -> Result<(), AllocError> {
    for send in 1..=SENDS {
        let position = position_of(labels, client, send);
        write!(text, "{client}.{send} placed 0 {position}\n")?;
    }
    Ok(())
}

/// The line of the link, with the 32 bytes in front of those that it took.
fn push_link(text: &mut String, labels: &[(u16, u16)]) -> Result<(), AllocError> {
    text.push_str("link 0 a accepted 80 placed 80 took 160 ")?;
    for label in labels.iter().take(16) {
        write!(text, "{:02x}{:02x}", label.0, label.1)?;
    }
    Ok(())
}

fn push_order(text: &mut String, labels: &[(u16, u16)]) -> Result<(), AllocError> {
    text.push_str("\norder 0")?;
    for label in labels {
        write!(text, " {}.{}.0", label.0, label.1)?;
    }
    text.push_str("\nend\n")
}

/// The report of the crowd whose messages left in this order.
fn report_in(alloc: Global, labels: &[(u16, u16)]) -> Result<String, AllocError> {
    let mut text = String::from_str(alloc, "0.1 open 0 0 0\n")?;
    for client in 1..=CLIENTS {
        push_sends(&mut text, labels, client)?;
    }
    push_link(&mut text, labels)?;
    push_order(&mut text, labels)?;
    Ok(text)
}

/// The messages of these labels, one after the other.
fn messages_of(alloc: Global, labels: &[(u16, u16)]) -> Result<Vec<u8>, AllocError> {
    let mut bytes = Vec::new(alloc);
    for label in labels {
        bytes.push((label.0 % 256) as u8)?;
        bytes.push((label.1 % 256) as u8)?;
    }
    Ok(bytes)
}

/// Whether this is a report of the crowd, and what its link took.
pub fn is_of_crowd(alloc: Global, report: &[u8], took: &[u8]) -> Result<bool, AllocError> {
    let Ok(told) = str::from_utf8(report) else {
        return Ok(false);
    };
    let labels = labels_in(alloc, told)?;
    let whole = report_in(alloc, &labels)?;
    let messages = messages_of(alloc, &labels)?;
    Ok(is_whole_order(&labels) && whole.as_bytes() == report && messages.as_slice() == took)
}
