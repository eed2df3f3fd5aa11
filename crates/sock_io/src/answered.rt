use crate::link::{Put, Ready};

/// What a writing half answered: to a put, or to the question whether it takes more.
#[derive(Clone, Copy, Debug, PartialEq, Eq)]
pub enum Answered {
    Put(Put),
    Ready(Ready),
}
