use sock_words::IdWord;

/// Where a lock or a post stands that has to find the word of its id as it is.
#[derive(Clone, Copy)]
pub enum WordStep {
    /// The id's word is read.
    Read,
    /// The exchange from this word is tried.
    Exchange(IdWord),
}
