ghost use Rattle.std.specs.Prelude.{◌≡◌};
ghost use Rattle.corr_core.specs.IdSlotWord.{parts};
ghost use Rattle.corr_core.specs.IdRangeVersions.{has_version as has, is_early as early};

use sock_words::IdWord;

/// Whether a response with this version in its correlation id is for an attempt of the id that has this word: its range is
/// there, and the version is one of it behind the first (bthread_id.md). Otherwise no call ends by it.
pub fn has_version(word: IdWord, version: u32) -> bool
    ensures { result ≡ has version (parts word.0) }
{
    word.state() != IdWord::FREE
        && word.first() < version
        && version < word.first() + u32::from(word.range())
}

/// Whether by this word the version is one of a range that wasn't made yet, so that a response with it is kept.
pub fn is_early(word: IdWord, version: u32) -> bool
    ensures { result ≡ early version (parts word.0) }
{
    if word.state() == IdWord::FREE {
        word.first() <= version
    } else {
        word.first() + u32::from(word.range()) <= version
    }
}
