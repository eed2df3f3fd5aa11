ghost use Rattle.std.specs.Prelude.{◌≡◌, ◌+◌, nat_le};
ghost use Rattle.corr_core.specs.IdSlotLaw.{LAST};
ghost use Rattle.corr_core.specs.IdSlotWord.{parts};
ghost use Rattle.corr_core.specs.EndedByRangeOrAttempt.{ends_call};

use crate::error::IdError;
use sock_words::IdWord;

/// A slot whose next first version would be above this is given up for good.
const LAST_FIRST: u32 = 67_108_848;

/// Whether an error ends the call whose id has this word.
pub fn ends_call(word: IdWord, error: IdError) -> bool
    ensures { result ≡ ends_call (parts word.0) error.0 }
{
    corr_core::ends_call(word.range(), word.attempt(), error.code(), error.is_whole())
}

/// Whether the slot of this word is used again once its range has ended.
pub fn is_reused(word: IdWord) -> bool
    ensures { result ≡ nat_le ((parts word.0).first + (parts word.0).range) LAST }
{
    word.first() + u32::from(word.range()) <= LAST_FIRST
}
