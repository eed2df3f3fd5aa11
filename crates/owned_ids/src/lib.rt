//! That the call of each operation has one id, which its own client made. The proofs are in `proofs/`. There is no
//! code here.
//!
//! OwnsRuns: over a whole run the call of each operation has one id, so an at word keeps the id that it named; for
//! programs store at words and homes of that id alone (`Owns` and `Owned` of `call_owing`). WordsGiven: the word of a
//! link's `open` names a life that was given this link.
#![tactic(auto)]
