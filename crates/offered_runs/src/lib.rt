//! What each link of a run tells of what it was offered at its takes says what it was given at each of them, whatever
//! it had taken by then: a link lies at one place. The proofs are in `proofs/`. There is no code here.
//!
//! `offers_in_run`: where each link tells so, each take was offered what belongs to what its link took (`OffersInRun`
//! of `served_runs`), since at each moment a link lies at one place (`one_link`).
#![tactic(auto)]
