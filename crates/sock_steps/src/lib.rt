//! What keeps the whole rule of the sockets: a law for each kind of step, in `proofs/`. There is no code here.
//!
//! Whatever the state was, where the view of the seat says what stands before the step, `Lawful` of `sock_model` holds
//! behind it: on slots and names SlotSteps, Birth and EndOfSlotLife, on the chain ClaimSteps, AcceptSteps, WalkSteps,
//! WriteSteps and Retire, of links and messages LinkSteps, HandSteps and HomeMoves. RuleSteps and RuleChains have the
//! same of the whole rule, `Rule`, but for five kinds of the write chain.
#![tactic(auto)]
