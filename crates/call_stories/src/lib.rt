//! With calls: what each seat may say of calls, and the story of a run. Definitions in `specs/`, the proofs in
//! `proofs/`. There is no code here.
//!
//! A scene is what happened so far that lasts (specs/Scenes); `SaysOn` is a program that says of calls only what has
//! its cause (specs/Says); `HasStory` ties what happened to words, homes and marks (specs/CallStories). specs/Target
//! is what is told of each call, specs/LinkReadingLists how the readings of links ended and which responses came
//! before their call began.
#![tactic(auto)]
