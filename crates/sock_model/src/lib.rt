//! The sockets as plain data: what a seat knows, where words and homes stand, and the rule that ties them. The
//! definitions are in specs/.
//!
//! `View` and `Mark` are what a seat knows (src/view.rt, src/marks.rt), specs/SocketTableLayout says where each word
//! stands. The rule is `Lawful` (specs/LawfulSockets): the law of each slot (`SlotLaw`), of links and lives
//! (`References`), of requests and heads (`Chains`), of what each link took (`Deliveries`). SlotRows and ChainRows say
//! what each step makes of a view, PlainReferences what lives and holders are meant to be (`PlainLaw`).
#![tactic(auto)]

mod chain;
mod home;
mod layout;
mod marks;
mod view;

pub use chain::{Claim, Entry, Heading, Loose, Right, Stage};
pub use home::Home;
pub use layout::{
    code_index, head_index, link_index, name_index, next_index, open_index, place_count,
    place_index, ref_index, request_index, tag_index, word_count,
};
pub use marks::{Mark, SlotMark};
pub use sock_words::Plan;
pub use view::{Hand, StoredWord, View};
