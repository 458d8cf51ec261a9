//! A member of a group over a window: the state that stands for a member of the rules, and its calls.
//!
//! The floor above uses `Member`, whose clauses say of each call: for each member of the rules that the state stood for, it
//! then stands for that of the row, and what is sent is what the row posts, in order. It stands on `group_rules`, whose rows
//! it cites, and on `history_buffer`, whose window keeps the log's entries behind the purged ones. Its calls change the member
//! where it stands. Where memory runs out nothing is said of the member: whoever wants it as it was keeps a copy. Which
//! incarnation is coordinated or joined isn't judged here.
#![tactic(auto)]

mod acks;
mod asking;
mod behind;
mod installed;
mod last_calls;
mod law;
mod lists;
mod member;
mod notes;
mod parts;
mod received;
mod receiver;
mod reset;
mod sends;
mod sequencer;
mod submissions;
mod takeover;
mod timer;

pub use law::standing_law;
pub use member::{Config, Member};
pub use sends::{Letter, Sends, tell_others};
pub use timer::Timed;
