//! How a member takes part in a reset: it coordinates, is invited, takes answers, and takes a Result.
//!
//! The floor above calls these for the packets Invite, Join and Result and for a member that is due. Each clause says: for
//! each member of the rules that this one stood for, it then stands for that of the row, and what is sent is what the row
//! posts, in order. It stands on `group_member`, whose calls change the member, and on `group_rules`, whose rows it cites.
//! `joined` and `announced` speak of members of the rules that meet `Joins` and `Hears`, which is what the law says of whatever
//! Join or Result comes. They change the member where it stands. Where memory runs out nothing is said of the member: whoever
//! wants it as it was keeps a copy. An outside member changes and sends nothing. That a reset ends is no part.
#![tactic(auto)]

mod choice;
mod coordinator;
mod others;
mod outcome;

pub use coordinator::{coordinate, joined};
pub use others::{announced, invited};
pub use outcome::Joined;
