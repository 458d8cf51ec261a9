//! A member that joins late (docs/RUNTIME.md, A member that joins late): what goes between it and the members, in bytes; what a member
//! answers; and the follower itself.
//!
//! A follower asks members in turn for the entry behind those that it applied, and gets it, or a member's copies where the entry was
//! purged there. It orders nothing, acknowledges nothing and answers no reset. The command `join`, which isn't built, will use `answer`
//! of a member, `Follower`, `write_join` and `read_join`. The main clause is `after` of `Follower::receive`: by each list that a packet
//! tells, the follower's copies are again those after its first entries; and `following_law` says that what members answer tells the one
//! list that they agree on. It stands on members, copies and packets in bytes, and knows nothing of wires, runs or worlds.
#![tactic(auto)]

mod answering;
mod follower;
mod laws;
mod packet;
mod reading;
mod writing;

pub use answering::answer;
pub use follower::{Follower, Took};
pub use laws::{byte_rows, following_law, spelling_law};
pub use packet::JoinPacket;
pub use reading::read_join;
pub use writing::write_join;
