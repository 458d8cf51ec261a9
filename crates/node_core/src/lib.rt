//! One member of a run: its part of the group, its copies, the processes that live on it, and what these ask of owners of single
//! objects.
//!
//! The floor above uses `Node<P>` with the four events of which a member has a part (`act`, `deliver`, `tick`, `suspect`), each of which
//! is that part of the world's rules (`Does`, `TakesPacket` of specs/Stands.antt): for each node of the rules for which this one
//! stands, it stands afterwards for what the event leaves of it, and what moved is what the rules tell, with the messages of the entries
//! that the event applied. Where memory runs out an event says nothing of the node, which is let go: whoever wants it as it was keeps a
//! copy. And it hands out tasks, in which bursts are computed without any lock (`check_out`, `Task::run`, `check_in`, `recall`;
//! specs/Tasks.antt), or does a burst at once (`burst`; specs/AtOnce.antt); an event leaves each process that computes as it was, with its
//! task (`KeepsTasks` of specs/Keeping.antt). Their conditions are those of node_rules (`EventFits`, `BurstFits`), which world_calls
//! proves of every run.
//!
//! It stands on the member of the group, the copies and the rules of a member of a run. It knows nothing of packets in flight, of
//! bytes, threads or the text of a program. A view at an earlier place is `view_after` (specs/Earlier.antt).
#![tactic(auto)]

mod applying;
mod at_once;
mod earlier;
mod node;
mod owning;
mod parts;
mod places;
mod task;
mod work;

pub use node::{Known, Node};
pub use task::{CheckedIn, Done, Stray, Task};
