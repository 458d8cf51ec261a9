//! What a member did in an event.

ghost use Rattle.std.specs.Prelude.{◌≡◌, []};

use book_law::Placed;
use group_member::Sends;
use history_buffer::Shared;
use orca_base::Items;
use std::alloc::Global;
use value_core::{Line, Message};

/// What a member did in its part of an event.
#[derive(Drop)]
pub struct Moved {
    /// The packets that it sent, the first first.
    pub sends: Sends<Shared<Message>>,
    /// Of each entry that its copies applied the lines, in the order in which they ran; there is an empty list where the call was
    /// blocked.
    pub entries: Vec<Items<Line>>,
    /// These entries themselves, in their order: behind those that the copies had applied before, they are those that they have applied
    /// after the event.
    pub messages: Vec<Shared<Message>>,
    /// What it performed beside the list of entries: reads, and calls on single objects that it owns.
    pub aside: Vec<Placed>,
}

impl Moved {
    /// Nothing yet.
    pub fn nothing(alloc: Global) -> Moved
        ensures sends { result.sends.items ≡ [] }
        ensures entries { result.entries.items ≡ [] }
        ensures messages { result.messages.items ≡ [] }
        ensures aside { result.aside.items ≡ [] }
    {
        Moved {
            sends: Vec::new(alloc),
            entries: Vec::new(alloc),
            messages: Vec::new(alloc),
            aside: Vec::new(alloc),
        }
    }
}
