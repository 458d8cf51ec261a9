//! What a message does before the queue settles.

use crate::queue::Suspended;
use orca_base::ObjectId;
use value_core::Instance;

/// What a message does to the objects or the queue before the queue settles.
#[derive(Debug, Drop)]
pub enum Change {
    Nothing,
    /// An object is put in, in place of the one with this id where there is one.
    Puts { object: ObjectId, kept: Instance },
    /// A blocked call joins the queue.
    Joins { call: Suspended },
}
