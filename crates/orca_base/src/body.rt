//! What a group orders.

use crate::ids::MessageId;
use crate::refusal::NoMemory;
use std::alloc::Global;

/// The body of a message that a group orders, with the reply that a call on a single copy is answered by.
///
/// The group knows of a body its name and its length in bytes alone. Both lengths stop at 4,294,967,295.
pub trait Body: Drop {
    ghost use Rattle.std.specs.Prelude.{◌≡◌, ℕ, IfOk};
    ghost use Rattle.orca_base.specs.declared.ids.MessageId.{MessageId};

    type Reply: Drop;

    /// The message's name.
    ghost id_of: { Self → MessageId };

    /// The number of the message's bytes.
    ghost length_of: { Self → ℕ };

    /// The number of a reply's bytes.
    ghost reply_length_of: { Self.Reply → ℕ };

    /// The process and call of the message.
    fn id(&self) -> MessageId
        ensures { result ≡ id_of self.now };

    /// The length of the message in bytes.
    fn byte_length(&self) -> u32
        ensures { result ≡ length_of self.now };

    /// An equal body.
    fn copy(&self, alloc: Global) -> Result<Self, NoMemory>
        ensures { IfOk result (λ b. b ≡ self.now) };

    /// The length of a reply in bytes.
    fn reply_length(reply: &Self::Reply) -> u32
        ensures { result ≡ reply_length_of reply.now };

    /// An equal reply.
    fn copy_reply(alloc: Global, reply: &Self::Reply) -> Result<Self::Reply, NoMemory>
        ensures { IfOk result (λ r. r ≡ reply.now) };
}
