//! What a member answers to a Seek.

ghost use Rattle.std.specs.Prelude.{◌≡◌, ◌≤◌, ◌↔◌, ℕ, IfOk, None, []};
ghost use Rattle.orca_base.specs.declared.ids.MessageId.{MessageId};
ghost use Rattle.value_core.specs.declared.message.Message.{Message as Ordered};
ghost use Rattle.group_member.specs.StandsFor.{IsMember, Tells};
ghost use Rattle.group_join.specs.Seeking.{answer_of};

use crate::packet::JoinPacket;
use group_member::Member;
use history_buffer::{Shared, Slot};
use object_manager::Copies;
use orca_base::NoMemory;
use std::alloc::Global;
use value_core::Message;

/// What a member with these copies answers to a follower that applied so many entries: nothing where it applied no more itself, else the
/// next entry, or its copies where it purged that one. None of the copies' objects was counted as single.
pub fn answer(
    alloc: Global,
    member: &Member<Shared<Message>>,
    copies: &Copies,
    applied: u64,
) -> Result<Option<JoinPacket>, NoMemory>
    requires member { IsMember member.now }
    requires copies { copies.now.applied ≡ member.now.applied }
    requires plain { copies.now.singles ≡ [] }
    ensures none { IfOk result (λ a. (a ≡ None) ↔ (member.now.applied ≤ applied)) }
    ensures answer { (name : Ordered → MessageId) (bytes : Ordered → ℕ) →
        Tells name bytes member.now (λ g which m. IfOk result (λ a. a ≡ answer_of m copies.now applied)) }
{
    if applied >= member.applied() {
        return Ok(None);
    }
    let number = applied + 1;
    match member.entry(number) {
        Slot::Found { item } => Ok(Some(JoinPacket::Next {
            number,
            message: item.message().copy(alloc)?,
        })),
        Slot::Purged => Ok(Some(JoinPacket::State {
            state: copies.state(alloc)?,
        })),
        Slot::NotYet => unreachable!(),
    }
}
