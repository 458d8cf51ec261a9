//! What a member's objects were at an earlier place.

ghost use Rattle.std.specs.Prelude.{IfErr, IfOk, OnOk};
ghost use Rattle.object_manager.specs.Limits.{IfLimit, too_many};
ghost use Rattle.node_rules.specs.Entries.{MayTakeAgain, MayTakeEntry};
ghost use Rattle.node_core.specs.Earlier.{HasTakenAgain, HasViewed, MayViewAfter};

use crate::node::Node;
use guard_queue::Answered;
use history_buffer::Shared;
use node_parts::OneRun;
use object_manager::{ApplyError, Copies, View};
use orca_base::NoMemory;
use std::alloc::Global;
use value_core::Message;

impl<P: OneRun> Node<P> {
    /// A view of the replicated objects after these entries: they are applied again, to opening copies. Where they are the first of those
    /// that the member applied, it is the view at that earlier place. It costs as much as applying them did.
    pub fn view_after(
        &self,
        alloc: Global,
        machine: &P,
        entries: &[Shared<Message>],
    ) -> Result<View, NoMemory>
        requires { MayViewAfter P.stood P.left P.run.frame (P.fits_state machine.now) (P.fits_args machine.now) entries.now self.now }
        ensures { IfOk result (HasViewed P.stood P.left P.run.frame entries.now self.now) }
    {
        let mut copies = Copies::opening(alloc)?;
        'entries: for entry in entries {
            self.apply_again(alloc, machine, &mut copies, entry.message())?;
        }
        copies.view(alloc)
    }

    // The copies take the entry, which passes no limit.
    fn apply_again(
        &self,
        alloc: Global,
        machine: &P,
        copies: &mut Copies,
        message: &Message,
    ) -> Result<(), NoMemory>
        requires { MayTakeAgain (P.performs machine.now) (P.fits_state machine.now) (P.fits_args machine.now) copies.old message.now.action }
        ensures { OnOk result (HasTakenAgain (P.performs machine.now) self.now message.now copies.old copies.new) }
    {
        match self.take_again(alloc, machine, copies, message) {
            Ok(_) => Ok(()),
            Err(ApplyError::NoMemory) => Err(NoMemory),
            Err(ApplyError::Limit { .. }) => unreachable!(),
        }
    }

    // The copies take the entry, or say why not. Of a single object they keep nothing.
    fn take_again(
        &self,
        alloc: Global,
        machine: &P,
        copies: &mut Copies,
        message: &Message,
    ) -> Result<Vec<Answered>, ApplyError>
        requires { MayTakeEntry (P.performs machine.now) (P.fits_state machine.now) (P.fits_args machine.now) copies.old message.now.action }
        ensures after { OnOk result (HasTakenAgain (P.performs machine.now) self.now message.now copies.old copies.new) }
        ensures limit { IfErr result (λ e. IfLimit e (too_many (P.performs machine.now) copies.old message.now.action)) }
    {
        if self.is_passed(&message.action) {
            copies.pass_make(alloc, machine, message, false)
        } else {
            copies.apply(alloc, machine, message)
        }
    }
}
