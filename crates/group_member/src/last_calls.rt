//! The last call of each process, kept as numbers beside a log.

ghost use Rattle.group_member.specs.LastCalls.{NotesMessage, SameCalls, TellsRepeat};
ghost use Rattle.group_rules.specs.Messages.{at_least};
ghost use Rattle.std.specs.Prelude.{◌≡◌, ◌<◌, [], length, IfOk, OnErr, OnOk, slice_index_or};

use orca_base::{Body, MessageId, NoMemory};
use std::alloc::Global;

// The greatest call of each process in a log.
#[derive(Drop)]
pub(crate) struct LastCalls {
    calls: Vec<Option<u64>>,
}

impl LastCalls {
    // Those of an empty log.
    pub(crate) fn new(alloc: Global) -> LastCalls
        ensures { result.calls.items ≡ [] }
    {
        LastCalls {
            calls: Vec::new(alloc),
        }
    }

    // Whether the log has this call of the process already, or a later one.
    pub(crate) fn is_repeat<B: Body>(&self, message: &B) -> bool
        ensures { TellsRepeat B.id_of B.length_of self.now.calls.items message.now result }
    {
        let id = message.id();
        match self.calls.get(id.process.0 as usize) {
            Some(Some(last)) => id.call.0 <= *last,
            _ => false,
        }
    }

    // The message is appended to the log.
    pub(crate) fn note<B: Body>(&mut self, message: &B) -> Result<(), NoMemory>
        ensures ok { OnOk result (NotesMessage B.id_of B.length_of self.old.calls.items self.new.calls.items message.now) }
        ensures err { OnErr result (SameCalls self.old.calls.items self.new.calls.items) }
    {
        let MessageId { process, call } = message.id();
        let place = process.0 as usize;
        self.reach(place)?;
        let now = later(self.last(place), call.0);
        self.calls[place] = now;
        Ok(())
    }

    // The same numbers.
    pub(crate) fn copy(&self, alloc: Global) -> Result<LastCalls, NoMemory>
        ensures { IfOk result (λ copied. copied.calls.items ≡ self.now.calls.items) }
    {
        Ok(LastCalls {
            calls: Vec::from_slice(alloc, self.calls.as_slice())?,
        })
    }

    // The last call of this process, where there is one.
    fn last(&self, place: usize) -> Option<u64>
        ensures { result ≡ slice_index_or self.now.calls.items place None }
    {
        match self.calls.get(place) {
            Some(last) => *last,
            None => None,
        }
    }

    // There is a place for this process.
    fn reach(&mut self, place: usize) -> Result<(), NoMemory>
        ensures place { OnOk result (place < length self.new.calls.items) }
        ensures same { SameCalls self.old.calls.items self.new.calls.items }
    {
        'places: while self.calls.len() <= place {
            self.calls.push(None)?;
        }
        Ok(())
    }
}

// The greater of a call and one that there may be.
fn later(last: Option<u64>, call: u64) -> Option<u64>
    ensures { result ≡ at_least call last }
{
    match last {
        None => Some(call),
        Some(before) => Some(call.max(before)),
    }
}
