//! Suspended calls.

ghost use Rattle.std.specs.Prelude.{◌≡◌, ◌<◌, ◌↔◌, ◌∷◌, ◌++◌, [], length, IfOk, OnOk, OnErr, IsTrue, remove, slice_get, Some};
ghost use Rattle.guard_queue.specs.Waits.{IsWaiting, IsWaitingOn, called};

use crate::index::{add_one, index_copy, take_one};
use orca_base::{CallNo, KindNo, NoMemory, ObjectId, OpNo, ProcessNo};
use std::alloc::Global;
use std::collections::BTreeMap;
use std::marker::Model;
use std::sync::Arc;
use value_core::Parts;

/// A call each of whose guards was false when it was tried.
#[derive(Debug, Drop, PartialEq, Eq)]
pub struct Suspended {
    pub process: ProcessNo,
    pub call: CallNo,
    pub kind: KindNo,
    pub op: OpNo,
    pub object: ObjectId,
    pub args: Parts,
}

impl Suspended {
    /// An equal call.
    pub fn copy(&self, alloc: Global) -> Result<Suspended, NoMemory>
        ensures { IfOk result (λ s. s ≡ self.now) }
    {
        Ok(Suspended {
            process: self.process,
            call: self.call,
            kind: self.kind,
            op: self.op,
            object: self.object,
            args: self.args.copy(alloc)?,
        })
    }
}

/// The suspended calls in order of their entries, the oldest first. Each is shared with the copies of the queue, so that a copy
/// is some counts. Beside them stands how many are on each object, so that a look for one costs no look at each.
#[derive(Drop)]
pub struct Queue {
    calls: Vec<Arc<Suspended>>,
    index: BTreeMap<ObjectId, usize>,
}

impl Model for Queue {
    ghost use Rattle.std.specs.Prelude.{List};
    ghost use Rattle.guard_queue.specs.declared.queue.Suspended.{Suspended};
    ghost use Rattle.guard_queue.specs.Waits.{IsIndexOf, called};

    ghost Value = { List Suspended };

    ghost use Rattle.std.specs.Coded.{codes};
    ghost use Rattle.value_core.specs.Code.{data_code};

    ghost coded = { Prim.hlevel (codes, data_code) };

    ghost view = { λ q. called q.calls.items };

    ghost invariant = { λ q. IsIndexOf q.index (called q.calls.items) };
}

impl Queue {
    /// No calls.
    pub fn new(alloc: Global) -> Queue
        ensures { result ≡ [] }
    {
        Queue {
            calls: Vec::new(alloc),
            index: BTreeMap::new(alloc),
        }
    }

    /// How many calls there are.
    pub fn len(&self) -> usize
        ensures { result ≡ length self.now }
    {
        self.calls.len()
    }

    /// Whether there are no calls.
    pub fn is_empty(&self) -> bool
        ensures { IsTrue result ↔ (self.now ≡ []) }
    {
        self.calls.is_empty()
    }

    /// The call at this place, the oldest's being 0.
    pub fn get(&self, at: usize) -> &Suspended
        requires { at < length self.now }
        ensures { slice_get self.now at ≡ Some result.now }
    {
        &self.calls[at]
    }

    /// Whether a call of this process is among them.
    pub fn has(&self, process: ProcessNo) -> bool
        ensures { IsTrue result ↔ IsWaiting self.now process }
    {
        for call in &self.calls {
            if call.process == process {
                return true;
            }
        }
        false
    }

    /// Whether a call on this object is among them.
    pub fn has_on(&self, object: ObjectId) -> bool
        ensures { IsTrue result ↔ IsWaitingOn self.now object }
    {
        self.index.contains_key(&object)
    }

    /// Adds a call as the newest.
    pub fn push(&mut self, alloc: Global, call: Suspended) -> Result<(), NoMemory>
        ensures ok { OnOk result (self.new ≡ self.old ++ call ∷ []) }
        ensures err { OnErr result (self.new ≡ self.old) }
    {
        let object = call.object;
        let call = Arc::new(alloc, call)?;
        self.calls.reserve(1)?;
        add_one(&mut self.index, object)?;
        self.calls.push_reserved(call);
        Ok(())
    }

    /// Takes out the call at this place, the oldest's being 0.
    pub fn take_out(&mut self, at: usize)
        requires { at < length self.old }
        ensures { self.new ≡ remove self.old at }
    {
        let call = self.calls.remove(at);
        take_one(&mut self.index, call.object);
    }

    /// Equal calls, which are shared with these.
    pub fn copy(&self, alloc: Global) -> Result<Queue, NoMemory>
        ensures { IfOk result (λ q. q ≡ self.now) }
    {
        let mut calls = Vec::new(alloc);
        for call in &self.calls {
            calls.push(Arc::try_clone(call)?)?;
        }
        Ok(Queue {
            calls,
            index: index_copy(&self.index)?,
        })
    }
}
