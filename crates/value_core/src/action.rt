//! Actions, replies, and the lines of a history.

ghost use Rattle.std.specs.Prelude.{◌≡◌, ◌↔◌, IfOk, IsTrue};
ghost use Rattle.value_core.specs.Lengths.{action_length, answer_length, told_length};

use crate::value::{ObjectState, Parts, Value};
use orca_base::{CallNo, FaultKind, KindNo, NoMemory, ObjectId, OpNo, ProcessNo, TextNo};
use std::alloc::Global;

/// What a process does next.
#[derive(Debug, Drop, PartialEq, Eq)]
pub enum Action {
    /// It makes an object of this type.
    Make {
        kind: KindNo,
        object: ObjectId,
    },
    /// It calls an operation.
    Call {
        kind: KindNo,
        op: OpNo,
        object: ObjectId,
        args: Parts,
    },
    /// It forks a process, on the member that the number names, else on its own.
    Fork {
        process: TextNo,
        args: Parts,
        place_on: Option<i64>,
    },
    /// It has ended.
    Ended,
    /// It has ended by a fault.
    Faulted {
        fault: FaultKind,
    },
}

/// Whether an operation may change its object.
#[derive(Clone, Copy, Debug, PartialEq, Eq)]
pub enum Class {
    Reads,
    Writes,
}

/// The answer to an action.
#[derive(Debug, Drop, PartialEq, Eq)]
pub enum Reply {
    /// It was done, and gives no value.
    Done,
    /// The operation's result.
    Gave { value: Value },
    /// It faulted, and left every object as it was.
    Broke { fault: FaultKind },
}

/// A performed operation: who did it, as the how manyeth of its lines, by which guard, and what it was answered.
#[derive(Debug, Drop, PartialEq, Eq)]
pub struct Line {
    pub process: ProcessNo,
    pub call: CallNo,
    pub action: Action,
    pub guard: u16,
    pub reply: Reply,
}

/// An instance of an object type: its type and the values of its fields.
#[derive(Debug, Drop, PartialEq, Eq)]
pub struct Instance {
    pub kind: KindNo,
    pub state: ObjectState,
}

impl Action {
    /// An equal action.
    pub fn copy(&self, alloc: Global) -> Result<Action, NoMemory>
        ensures { IfOk result (λ a. a ≡ self.now) }
    {
        match self {
            Action::Make { kind, object } => Ok(Action::Make {
                kind: *kind,
                object: *object,
            }),
            Action::Call {
                kind,
                op,
                object,
                args,
            } => Ok(Action::Call {
                kind: *kind,
                op: *op,
                object: *object,
                args: args.copy(alloc)?,
            }),
            Action::Fork {
                process,
                args,
                place_on,
            } => Ok(Action::Fork {
                process: *process,
                args: args.copy(alloc)?,
                place_on: *place_on,
            }),
            Action::Ended => Ok(Action::Ended),
            Action::Faulted { fault } => Ok(Action::Faulted { fault: *fault }),
        }
    }

    /// Whether both actions are the same.
    pub fn is(&self, other: &Action) -> bool
        ensures { IsTrue result ↔ (self.now ≡ other.now) }
    {
        match (self, other) {
            (
                Action::Make { kind, object },
                Action::Make {
                    kind: other_kind,
                    object: other_object,
                },
            ) => kind == other_kind && object == other_object,
            (
                Action::Call {
                    kind,
                    op,
                    object,
                    args,
                },
                Action::Call {
                    kind: other_kind,
                    op: other_op,
                    object: other_object,
                    args: other_args,
                },
            ) => {
                kind == other_kind
                    && op == other_op
                    && object == other_object
                    && args.is(other_args)
            }
            (
                Action::Fork {
                    process,
                    args,
                    place_on,
                },
                Action::Fork {
                    process: other_process,
                    args: other_args,
                    place_on: other_place,
                },
            ) => process == other_process && args.is(other_args) && place_on == other_place,
            (Action::Ended, Action::Ended) => true,
            (Action::Faulted { fault }, Action::Faulted { fault: other_fault }) => {
                fault == other_fault
            }
            _ => false,
        }
    }
}

impl Action {
    /// How many bytes spell the action in a message, or `u32::MAX` where there are more.
    pub(crate) fn byte_length(&self) -> u32
        ensures { result ≡ told_length (action_length self.now) }
    {
        match self {
            Action::Make { .. } => 9,
            Action::Call { args, .. } => args.byte_length().saturating_add(12),
            Action::Fork { args, place_on, .. } => {
                let place = if place_on.is_some() { 9 } else { 1 };
                args.byte_length().saturating_add(place + 4)
            }
            Action::Ended | Action::Faulted { .. } => 0,
        }
    }
}

impl Reply {
    /// How many bytes spell the reply, or `u32::MAX` where there are more.
    pub fn byte_length(&self) -> u32
        ensures { result ≡ told_length (answer_length self.now) }
    {
        match self {
            Reply::Done => 1,
            Reply::Gave { value } => value.byte_length().saturating_add(1),
            Reply::Broke { .. } => 2,
        }
    }

    /// An equal reply.
    pub fn copy(&self, alloc: Global) -> Result<Reply, NoMemory>
        ensures { IfOk result (λ r. r ≡ self.now) }
    {
        match self {
            Reply::Done => Ok(Reply::Done),
            Reply::Gave { value } => Ok(Reply::Gave {
                value: value.copy(alloc)?,
            }),
            Reply::Broke { fault } => Ok(Reply::Broke { fault: *fault }),
        }
    }

    /// Whether both replies are the same.
    pub fn is(&self, other: &Reply) -> bool
        ensures { IsTrue result ↔ (self.now ≡ other.now) }
    {
        match (self, other) {
            (Reply::Done, Reply::Done) => true,
            (Reply::Gave { value }, Reply::Gave { value: other_value }) => value.is(other_value),
            (Reply::Broke { fault }, Reply::Broke { fault: other_fault }) => fault == other_fault,
            _ => false,
        }
    }
}

impl Line {
    /// An equal line.
    pub fn copy(&self, alloc: Global) -> Result<Line, NoMemory>
        ensures { IfOk result (λ l. l ≡ self.now) }
    {
        Ok(Line {
            process: self.process,
            call: self.call,
            action: self.action.copy(alloc)?,
            guard: self.guard,
            reply: self.reply.copy(alloc)?,
        })
    }

    /// Whether both lines are the same.
    pub fn is(&self, other: &Line) -> bool
        ensures { IsTrue result ↔ (self.now ≡ other.now) }
    {
        self.process == other.process
            && self.call == other.call
            && self.action.is(&other.action)
            && self.guard == other.guard
            && self.reply.is(&other.reply)
    }
}

impl Instance {
    /// An equal object.
    pub fn copy(&self, alloc: Global) -> Result<Instance, NoMemory>
        ensures { IfOk result (λ k. k ≡ self.now) }
    {
        Ok(Instance {
            kind: self.kind,
            state: self.state.copy(alloc)?,
        })
    }

    /// Whether both objects are the same.
    pub fn is(&self, other: &Instance) -> bool
        ensures { IsTrue result ↔ (self.now ≡ other.now) }
    {
        self.kind == other.kind && self.state.is(&other.state)
    }
}
