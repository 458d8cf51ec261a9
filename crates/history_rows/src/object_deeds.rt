//! Deeds on copies of pools and flags, and what is asked of them. Objects are process 0's, by their numbers, and calls are of object 1.
//!
//! - Entries: `make LINE TYPE NUMBER`, `fork LINE`, `call PROCESS LINE TYPE OPERATION [INTEGER]`. Each tells its lines, as
//!   `PROCESS.CALL guard GUARD REPLY`, or why it was refused; so do the next two.
//! - Single objects: `pass NUMBER TYPE here` or `elsewhere`, where the state is kept, and
//!   `single NUMBER PROCESS LINE TYPE OPERATION [INTEGER]`.
//! - Many of one sort: `flags COUNT`, `pass-flags FIRST COUNT`, `forks COUNT`, `waits COUNT INTEGER`, and `release INTEGER`.
//! - Other copies: `twin` keeps equal ones, `exchange` takes those, `send` goes on from the state that is sent, `alike` compares both.
//! - A snapshot: `look` takes one, `seen TYPE OPERATION [INTEGER]` tries a call on it; `seen-place`, `seen-objects`,
//!   `holds NUMBER`, `same-view`.
//! - What is asked: `read TYPE OPERATION [INTEGER]`, `settle PROCESS INTEGER`, `objects`, `own`, `held`, `applied`, `processes`,
//!   `suspended PROCESS`, `waiting PROCESS`, `counted NUMBER`, `keeps NUMBER`, `both NUMBER`.

use bag_copies::{
    BagCopies, BagView, Refused, call, fork, fork_many, make, make_flags, object, pass_flags,
    release, wait_many,
};
use bag_performer::Bags;
use guard_queue::{Answered, Suspended};
use orca_base::{CallNo, KindNo, OpNo, ProcessNo};
use row_files::{RowError, integer, malformed, number_16, number_32, number_64, said, words};
use std::alloc::Global;
use std::mem;
use value_core::{Message, Parts, Reply, Tried, Value};

/// Copies, others that were equal once, and a snapshot that was taken.
#[derive(Drop)]
pub struct Stage {
    copies: BagCopies,
    twin: BagCopies,
    view: BagView,
}

// What is told of a refusal.
fn refusal_text(alloc: Global, refused: Refused) -> Result<String, RowError> {
    Ok(format!(in alloc; "refused {refused:?}")?)
}

fn reply_text(alloc: Global, reply: &Reply) -> Result<String, RowError> {
    match reply {
        Reply::Done => said(alloc, "done"),
        Reply::Gave {
            value: Value::Int(number),
        } => Ok(format!(in alloc; "gave {number}")?),
        Reply::Gave { .. } => said(alloc, "gave another value"),
        Reply::Broke { fault } => Ok(format!(in alloc; "broke {fault:?}")?),
    }
}

// Lines by their process, call, guard and reply.
fn lines_text(alloc: Global, lines: &[Answered]) -> Result<String, RowError> {
    let mut answer = String::new(alloc);
    for one in lines {
        if !answer.is_empty() {
            answer.push_str("; ")?;
        }
        let reply = reply_text(alloc, &one.line.reply)?;
        let (process, call) = (one.line.process.0, one.line.call.0);
        let line = format!(in alloc; "{process}.{call} guard {} {reply}", one.line.guard)?;
        answer.push_str(line.as_str())?;
    }
    if answer.is_empty() {
        return said(alloc, "no lines");
    }
    Ok(answer)
}

fn answered(alloc: Global, answer: Result<Vec<Answered>, Refused>) -> Result<String, RowError> {
    match answer {
        Ok(lines) => lines_text(alloc, &lines),
        Err(refused) => refusal_text(alloc, refused),
    }
}

fn done_text(alloc: Global, answer: Result<(), Refused>) -> Result<String, RowError> {
    match answer {
        Ok(()) => said(alloc, "done"),
        Err(refused) => refusal_text(alloc, refused),
    }
}

fn tried_text(alloc: Global, answer: &Result<Tried, Refused>) -> Result<String, RowError> {
    match answer {
        Ok(Tried::Blocked) => said(alloc, "blocked"),
        Ok(Tried::Did { reply, .. }) => reply_text(alloc, reply),
        Ok(Tried::Broke { fault, .. }) => Ok(format!(in alloc; "broke {fault:?}")?),
        Err(refused) => Ok(format!(in alloc; "refused {refused:?}")?),
    }
}

// The integer of a call, where it has one.
fn argument_of(words: &[&str]) -> Result<Option<i64>, RowError> {
    match words {
        [] => Ok(None),
        [number] => Ok(Some(integer(number)?)),
        _ => malformed("more than one argument"),
    }
}

// A type and an operation: `pool put`, `pool take`, `flag await`, `flag set`, `flag spoil` or `flag step`.
fn operation_of(kind: &str, op: &str) -> Result<(KindNo, OpNo), RowError> {
    match (kind, op) {
        ("pool", "put") => Ok((Bags::POOL, Bags::PUT)),
        ("pool", "take") => Ok((Bags::POOL, Bags::TAKE)),
        ("flag", "await") => Ok((Bags::FLAG, Bags::AWAIT)),
        ("flag", "set") => Ok((Bags::FLAG, Bags::SET)),
        ("flag", "spoil") => Ok((Bags::FLAG, Bags::SPOIL)),
        ("flag", "step") => Ok((Bags::FLAG, Bags::STEP)),
        _ => malformed("no operation"),
    }
}

fn kind_of(word: &str) -> Result<KindNo, RowError> {
    match word {
        "pool" => Ok(Bags::POOL),
        "flag" => Ok(Bags::FLAG),
        "broken" => Ok(Bags::BROKEN),
        _ => malformed("no type"),
    }
}

// A call of an object of process 0: its process and line, type and operation, and its argument, where there is one.
fn call_of(alloc: Global, object_no: u32, given: &[&str]) -> Result<Message, RowError> {
    let [process, line, kind, op, argument @ ..] = given else {
        return malformed("no call");
    };
    let operation = operation_of(kind, op)?;
    let argument = argument_of(argument)?;
    let process = number_16(process)?;
    let line = number_64(line)?;
    Ok(call(alloc, process, line, operation, object(object_no), argument)?)
}

// This number as the arguments, or none.
fn args_of(alloc: Global, words: &[&str]) -> Result<Parts, RowError> {
    let mut args = Parts::new(alloc);
    if let Some(number) = argument_of(words)? {
        args.push(Value::Int(number))?;
    }
    Ok(args)
}

// The argument of a call that waits until the first flag has this integer.
fn waits(alloc: Global, process: u16, number: i64) -> Result<Suspended, RowError> {
    let mut args = Parts::new(alloc);
    args.push(Value::Int(number))?;
    Ok(Suspended {
        process: ProcessNo(process),
        call: CallNo(0),
        kind: Bags::FLAG,
        op: Bags::AWAIT,
        object: object(1),
        args,
    })
}

fn opening(alloc: Global) -> Result<BagCopies, RowError> {
    Ok(BagCopies::opening(alloc)?)
}

impl Stage {
    /// Copies as they are at first.
    pub fn new(alloc: Global) -> Result<Stage, RowError> {
        let copies = opening(alloc)?;
        let view = copies.view(alloc)?;
        Ok(Stage {
            copies,
            twin: opening(alloc)?,
            view,
        })
    }

    /// Does it, and tells what comes of it.
    pub fn done(&mut self, alloc: Global, deed: &str) -> Result<String, RowError> {
        let words = words(alloc, deed)?;
        match words.as_slice() {
            [] => malformed("no deed"),
            [verb] => self.of_all(alloc, verb),
            [verb, given @ ..] => self.of_some(alloc, verb, given),
        }
    }

    // A deed that is given nothing.
    fn of_all(&mut self, alloc: Global, verb: &str) -> Result<String, RowError> {
        match verb {
            "twin" => {
                self.twin = self.copies.copy(alloc)?;
                said(alloc, "copied")
            }
            "exchange" => {
                mem::swap(&mut self.copies, &mut self.twin);
                said(alloc, "exchanged")
            }
            "look" => {
                self.view = self.copies.view(alloc)?;
                said(alloc, "looked")
            }
            "send" => self.send(alloc),
            _ => self.told(alloc, verb),
        }
    }

    // Copies that are made from the state of these take their place.
    fn send(&mut self, alloc: Global) -> Result<String, RowError> {
        match self.copies.sent(alloc) {
            Ok(sent) => {
                self.copies = sent;
                said(alloc, "sent")
            }
            Err(refused) => refusal_text(alloc, refused),
        }
    }

    // What is asked of all.
    fn told(&self, alloc: Global, what: &str) -> Result<String, RowError> {
        let copies = self.copies.as_copies();
        let view = self.view.as_view();
        match what {
            "objects" => Ok(format!(in alloc; "{}", copies.objects().len())?),
            "own" => Ok(format!(in alloc; "{}", copies.own().len())?),
            "held" => Ok(format!(in alloc; "{}", copies.held(alloc)?.len())?),
            "applied" => Ok(format!(in alloc; "{}", copies.applied())?),
            "processes" => Ok(format!(in alloc; "{}", copies.processes())?),
            "alike" => {
                let twin = self.twin.as_copies();
                let is_alike = copies.objects().is(twin.objects()) && copies.own().is(twin.own());
                Ok(format!(in alloc; "{is_alike}")?)
            }
            "seen-place" => Ok(format!(in alloc; "{}", view.place())?),
            "seen-objects" => Ok(format!(in alloc; "{}", view.objects().len())?),
            "same-view" => self.is_same_view(alloc),
            _ => malformed("no deed"),
        }
    }

    // Whether the snapshot is its copy and one that is taken now.
    fn is_same_view(&self, alloc: Global) -> Result<String, RowError> {
        let now = self.copies.view(alloc)?;
        let view = self.view.as_view();
        let copy = view.copy(alloc)?;
        Ok(format!(in alloc; "{} and {}", copy.same(view), view.same(now.as_view()))?)
    }

    // A deed that is given something.
    fn of_some(&mut self, alloc: Global, verb: &str, given: &[&str]) -> Result<String, RowError> {
        match verb {
            "make" | "fork" | "call" => self.entered(alloc, verb, given),
            "pass" | "single" => self.of_single(alloc, verb, given),
            "flags" | "pass-flags" | "forks" | "waits" | "release" => {
                self.many(alloc, verb, given)
            }
            _ => self.asked(alloc, verb, given),
        }
    }

    // An entry of process 0, or a call.
    fn entered(&mut self, alloc: Global, verb: &str, given: &[&str]) -> Result<String, RowError> {
        let message = match (verb, given) {
            ("make", [line, kind, number]) => make(
                0,
                number_64(line)?,
                kind_of(kind)?,
                object(number_32(number)?),
            ),
            ("fork", [line]) => fork(alloc, 0, number_64(line)?, object(1), 10)?,
            ("call", given) => call_of(alloc, 1, given)?,
            _ => return malformed("no entry"),
        };
        answered(alloc, self.copies.entry(alloc, &message))
    }

    // A single object of process 0 is made, in the line of its number, or called.
    fn of_single(&mut self, alloc: Global, verb: &str, given: &[&str]) -> Result<String, RowError> {
        match (verb, given) {
            ("pass", [number, kind, keeps]) => {
                let number = number_32(number)?;
                let keeps = match *keeps {
                    "here" => true,
                    "elsewhere" => false,
                    _ => return malformed("neither here nor elsewhere"),
                };
                let message = make(0, u64::from(number), kind_of(kind)?, object(number));
                answered(alloc, self.copies.pass(alloc, &message, keeps))
            }
            ("single", [number, given @ ..]) => {
                let message = call_of(alloc, number_32(number)?, given)?;
                answered(alloc, self.copies.single(alloc, &message))
            }
            _ => malformed("no single object"),
        }
    }

    // Many of one sort.
    fn many(&mut self, alloc: Global, verb: &str, given: &[&str]) -> Result<String, RowError> {
        let copies = &mut self.copies;
        match (verb, given) {
            ("flags", [count]) => done_text(alloc, make_flags(alloc, copies, number_32(count)?)),
            ("pass-flags", [first, count]) => {
                let (first, count) = (number_32(first)?, number_32(count)?);
                done_text(alloc, pass_flags(alloc, copies, first, count))
            }
            ("forks", [count]) => done_text(alloc, fork_many(alloc, copies, number_16(count)?)),
            ("waits", [count, wanted]) => {
                let (count, wanted) = (number_16(count)?, integer(wanted)?);
                done_text(alloc, wait_many(alloc, copies, count, wanted))
            }
            ("release", [wanted]) => match release(alloc, copies, integer(wanted)?) {
                Ok(lines) => Ok(format!(in alloc; "{lines} lines")?),
                Err(refused) => refusal_text(alloc, refused),
            },
            _ => malformed("not so many"),
        }
    }

    // What is asked with words.
    fn asked(&self, alloc: Global, verb: &str, given: &[&str]) -> Result<String, RowError> {
        match (verb, given) {
            ("read", [kind, op, argument @ ..]) => {
                let (kind, op) = operation_of(kind, op)?;
                let args = args_of(alloc, argument)?;
                let tried = self.copies.read(alloc, kind, op, object(1), &args);
                tried_text(alloc, &tried)
            }
            ("seen", [kind, op, argument @ ..]) => {
                let (kind, op) = operation_of(kind, op)?;
                let args = args_of(alloc, argument)?;
                let tried = self.view.read(alloc, kind, op, object(1), &args);
                tried_text(alloc, &tried)
            }
            ("settle", [process, number]) => {
                let call = waits(alloc, number_16(process)?, integer(number)?)?;
                answered(alloc, self.copies.settle_alone(alloc, call))
            }
            ("suspended" | "waiting", [process]) => {
                self.is_process(alloc, verb, ProcessNo(number_16(process)?))
            }
            ("counted" | "holds" | "keeps" | "both", [number]) => {
                self.is_object(alloc, verb, number_32(number)?)
            }
            _ => malformed("no deed"),
        }
    }

    // Whether a process's call waits, for a replicated object or a single one.
    fn is_process(
        &self,
        alloc: Global,
        verb: &str,
        process: ProcessNo,
    ) -> Result<String, RowError> {
        let copies = self.copies.as_copies();
        let is = if verb == "suspended" {
            copies.is_suspended(process)
        } else {
            copies.is_waiting(process)
        };
        Ok(format!(in alloc; "{is}")?)
    }

    // Whether an object of process 0 is counted as single, is seen in the snapshot, is kept here as single, or is held here at all.
    fn is_object(&self, alloc: Global, verb: &str, number: u32) -> Result<String, RowError> {
        let copies = self.copies.as_copies();
        let is = match verb {
            "counted" => copies.is_counted(object(number)),
            "holds" => self.view.as_view().holds(object(number)),
            "keeps" => copies.own().get(object(number)).is_some(),
            _ => copies.held(alloc)?.get(object(number)).is_some(),
        };
        Ok(format!(in alloc; "{is}")?)
    }
}
