//! Reading a line.

ghost use Rattle.std.specs.Prelude.{◌≡◌};
ghost use Rattle.value_texts.specs.Reading.{Gives};
ghost use Rattle.history_text.specs.Reading.{action_at, arguments_at, call_at, called_at, caller_at, fault_at, fault_of, fork_at, guarded_at, last_at, line_at, make_at, object_at, place_at, reply_at};
ghost use Rattle.history_text.specs.Sound.{AreTables};

use crate::names::{Names, name_len, named, operation_table};
use orca_base::{CallNo, FaultKind, KindNo, ObjectId, OpNo, PARAMETERS, ProcessNo, TextNo, refuse};
use std::alloc::Global;
use value_core::{Action, Line, Parts, Reply};
use value_texts::{
    Misspelled, Read, after, begins, integer, natural, natural_below, object_id, sign,
    value_in_front, values_in_front, word,
};

// An object.
#[tactic(auto, unfolding(crate::specs::Reading::object_at))]
fn object(text: &[u8]) -> Read<'_, ObjectId>
    ensures { Gives (λ x. (x.0, x.1.now)) result (object_at text.now) }
{
    let rest = sign(b'o', text)?;
    object_id(rest)
}

// The arguments of a call or a fork.
#[tactic(auto, unfolding(crate::specs::Reading::arguments_at))]
fn arguments(alloc: Global, text: &[u8]) -> Read<'_, Parts>
    ensures { Gives (λ x. (x.0, x.1.now)) result (arguments_at text.now) }
{
    let (args, rest) = values_in_front(alloc, text)?;
    if args.len() > PARAMETERS as usize {
        return refuse(Misspelled);
    }
    Ok((args, rest))
}

// Where a fork is placed.
#[tactic(auto, unfolding(crate::specs::Reading::place_at, crate::specs::Reading::place_from))]
fn place(text: &[u8]) -> Read<'_, Option<i64>>
    ensures { Gives (λ x. (x.0, x.1.now)) result (place_at text.now) }
{
    if let Some(rest) = after(b"parent", text) {
        return Ok((None, rest));
    }
    let (number, rest) = integer(text)?;
    Ok((Some(number), rest))
}

// A make and its guard, behind its word.
#[tactic(auto, unfolding(crate::specs::Reading::make_at))]
fn make<'a>(names: &Names, text: &'a [u8]) -> Read<'a, (Action, u16)>
    requires { AreTables names.now }
    ensures { Gives (λ x. (x.0, x.1.now)) result (make_at names.now text.now) }
{
    let (kind, rest) = named(&names.kinds, text)?;
    let rest = sign(b' ', rest)?;
    let (object, rest) = object(rest)?;
    let action = Action::Make {
        kind: KindNo(kind),
        object,
    };
    Ok(((action, 0), rest))
}

// An operation, by the names of its type and its own.
#[tactic(auto, unfolding(crate::specs::Reading::called_at))]
fn called<'a>(names: &Names, text: &'a [u8]) -> Read<'a, (KindNo, OpNo)>
    requires { AreTables names.now }
    ensures { Gives (λ x. (x.0, x.1.now)) result (called_at names.now text.now) }
{
    let (kind, rest) = named(&names.kinds, text)?;
    let rest = sign(b'$', rest)?;
    let (op, rest) = named(operation_table(names, kind), rest)?;
    Ok(((KindNo(kind), OpNo(op)), rest))
}

// The arguments of a call, and its guard.
#[tactic(auto, unfolding(crate::specs::Reading::guarded_at))]
fn guarded(alloc: Global, text: &[u8]) -> Read<'_, (Parts, u16)>
    ensures { Gives (λ x. (x.0, x.1.now)) result (guarded_at text.now) }
{
    let (args, rest) = arguments(alloc, text)?;
    let rest = word(b" guard ", rest)?;
    let (guard, rest) = natural_below(1 << 16, rest)?;
    Ok(((args, guard as u16), rest))
}

// A call and its guard, behind its word.
#[tactic(auto, unfolding(crate::specs::Reading::call_at))]
fn call<'a>(alloc: Global, names: &Names, text: &'a [u8]) -> Read<'a, (Action, u16)>
    requires { AreTables names.now }
    ensures { Gives (λ x. (x.0, x.1.now)) result (call_at names.now text.now) }
{
    let ((kind, op), rest) = called(names, text)?;
    let rest = sign(b' ', rest)?;
    let (object, rest) = object(rest)?;
    let rest = sign(b' ', rest)?;
    let ((args, guard), rest) = guarded(alloc, rest)?;
    let action = Action::Call {
        kind,
        op,
        object,
        args,
    };
    Ok(((action, guard), rest))
}

// A fork and its guard, behind its word.
#[tactic(auto, unfolding(crate::specs::Reading::fork_at))]
fn fork<'a>(alloc: Global, names: &Names, text: &'a [u8]) -> Read<'a, (Action, u16)>
    requires { AreTables names.now }
    ensures { Gives (λ x. (x.0, x.1.now)) result (fork_at names.now text.now) }
{
    let (process, rest) = named(&names.texts, text)?;
    let rest = sign(b' ', rest)?;
    let (args, rest) = arguments(alloc, rest)?;
    let rest = word(b" on ", rest)?;
    let (place_on, rest) = place(rest)?;
    let action = Action::Fork {
        process: TextNo(process),
        args,
        place_on,
    };
    Ok(((action, 0), rest))
}

// An action and its guard.
#[tactic(auto, unfolding(crate::specs::Reading::action_at))]
fn action<'a>(alloc: Global, names: &Names, text: &'a [u8]) -> Read<'a, (Action, u16)>
    requires { AreTables names.now }
    ensures { Gives (λ x. (x.0, x.1.now)) result (action_at names.now text.now) }
{
    if begins(b'm', text) {
        let rest = word(b"make ", text)?;
        return make(names, rest);
    }
    if begins(b'c', text) {
        let rest = word(b"call ", text)?;
        return call(alloc, names, rest);
    }
    let rest = word(b"fork ", text)?;
    fork(alloc, names, rest)
}

// The fault with this name.
#[tactic(auto, unfolding(crate::specs::Reading::fault_of))]
fn fault_of(name: &[u8]) -> Option<FaultKind>
    ensures { result ≡ fault_of name.now }
{
    if name == b"Overflow".as_slice() {
        Some(FaultKind::Overflow)
    } else if name == b"DivideByZero".as_slice() {
        Some(FaultKind::DivideByZero)
    } else if name == b"IndexOutside".as_slice() {
        Some(FaultKind::IndexOutside)
    } else if name == b"FromEmpty".as_slice() {
        Some(FaultKind::FromEmpty)
    } else if name == b"TooLarge".as_slice() {
        Some(FaultKind::TooLarge)
    } else if name == b"TooLong".as_slice() {
        Some(FaultKind::TooLong)
    } else if name == b"TooDeep".as_slice() {
        Some(FaultKind::TooDeep)
    } else if name == b"NoReturn".as_slice() {
        Some(FaultKind::NoReturn)
    } else {
        None
    }
}

// A fault as a reply, behind its word.
#[tactic(auto, unfolding(crate::specs::Reading::fault_at))]
fn fault(text: &[u8]) -> Read<'_, Reply>
    ensures { Gives (λ x. (x.0, x.1.now)) result (fault_at text.now) }
{
    let (name, rest) = text.split_at(name_len(text));
    match fault_of(name) {
        Some(fault) => Ok((Reply::Broke { fault }, rest)),
        None => refuse(Misspelled),
    }
}

// A reply.
#[tactic(auto, unfolding(crate::specs::Reading::reply_at, crate::specs::Reading::given_at))]
fn reply(alloc: Global, text: &[u8]) -> Read<'_, Reply>
    ensures { Gives (λ x. (x.0, x.1.now)) result (reply_at text.now) }
{
    if begins(b'n', text) {
        let rest = word(b"none", text)?;
        return Ok((Reply::Done, rest));
    }
    if let Some(rest) = after(b"fault ", text) {
        return fault(rest);
    }
    let (value, rest) = value_in_front(alloc, text)?;
    Ok((Reply::Gave { value }, rest))
}

// A process and the number of its call.
#[tactic(auto, unfolding(crate::specs::Reading::caller_at))]
fn caller(text: &[u8]) -> Read<'_, (ProcessNo, CallNo)>
    ensures { Gives (λ x. (x.0, x.1.now)) result (caller_at text.now) }
{
    let (process, rest) = natural_below(1 << 16, text)?;
    let rest = sign(b' ', rest)?;
    let (call, rest) = natural(rest)?;
    Ok(((ProcessNo(process as u16), CallNo(call)), rest))
}

// A reply and the line feed behind it.
#[tactic(auto, unfolding(crate::specs::Reading::last_at))]
fn last(alloc: Global, text: &[u8]) -> Read<'_, Reply>
    ensures { Gives (λ x. (x.0, x.1.now)) result (last_at text.now) }
{
    let (reply, rest) = reply(alloc, text)?;
    let rest = sign(b'\n', rest)?;
    Ok((reply, rest))
}

/// The line in front of a text, with its line feed, and the text behind it.
#[tactic(auto, unfolding(crate::specs::Reading::line_at))]
pub(crate) fn line_in_front<'a>(alloc: Global, names: &Names, text: &'a [u8]) -> Read<'a, Line>
    requires { AreTables names.now }
    ensures { Gives (λ x. (x.0, x.1.now)) result (line_at names.now text.now) }
{
    let ((process, call), rest) = caller(text)?;
    let rest = sign(b' ', rest)?;
    let ((action, guard), rest) = action(alloc, names, rest)?;
    let rest = sign(b' ', rest)?;
    let (reply, rest) = last(alloc, rest)?;
    let line = Line {
        process,
        call,
        action,
        guard,
        reply,
    };
    Ok((line, rest))
}
