//! Printing histories.

ghost use Rattle.std.specs.Prelude.{◌≡◌, ◌++◌, ◌∷◌, ◌<◌, All, IfOk, OnOk, codes, length, string_bytes};
ghost use Rattle.std.specs.Fmt.{decimal};
ghost use Rattle.std.specs.Str.{IsAscii};
ghost use Rattle.value_core.specs.Sound.{AreSoundArguments, IsSoundAction, IsSoundReply};
ghost use Rattle.history_text.specs.Sound.{AreLines, AreTables, HasNames, IsLine, IsNamed, IsPrintable, ObjectFits, PlaceFits};
ghost use Rattle.history_text.specs.Spelling.{action_text, arguments_text, called_name, fault_name, history_text, line_text, name_of, object_text, operation_names, place_text, reply_text};

use crate::names::{Names, operation_table};
use orca_base::{FaultKind, KindNo, NoMemory, ObjectId, OpNo, Text};
use std::alloc::Global;
use value_core::{Action, Line, Parts, Reply};
use value_texts::{push_integer, push_number, push_value, push_values};

// Adds an object.
fn put_object(out: &mut Vec<u8>, object: ObjectId) -> Result<(), NoMemory>
    ensures fits { ObjectFits object }
    ensures put { OnOk result (out.new.items ≡ out.old.items ++ object_text object) }
{
    out.push(b'o')?;
    push_number(out, u64::from(object.process))?;
    out.push(b'.')?;
    push_number(out, u64::from(object.number))
}

// Adds where a fork is placed.
fn put_place(out: &mut Vec<u8>, place_on: Option<i64>) -> Result<(), NoMemory>
    ensures fits { PlaceFits place_on }
    ensures put { OnOk result (out.new.items ≡ out.old.items ++ place_text place_on) }
{
    match place_on {
        None => out.extend_from_slice(b"parent")?,
        Some(place) => push_integer(out, place)?,
    }
    Ok(())
}

// Adds a name.
fn put_name(out: &mut Vec<u8>, names: &[Text], number: u16) -> Result<(), NoMemory>
    requires { number < length names.now }
    ensures { OnOk result (out.new.items ≡ out.old.items ++ name_of names.now number) }
{
    out.extend_from_slice(names[number as usize].as_bytes())?;
    Ok(())
}

/// The name of a fault, as a reply has it (docs/FORMATS.md, Histories).
pub fn fault_name(fault: FaultKind) -> &'static [u8]
    ensures { result.now ≡ fault_name fault }
{
    match fault {
        FaultKind::Overflow => b"Overflow",
        FaultKind::DivideByZero => b"DivideByZero",
        FaultKind::IndexOutside => b"IndexOutside",
        FaultKind::FromEmpty => b"FromEmpty",
        FaultKind::TooLarge => b"TooLarge",
        FaultKind::TooLong => b"TooLong",
        FaultKind::TooDeep => b"TooDeep",
        FaultKind::NoReturn => b"NoReturn",
    }
}

// Adds a make, behind its word.
fn put_make(
    out: &mut Vec<u8>,
    names: &Names,
    kind: KindNo,
    object: ObjectId,
) -> Result<(), NoMemory>
    requires { kind.0 < length names.now.kinds.items }
    ensures fits { ObjectFits object }
    ensures put { OnOk result (out.new.items ≡ out.old.items ++ (name_of names.now.kinds.items kind.0 ++ 32 ∷ object_text object)) }
{
    put_name(out, &names.kinds, kind.0)?;
    out.push(b' ')?;
    put_object(out, object)
}

/// Adds an operation, `KIND$OP`, by the names of its type and its own (docs/FORMATS.md, Histories).
pub fn put_operation(
    out: &mut Vec<u8>,
    names: &Names,
    kind: KindNo,
    op: OpNo,
) -> Result<(), NoMemory>
    requires kind { kind.0 < length names.now.kinds.items }
    requires op { op.0 < length (operation_names names.now kind.0) }
    ensures { OnOk result (out.new.items ≡ out.old.items ++ called_name names.now kind op) }
{
    put_name(out, &names.kinds, kind.0)?;
    out.push(b'$')?;
    put_name(out, operation_table(names, kind.0), op.0)
}

// Adds what stands of a call behind its operation: the object, the arguments and the guard.
fn put_called(out: &mut Vec<u8>, object: ObjectId, args: &Parts, guard: u16) -> Result<(), NoMemory>
    requires { AreSoundArguments args.now }
    ensures fits { ObjectFits object }
    ensures put { OnOk result (out.new.items ≡ out.old.items
        ++ 32 ∷ (object_text object ++ 32 ∷ (arguments_text args.now ++ (codes " guard " ++ decimal guard)))) }
{
    out.push(b' ')?;
    put_object(out, object)?;
    out.push(b' ')?;
    push_values(out, args)?;
    out.extend_from_slice(b" guard ")?;
    push_number(out, u64::from(guard))?;
    Ok(())
}

// Adds an action and its guard.
#[tactic(auto, unfolding(crate::specs::Spelling::action_text))]
fn put_action(out: &mut Vec<u8>, names: &Names, action: &Action, guard: u16) -> Result<(), NoMemory>
    requires named { HasNames names.now action.now }
    requires sound { IsSoundAction action.now }
    ensures is { OnOk result (IsNamed names.now action.now) }
    ensures put { OnOk result (out.new.items ≡ out.old.items ++ action_text names.now action.now guard) }
{
    match action {
        Action::Make { kind, object } => {
            out.extend_from_slice(b"make ")?;
            put_make(out, names, *kind, *object)
        }
        Action::Call {
            kind,
            op,
            object,
            args,
        } => {
            out.extend_from_slice(b"call ")?;
            put_operation(out, names, *kind, *op)?;
            put_called(out, *object, args, guard)
        }
        Action::Fork {
            process,
            args,
            place_on,
        } => {
            out.extend_from_slice(b"fork ")?;
            put_name(out, &names.texts, process.0)?;
            out.push(b' ')?;
            push_values(out, args)?;
            out.extend_from_slice(b" on ")?;
            put_place(out, *place_on)
        }
        Action::Ended | Action::Faulted { .. } => Ok(()),
    }
}

// Adds a reply.
#[tactic(auto, unfolding(crate::specs::Spelling::reply_text))]
fn put_reply(out: &mut Vec<u8>, reply: &Reply) -> Result<(), NoMemory>
    requires { IsSoundReply reply.now }
    ensures { OnOk result (out.new.items ≡ out.old.items ++ reply_text reply.now) }
{
    match reply {
        Reply::Done => out.extend_from_slice(b"none")?,
        Reply::Gave { value } => push_value(out, value)?,
        Reply::Broke { fault } => {
            out.extend_from_slice(b"fault ")?;
            out.extend_from_slice(fault_name(*fault))?;
        }
    }
    Ok(())
}

// Adds a line with its line feed.
#[tactic(auto, unfolding(crate::specs::Spelling::line_text))]
fn put_line(out: &mut Vec<u8>, names: &Names, line: &Line) -> Result<(), NoMemory>
    requires { IsPrintable names.now line.now }
    ensures is { OnOk result (IsLine names.now line.now) }
    ensures put { OnOk result (out.new.items ≡ out.old.items ++ line_text names.now line.now) }
{
    push_number(out, u64::from(line.process.0))?;
    out.push(b' ')?;
    push_number(out, line.call.0)?;
    out.push(b' ')?;
    put_action(out, names, &line.action, line.guard)?;
    out.push(b' ')?;
    put_reply(out, &line.reply)?;
    out.push(b'\n')?;
    Ok(())
}

// The text with these ASCII bytes.
fn text_of(bytes: Vec<u8>) -> String
    requires { IsAscii bytes.items }
    ensures { string_bytes result ≡ bytes.items }
{
    String::from_utf8(bytes).unwrap()
}

/// The one spelling of a sound line whose names are known, with its line feed (docs/FORMATS.md, Histories).
pub fn print_line(alloc: Global, names: &Names, line: &Line) -> Result<String, NoMemory>
    requires tables { AreTables names.now }
    requires line { IsPrintable names.now line.now }
    ensures is { IfOk result (λ text. IsLine names.now line.now) }
    ensures text { IfOk result (λ text. string_bytes text ≡ line_text names.now line.now) }
{
    let mut out = Vec::new(alloc);
    put_line(&mut out, names, line)?;
    Ok(text_of(out))
}

// Adds lines, each with its line feed.
fn put_lines(out: &mut Vec<u8>, names: &Names, lines: &[Line]) -> Result<(), NoMemory>
    requires { All (IsPrintable names.now) lines.now }
    ensures are { OnOk result (AreLines names.now lines.now) }
    ensures put { OnOk result (out.new.items ≡ out.old.items ++ history_text names.now lines.now) }
{
    'lines: for line in lines {
        put_line(out, names, line)?;
    }
    Ok(())
}

/// The one spelling of sound lines whose names are known.
pub fn print_history(alloc: Global, names: &Names, lines: &[Line]) -> Result<String, NoMemory>
    requires tables { AreTables names.now }
    requires lines { All (IsPrintable names.now) lines.now }
    ensures are { IfOk result (λ text. AreLines names.now lines.now) }
    ensures text { IfOk result (λ text. string_bytes text ≡ history_text names.now lines.now) }
{
    let mut out = Vec::new(alloc);
    put_lines(&mut out, names, lines)?;
    Ok(text_of(out))
}
