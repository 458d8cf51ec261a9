//! The listing of code (docs/LANGUAGE.md, The listing).

ghost use Rattle.std.specs.Prelude.{◌≡◌, ◌<◌, ◌≤◌, ◌^◌, ◌+◌, ◌∷◌, ◌++◌, [], IfOk, List, OnOk, codes, cond, length, map, option_map, slice_get, string_bytes, suc, ℕ};
ghost use Rattle.std.specs.List.{flat_map};
ghost use Rattle.value_core.specs.Datum as datum;
ghost use Rattle.value_core.specs.View.{datum_of};
ghost use Rattle.code_rules.specs.Instructions as rules;
ghost use Rattle.emitted_code.specs.Views.{instr_of, mark_of, marks_of, prefix_of, shape_of};
ghost use Rattle.stack_code.specs.Packed.{code_in};
ghost use Rattle.stack_code.specs.Bodies.{body_shown, operation_shown, type_shown};
ghost use Rattle.stack_code.specs.Printed.{IsCounted, notes_of, written};
ghost use Rattle.stack_code.specs.Shown.{shown};
ghost use Rattle.stack_code.specs.Text.{body_bodies, code_text, constant_text, function_bodies, instr_text, line_text, lines_from, mark_text, note_text, noted_line, noted_text, notes_in, number, operation_bodies, operator_text, path_text, prefix_text, shape_text, shapes_text, target_text, texts_behind, texts_in, type_bodies};
ghost use Rattle.stack_code.specs.Views.{instr_in, long_one};

use crate::bodies::{PackedBody, PackedOperation, PackedType};
use crate::body_code::BodyCode;
use crate::code::Code;
use crate::word::Word;
use emitted_code::{Instr, Mark, Prefix, Shape};
use orca_base::{KindNo, NoMemory, OpNo, Text};
use orca_tree::Operator;
use std::alloc::Global;
use value_core::Value;

/// What is written, the number of the next body's first line, and how many strings stand in front of it.
#[derive(Drop)]
pub struct Printer {
    pub out: String,
    pub first: u128,
    pub texts: u128,
}

// An operand.
fn put_number(out: &mut String, n: u128) -> Result<(), NoMemory>
    ensures { OnOk result (string_bytes out.new ≡ string_bytes out.old ++ number n) }
{
    write!(out, " {n}")?;
    Ok(())
}

// A mnemonic, or a word of an operand.
fn put_word(out: &mut String, word: &str) -> Result<(), NoMemory>
    ensures { OnOk result (string_bytes out.new ≡ string_bytes out.old ++ word.now) }
{
    out.push_str(word)?;
    Ok(())
}

// The mnemonics of operators.
fn operator_word(operator: Operator) -> &'static str
    ensures { result.now ≡ operator_text operator }
{
    match operator {
        Operator::Or => "or",
        Operator::And => "and",
        Operator::Equal => "eq",
        Operator::Different => "ne",
        Operator::Less => "lt",
        Operator::AtMost => "le",
        Operator::Greater => "gt",
        Operator::AtLeast => "ge",
        Operator::In => "member",
        Operator::Join => "concat",
        Operator::Add => "add",
        Operator::Subtract => "sub",
        Operator::Multiply => "mul",
        Operator::Divide => "div",
        Operator::Remainder => "rem",
    }
}

fn prefix_word(prefix: Prefix) -> &'static str
    ensures { result.now ≡ prefix_text (prefix_of prefix) }
{
    match prefix {
        Prefix::Not => "not",
        Prefix::Neg => "neg",
        Prefix::Size => "size",
        Prefix::Ord => "ord",
    }
}

// An integer, a boolean, a character and an enumeration's value.
fn put_integer(out: &mut String, value: i64) -> Result<(), NoMemory>
    ensures { OnOk result (string_bytes out.new ≡ string_bytes out.old ++ constant_text (datum.int value)) }
{
    write!(out, "int {value}")?;
    Ok(())
}

fn put_truth(out: &mut String, truth: bool) -> Result<(), NoMemory>
    ensures { OnOk result (string_bytes out.new ≡ string_bytes out.old ++ constant_text (datum.truth truth)) }
{
    if truth {
        put_word(out, "truth true")
    } else {
        put_word(out, "truth false")
    }
}

fn put_char(out: &mut String, code: u8) -> Result<(), NoMemory>
    ensures { OnOk result (string_bytes out.new ≡ string_bytes out.old ++ constant_text (datum.char code)) }
{
    put_word(out, "char")?;
    put_number(out, code as u128)
}

fn put_enum(out: &mut String, value: u16) -> Result<(), NoMemory>
    ensures { OnOk result (string_bytes out.new ≡ string_bytes out.old ++ constant_text (datum.enumerated value)) }
{
    put_word(out, "enum")?;
    put_number(out, value as u128)
}

// A constant.
fn put_constant(out: &mut String, value: &Value) -> Result<(), NoMemory>
    ensures { OnOk result (string_bytes out.new ≡ string_bytes out.old ++ constant_text (datum_of value.now)) }
{
    match value {
        Value::Int(value) => put_integer(out, *value),
        Value::Truth(truth) => put_truth(out, *truth),
        Value::Char(code) => put_char(out, *code),
        Value::Enum(value) => put_enum(out, *value),
        _ => put_word(out, "value"),
    }
}

// A step of a path.
fn put_mark(out: &mut String, mark: Mark) -> Result<(), NoMemory>
    ensures { OnOk result (string_bytes out.new ≡ string_bytes out.old ++ mark_text (mark_of mark)) }
{
    match mark {
        Mark::Field { place } => put_number(out, place as u128),
        Mark::ByIndex { .. } => put_word(out, " []"),
        Mark::ByName => put_word(out, " @"),
    }
}

// A path.
fn put_marks(out: &mut String, path: &[Mark]) -> Result<(), NoMemory>
    ensures { OnOk result (string_bytes out.new ≡ string_bytes out.old ++ flat_map (λ m. mark_text (mark_of m)) path.now) }
{
    'marks: for mark in path {
        put_mark(out, *mark)?;
    }
    Ok(())
}

fn put_path(out: &mut String, path: &[Mark]) -> Result<(), NoMemory>
    ensures { OnOk result (string_bytes out.new ≡ string_bytes out.old ++ path_text (marks_of path.now)) }
{
    put_marks(out, path)
}

// A target: its slot, and the path there.
fn put_target(out: &mut String, slot: usize, path: &[Mark]) -> Result<(), NoMemory>
    ensures { OnOk result (string_bytes out.new ≡ string_bytes out.old ++ target_text slot (marks_of path.now)) }
{
    put_number(out, slot as u128)?;
    put_path(out, path)
}

// What an argument passes.
fn put_shape(out: &mut String, shape: &Shape) -> Result<(), NoMemory>
    ensures { OnOk result (string_bytes out.new ≡ string_bytes out.old ++ shape_text (shape_of shape.now)) }
{
    match shape {
        Shape::Gives => put_word(out, " in"),
        Shape::Lends { slot, path } => {
            put_word(out, " out")?;
            put_target(out, *slot, path)
        }
    }
}

// What all arguments pass.
fn put_passed(out: &mut String, shapes: &[Shape]) -> Result<(), NoMemory>
    ensures { OnOk result (string_bytes out.new ≡ string_bytes out.old ++ flat_map (λ s. shape_text (shape_of s)) shapes.now) }
{
    'shapes: for shape in shapes {
        put_shape(out, shape)?;
    }
    Ok(())
}

fn put_shapes(out: &mut String, shapes: &[Shape]) -> Result<(), NoMemory>
    ensures { OnOk result (string_bytes out.new ≡ string_bytes out.old ++ shapes_text (map shape_of shapes.now)) }
{
    put_passed(out, shapes)
}

// A mnemonic with a number, with two, and with a target.
fn put_one(out: &mut String, word: &str, n: u128) -> Result<(), NoMemory>
    ensures { OnOk result (string_bytes out.new ≡ string_bytes out.old ++ (word.now ++ number n)) }
{
    put_word(out, word)?;
    put_number(out, n)
}

fn put_two(out: &mut String, word: &str, m: u128, n: u128) -> Result<(), NoMemory>
    ensures { OnOk result (string_bytes out.new ≡ string_bytes out.old ++ (word.now ++ (number m ++ number n))) }
{
    put_word(out, word)?;
    put_number(out, m)?;
    put_number(out, n)
}

fn put_at(out: &mut String, word: &str, slot: usize, path: &[Mark]) -> Result<(), NoMemory>
    ensures { OnOk result (string_bytes out.new ≡ string_bytes out.old ++ (word.now ++ target_text slot (marks_of path.now))) }
{
    put_word(out, word)?;
    put_target(out, slot, path)
}

// A part of a constant.
fn put_part(out: &mut String, value: &Value, path: &[Mark]) -> Result<(), NoMemory>
    ensures { OnOk result (string_bytes out.new ≡
        string_bytes out.old ++ (codes "part " ++ (constant_text (datum_of value.now) ++ path_text (marks_of path.now)))) }
{
    put_word(out, "part ")?;
    put_constant(out, value)?;
    put_path(out, path)
}

// A jump of a body, and one for a slot.
fn put_jump(out: &mut String, word: &str, first: u128, to: usize) -> Result<(), NoMemory>
    requires { first < 2 ^ 64 }
    ensures { OnOk result (string_bytes out.new ≡ string_bytes out.old ++ (word.now ++ number (first + to))) }
{
    put_one(out, word, first + to as u128)
}

fn put_slot_jump(
    out: &mut String,
    word: &str,
    slot: usize,
    first: u128,
    to: usize,
) -> Result<(), NoMemory>
    requires { first < 2 ^ 64 }
    ensures { OnOk result (string_bytes out.new ≡ string_bytes out.old ++ (word.now ++ (number slot ++ number (first + to)))) }
{
    put_two(out, word, slot as u128, first + to as u128)
}

// The making of an object, and the call of an operation.
fn put_make(out: &mut String, kind: KindNo, slot: usize) -> Result<(), NoMemory>
    ensures { OnOk result (string_bytes out.new ≡ string_bytes out.old ++ (codes "make" ++ (number kind.0 ++ number slot))) }
{
    put_two(out, "make", kind.0 as u128, slot as u128)
}

fn put_invoke(out: &mut String, kind: KindNo, op: OpNo, slot: usize) -> Result<(), NoMemory>
    ensures { OnOk result (string_bytes out.new ≡
        string_bytes out.old ++ (codes "invoke" ++ (number kind.0 ++ (number op.0 ++ number slot)))) }
{
    put_one(out, "invoke", kind.0 as u128)?;
    put_number(out, op.0 as u128)?;
    put_number(out, slot as u128)
}

// The call of a function, and a change of a graph.
fn put_call(out: &mut String, function: usize, shapes: &[Shape]) -> Result<(), NoMemory>
    ensures { OnOk result (string_bytes out.new ≡
        string_bytes out.old ++ (codes "call" ++ (number function ++ shapes_text (map shape_of shapes.now)))) }
{
    put_one(out, "call", function as u128)?;
    put_shapes(out, shapes)
}

fn put_nodes(out: &mut String, word: &str, shapes: &[Shape]) -> Result<(), NoMemory>
    ensures { OnOk result (string_bytes out.new ≡ string_bytes out.old ++ (word.now ++ shapes_text (map shape_of shapes.now))) }
{
    put_word(out, word)?;
    put_shapes(out, shapes)
}

// A long instruction.
fn put_long(out: &mut String, first: u128, texts: u128, instr: &Instr<'_>) -> Result<(), NoMemory>
    requires { first < 2 ^ 64 }
    ensures { OnOk result (string_bytes out.new ≡ string_bytes out.old ++ instr_text first texts (instr_of instr.now)) }
{
    match instr {
        Instr::Push { value } => put_constant(out, value),
        Instr::Text { .. } => put_one(out, "text", texts),
        Instr::Part { value, path } => put_part(out, value, path),
        Instr::Get { slot, path } => put_at(out, "get", *slot, path),
        Instr::Put { slot, path } => put_at(out, "put", *slot, path),
        Instr::Insert { slot, path } => put_at(out, "insert", *slot, path),
        Instr::Delete { slot, path } => put_at(out, "delete", *slot, path),
        Instr::Least { slot, path } => put_at(out, "least", *slot, path),
        Instr::Before { prefix } => put_word(out, prefix_word(*prefix)),
        Instr::Apply { operator } => put_word(out, operator_word(*operator)),
        Instr::And { to } => put_jump(out, "and", first, *to),
        Instr::Or { to } => put_jump(out, "or", first, *to),
        Instr::Pop => put_word(out, "pop"),
        Instr::Turn => put_word(out, "turn"),
        Instr::Missing => put_word(out, "missing"),
        Instr::End => put_word(out, "end"),
        Instr::Jump { to } => put_jump(out, "jump", first, *to),
        Instr::Unless { to } => put_jump(out, "unless", first, *to),
        Instr::Count { slot, to } => put_slot_jump(out, "count", *slot, first, *to),
        Instr::Upto { slot, to } => put_slot_jump(out, "upto", *slot, first, *to),
        Instr::Return => put_word(out, "return"),
        Instr::Result => put_word(out, "result"),
        Instr::Make { kind, slot, .. } => put_make(out, *kind, *slot),
        Instr::Invoke {
            kind,
            operation,
            object,
            ..
        } => put_invoke(out, *kind, *operation, *object),
        Instr::Line { names } => put_one(out, "line", names.len() as u128),
        Instr::Fork { text, .. } => put_one(out, "fork", text.0 as u128),
        Instr::ForkOn { text, .. } => put_one(out, "forkon", text.0 as u128),
        Instr::Call { function, shapes } => put_call(out, *function, shapes),
        Instr::AddNode { shapes, .. } => put_nodes(out, "addnode", shapes),
        Instr::DeleteNode { shapes } => put_nodes(out, "deletenode", shapes),
        Instr::Guard { to } => put_jump(out, "guard", first, *to),
        Instr::Blocked => put_word(out, "blocked"),
    }
}

// The long instruction of a number.
fn put_numbered(
    out: &mut String,
    first: u128,
    texts: u128,
    number: usize,
    longs: &[Instr<'_>],
) -> Result<(), NoMemory>
    requires { first < 2 ^ 64 }
    ensures { OnOk result (string_bytes out.new ≡ string_bytes out.old ++ instr_text first texts (long_one (slice_get longs.now number))) }
{
    match longs.get(number) {
        Some(instr) => put_long(out, first, texts, instr),
        None => put_word(out, "missing"),
    }
}

// An instruction, in front of which so many strings stand.
fn put_instr(
    out: &mut String,
    first: u128,
    texts: u128,
    word: Word,
    longs: &[Instr<'_>],
) -> Result<(), NoMemory>
    requires { first < 2 ^ 64 }
    ensures { OnOk result (string_bytes out.new ≡ string_bytes out.old ++ instr_text first texts (instr_in longs.now word)) }
{
    match word {
        Word::Int { value } => put_integer(out, i64::from(value)),
        Word::Truth { value } => put_truth(out, value),
        Word::Char { code } => put_char(out, code),
        Word::Enum { value } => put_enum(out, value),
        Word::Get { slot } => put_at(out, "get", slot as usize, &[]),
        Word::GetField { slot, place } => {
            let place = place as usize;
            put_at(out, "get", slot as usize, &[Mark::Field { place }])
        }
        Word::GetIndex { slot, low } => {
            let low = i128::from(low);
            put_at(out, "get", slot as usize, &[Mark::ByIndex { low }])
        }
        Word::Put { slot } => put_at(out, "put", slot as usize, &[]),
        Word::PutField { slot, place } => {
            let place = place as usize;
            put_at(out, "put", slot as usize, &[Mark::Field { place }])
        }
        Word::PutIndex { slot, low } => {
            let low = i128::from(low);
            put_at(out, "put", slot as usize, &[Mark::ByIndex { low }])
        }
        Word::Before { prefix } => put_word(out, prefix_word(prefix)),
        Word::Apply { operator } => put_word(out, operator_word(operator)),
        Word::And { to } => put_jump(out, "and", first, to as usize),
        Word::Or { to } => put_jump(out, "or", first, to as usize),
        Word::Pop => put_word(out, "pop"),
        Word::Turn => put_word(out, "turn"),
        Word::Missing => put_word(out, "missing"),
        Word::End => put_word(out, "end"),
        Word::Jump { to } => put_jump(out, "jump", first, to as usize),
        Word::Unless { to } => put_jump(out, "unless", first, to as usize),
        Word::Count { slot, to } => put_slot_jump(out, "count", slot as usize, first, to as usize),
        Word::Upto { slot, to } => put_slot_jump(out, "upto", slot as usize, first, to as usize),
        Word::Return => put_word(out, "return"),
        Word::Result => put_word(out, "result"),
        Word::Make { kind, slot, .. } => put_make(out, kind, slot as usize),
        Word::Fork { process, .. } => put_one(out, "fork", process.0 as u128),
        Word::ForkOn { process, .. } => put_one(out, "forkon", process.0 as u128),
        Word::Guard { to } => put_jump(out, "guard", first, to as usize),
        Word::Blocked => put_word(out, "blocked"),
        Word::Long { number } => put_numbered(out, first, texts, number as usize, longs),
    }
}

// Whether it is a string.
fn is_text(word: Word, longs: &[Instr<'_>]) -> bool
    ensures { (texts : ℕ) → texts_behind (instr_in longs.now word) texts ≡ cond result (suc texts) texts }
{
    let Word::Long { number } = word else {
        return false;
    };
    match longs.get(number as usize) {
        Some(instr) => matches!(instr, Instr::Text { .. }),
        None => false,
    }
}

// A note.
fn put_note(out: &mut String, note: &Text) -> Result<(), NoMemory>
    ensures { OnOk result (string_bytes out.new ≡ string_bytes out.old ++ note_text note.now) }
{
    put_word(out, "; ")?;
    put_word(out, note.as_str())?;
    out.push('\n')?;
    Ok(())
}

// Notes, each on a line of its own.
fn put_own_notes(out: &mut String, notes: &[Text]) -> Result<(), NoMemory>
    ensures { OnOk result (string_bytes out.new ≡ string_bytes out.old ++ flat_map note_text notes.now) }
{
    'notes: for note in notes {
        put_note(out, note)?;
    }
    Ok(())
}

// The notes in front of a line.
fn put_notes(out: &mut String, notes: &[Vec<Text>], line: u128) -> Result<(), NoMemory>
    ensures { OnOk result (string_bytes out.new ≡ string_bytes out.old ++ notes_in (slice_get (notes_of notes.now) line)) }
{
    if line < notes.len() as u128 {
        put_own_notes(out, &notes[line as usize])
    } else {
        Ok(())
    }
}

// A line: of the n-th instruction of its body.
fn put_line(
    out: &mut String,
    first: u128,
    n: usize,
    texts: u128,
    word: Word,
    longs: &[Instr<'_>],
) -> Result<(), NoMemory>
    requires { first < 2 ^ 64 }
    ensures { OnOk result (string_bytes out.new ≡ string_bytes out.old ++ line_text first n texts (instr_in longs.now word)) }
{
    let line = first + n as u128;
    write!(out, "{line} ")?;
    put_instr(out, first, texts, word, longs)?;
    out.push('\n')?;
    Ok(())
}

// A line with its notes in front.
fn put_noted(
    out: &mut String,
    notes: &[Vec<Text>],
    first: u128,
    n: usize,
    texts: u128,
    word: Word,
    longs: &[Instr<'_>],
) -> Result<(), NoMemory>
    requires { first < 2 ^ 64 }
    ensures { OnOk result (string_bytes out.new ≡
        string_bytes out.old ++ noted_line (notes_of notes.now) first n texts (instr_in longs.now word)) }
{
    put_notes(out, notes, first + n as u128)?;
    put_line(out, first, n, texts, word, longs)
}

// The lines of a body. It gives how many strings stand behind it.
fn put_lines(
    out: &mut String,
    notes: &[Vec<Text>],
    first: u128,
    before: u128,
    body: &BodyCode<'_>,
) -> Result<u128, NoMemory>
    requires first_fits { first < 2 ^ 64 }
    requires texts_fit { before < 2 ^ 64 }
    ensures lines { OnOk result (string_bytes out.new ≡
        string_bytes out.old ++ lines_from (notes_of notes.now) first 0 before (code_in body.now)) }
    ensures texts { IfOk result (λ texts. texts ≡ texts_in before (code_in body.now)) }
    ensures few { IfOk result (λ texts. texts ≤ before + length body.now.words.items) }
{
    let mut texts = before;
    'words: for (n, word) in body.words.iter().enumerate() {
        put_noted(out, notes, first, n, texts, *word, &body.longs)?;
        if is_text(*word, &body.longs) {
            texts += 1;
        }
    }
    Ok(texts)
}

// One more body.
fn put_body(p: &mut Printer, notes: &[Vec<Text>], body: &BodyCode<'_>) -> Result<(), NoMemory>
    requires { IsCounted p.old }
    ensures text { (rest : List (List rules.Instr)) →
        OnOk result (written (notes_of notes.now) p.new rest ≡ written (notes_of notes.now) p.old (code_in body.now ∷ rest)) }
    ensures counted { OnOk result (IsCounted p.new) }
{
    let _written = p.out.len();
    let texts = put_lines(&mut p.out, notes, p.first, p.texts, body)?;
    p.first += body.words.len() as u128;
    p.texts = texts;
    Ok(())
}

// A function, where there is one.
fn put_function(
    p: &mut Printer,
    notes: &[Vec<Text>],
    function: &Option<PackedBody<'_>>,
) -> Result<(), NoMemory>
    requires { IsCounted p.old }
    ensures text { (rest : List (List rules.Instr)) →
        OnOk result (written (notes_of notes.now) p.new rest ≡
        written (notes_of notes.now) p.old (function_bodies (option_map body_shown function.now) ++ rest)) }
    ensures counted { OnOk result (IsCounted p.new) }
{
    match function {
        Some(part) => put_body(p, notes, &part.code),
        None => Ok(()),
    }
}

// Functions.
fn put_functions(
    p: &mut Printer,
    notes: &[Vec<Text>],
    functions: &[Option<PackedBody<'_>>],
) -> Result<(), NoMemory>
    requires { IsCounted p.old }
    ensures text { (rest : List (List rules.Instr)) →
        OnOk result (written (notes_of notes.now) p.new rest ≡
        written (notes_of notes.now) p.old (flat_map (λ x. function_bodies (option_map body_shown x)) functions.now ++ rest)) }
    ensures counted { OnOk result (IsCounted p.new) }
{
    'functions: for function in functions {
        put_function(p, notes, function)?;
    }
    Ok(())
}

// Texts of processes.
fn put_texts(p: &mut Printer, notes: &[Vec<Text>], texts: &[PackedBody<'_>]) -> Result<(), NoMemory>
    requires { IsCounted p.old }
    ensures text { (rest : List (List rules.Instr)) →
        OnOk result (written (notes_of notes.now) p.new rest ≡
        written (notes_of notes.now) p.old (flat_map (λ x. body_bodies (body_shown x)) texts.now ++ rest)) }
    ensures counted { OnOk result (IsCounted p.new) }
{
    'texts: for text in texts {
        put_body(p, notes, &text.code)?;
    }
    Ok(())
}

// Operations.
fn put_operations(
    p: &mut Printer,
    notes: &[Vec<Text>],
    operations: &[PackedOperation<'_>],
) -> Result<(), NoMemory>
    requires { IsCounted p.old }
    ensures text { (rest : List (List rules.Instr)) →
        OnOk result (written (notes_of notes.now) p.new rest ≡
        written (notes_of notes.now) p.old (flat_map (λ x. operation_bodies (operation_shown x)) operations.now ++ rest)) }
    ensures counted { OnOk result (IsCounted p.new) }
{
    'operations: for operation in operations {
        put_body(p, notes, &operation.body.code)?;
    }
    Ok(())
}

// An object type, where there is one.
fn put_type(
    p: &mut Printer,
    notes: &[Vec<Text>],
    part: &Option<PackedType<'_>>,
) -> Result<(), NoMemory>
    requires { IsCounted p.old }
    ensures text { (rest : List (List rules.Instr)) →
        OnOk result (written (notes_of notes.now) p.new rest ≡
        written (notes_of notes.now) p.old (type_bodies (option_map type_shown part.now) ++ rest)) }
    ensures counted { OnOk result (IsCounted p.new) }
{
    match part {
        Some(part) => {
            put_body(p, notes, &part.making.code)?;
            put_operations(p, notes, &part.operations)
        }
        None => Ok(()),
    }
}

// Object types.
fn put_types(
    p: &mut Printer,
    notes: &[Vec<Text>],
    parts: &[Option<PackedType<'_>>],
) -> Result<(), NoMemory>
    requires { IsCounted p.old }
    ensures text { (rest : List (List rules.Instr)) →
        OnOk result (written (notes_of notes.now) p.new rest ≡
        written (notes_of notes.now) p.old (flat_map (λ x. type_bodies (option_map type_shown x)) parts.now ++ rest)) }
    ensures counted { OnOk result (IsCounted p.new) }
{
    'parts: for part in parts {
        put_type(p, notes, part)?;
    }
    Ok(())
}

/// The listing of code (docs/LANGUAGE.md, The listing) with notes: those at the place n stand in front of the line n, each behind `; ` on a
/// line of its own, where no line feed stands in it.
///
/// # Errors
/// Want of memory.
pub fn print_noted(alloc: Global, code: &Code<'_>, notes: &[Vec<Text>]) -> Result<String, NoMemory>
    ensures { IfOk result (λ text. string_bytes text ≡ noted_text (notes_of notes.now) (shown code.now)) }
{
    let mut p = Printer {
        out: String::new(alloc),
        first: 0,
        texts: 0,
    };
    put_functions(&mut p, notes, &code.functions)?;
    put_texts(&mut p, notes, &code.texts)?;
    put_types(&mut p, notes, &code.types)?;
    Ok(p.out)
}

/// The listing of code: one line an instruction, with its number, its mnemonic and its operands; the functions first, then the texts of
/// processes, and the object types, in one numbering.
///
/// # Errors
/// Want of memory.
pub fn print_code(alloc: Global, code: &Code<'_>) -> Result<String, NoMemory>
    ensures { IfOk result (λ text. string_bytes text ≡ code_text (shown code.now)) }
{
    print_noted(alloc, code, &[])
}
