//! Notes, by the numbers of a listing's lines.

ghost use Rattle.std.specs.Prelude.{◌≡◌, IfOk, map, true};
ghost use Rattle.code_command.specs.Lines.{are_lines};

use crate::heads::{Head, Kind};
use crate::lines::are_lines;
use crate::sheets::{Sheet, line_of, sheets};
use link_rules::{NamedUnit, Role};
use orca_base::{NoMemory, Text};
use orca_front::SourceFile;
use orca_tree::Operation;
use stack_code::{BodyCode, Code, PackedBody, PackedOperation, PackedType};
use std::alloc::Global;
use type_forms::{Top, What, top_names};

// The notes so far: a row for each line, in the order of the bodies.
#[derive(Drop)]
struct Notes<'a> {
    rows: Vec<Vec<Text>>,
    sheets: Vec<Sheet<'a>>,
}

impl Notes<'_> {
    // A note in front of a line, where there is one of that number.
    fn add(&mut self, line: usize, note: Text) -> Result<(), NoMemory> {
        if let Some(row) = self.rows.get_mut(line) {
            row.push(note)?;
        }
        Ok(())
    }

    // The rows of a body: its head stands in front of its first line, and the line of the text where a statement begins in front of the
    // statement's code, once for those that begin on one.
    fn add_body(
        &mut self,
        alloc: Global,
        head: Head<'_>,
        body: &BodyCode<'_>,
    ) -> Result<(), NoMemory> {
        let first = self.rows.len();
        for _ in 0..body.words.len() {
            self.rows.push(Vec::new(alloc))?;
        }
        self.add(first, head.note(alloc)?)?;
        let mut last = 0;
        for spot in &body.spots {
            if spot.at.line != last {
                last = spot.at.line;
                self.add_line(alloc, first.saturating_add(spot.address), head.file, last)?;
            }
        }
        Ok(())
    }

    // A line of a file's text in front of a line.
    fn add_line(
        &mut self,
        alloc: Global,
        line: usize,
        file: &str,
        number: u32,
    ) -> Result<(), NoMemory> {
        match line_of(&self.sheets, file, number) {
            Some(text) => {
                let note = Text::from_str(alloc, text)?;
                self.add(line, note)
            }
            None => Ok(()),
        }
    }
}

// The head of the body of a name of the top level.
fn head<'a>(kind: Kind<'a>, top: &Top<'a>) -> Head<'a> {
    Head {
        kind,
        file: top.file,
        at: top.at,
        name: top.name,
    }
}

// Functions, by their numbers among the names of the top level.
fn add_functions(
    alloc: Global,
    notes: &mut Notes<'_>,
    tops: &[Top<'_>],
    functions: &[Option<PackedBody<'_>>],
) -> Result<(), NoMemory> {
    for (top, function) in tops.iter().zip(functions.iter()) {
        if let Some(own) = function {
            notes.add_body(alloc, head(Kind::Function, top), &own.code)?;
        }
    }
    Ok(())
}

// Texts of processes, in their order.
fn add_texts(
    alloc: Global,
    notes: &mut Notes<'_>,
    tops: &[Top<'_>],
    texts: &[PackedBody<'_>],
) -> Result<(), NoMemory> {
    let processes = tops
        .iter()
        .filter(|top| matches!(top.what, What::Process { .. }));
    for (top, text) in processes.zip(texts.iter()) {
        notes.add_body(alloc, head(Kind::Process, top), &text.code)?;
    }
    Ok(())
}

// Operations of the object type that has this name at the top.
fn add_operations(
    alloc: Global,
    notes: &mut Notes<'_>,
    top: &Top<'_>,
    operations: &[Operation],
    packed: &[PackedOperation<'_>],
) -> Result<(), NoMemory> {
    for (operation, own) in operations.iter().zip(packed.iter()) {
        let name = &operation.head.name;
        let head = Head {
            kind: Kind::Operation { of: top.name },
            file: top.file,
            at: name.at,
            name: name.text.as_str(),
        };
        notes.add_body(alloc, head, &own.body.code)?;
    }
    Ok(())
}

// An object type, by its implementation.
fn add_type(
    alloc: Global,
    notes: &mut Notes<'_>,
    tops: &[Top<'_>],
    name: &str,
    packed: &PackedType<'_>,
) -> Result<(), NoMemory> {
    for top in tops {
        if let What::Implemented { operations } = top.what {
            if top.name == name {
                notes.add_body(alloc, head(Kind::Making, top), &packed.making.code)?;
                return add_operations(alloc, notes, top, operations, &packed.operations);
            }
        }
    }
    Ok(())
}

// Object types, in the order of their specifications.
fn add_types(
    alloc: Global,
    notes: &mut Notes<'_>,
    tops: &[Top<'_>],
    types: &[Option<PackedType<'_>>],
) -> Result<(), NoMemory> {
    let specified = tops.iter().filter(|top| top.role == Role::Specification);
    for (top, packed) in specified.zip(types.iter()) {
        if let Some(own) = packed {
            add_type(alloc, notes, tops, top.name, own)?;
        }
    }
    Ok(())
}

/// The notes of a program's listing, by the numbers of its lines: in front of a body its head, and in front of an instruction that has a
/// place of its own the line of that place, where that is another line than the one of the note before it in the same body. Each is one
/// line: where a file's name has a line feed there are none.
///
/// The cost is linear in the texts and the code, but for object types, each of which is sought among the names of the top level, and for
/// files, which are gone through by name for each note.
///
/// # Errors
/// Want of memory.
pub fn notes_of(
    alloc: Global,
    units: &[NamedUnit],
    files: &[SourceFile<'_>],
    code: &Code<'_>,
) -> Result<Vec<Vec<Text>>, NoMemory>
    ensures { IfOk result (λ notes. are_lines (map (λ own. own.items) notes.items) ≡ true) }
{
    let tops = top_names(alloc, units)?;
    let mut notes = Notes {
        rows: Vec::new(alloc),
        sheets: sheets(alloc, files)?,
    };
    add_functions(alloc, &mut notes, &tops, &code.functions)?;
    add_texts(alloc, &mut notes, &tops, &code.texts)?;
    add_types(alloc, &mut notes, &tops, &code.types)?;
    let rows = notes.rows;
    if are_lines(&rows) {
        Ok(rows)
    } else {
        Ok(Vec::new(alloc))
    }
}
