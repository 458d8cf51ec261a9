//! Names in the lines with which a run ends.

ghost use Rattle.std.specs.Prelude.{◌≡◌, IfOk};
ghost use Rattle.history_text.specs.Spelling.{called_name, name_of, operation_names};
ghost use Rattle.orca_cli.specs.Standings.{awaited_name};

use history_text::Names;
use orca_base::{KindNo, NoMemory, OpNo, Text};
use std::alloc::Global;
use value_core::Action;

/// `KIND$OP`, the operation for which a process waits that is at this action (docs/FORMATS.md, Statuses).
pub fn awaited_name(alloc: Global, names: &Names, action: &Action) -> Result<Vec<u8>, NoMemory>
    ensures { IfOk result (λ name. name.items ≡ awaited_name names.now action.now) }
{
    match action {
        Action::Call { kind, op, .. } => called_name(alloc, names, *kind, *op),
        _ => Ok(Vec::new(alloc)),
    }
}

// The name of an operation, behind that of its object type.
fn called_name(alloc: Global, names: &Names, kind: KindNo, op: OpNo) -> Result<Vec<u8>, NoMemory>
    ensures { IfOk result (λ name. name.items ≡ called_name names.now kind op) }
{
    let mut name = Vec::from_slice(alloc, name_at(&names.kinds, kind.0))?;
    name.push(b'$')?;
    name.extend_from_slice(name_at(operation_table(names, kind.0), op.0))?;
    Ok(name)
}

// The names of an object type's operations.
fn operation_table(names: &Names, kind: u16) -> &[Text]
    ensures { result.now ≡ operation_names names.now kind }
{
    match names.operations.get(kind as usize) {
        Some(operations) => operations.names.as_slice(),
        None => &[],
    }
}

// The name of this number.
fn name_at(table: &[Text], number: u16) -> &[u8]
    ensures { result.now ≡ name_of table.now number }
{
    match table.get(number as usize) {
        Some(name) => name.as_bytes(),
        None => &[],
    }
}
