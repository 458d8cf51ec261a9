//! The lines that tell why a file wasn't read.

ghost use Rattle.std.specs.Prelude.{◌≡◌, IfOk};
ghost use Rattle.command_files.specs.Lines as lines;

use orca_base::NoMemory;
use std::alloc::Global;

/// There is no such file.
pub fn absent_line(alloc: Global, file: &str) -> Result<Vec<u8>, NoMemory>
    ensures { IfOk result (λ line. line.items ≡ lines.absent_line file.now) }
{
    let line = format!(in alloc; "orca: no file {file}\n")?;
    Ok(line.into_bytes())
}

/// The file can't be read.
pub fn unread_line(alloc: Global, file: &str) -> Result<Vec<u8>, NoMemory>
    ensures { IfOk result (λ line. line.items ≡ lines.unread_line file.now) }
{
    let line = format!(in alloc; "orca: cannot read {file}\n")?;
    Ok(line.into_bytes())
}
